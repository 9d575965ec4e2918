//! Whether types of subjects meet a fact.

use crate::trying::shapes::{Shape, copies, number_of, pair, peeled, reference, shape_at};
use rx_core::{Kind, List};
use rx_typeck_solver::{Fact, Kinds, Op, Passing, Subject, Test};

/// Subjects, and the types that some of them are given, by their places among those that are tried.
#[derive(Drop)]
pub struct Given {
    pub subjects: Vec<Subject>,
    pub types: Vec<usize>,
}

fn same(one: Subject, other: Subject) -> bool {
    match (one, other) {
        (Subject::Variable(x), Subject::Variable(y)) => x == y,
        (Subject::Node(x), Subject::Node(y)) => x == y,
        (Subject::Expected(x), Subject::Expected(y)) => x == y,
        _ => false,
    }
}

impl Given {
    /// The place of a subject, where it is one.
    pub fn place(&self, wanted: Subject) -> Option<usize> {
        for place in 0..self.subjects.len() {
            if same(self.subjects[place], wanted) {
                return Some(place);
            }
        }
        None
    }

    /// The type that a subject is given so far.
    pub fn typ(&self, of: Subject) -> Option<usize> {
        let place = self.place(of)?;
        match self.types.get(place) {
            Some(number) => Some(*number),
            None => None,
        }
    }

    /// The only type of a list of subjects, where it is given.
    fn only(&self, of: &List<Subject>) -> Option<usize> {
        match of.as_slice() {
            [one] => self.typ(*one),
            _ => None,
        }
    }

    fn two(&self, of: &List<Subject>) -> Option<(usize, usize)> {
        match of.as_slice() {
            [one, two] => Some((self.typ(*one)?, self.typ(*two)?)),
            _ => None,
        }
    }

    /// Whether types are given of all that is asked about.
    fn knows(&self, subjects: &List<Subject>, passed: &List<Passing>) -> bool {
        for subject in subjects.as_slice() {
            if self.typ(*subject).is_none() {
                return false;
            }
        }
        for passing in passed.as_slice() {
            if self.typ(Subject::Node(passing.node)).is_none() {
                return false;
            }
        }
        true
    }

    /// The greater of a place and that of a subject.
    fn behind(&self, place: usize, subject: Subject) -> usize {
        match self.place(subject) {
            Some(other) => place.max(other),
            None => place,
        }
    }

    fn behind_all(&self, place: usize, subjects: &List<Subject>) -> usize {
        let mut last = place;
        for subject in subjects.as_slice() {
            last = self.behind(last, *subject);
        }
        last
    }

    fn behind_passed(&self, place: usize, passed: &List<Passing>) -> usize {
        let mut last = place;
        for passing in passed.as_slice() {
            last = self.behind(last, Subject::Node(passing.node));
        }
        last
    }

    /// The place of the last subject that a fact is about.
    pub fn last(&self, fact: &Fact) -> usize {
        match fact {
            Fact::Equals(subject, _, subjects, passed) => {
                let last = self.behind_all(self.behind(0, *subject), subjects);
                self.behind_passed(last, passed)
            }
            Fact::Integer(node, _) => self.behind(0, Subject::Node(*node)),
            Fact::IntegerBehind(node, _) => self.behind(0, Subject::Node(*node)),
            Fact::Passes(_, subjects, pattern, place) => {
                let last = self.behind_passed(self.behind_all(0, subjects), pattern);
                self.behind_passed(last, place)
            }
            Fact::Never => 0,
        }
    }

    /// Of the references that are gone through: how many there are, and how many are mutable.
    fn passed(&self, passed: &List<Passing>) -> Passed {
        let mut all = Passed {
            some: false,
            mutable: true,
        };
        for passing in passed.as_slice() {
            if let Some(number) = self.typ(Subject::Node(passing.node)) {
                all = all.through(number, passing.all);
            }
        }
        all
    }

    /// Whether a fact is met, as far as the types that are given tell.
    pub fn may_meet(&self, fact: &Fact) -> bool {
        match fact {
            Fact::Equals(subject, op, subjects, passed) => {
                if !self.knows(subjects, passed) {
                    return true;
                }
                match self.typ(*subject) {
                    Some(number) => self.made(op, subjects, passed) == Some(number),
                    None => true,
                }
            }
            Fact::Integer(node, kinds) => match self.typ(Subject::Node(*node)) {
                Some(number) => is_among(number, *kinds),
                None => true,
            },
            Fact::IntegerBehind(node, kinds) => match self.typ(Subject::Node(*node)) {
                Some(number) => is_among(peeled(number), *kinds),
                None => true,
            },
            Fact::Passes(test, subjects, pattern, place) => {
                if !self.knows(subjects, pattern) {
                    return true;
                }
                if !self.knows(subjects, place) {
                    return true;
                }
                self.passes(test, subjects, self.passed(pattern), self.passed(place))
            }
            Fact::Never => false,
        }
    }

    /// The type that is made of others.
    fn made(&self, op: &Op, subjects: &List<Subject>, passed: &List<Passing>) -> Option<usize> {
        match op {
            Op::Same => self.only(subjects),
            Op::Pointee => pointee(self.only(subjects)?),
            Op::Referring(mutable) => reference(*mutable, self.only(subjects)?),
            Op::Tuple => self.tuple(subjects),
            Op::Part(part) => part_of(peeled(self.only(subjects)?), *part),
            Op::Integer(kind) => number_of(Shape::Int(*kind)),
            Op::Truth => number_of(Shape::Bool),
            Op::Unit => number_of(Shape::Unit),
            // The one function is `main`.
            Op::Result(_) => number_of(Shape::Unit),
            Op::Bound => bound(self.only(subjects)?, self.passed(passed)),
            Op::Coerced => self.coerced(subjects),
            // No text has these.
            Op::Field(_)
            | Op::Item(_)
            | Op::Parameter(_, _)
            | Op::FieldOf(_, _)
            | Op::PartOf(_, _, _) => None,
        }
    }

    fn tuple(&self, subjects: &List<Subject>) -> Option<usize> {
        match subjects.as_slice() {
            [] => number_of(Shape::Unit),
            _ => {
                let (one, two) = self.two(subjects)?;
                pair(one, two)
            }
        }
    }

    /// A mutable reference becomes a shared one where that is expected.
    fn coerced(&self, subjects: &List<Subject>) -> Option<usize> {
        let (own, expected) = self.two(subjects)?;
        match (shape_at(own), shape_at(expected)) {
            (Shape::Reference(true, _), Shape::Reference(false, to)) => reference(true, to),
            _ => Some(expected),
        }
    }

    fn passes(
        &self,
        test: &Test,
        subjects: &List<Subject>,
        pattern: Passed,
        place: Passed,
    ) -> bool {
        match test {
            Test::Writable(own) => place.mutable && (*own || place.some),
            Test::Direct => !pattern.some,
            Test::BindingWritable => pattern.writes(place),
            Test::Takes(_, count) => *count == 0,
            Test::GivesUnit(_) => true,
            Test::Lendable => match self.two(subjects) {
                Some((own, expected)) => !(is_mutable(own) && is_mutable(expected))
                    || place.mutable,
                None => false,
            },
            Test::BindingKeptOrLent => match self.two(subjects) {
                Some((own, expected)) => is_mutable(expected) || pattern.keeps(own, place),
                None => false,
            },
            _ => match self.only(subjects) {
                Some(own) => passes_alone(test, own, pattern, place),
                None => false,
            },
        }
    }
}

/// The tests of one type.
fn passes_alone(test: &Test, own: usize, pattern: Passed, place: Passed) -> bool {
    match test {
        Test::Plain => is_integer(own) || shape_at(own) == Shape::Bool,
        Test::IntegerBehind => is_integer(peeled(own)),
        Test::TruthBehind => shape_at(peeled(own)) == Shape::Bool,
        Test::TupleBehind(count) => match shape_at(peeled(own)) {
            Shape::Unit => *count == 0,
            Shape::Pair(_, _) => *count == 2,
            _ => false,
        },
        Test::Kept => copies(own) || !place.some,
        Test::KeptOrLent => copies(own) || is_mutable(own) || !place.some,
        Test::BindingKept => pattern.keeps(own, place),
        Test::BindingWritableOrLent => is_mutable(own) || pattern.writes(place),
        Test::Limits => true,
        _ => false,
    }
}

/// References that are gone through: whether there are some, and whether all are mutable.
#[derive(Clone, Copy)]
pub struct Passed {
    some: bool,
    mutable: bool,
}

impl Passed {
    /// Those of a type besides: all of them, or the outermost.
    fn through(self, number: usize, all: bool) -> Passed {
        match shape_at(number) {
            Shape::Reference(mutable, to) => {
                let here = Passed {
                    some: true,
                    mutable: self.mutable && mutable,
                };
                match shape_at(to) {
                    Shape::Reference(inner, _) => Passed {
                        some: true,
                        mutable: here.mutable && (!all || inner),
                    },
                    _ => here,
                }
            }
            _ => self,
        }
    }

    /// Whether a binding behind these of a pattern keeps what is behind those of a place.
    fn keeps(self, own: usize, place: Passed) -> bool {
        self.some || copies(own) || !place.some
    }

    /// Whether a binding behind these of a pattern may write through those of a place.
    fn writes(self, place: Passed) -> bool {
        !(self.some && self.mutable) || place.mutable
    }
}

fn is_integer(number: usize) -> bool {
    match shape_at(number) {
        Shape::Int(_) => true,
        _ => false,
    }
}

fn is_mutable(number: usize) -> bool {
    match shape_at(number) {
        Shape::Reference(mutable, _) => mutable,
        _ => false,
    }
}

fn pointee(number: usize) -> Option<usize> {
    match shape_at(number) {
        Shape::Reference(_, to) => Some(to),
        _ => None,
    }
}

fn part_of(number: usize, part: u64) -> Option<usize> {
    match shape_at(number) {
        Shape::Pair(one, two) => match part {
            0 => Some(one),
            1 => Some(two),
            _ => None,
        },
        _ => None,
    }
}

fn bound(number: usize, pattern: Passed) -> Option<usize> {
    if pattern.some {
        reference(pattern.mutable, number)
    } else {
        Some(number)
    }
}

fn is_among(number: usize, kinds: Kinds) -> bool {
    match shape_at(number) {
        Shape::Int(Kind::U8) => kinds.u8,
        Shape::Int(Kind::U32) => kinds.u32,
        Shape::Int(Kind::U64) => kinds.u64,
        Shape::Int(Kind::I32) => kinds.i32,
        Shape::Int(Kind::I64) => kinds.i64,
        _ => false,
    }
}

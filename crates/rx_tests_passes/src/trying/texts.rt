//! Small programs: what `typecheck` says of each, beside all assignments of a handful of types.

ghost use Rattle.rx_tree.specs.PlainOf.{plain-Program};
ghost use Rattle.rx_tree.specs.Size.{IsNumbered};
ghost use Rattle.rx_resolve_names.specs.Causes.{Meant};

use crate::trying::search::Search;
use crate::trying::shapes::number_of_type;
use rx_core::{LetGo, List, Ty};
use rx_parse::{parse, parsed_programs_are_numbered};
use rx_resolve::resolve;
use rx_resolve_names::Resolved;
use rx_tree::{ItemNode, Program};
use rx_typeck::typecheck;
use rx_typeck_demands::{Task, asked};
use rx_typeck_solver::Subject;
use rx_typeck_typed::{TypeFault, Typed, TypedFn};
use std::alloc::{AllocError, Global};
use std::process::Abort;

/// Values of small types.
const VALUES: [&str; 24] = [
    "1",
    "1u8",
    "true",
    "-1",
    "!true",
    "(1, 2)",
    "(1, 2).0",
    "(1, 2).1 + 3u8",
    "1 + 2",
    "1 + 2i64",
    "1 + true",
    "1 == 2",
    "()",
    "{ 1 }",
    "{ 1; }",
    "if true { 1 } else { 2u8 }",
    "if true { 1 }",
    "&mut 1",
    "&1",
    "x",
    "&x",
    "&mut x",
    "*x",
    "x.0",
];

/// Values beside them.
const OTHERS: [&str; 3] = ["x", "2", "&mut x"];

/// What stands before, between and behind two values.
type Round = (&'static str, &'static str, &'static str);

const BINDINGS: [Round; 3] = [
    ("let mut x = ", "; let y = ", ";"),
    ("let x; x = ", "; let y: u8 = ", ";"),
    (
        "let mut x = ",
        "; let y = { return; }; println!(\"{}\", ",
        ");",
    ),
];

const ASSIGNMENTS: [Round; 3] = [
    ("let mut x = ", "; x = ", ";"),
    ("let mut x = ", "; *x = ", ";"),
    ("let mut x = ", "; while ", " { break; }"),
];

const EXPECTATIONS: [Round; 3] = [
    ("let mut x: i64 = ", "; let y = ", ";"),
    ("let mut x = ", "; let y: &i32 = ", ";"),
    (
        "let mut z = 1; let x = &mut z; let y = ",
        "; let q: &i32 = ",
        ";",
    ),
];

const PATTERNS: [Round; 3] = [
    ("let mut x = ", "; match ", " { y => {} }"),
    ("let mut x = ", "; match ", " { (y, z) => {} }"),
    ("let mut x = ", "; match ", " { 1 => {} _ => {} }"),
];

/// A variable that waits for its type in the value of its first assignment.
const WAITING: [Round; 2] = [
    ("let mut x; x = { x = ", "; ", " };"),
    ("let mut x; x = if true { ", " } else { x = ", "; x };"),
];

/// Whether the type that a function has for a subject is this one.
fn has_type(function: &TypedFn, subject: Subject, number: usize) -> bool {
    let entry = match subject {
        Subject::Variable(variable) => function.variables.get(variable as usize),
        Subject::Node(node) => function.types.nodes.get(node),
        Subject::Expected(node) => function.types.expected.get(node),
    };
    match entry {
        Some(Some(ty)) => number_of_type(ty) == Some(number),
        _ => false,
    }
}

/// Whether all types of a table are among those that are tried.
fn are_tried(table: &List<Option<Ty>>) -> bool {
    for entry in table.as_slice() {
        if let Some(ty) = entry {
            if number_of_type(ty).is_none() {
                return false;
            }
        }
    }
    true
}

/// Whether all types of a function are.
fn is_tried(function: &TypedFn) -> bool {
    are_tried(&function.variables)
        && are_tried(&function.types.nodes)
        && are_tried(&function.types.expected)
}

/// Whether a function has the types of an assignment.
fn same_types(search: &Search<'_>, found: &[usize], function: &TypedFn) -> bool {
    for place in 0..search.given.subjects.len() {
        match found.get(place) {
            Some(number) => {
                if !has_type(function, search.given.subjects[place], *number) {
                    return false;
                }
            }
            None => return false,
        }
    }
    true
}

/// What is asked of the first function.
fn asked_of_first<'t>(
    alloc: Global,
    program: &'t Program,
    names: &'t Resolved,
) -> Result<Option<Task<'t>>, AllocError> {
    match (program.items.get(0), names.items.get(0)) {
        (Some(item), Some(table)) => match &item.node {
            ItemNode::Func(function) => {
                let task = asked(alloc, 0, item.span, function, &table.names)?;
                Ok(Some(task))
            }
            _ => Ok(None),
        },
        _ => Ok(None),
    }
}

/// What a search finds beside a typed program: whether the only valid assignment is that of its first function.
fn compared_typed(search: &Search<'_>, valid: Option<usize>, typed: &Typed) -> Verdict {
    match typed.functions.get(0) {
        Some(function) => {
            if !is_tried(function) {
                return Verdict::Beyond;
            }
            match valid {
                Some(number) => match search.found.get(number) {
                    Some(found) if same_types(search, found.as_slice(), function) =>
                        Verdict::BothTyped,
                    _ => Verdict::Differ,
                },
                None => Verdict::Differ,
            }
        }
        None => Verdict::Differ,
    }
}

/// What a search finds beside what `typecheck` says.
fn compared(
    search: &Search<'_>,
    literals: &List<usize>,
    typed: Result<Typed, TypeFault>,
) -> Verdict {
    let valid = search.valid(literals);
    match typed {
        Ok(typed) => compared_typed(search, valid, &typed),
        Err(_) => match valid {
            Some(_) => Verdict::Differ,
            None => Verdict::BothUntyped,
        },
    }
}

/// What two ways to find types say of a text.
#[derive(Clone, Copy, Debug, PartialEq, Eq)]
enum Verdict {
    BothTyped,
    BothUntyped,
    Differ,
    /// A type is none of those that are tried.
    Beyond,
    /// The text is no program whose names have a meaning.
    Unnamed,
}

fn verdict_of(alloc: Global, program: &Program, names: &Resolved) -> Result<Verdict, AllocError>
    requires numbered { IsNumbered (plain-Program program.now) }
    requires named { Meant (plain-Program program.now) names.now.items }
{
    match asked_of_first(alloc, program, names)? {
        Some(task) => {
            let search = Search::new(alloc, task.demands.as_slice())?;
            Ok(compared(&search, &task.literals, typecheck(alloc, program, names)))
        }
        None => Ok(Verdict::Differ),
    }
}

fn verdict_on(alloc: Global, text: &str) -> Result<Verdict, AllocError> {
    if text.len() > 1_048_576 {
        return Ok(Verdict::Differ);
    }
    match parse(alloc, text.as_bytes()) {
        Ok(program) => {
            parsed_programs_are_numbered();
            let verdict = match resolve(alloc, &program) {
                Ok(names) => verdict_of(alloc, &program, &names),
                Err(_) => Ok(Verdict::Unnamed),
            };
            program.let_go();
            verdict
        }
        Err(_) => Ok(Verdict::Differ),
    }
}

/// `main` of a body with two values.
fn text_of(alloc: Global, round: Round, one: &str, two: &str) -> Result<String, AllocError> {
    let (front, middle, back) = round;
    format!(in alloc; "fn main() {{ {front}{one}{middle}{two}{back} }}")
}

/// How many texts both ways type, and how many neither.
#[derive(Clone, Copy)]
struct Counts {
    typed: u64,
    untyped: u64,
}

impl Counts {
    fn with(self, verdict: Verdict) -> Counts {
        match verdict {
            Verdict::BothTyped => Counts {
                typed: self.typed.saturating_add(1),
                untyped: self.untyped,
            },
            Verdict::BothUntyped => Counts {
                typed: self.typed,
                untyped: self.untyped.saturating_add(1),
            },
            _ => self,
        }
    }
}

/// Ends the test at a text of which the two ways say different things.
fn verdict_of_round(rt: &impl Abort, alloc: Global, round: Round, one: &str, two: &str) -> Verdict {
    let told = match text_of(alloc, round, one, two) {
        Ok(text) => verdict_on(alloc, text.as_str()),
        Err(_) => Ok(Verdict::Differ),
    };
    assert!(rt;
        told.is_ok() && told != Ok(Verdict::Differ),
        "{one} / {two} / {}",
        round.1
    );
    match told {
        Ok(verdict) => verdict,
        Err(_) => Verdict::Differ,
    }
}

/// Compares both ways over all values in some bodies: some are typed, and some are not.
fn all_agree(rt: &impl Abort, alloc: Global, rounds: &[Round]) {
    let mut counts = Counts {
        typed: 0,
        untyped: 0,
    };
    for round in rounds {
        for one in VALUES {
            for two in OTHERS {
                counts = counts.with(verdict_of_round(rt, alloc, *round, one, two));
            }
        }
    }
    assert!(rt;
        counts.typed >= 20 && counts.untyped >= 40,
        "{} {}",
        counts.typed,
        counts.untyped
    );
}

#[test]
fn bindings_agree(rt: HostRuntime) {
    all_agree(&rt, rt.alloc(), &BINDINGS);
}

#[test]
fn assignments_agree(rt: HostRuntime) {
    all_agree(&rt, rt.alloc(), &ASSIGNMENTS);
}

#[test]
fn expectations_agree(rt: HostRuntime) {
    all_agree(&rt, rt.alloc(), &EXPECTATIONS);
}

#[test]
fn waiting_agrees(rt: HostRuntime) {
    all_agree(&rt, rt.alloc(), &WAITING);
}

#[test]
fn patterns_agree(rt: HostRuntime) {
    all_agree(&rt, rt.alloc(), &PATTERNS);
}

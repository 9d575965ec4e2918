//! All assignments of the types that are tried that meet some demands.

use crate::trying::meeting::Given;
use crate::trying::shapes::{COUNT, Shape, peeled, shape_at};
use rx_core::{Kind, List};
use rx_typeck_solver::{Demand, Fact, Subject};
use std::alloc::{AllocError, Global};

/// A search, and the assignments that were found: the types of the subjects, in their order.
#[derive(Drop)]
pub struct Search<'t> {
    alloc: Global,
    facts: Vec<Placed<'t>>,
    pub given: Given,
    pub found: Vec<Vec<usize>>,
}

/// A fact, and the place of the last subject that it is about.
#[derive(Clone, Copy)]
struct Placed<'t> {
    fact: &'t Fact,
    last: usize,
}

/// The facts of some demands.
fn facts_of<'t>(
    alloc: Global,
    given: &Given,
    demands: &'t [Demand],
) -> Result<Vec<Placed<'t>>, AllocError> {
    let mut facts = Vec::new(alloc);
    for demand in demands {
        for fact in demand.facts.as_slice() {
            let last = given.last(fact);
            facts.push(Placed { fact, last })?;
        }
    }
    Ok(facts)
}

/// What a fact tells the type of.
fn told(fact: &Fact) -> Option<Subject> {
    match fact {
        Fact::Equals(subject, _, _, _) => Some(*subject),
        Fact::Integer(node, _) => Some(Subject::Node(*node)),
        _ => None,
    }
}

fn note(given: &mut Given, subject: Subject) -> Result<(), AllocError> {
    if given.place(subject).is_none() {
        given.subjects.push(subject)?;
    }
    Ok(())
}

fn note_all(given: &mut Given, facts: &[Fact]) -> Result<(), AllocError> {
    for fact in facts {
        if let Some(subject) = told(fact) {
            note(given, subject)?;
        }
    }
    Ok(())
}

/// What the demands tell of, in their order.
fn subjects(alloc: Global, demands: &[Demand]) -> Result<Given, AllocError> {
    let mut given = Given {
        subjects: Vec::new(alloc),
        types: Vec::new(alloc),
    };
    for demand in demands {
        note_all(&mut given, demand.facts.as_slice())?;
    }
    Ok(given)
}

impl<'t> Search<'t> {
    /// All assignments that meet the demands.
    pub fn new(alloc: Global, demands: &'t [Demand]) -> Result<Search<'t>, AllocError> {
        let given = subjects(alloc, demands)?;
        let count = given.subjects.len();
        let facts = facts_of(alloc, &given, demands)?;
        let mut search = Search {
            alloc,
            facts,
            given,
            found: Vec::new(alloc),
        };
        search.extend(count)?;
        Ok(search)
    }

    /// Whether no fact is broken that is about the last subject that is given a type, and none behind.
    fn fits(&self) -> bool {
        for placed in self.facts.as_slice() {
            if self.given.types.len() == placed.last.saturating_add(1) {
                if !self.given.may_meet(placed.fact) {
                    return false;
                }
            }
        }
        true
    }

    /// Tries all types of so many subjects that are left.
    #[cycle(extend)]
    fn extend(&mut self, left: usize) -> Result<(), AllocError> {
        if left == 0 {
            return self.keep_types();
        }
        for number in 0..COUNT {
            self.given.types.push(number)?;
            if self.fits() {
                self.extend(left - 1)?;
            }
            self.given.types.pop();
        }
        Ok(())
    }

    fn keep_types(&mut self) -> Result<(), AllocError> {
        let mut types = Vec::new(self.alloc);
        for number in self.given.types.as_slice() {
            types.push(*number)?;
        }
        self.found.push(types)?;
        Ok(())
    }

    /// The type of a node under its references in an assignment that was found.
    fn behind(&self, found: &[usize], node: usize) -> Option<usize> {
        let place = self.given.place(Subject::Node(node))?;
        match found.get(place) {
            Some(number) => Some(peeled(*number)),
            None => None,
        }
    }

    /// Whether two assignments give a node different integer types.
    fn is_open(&self, node: usize) -> bool {
        let found = self.found.as_slice();
        match found.first() {
            Some(first) => {
                let here = self.behind(first.as_slice(), node);
                for types in found {
                    if self.behind(types.as_slice(), node) != here {
                        return true;
                    }
                }
                false
            }
            None => false,
        }
    }

    /// Whether an assignment gives each open literal the type i32.
    fn prefers(&self, types: &[usize], literals: &[usize]) -> bool {
        for literal in literals {
            if self.is_open(*literal) {
                match self.behind(types, *literal) {
                    Some(number) => {
                        if shape_at(number) != Shape::Int(Kind::I32) {
                            return false;
                        }
                    }
                    None => return false,
                }
            }
        }
        true
    }

    /// The only assignment that prefers i32, by its place among those that were found.
    pub fn valid(&self, literals: &List<usize>) -> Option<usize> {
        let mut only = None;
        for number in 0..self.found.len() {
            if self.prefers(self.found[number].as_slice(), literals.as_slice()) {
                if only.is_some() {
                    return None;
                }
                only = Some(number);
            }
        }
        only
    }
}

//! Names that are not taken yet.

ghost use Rattle.std.specs.Prelude.{◌≡◌, ◌++◌, ◌<◌, ◌^◌, IfOk, length};
ghost use Rattle.std.specs.Fmt.{decimal};
ghost use Rattle.rx_hoist_plan.specs.PlainPlan.{plain-Plan};
ghost use Rattle.rx_hoist_extraction.specs.Names as names_of;
ghost use Rattle.rx_hoist_extraction.specs.Fresh as fresh;
ghost use Rattle.rx_hoist_made.specs.Rows.{extended, fresh_row};

use rx_core::{List, Name, is_among_names, keep, pushed};
use rx_hoist_plan::NamedPlan;
use std::alloc::{AllocError, Global};

/// Whether the name is one of these.
#[tactic(auto, using(crate::proofs::Among::one_of_is_among))]
pub fn is_among(name: &Name, names: &[Name]) -> bool
    ensures { result ≡ names_of.is_among name.now names.now }
{
    is_among_names(name, names)
}

/// A word, and a number behind it.
pub fn numbered(alloc: Global, word: &str, number: u64) -> Result<Name, AllocError>
    ensures { IfOk result (λ it. it ≡ word.now ++ decimal number) }
{
    let mut name = Name::new(alloc, word)?;
    let digits = format!(in alloc; "{number}")?;
    name.push(digits.as_str())?;
    Ok(name)
}

/// The names, and one more where so many are wanted and it is not taken.
fn with_free(
    alloc: Global,
    names: List<Name>,
    many: usize,
    taken: &[Name],
    word: &str,
    number: u64,
) -> Result<List<Name>, AllocError>
    ensures { IfOk result (λ it. it ≡ extended names many taken.now (word.now ++ decimal number)) }
{
    if names.len() >= many {
        return Ok(names);
    }
    let (name, names) = keep(names, numbered(alloc, word, number))?;
    if is_among(&name, taken) {
        return Ok(names);
    }
    pushed(names, name)
}

/// The first so many names of a word with numbers behind it that are not taken.
#[tactic(auto, using(crate::proofs::FreshLemmas::one_candidate, crate::proofs::FreshLemmas::firsts_are_fresh))]
pub fn fresh_names(
    alloc: Global,
    word: &str,
    taken: &[Name],
    many: usize,
) -> Result<List<Name>, AllocError>
    requires word { 0 < length word.now }
    requires few { many < 2 ^ 63 }
    ensures { IfOk result (λ it. it ≡ fresh_row word.now taken.now 0 many) }
{
    let mut names = List::new(alloc);
    for number in 0..taken.len() + many {
        names = with_free(alloc, names, many, taken, word, number as u64)?;
    }
    Ok(names)
}

/// The first fresh variable.
pub fn fresh_variable(alloc: Global, plan: &NamedPlan) -> Result<Name, AllocError>
    ensures { IfOk result (λ it. it ≡ fresh.fresh_variable (plain-Plan plan.now).identifiers 0) }
{
    let mut names = fresh_names(alloc, "out_", plan.identifiers.as_slice(), 1)?;
    match names.pop() {
        Some(name) => Ok(name),
        None => Ok(Name::empty(alloc)),
    }
}

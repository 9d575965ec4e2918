//! What is wrong with the first match of a function that is not covered.

ghost use Rattle.std.specs.Prelude.{◌≡◌, IfOk, map, option_map};
ghost use Rattle.rx_graph_cycles.specs.Reaches.{NoCycle};
ghost use Rattle.rx_typed_declarations.specs.Held.{held_by_each};
ghost use Rattle.rx_typed.specs.PlainTypes.{declarations};
ghost use Rattle.rx_typed.specs.PlainTree.{plain-Expr};
ghost use Rattle.rx_cover.specs.Choices.{choices_of};
ghost use Rattle.rx_cover.specs.Finding as finding;
ghost use Rattle.rx_cover.specs.Finite.{Finite};
ghost use Rattle.rx_cover.specs.Inhabited.{Inhabited};
ghost use Rattle.rx_cover.specs.PlainChoices.{plain-Arms, plain-Choice, plain-Type};
ghost use Rattle.rx_cover.specs.PlainValue.{plain-Value};
ghost use Rattle.rx_cover.specs.Judging as spec;

use crate::arms::missed;
use crate::choices::{Choice, choices_in};
use crate::value::Value;
use crate::width::width;
use rx_typed::{Decls, TypedTree};
use std::alloc::{AllocError, Global};

/// What is wrong with a match: its product passes the limit, or it misses a value.
#[derive(Drop)]
pub(crate) enum Problem {
    /// The product, at most `u64::MAX`.
    Wide(u64),
    Missing(Value),
}

/// A value that a match misses, where there is one.
fn missed_by<'a>(
    alloc: Global,
    decls: &'a Decls,
    inhabited: &[bool],
    choice: Choice<'a>,
) -> Result<Option<Value>, AllocError>
    requires finite { Finite (declarations decls.now.items) }
    requires numbered { finding.Numbered (declarations decls.now.items) }
    requires inhabited { Inhabited (declarations decls.now.items) inhabited.now }
    ensures { IfOk result (λ o. finding.MissedTyp (declarations decls.now.items) (plain-Type choice.entry.ty)
        (plain-Arms choice.entry.arms) (option_map plain-Value o)) }
{
    match choice.ty {
        Some(ty) => missed(alloc, decls, inhabited, ty, choice.arms),
        None => Ok(None),
    }
}

fn judge<'a>(
    alloc: Global,
    decls: &'a Decls,
    inhabited: &[bool],
    choice: Choice<'a>,
) -> Result<Option<Problem>, AllocError>
    requires finite { Finite (declarations decls.now.items) }
    requires numbered { finding.Numbered (declarations decls.now.items) }
    requires inhabited { Inhabited (declarations decls.now.items) inhabited.now }
    ensures { IfOk result (λ o. spec.Judged (declarations decls.now.items) (plain-Choice choice.entry) o) }
{
    let count = width(alloc, choice.arms)?;
    if count > 65536 {
        return Ok(Some(Problem::Wide(count)));
    }
    match missed_by(alloc, decls, inhabited, choice)? {
        Some(value) => Ok(Some(Problem::Missing(value))),
        None => Ok(None),
    }
}

fn first_judged<'a>(
    alloc: Global,
    decls: &'a Decls,
    inhabited: &[bool],
    choices: &[Choice<'a>],
) -> Result<Option<(usize, Problem)>, AllocError>
    requires finite { Finite (declarations decls.now.items) }
    requires numbered { finding.Numbered (declarations decls.now.items) }
    requires inhabited { Inhabited (declarations decls.now.items) inhabited.now }
    ensures { IfOk result (λ o. spec.Told (declarations decls.now.items) (map plain-Choice choices.now) o) }
{
    for i in 0..choices.len() {
        match judge(alloc, decls, inhabited, choices[i])? {
            Some(problem) => return Ok(Some((choices[i].node, problem))),
            None => (),
        }
    }
    Ok(None)
}

/// The first `match` or `let` of a function, in the order of the text, that is not covered: its node, and what is wrong
/// with it. A product past the limit comes before a value that is missed.
#[tactic(auto, using(crate::proofs::FiniteLemmas::finite))]
pub(crate) fn first_problem(
    alloc: Global,
    decls: &Decls,
    inhabited: &[bool],
    tree: &TypedTree,
) -> Result<Option<(usize, Problem)>, AllocError>
    requires finite { NoCycle (held_by_each (declarations decls.now.items)) }
    requires numbered { finding.Numbered (declarations decls.now.items) }
    requires inhabited { Inhabited (declarations decls.now.items) inhabited.now }
    ensures { IfOk result (λ o. spec.Told (declarations decls.now.items) (choices_of (plain-Expr tree.now.body)) o) }
{
    let choices = choices_in(alloc, &tree.body)?;
    first_judged(alloc, decls, inhabited, choices.as_slice())
}

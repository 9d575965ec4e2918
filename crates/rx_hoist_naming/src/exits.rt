//! Exits by the loops around the run.

ghost use Rattle.std.specs.Prelude.{◌≡◌, map, IfOk};
ghost use Rattle.rx_hoist_plan.specs.PlainPlan.{plain-Exit, plain-Leaving};
ghost use Rattle.rx_hoist_naming.specs.NamedPlan as spec;

use crate::variables::variables;
use rx_core::{List, Name, keep, pushed};
use rx_exits_plan::{Exit as NumberedExit, ExitOuts};
use rx_hoist_plan::{Exit, Leaving};
use rx_typeck_typed::TypedFn;
use std::alloc::{AllocError, Global};

/// How many loops stand in front of one.
fn place_of(number: u32, loops: &[u32]) -> usize
    ensures { result ≡ spec.place_of number loops.now }
{
    for i in 0..loops.len() {
        if loops[i] == number {
            return i;
        }
    }
    loops.len()
}

fn exit(loops: &[u32], exit: NumberedExit) -> Exit
    ensures { plain-Exit result ≡ spec.named_exit loops.now exit }
{
    match exit {
        NumberedExit::Next => Exit::Next,
        NumberedExit::Break(number) => Exit::Break(place_of(number, loops)),
        NumberedExit::Continue(number) => Exit::Continue(place_of(number, loops)),
        NumberedExit::Return => Exit::Return,
    }
}

fn leaving(
    alloc: Global,
    names: &[&Name],
    function: &TypedFn,
    loops: &[u32],
    outs: &ExitOuts,
) -> Result<Leaving, AllocError>
    ensures { IfOk result (λ x. plain-Leaving x ≡ spec.named_leaving (map (λ x. x.now) names.now) function.now loops.now outs.now) }
{
    Ok(Leaving {
        exit: exit(loops, outs.exit),
        outs: variables(alloc, names, function, outs.outs.as_slice())?,
    })
}

/// The exits, each with the variables that it hands out.
pub(crate) fn leavings(
    alloc: Global,
    names: &[&Name],
    function: &TypedFn,
    loops: &[u32],
    exits: &[ExitOuts],
) -> Result<List<Leaving>, AllocError>
    ensures { IfOk result (λ all. map plain-Leaving all ≡ map (spec.named_leaving (map (λ x. x.now) names.now) function.now loops.now) exits.now) }
{
    let mut all = List::new(alloc);
    for outs in exits {
        let (next, held) = keep(all, leaving(alloc, names, function, loops, outs))?;
        all = pushed(held, next)?;
    }
    Ok(all)
}

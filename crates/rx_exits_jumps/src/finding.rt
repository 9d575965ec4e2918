//! The block of a run.

ghost use Rattle.std.specs.Prelude.{◌≡◌, IfOk, MatchOption, map, option_map};
ghost use Rattle.rx_typed.specs.PlainTree.{plain-TypedTree};
ghost use Rattle.rx_exits_plan.specs.Runs as runs;
ghost use Rattle.rx_exits_plan.specs.Spots.{spots_of_function};
ghost use Rattle.rx_exits_plan.specs.PlainPlan.{plain-Run};
ghost use Rattle.rx_exits_plan.specs.PlainSyntax.{plain-Home};
ghost use Rattle.rx_exits_jumps.specs.Seen.{homes, first_of_homes, first_home};

use crate::seeing::see;
use crate::sought::{Found, Sought};
use rx_core::List;
use rx_exits_plan::{Around, Home, Run, push_params};
use rx_typed::TypedTree;
use std::alloc::{AllocError, Global};

/// The blocks of a tree that have a run.
fn homes_of<'t>(alloc: Global, tree: &'t TypedTree, run: Run) -> Result<List<Home<'t>>, AllocError>
    ensures { IfOk result (λ it. map plain-Home it ≡ homes (plain-Run run) (spots_of_function (plain-TypedTree tree.now))) }
{
    let mut around = Around {
        scope: List::new(alloc),
        loops: List::new(alloc),
    };
    let mut found = Found {
        homes: List::new(alloc),
        jumps: List::new(alloc),
    };
    push_params(&mut around.scope, tree.params.as_slice())?;
    see(
        alloc,
        &tree.body,
        Sought::Blocks(run),
        &mut around,
        &mut found,
    )?;
    Ok(found.homes)
}

/// The first of some homes.
fn first_of<'t>(homes: List<Home<'t>>) -> Option<Home<'t>>
    ensures { option_map plain-Home result ≡ first_of_homes (map plain-Home homes.entry) }
{
    let mut all = homes.into_vec();
    all.truncate(1);
    let mut first = List::from_vec(all);
    first.pop()
}

/// The block of a run: the first one, in the order of the text, that has the run's node and its statements, where there is
/// one.
pub fn home_of<'t>(
    alloc: Global,
    tree: &'t TypedTree,
    run: Run,
) -> Result<Option<Home<'t>>, AllocError>
    ensures first { IfOk result (λ it. option_map plain-Home it ≡ first_home (plain-Run run) (plain-TypedTree tree.now)) }
    ensures sits { IfOk result (λ it. MatchOption it ((h : runs.Home) → ¬ (runs.Sits (plain-TypedTree tree.now) (plain-Run run) h))
        (λ h. runs.Sits (plain-TypedTree tree.now) (plain-Run run) (plain-Home h))) }
{
    let homes = homes_of(alloc, tree, run)?;
    Ok(first_of(homes))
}

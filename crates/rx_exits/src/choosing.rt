//! Variables that are chosen of a list, in its order.

ghost use Rattle.std.specs.Prelude.{◌≡◌, ◌↔◌, ◌++◌, ◌∷◌, [], ℕ, true, IfOk};
ghost use Rattle.std.specs.Prelude.{List as ListOf};
ghost use Rattle.rx_exits_plan.specs.Asked.{Asked};
ghost use Rattle.rx_exits_plan.specs.Occurrences as occurrences;
ghost use Rattle.rx_exits_plan.specs.Plan.{Chosen};
ghost use Rattle.rx_exits.specs.Choosing.{IsReadyFor, IsOf, Means, Added, offers, redeclares, loosens, picks};

use crate::listed::{is_in_both, is_in_either, is_listed, is_out};
use crate::{RunLiving, RunPoints};
use rx_core::{List, pushed};
use rx_exits_plan::{Exit, ExitOuts};
use std::alloc::{AllocError, Global};

/// By walks to the points of a run, and on from these.
#[derive(Clone, Copy)]
pub(crate) enum Choice<'a> {
    /// Those that are set where the run is entered.
    Param(&'a RunPoints<'a>),
    /// Those that are unset where the run is entered.
    Local(&'a RunPoints<'a>),
    /// Those that are live behind an exit.
    LiveAt(&'a RunLiving, Exit),
}

/// By lists of variables.
#[derive(Clone, Copy)]
pub(crate) enum Pick<'a> {
    /// Those that are moved, or are locals, or are declared by direct statements of the run.
    Offered(&'a [u32], &'a [u32], &'a [u32]),
    /// Those that are declared by direct statements and named behind, and are not handed out.
    Redeclared(&'a [u32], &'a [u32], &'a [u32]),
    /// Those that are declared outside or named behind, and are no params and handed out by no exit.
    Loose(&'a [u32], &'a [u32], &'a [u32], &'a [ExitOuts]),
}

fn is_chosen(choice: Choice<'_>, variable: u32) -> bool
    requires { IsReadyFor choice }
    ensures { (A : Asked) (ps : ListOf ℕ) → IsOf A ps choice.entry → (result ≡ true) ↔ Means A ps choice.entry variable }
{
    match choice {
        Choice::Param(points) => points.is_param(variable),
        Choice::Local(points) => points.is_local(variable),
        Choice::LiveAt(living, exit) => living.is_live_at(exit, variable),
    }
}

/// The variables, and this one if it is chosen.
fn with_chosen(some: List<u32>, choice: Choice<'_>, variable: u32) -> Result<List<u32>, AllocError>
    requires { IsReadyFor choice }
    ensures { IfOk result (λ it. (A : Asked) (ps : ListOf ℕ) → IsOf A ps choice.entry → Added (Means A ps choice.entry) variable some it) }
{
    if is_chosen(choice, variable) {
        pushed(some, variable)
    } else {
        Ok(some)
    }
}

/// Those of a list that are chosen.
pub(crate) fn chosen(
    alloc: Global,
    choice: Choice<'_>,
    all: &[u32],
) -> Result<List<u32>, AllocError>
    requires { IsReadyFor choice }
    ensures { IfOk result (λ it. (A : Asked) (ps : ListOf ℕ) → IsOf A ps choice.entry → Chosen (Means A ps choice.entry) all.now it) }
{
    let mut some = List::new(alloc);
    for variable in all {
        some = with_chosen(some, choice, *variable)?;
    }
    Ok(some)
}

fn is_offered(moved: &[u32], locals: &[u32], direct: &[u32], variable: u32) -> bool
    ensures { result ≡ offers moved.now locals.now direct.now variable }
{
    if is_listed(variable, moved) {
        true
    } else {
        is_in_either(variable, locals, direct)
    }
}

fn is_redeclared(direct: &[u32], behind: &[u32], outs: &[u32], variable: u32) -> bool
    ensures { result ≡ redeclares direct.now behind.now outs.now variable }
{
    if is_listed(variable, outs) {
        false
    } else {
        is_in_both(variable, direct, behind)
    }
}

fn is_loose(
    foreign: &[u32],
    behind: &[u32],
    params: &[u32],
    exits: &[ExitOuts],
    variable: u32,
) -> bool
    ensures { result ≡ loosens foreign.now behind.now params.now exits.now variable }
{
    if is_listed(variable, params) {
        false
    } else {
        if is_out(exits, variable) {
            false
        } else {
            is_in_either(variable, foreign, behind)
        }
    }
}

fn is_picked(pick: Pick<'_>, variable: u32) -> bool
    ensures { result ≡ picks pick.entry variable }
{
    match pick {
        Pick::Offered(moved, locals, direct) => is_offered(moved, locals, direct, variable),
        Pick::Redeclared(direct, behind, outs) => is_redeclared(direct, behind, outs, variable),
        Pick::Loose(foreign, behind, params, exits) => {
            is_loose(foreign, behind, params, exits, variable)
        }
    }
}

/// The variables, and this one if it is picked.
fn with_picked(some: List<u32>, pick: Pick<'_>, variable: u32) -> Result<List<u32>, AllocError>
    ensures { IfOk result (λ it. it ≡ some ++ occurrences.those (picks pick.entry) (variable ∷ [])) }
{
    if is_picked(pick, variable) {
        pushed(some, variable)
    } else {
        Ok(some)
    }
}

/// Those of a list that are picked.
pub(crate) fn picked(alloc: Global, pick: Pick<'_>, all: &[u32]) -> Result<List<u32>, AllocError>
    ensures { IfOk result (λ it. it ≡ occurrences.those (picks pick.entry) all.now) }
{
    let mut some = List::new(alloc);
    for variable in all {
        some = with_picked(some, pick, *variable)?;
    }
    Ok(some)
}

//! What is told of a run, its plan and its new function; which variables of it may be elsewhere, and which are closed.

ghost use Rattle.std.specs.Prelude.{◌≡◌, IfOk};
ghost use Rattle.rx_engine_simulation.specs.Sights.{sight_of as sight_in};
ghost use Rattle.rx_engine_alike.specs.Giving as giving;
ghost use Rattle.rx_engine_alike.specs.PlainSights.{plain-How, plain-Renaming};
ghost use Rattle.rx_engine_extracted.specs.Told as spec;
ghost use Rattle.rx_engine_extracted.specs.PlainTold.{plain-Told};

use rx_engine_alike::{How, Items, Seen, is_in, sight_of};
use rx_exits_plan::{ExitPlan, Run};
use rx_modes_policy::Mode;
use rx_typed::TypedTree;
use std::alloc::{AllocError, Global};

/// The new function, and its item in the answer.
#[derive(Clone, Copy)]
pub struct New<'t> {
    pub number: u32,
    pub function: &'t TypedTree,
}

/// What is told where it is to be seen whether an answer is the extraction.
#[derive(Clone, Copy)]
pub struct Told<'t> {
    pub run: Run,
    /// The loops around it.
    pub around: &'t [u32],
    pub plan: &'t ExitPlan,
    /// Of the plan's params.
    pub modes: &'t [Mode],
    /// Variables that may be elsewhere in the answer.
    pub elsewhere: &'t [u32],
    /// Of the text's function, which variables are declared `mut`.
    pub muts: &'t [bool],
    pub new: New<'t>,
    /// A number that no variable of the new function has, nor any above it.
    pub beyond: u32,
    /// The answer's items for those of the text.
    pub items: Items,
    /// Functions that give the unit.
    pub units: &'t [u32],
    /// Whether the new function is declared to give it.
    pub gives_unit: bool,
}

/// Whether nothing is to be written to a param meanwhile.
fn is_closed(moved: &[u32], variable: u32, mode: Mode) -> bool
    ensures { result ≡ spec.is_closed moved.now variable mode }
{
    match mode {
        Mode::Value => !is_in(variable, moved),
        Mode::Shared | Mode::Mut => false,
        Mode::Reborrow | Mode::View => true,
    }
}

/// The closed ones of params, with the variables that move.
pub(crate) fn closed_of(
    alloc: Global,
    moved: &[u32],
    params: &[u32],
    modes: &[Mode],
) -> Result<Vec<u32>, AllocError>
    ensures { IfOk result (λ it. it.items ≡ spec.closed_of moved.now params.now modes.now) }
{
    let mut closed = Vec::new(alloc);
    let mut left = params;
    let mut right = modes;
    while let [param, params_behind @ ..] = left {
        let [mode, modes_behind @ ..] = right else {
            return Ok(closed);
        };
        if is_closed(moved, *param, *mode) {
            closed.push(*param)?;
        }
        left = params_behind;
        right = modes_behind;
    }
    Ok(closed)
}

/// Whether a variable may be assigned in the caller.
pub(crate) fn may_be_assigned(told: &Told<'_>, variable: u32) -> bool
    ensures { result ≡ spec.may_be_assigned (plain-Told told.now) variable }
{
    match told.muts.get(variable as usize) {
        Some(true) => true,
        Some(false) | None => is_in(variable, told.plan.locals.as_slice()),
    }
}

/// Whether a variable that is seen so is elsewhere.
pub(crate) fn is_special(how: How) -> bool
    ensures { result ≡ giving.is_special (plain-How how) }
{
    match how {
        How::Special => true,
        How::Plain(_) | How::Through(_, _) | How::Copied | How::Viewed | How::Absent => false,
    }
}

/// Whether a variable is elsewhere.
pub(crate) fn is_special_in(renaming: &[Seen], variable: u32) -> bool
    ensures { result ≡ spec.is_special_sight (sight_in (plain-Renaming renaming.now) variable) }
{
    match sight_of(renaming, variable) {
        Some(seen) => is_special(seen.how),
        None => false,
    }
}

/// Whether each variable that is elsewhere is one of these.
pub(crate) fn specials_among(renaming: &[Seen], variables: &[u32]) -> bool
    ensures { result ≡ spec.specials_among (plain-Renaming renaming.now) variables.now }
{
    for seen in renaming {
        let fits = !is_special(seen.how) || is_in(seen.variable, variables);
        if !fits {
            return false;
        }
    }
    true
}

/// Whether all these are elsewhere.
pub(crate) fn all_special(renaming: &[Seen], variables: &[u32]) -> bool
    ensures { result ≡ spec.all_special (plain-Renaming renaming.now) variables.now }
{
    for variable in variables {
        if !is_special_in(renaming, *variable) {
            return false;
        }
    }
    true
}

/// The renaming without these variables.
pub(crate) fn without(
    alloc: Global,
    variables: &[u32],
    renaming: &[Seen],
) -> Result<Vec<Seen>, AllocError>
    ensures { IfOk result (λ it. plain-Renaming it.items ≡ spec.without variables.now (plain-Renaming renaming.now)) }
{
    let mut kept = Vec::new(alloc);
    for seen in renaming {
        if !is_in(seen.variable, variables) {
            kept.push(*seen)?;
        }
    }
    Ok(kept)
}

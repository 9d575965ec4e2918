//! The first variable that shows that a run has no plan to go by.

ghost use Rattle.std.specs.Prelude.{map, MatchOption};
ghost use Rattle.rx_exits_plan.specs.Asked.{Asked};
ghost use Rattle.rx_modes_uses.specs.First.{First};
ghost use Rattle.rx_exits_plan.specs.PlainPlan.{plain-Exit};
ghost use Rattle.rx_exits.specs.Points.{IsReady, IsPoints};
ghost use Rattle.rx_exits_plan.specs.PlainSyntax.{plain-Jump};
ghost use Rattle.rx_exits.specs.Reaching.{Tells};
ghost use Rattle.rx_exits.specs.Telling as telling;

use crate::exit_forms::outs_of;
use crate::listed::is_listed;
use crate::names::is_other;
use crate::{Point, RunPoints};
use rx_core::Name;
use rx_exits_plan::{Exit, ExitOuts, Jump};

/// Why a variable is refused.
#[derive(Clone, Copy)]
pub(crate) enum Refusal<'a> {
    /// One of these is neither set nor unset for sure where the run is entered.
    Mixed(&'a RunPoints<'a>, &'a [u32]),
    /// One of these is there in part where the run is entered, or one that an exit hands out where that is taken.
    Partly(&'a RunPoints<'a>, &'a [u32], &'a [ExitOuts]),
    /// By the variables' names: where an exit hands one out the name means another. The jumps, and what is in scope at the end.
    Shadowed(&'a [Name], &'a [ExitOuts], &'a [Jump], &'a [u32]),
}

/// Whether this exit hands a variable out with a part of it unset.
fn is_out_at(points: &RunPoints<'_>, each: &ExitOuts, variable: u32) -> bool
    requires { IsReady points.now }
    ensures { (A : Asked) → IsPoints A points.now → Tells result (telling.OutAt A each.now variable) }
{
    if is_listed(variable, each.outs.as_slice()) {
        points.may_be_unset(Point::Leaves(each.exit), variable)
    } else {
        false
    }
}

/// Whether some exit does.
fn is_out_in_part(points: &RunPoints<'_>, exits: &[ExitOuts], variable: u32) -> bool
    requires { IsReady points.now }
    ensures { (A : Asked) → IsPoints A points.now → Tells result (telling.OutInPart A exits.now variable) }
{
    for each in exits {
        if is_out_at(points, each, variable) {
            return true;
        }
    }
    false
}

/// Whether a variable of these is there in part where the run is entered.
fn is_there_in_part(points: &RunPoints<'_>, foreign: &[u32], variable: u32) -> bool
    requires { IsReady points.now }
    ensures { (A : Asked) → IsPoints A points.now → Tells result (telling.ThereInPart A foreign.now variable) }
{
    if is_listed(variable, foreign) {
        if points.may_be_unset(Point::Enters, variable) {
            points.may_stand(variable)
        } else {
            false
        }
    } else {
        false
    }
}

/// Whether a variable is there in part, or is handed out so.
fn is_partly(points: &RunPoints<'_>, foreign: &[u32], exits: &[ExitOuts], variable: u32) -> bool
    requires { IsReady points.now }
    ensures { (A : Asked) → IsPoints A points.now → Tells result (telling.IsPartly A foreign.now exits.now variable) }
{
    if is_there_in_part(points, foreign, variable) {
        true
    } else {
        is_out_in_part(points, exits, variable)
    }
}

/// Whether a variable of these is neither set nor unset for sure.
fn is_mixed(points: &RunPoints<'_>, foreign: &[u32], variable: u32) -> bool
    requires { IsReady points.now }
    ensures { (A : Asked) → IsPoints A points.now → Tells result (telling.IsMixed A foreign.now variable) }
{
    if is_listed(variable, foreign) {
        points.is_mixed(variable)
    } else {
        false
    }
}

/// Whether an exit hands a variable out where its name means another, by the variables in scope there.
fn is_shadowed_at(
    names: &[Name],
    exits: &[ExitOuts],
    exit: Exit,
    scope: &[u32],
    variable: u32,
) -> bool
    ensures { Tells result (telling.ShadowedAt names.now exits.now (plain-Exit exit) scope.now variable) }
{
    if is_listed(variable, outs_of(exits, exit)) {
        is_other(names, variable, scope)
    } else {
        false
    }
}

/// Whether some jump does.
fn is_shadowed_at_jump(names: &[Name], exits: &[ExitOuts], jumps: &[Jump], variable: u32) -> bool
    ensures { Tells result (telling.ShadowedAtJump names.now exits.now (map plain-Jump jumps.now) variable) }
{
    for jump in jumps {
        if is_shadowed_at(names, exits, jump.exit, jump.scope.as_slice(), variable) {
            return true;
        }
    }
    false
}

/// Whether a variable is handed out where its name means another.
fn is_shadowed(
    names: &[Name],
    exits: &[ExitOuts],
    jumps: &[Jump],
    end: &[u32],
    variable: u32,
) -> bool
    ensures { Tells result (telling.IsShadowed names.now exits.now (map plain-Jump jumps.now) end.now variable) }
{
    if is_shadowed_at(names, exits, Exit::Next, end, variable) {
        true
    } else {
        is_shadowed_at_jump(names, exits, jumps, variable)
    }
}

fn is_refused(refusal: Refusal<'_>, variable: u32) -> bool
    requires { telling.IsReadyFor refusal }
    ensures { (A : Asked) → telling.IsOf A refusal.entry → Tells result (telling.Refused A refusal.entry variable) }
{
    match refusal {
        Refusal::Mixed(points, foreign) => is_mixed(points, foreign, variable),
        Refusal::Partly(points, foreign, exits) => is_partly(points, foreign, exits, variable),
        Refusal::Shadowed(names, exits, jumps, end) => {
            is_shadowed(names, exits, jumps, end, variable)
        }
    }
}

/// The first of these that is refused.
pub(crate) fn first_refused(refusal: Refusal<'_>, all: &[u32]) -> Option<u32>
    requires { telling.IsReadyFor refusal }
    ensures { (A : Asked) → telling.IsOf A refusal.entry → MatchOption result (telling.NoneRefused A refusal.entry all.now) (First (telling.Refused A refusal.entry) all.now) }
{
    for variable in all {
        if is_refused(refusal, *variable) {
            return Some(*variable);
        }
    }
    None
}

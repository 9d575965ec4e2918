//! The first variable of a run that would get another storage while there is a reference of its own somewhere.

ghost use Rattle.std.specs.Prelude.{◌≡◌};
ghost use Rattle.rx_exits_plan.specs.Points as points;
ghost use Rattle.rx_exits_plan.specs.Occurrences.{has_number};
ghost use Rattle.rx_exits_plan.specs.Plan.{out_of_some};
ghost use Rattle.rx_exits_plan.specs.PlainPlan.{plain-Exit, outs_in};
ghost use Rattle.rx_modes.specs.Told as spec;

use crate::known::{Known, is_declared_mut};
use rx_exits_plan::{Exit, ExitOuts};
use rx_modes_deeds::{Deeds, deeds_of};

fn is_among(variable: u32, variables: &[u32]) -> bool
    ensures { result ≡ has_number variable variables.now }
{
    for other in variables {
        if variable == *other {
            return true;
        }
    }
    false
}

fn same_exit(exit: Exit, other: Exit) -> bool
    ensures { result ≡ points.same_exit (plain-Exit exit) (plain-Exit other) }
{
    match exit {
        Exit::Next => match other {
            Exit::Next => true,
            _ => false,
        },
        Exit::Break(l) => match other {
            Exit::Break(k) => l == k,
            _ => false,
        },
        Exit::Continue(l) => match other {
            Exit::Continue(k) => l == k,
            _ => false,
        },
        Exit::Return => match other {
            Exit::Return => true,
            _ => false,
        },
    }
}

fn hands_out(entry: &ExitOuts, variable: u32) -> bool
    ensures { result ≡ has_number variable entry.now.outs }
{
    is_among(variable, entry.outs.as_slice())
}

/// Whether an exit hands a variable out, by the first entry of its kind.
fn is_out_of(exits: &[ExitOuts], exit: Exit, variable: u32) -> bool
    ensures { result ≡ has_number variable (outs_in exits.now (plain-Exit exit)) }
{
    for entry in exits {
        if same_exit(exit, entry.exit) {
            return hands_out(entry, variable);
        }
    }
    false
}

fn is_out_at(exits: &[ExitOuts], entry: &ExitOuts, variable: u32) -> bool
    ensures { result ≡ has_number variable (outs_in exits.now (plain-Exit entry.now.exit)) }
{
    is_out_of(exits, entry.exit, variable)
}

/// Whether some exit hands a variable out.
fn is_out(exits: &[ExitOuts], variable: u32) -> bool
    ensures { result ≡ spec.is_out exits.now variable }
{
    for entry in exits {
        if is_out_at(exits, entry, variable) {
            return true;
        }
    }
    false
}

/// Whether a variable is a param that the run moves.
fn is_moved_in(known: &Known<'_>, variable: u32) -> bool
    ensures { result ≡ spec.is_moved_in known.now variable }
{
    is_among(variable, known.plan.params.as_slice()) && deeds_of(known.inside, variable).moved
}

/// Whether the value of a variable is handed in or out, or the variable is declared anew.
fn gets_other(known: &Known<'_>, variable: u32) -> bool
    ensures { result ≡ spec.gets_other known.now variable }
{
    is_moved_in(known, variable)
        || is_among(variable, known.plan.locals.as_slice())
        || is_out(known.plan.exits.as_slice(), variable)
        || is_among(variable, known.plan.redeclared.as_slice())
}

/// Whether some action borrows some of a variable's own storage.
fn is_borrowed(whole: &[Deeds], variable: u32) -> bool
    ensures { result ≡ spec.is_borrowed whole.now variable }
{
    let deeds = deeds_of(whole, variable);
    deeds.shared || deeds.borrowed_mutably
}

fn is_aliased(known: &Known<'_>, variable: u32) -> bool
    ensures { result ≡ spec.is_aliased known.now variable }
{
    is_declared_mut(known.mutable, variable)
        && is_borrowed(known.whole, variable)
        && gets_other(known, variable)
}

/// The first of some variables that would get another storage.
pub(crate) fn first_aliased(known: &Known<'_>, variables: &[u32]) -> Option<u32>
    ensures { result ≡ spec.first_such (spec.is_aliased known.now) variables.now }
{
    for variable in variables {
        if is_aliased(known, *variable) {
            return Some(*variable);
        }
    }
    None
}

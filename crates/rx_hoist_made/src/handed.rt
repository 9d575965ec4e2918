//! What an exit hands out.

ghost use Rattle.std.specs.Prelude.{◌≡◌, ◌<◌, ◌^◌, length, map};
ghost use Rattle.rx_hoist_plan.specs.PlainPlan.{plain-Exit, plain-Leaving, plain-Plan, plain-Variable};
ghost use Rattle.rx_hoist_extraction.specs.Values as values;
ghost use Rattle.rx_hoist_made.specs.PlainHanded.{plain-Handed};

use crate::exits::{has_exit, is_unit, outs_of};
use rx_core::Ty;
use rx_hoist_plan::{Exit, Leaving, NamedPlan, Variable};

/// Values that are handed out: one of this type, where there is one, and then what these variables hold.
#[derive(Clone, Copy)]
pub struct Handed<'a> {
    pub result: Option<&'a Ty>,
    pub outs: &'a [Variable],
}

/// What a return hands out: its operand, unless that is the unit.
fn handed_back<'a>(plan: &'a NamedPlan) -> Handed<'a>
    ensures { plain-Handed result ≡ values.unless_unit (plain-Plan plan.now).result }
{
    if is_unit(&plan.result) {
        return Handed {
            result: None,
            outs: &[],
        };
    }
    Handed {
        result: Some(&plan.result),
        outs: &[],
    }
}

/// What an exit hands out with these outs.
fn handed_at<'a>(plan: &'a NamedPlan, exit: Exit, outs: &'a [Variable]) -> Handed<'a>
    ensures { plain-Handed result ≡ values.values_at (plain-Plan plan.now) (plain-Exit exit) (map plain-Variable outs.now) }
{
    match exit {
        Exit::Next => Handed {
            result: plan.value.as_ref(),
            outs,
        },
        Exit::Break(_) | Exit::Continue(_) => Handed { result: None, outs },
        Exit::Return => handed_back(plan),
    }
}

/// What an exit of the plan hands out.
pub fn handed_by<'a>(plan: &'a NamedPlan, leaving: &'a Leaving) -> Handed<'a>
    ensures { plain-Handed result ≡ values.values_of (plain-Plan plan.now) (plain-Leaving leaving.now) }
{
    handed_at(plan, leaving.exit, leaving.outs.as_slice())
}

/// What the end of the run hands out, if it is reached.
pub fn handed_on<'a>(plan: &'a NamedPlan) -> Handed<'a>
    ensures { plain-Handed result ≡ values.next_values (plain-Plan plan.now) }
{
    if has_exit(Exit::Next, plan.exits.as_slice()) {
        return handed_at(plan, Exit::Next, outs_of(Exit::Next, plan.exits.as_slice()));
    }
    Handed {
        result: None,
        outs: &[],
    }
}

/// How many values are handed out.
pub fn count(handed: Handed<'_>) -> usize
    ensures count { result ≡ length (plain-Handed handed.entry) }
    ensures few { result < 2 ^ 63 }
{
    match handed.result {
        Some(_) => handed.outs.len() + 1,
        None => handed.outs.len(),
    }
}

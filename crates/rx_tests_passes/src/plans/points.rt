//! What all walks of a marked function say of a variable at the points of its run.

use crate::plans::deeds::{Role, State, is_live_behind, last_point, role_on, state_of};
use crate::sites::walks::Walk;
use rx_exits_plan::{Exit, ExitOuts, ExitPlan};
use std::alloc::{AllocError, Global};

/// Which states of a variable some walk to a point has.
#[derive(Clone, Copy, PartialEq, Eq)]
pub struct States {
    pub set: bool,
    pub unset: bool,
    pub partly: bool,
}

/// The walks of a function that has marks alone, and of one in which the params are read where the run is entered.
#[derive(Clone, Copy)]
pub struct Walked<'a> {
    pub marked: &'a [Walk],
    pub read: &'a [Walk],
}

/// The number of an exit's mark.
fn exit_point(exit: Exit) -> usize {
    match exit {
        Exit::Next => 1,
        Exit::Return => 2,
        Exit::Break(label) => (label as usize).saturating_mul(2).saturating_add(3),
        Exit::Continue(label) => (label as usize).saturating_mul(2).saturating_add(4),
    }
}

fn with_state(states: States, found: State) -> States {
    match found {
        State::Set => States {
            set: true,
            ..states
        },
        State::Unset => States {
            unset: true,
            ..states
        },
        State::Partly => States {
            partly: true,
            ..states
        },
    }
}

impl Walked<'_> {
    /// Whether some walk comes to a point.
    pub fn comes(&self, point: &str) -> bool {
        for walk in self.marked {
            if last_point(walk.text.as_str()) == Some(point) {
                return true;
            }
        }
        false
    }

    pub fn states(&self, point: &str, variable: u32) -> States {
        let mut states = States {
            set: false,
            unset: false,
            partly: false,
        };
        for walk in self.marked {
            if last_point(walk.text.as_str()) == Some(point) {
                states = with_state(states, state_of(walk.text.as_str(), variable));
            }
        }
        states
    }

    fn role(&self, variable: u32) -> Role {
        let mut role = Role {
            is_foreign: false,
            is_declared: false,
            is_moved: false,
        };
        for walk in self.marked {
            role = role_on(walk.text.as_str(), variable, role);
        }
        role
    }

    fn is_live(&self, point: &str, variable: u32) -> bool {
        for walk in self.read {
            if is_live_behind(walk.text.as_str(), point, variable) {
                return true;
            }
        }
        false
    }
}

fn has(variables: &[u32], variable: u32) -> bool {
    for other in variables {
        if *other == variable {
            return true;
        }
    }
    false
}

/// Whether an exit hands out a variable exactly where it may be handed out and is live there.
fn is_handed_out_rightly(
    alloc: Global,
    walked: &Walked<'_>,
    exit: &ExitOuts,
    variable: u32,
    offered: bool,
) -> Result<bool, AllocError> {
    let point = format!(in alloc; "{}", exit_point(exit.exit))?;
    let wanted = exit.exit != Exit::Return && offered && walked.is_live(point.as_str(), variable);
    Ok(has(exit.outs.as_slice(), variable) == wanted)
}

fn is_handed_out_rightly_by_all(
    alloc: Global,
    walked: &Walked<'_>,
    plan: &ExitPlan,
    variable: u32,
    offered: bool,
) -> Result<bool, AllocError> {
    for exit in plan.exits.as_slice() {
        if !is_handed_out_rightly(alloc, walked, exit, variable, offered)? {
            return Ok(false);
        }
    }
    Ok(true)
}

/// Whether the plan says of a variable what the walks say.
fn is_planned_rightly(
    alloc: Global,
    walked: &Walked<'_>,
    plan: &ExitPlan,
    variable: u32,
) -> Result<bool, AllocError> {
    let role = walked.role(variable);
    let entry = walked.states("0", variable);
    let param = has(plan.params.as_slice(), variable);
    let local = has(plan.locals.as_slice(), variable);
    if role.is_foreign && !param && !local
        || param && (entry.unset || entry.partly)
        || local && (entry.set || entry.partly)
    {
        return Ok(false);
    }
    let offered = role.is_moved || local || role.is_declared;
    is_handed_out_rightly_by_all(alloc, walked, plan, variable, offered)
}

/// Whether walks come to each exit of the plan, and to no other point but the run's beginning.
fn are_exits(alloc: Global, walked: &Walked<'_>, plan: &ExitPlan) -> Result<bool, AllocError> {
    let mut points = String::from_str(alloc, " 0 ")?;
    for exit in plan.exits.as_slice() {
        let point = format!(in alloc; "{}", exit_point(exit.exit))?;
        if !walked.comes(point.as_str()) {
            return Ok(false);
        }
        points.push_str(point.as_str())?;
        points.push_str(" ")?;
    }
    for walk in walked.marked {
        if let Some(point) = last_point(walk.text.as_str()) {
            let word = format!(in alloc; " {point} ")?;
            if points.as_str().split_once(word.as_str()).is_none() {
                return Ok(false);
            }
        }
    }
    Ok(true)
}

/// Whether a plan says what the walks say, of variables below a number.
pub fn is_right(
    alloc: Global,
    walked: &Walked<'_>,
    plan: &ExitPlan,
    variables: u32,
) -> Result<bool, AllocError> {
    for variable in 0..variables {
        if !is_planned_rightly(alloc, walked, plan, variable)? {
            return Ok(false);
        }
    }
    are_exits(alloc, walked, plan)
}

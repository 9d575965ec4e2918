//! What actions set and unset, and which variables they write and lose as a whole.

ghost use Rattle.std.specs.Prelude.{[], ◌≡◌, ◌≤◌, ◌+◌, ◌<◌, ◌&&◌, ◌==◌, ℕ, false, IfOk, MatchOption, nat_le, nat_lt, map};
ghost use Rattle.rx_lower_walks.specs.PlainFlow.{plain-Act, plain-Place};
ghost use Rattle.rx_lower_walks.specs.PlainSite.{plain-Site};
ghost use Rattle.rx_graph.specs.Facts.{has};
ghost use Rattle.rx_typed.specs.Tree.{own};
ghost use Rattle.rx_facts_tables.specs.Places.{is_part};
ghost use Rattle.rx_facts_tables.specs.Layouts.{plain-Frame};
ghost use Rattle.rx_facts_tables.specs.Setting as setting;
ghost use Rattle.rx_facts_tables.specs.Wholes as wholes;
ghost use Rattle.rx_exits.specs.Facts.{IsSetup, WritesBelow};

use crate::points_facts::Setup;
use rx_core::{List, Step};
use rx_facts_tables::{Range, range};
use rx_graph::Few;
use rx_lower_walks::{Act, Place, Root, Site};
use std::alloc::{AllocError, Global};

/// The numbers of parts.
pub fn numbers(alloc: Global, range: Range) -> Result<Few<u32>, AllocError>
    requires { range.first + range.count ≤ 4294967295 }
    ensures { IfOk result (λ it. (n : ℕ) → has it n ≡ (nat_le range.first n && nat_lt n (range.first + range.count))) }
{
    let mut all = Few::new(alloc);
    for n in range.first..range.first + range.count {
        all.push(n as u32)?;
    }
    Ok(all)
}

/// A variable as a place.
pub fn own(alloc: Global, variable: u32) -> Place
    ensures { plain-Place result ≡ own variable }
{
    Place {
        root: Root::Variable(variable),
        steps: List::new(alloc),
    }
}

/// The parts of a place.
fn parts(alloc: Global, setup: &Setup<'_>, place: &Place) -> Result<Few<u32>, AllocError>
    requires { IsSetup setup.now }
    ensures { IfOk result (λ it. (n : ℕ) → has it n ≡ is_part (plain-Frame setup.now.frame.now) (plain-Place place.now) n) }
{
    numbers(alloc, range(setup.frame, setup.layout, place))
}

/// The parts of a variable.
fn variable_parts(alloc: Global, setup: &Setup<'_>, variable: u32) -> Result<Few<u32>, AllocError>
    requires { IsSetup setup.now }
    ensures { IfOk result (λ it. (n : ℕ) → has it n ≡ is_part (plain-Frame setup.now.frame.now) (own variable) n) }
{
    let place = own(alloc, variable);
    parts(alloc, setup, &place)
}

/// Whether a place is behind a dereference.
fn is_behind(steps: &[Step]) -> bool
    ensures { result ≡ setting.is_behind steps.now }
{
    for step in steps {
        match *step {
            Step::Deref(_) => return true,
            Step::Field(_) | Step::Variant(_) => (),
        }
    }
    false
}

/// The parts that an action sets.
pub fn sets(alloc: Global, setup: &Setup<'_>, act: &Act) -> Result<Few<u32>, AllocError>
    requires { IsSetup setup.now }
    ensures { IfOk result (λ it. (n : ℕ) → has it n ≡ setting.sets (plain-Frame setup.now.frame.now) n (plain-Act act.now)) }
{
    match act {
        Act::Write(place, _, _) => {
            if is_behind(place.steps.as_slice()) {
                return Ok(Few::new(alloc));
            }
            parts(alloc, setup, place)
        }
        _ => Ok(Few::new(alloc)),
    }
}

/// The parts that an action unsets.
pub fn unsets(alloc: Global, setup: &Setup<'_>, act: &Act) -> Result<Few<u32>, AllocError>
    requires { IsSetup setup.now }
    ensures { IfOk result (λ it. (n : ℕ) → has it n ≡ setting.unsets (plain-Frame setup.now.frame.now) n (plain-Act act.now)) }
{
    match act {
        Act::Declare(variable) => variable_parts(alloc, setup, *variable),
        Act::Dead(variable) => variable_parts(alloc, setup, *variable),
        Act::Read(true, place, _) => parts(alloc, setup, place),
        _ => Ok(Few::new(alloc)),
    }
}

/// The variable that a place is, where it is no part of one.
fn whole(place: &Place) -> Option<u32>
    ensures { MatchOption result ((x : ℕ) → (wholes.is_variable (plain-Place place.now).root x && wholes.is_all (plain-Place place.now).steps) ≡ false)
        (λ y. (x : ℕ) → (wholes.is_variable (plain-Place place.now).root x && wholes.is_all (plain-Place place.now).steps) ≡ (y == x)) }
{
    match place.root {
        Root::Variable(variable) => {
            if place.steps.is_empty() {
                Some(variable)
            } else {
                None
            }
        }
        Root::Temporary(_) => None,
    }
}

/// The variable that an action writes as a whole.
pub fn regained(act: &Act) -> Option<u32>
    ensures { MatchOption result ((x : ℕ) → wholes.regains x [] (plain-Act act.now) ≡ false) (λ y. (x : ℕ) → wholes.regains x [] (plain-Act act.now) ≡ (y == x)) }
{
    match act {
        Act::Write(place, _, _) => whole(place),
        _ => None,
    }
}

/// The variable that an action moves as a whole, begins or ends.
pub fn lost(act: &Act) -> Option<u32>
    ensures { MatchOption result ((x : ℕ) → wholes.loses x [] (plain-Act act.now) ≡ false) (λ y. (x : ℕ) → wholes.loses x [] (plain-Act act.now) ≡ (y == x)) }
{
    match act {
        Act::Declare(variable) => Some(*variable),
        Act::Dead(variable) => Some(*variable),
        Act::Read(true, place, _) => whole(place),
        _ => None,
    }
}

/// The least number that is not below another, and is greater than that of the variable that an action writes as a whole.
fn past(act: &Act, least: usize) -> usize
    ensures more { least ≤ result }
    ensures past { (x : ℕ) → result ≤ x → wholes.regains x [] (plain-Act act.now) ≡ false }
{
    match regained(act) {
        Some(variable) => {
            if (variable as usize) < least {
                least
            } else {
                variable as usize + 1
            }
        }
        None => least,
    }
}

/// A number that is greater than those of all variables that are written as a whole.
pub fn past_all(sites: &[Site]) -> usize
    ensures { WritesBelow (map plain-Site sites.now) result }
{
    let mut least = 0;
    for i in 0..sites.len() {
        least = past(&sites[i].action.act, least);
    }
    least
}

//! What actions set and unset, write and look at.

ghost use Rattle.std.specs.Prelude.{◌≡◌, ◌≤◌, ◌+◌, ◌&&◌, ℕ, ◌==◌, true, false, IfOk, OnOk, MatchOption, nat_le, nat_lt, length, option_map};
ghost use Rattle.std.specs.Option.{option_copied};
ghost use Rattle.rx_lower_walks.specs.PlainFlow.{plain-Act, plain-Place};
ghost use Rattle.rx_graph.specs.Facts.{has};
ghost use Rattle.rx_typed.specs.Tree.{own};
ghost use Rattle.rx_facts_tables.specs.Places.{is_part};
ghost use Rattle.rx_facts_tables.specs.Layouts.{plain-Frame, IsSized, IsLayout};
ghost use Rattle.rx_facts_tables.specs.Setting as setting;
ghost use Rattle.rx_facts_tables.specs.Wholes as wholes;
ghost use Rattle.rx_facts_tables.specs.Tables.{picked, pushed_where};

use crate::steps::{holds_in, is_behind, is_variable};
use crate::{Frame, Layout, Range, range};
use rx_core::{List, Place as Kept};
use rx_graph::Few;
use rx_lower_walks::{Act, Place, Root, is_front, same_steps};
use std::alloc::{AllocError, Global};

/// The numbers of parts.
pub fn numbers(alloc: Global, range: Range) -> Result<Few<u32>, AllocError>
    requires { range.first + range.count ≤ 4294967295 }
    ensures { IfOk result (λ it. (n : ℕ) → has it n ≡ (nat_le range.first n && nat_lt n (range.first + range.count))) }
{
    let mut all = Few::new(alloc);
    for n in range.first..range.first + range.count {
        all.push(n as u32)?;
    }
    Ok(all)
}

/// The parts of a place.
fn parts(
    alloc: Global,
    frame: &Frame<'_>,
    layout: &Layout,
    place: &Place,
) -> Result<Few<u32>, AllocError>
    requires sized { IsSized frame.now }
    requires layout { IsLayout (plain-Frame frame.now) layout.now }
    ensures { IfOk result (λ it. (n : ℕ) → has it n ≡ is_part (plain-Frame frame.now) (plain-Place place.now) n) }
{
    numbers(alloc, range(frame, layout, place))
}

/// The parts of a variable.
fn variable_parts(
    alloc: Global,
    frame: &Frame<'_>,
    layout: &Layout,
    variable: u32,
) -> Result<Few<u32>, AllocError>
    requires sized { IsSized frame.now }
    requires layout { IsLayout (plain-Frame frame.now) layout.now }
    ensures { IfOk result (λ it. (n : ℕ) → has it n ≡ is_part (plain-Frame frame.now) (own variable) n) }
{
    let place = Place {
        root: Root::Variable(variable),
        steps: List::new(alloc),
    };
    parts(alloc, frame, layout, &place)
}

/// The parts that an action sets.
pub fn sets(
    alloc: Global,
    frame: &Frame<'_>,
    layout: &Layout,
    act: &Act,
) -> Result<Few<u32>, AllocError>
    requires sized { IsSized frame.now }
    requires layout { IsLayout (plain-Frame frame.now) layout.now }
    ensures { IfOk result (λ it. (n : ℕ) → has it n ≡ setting.sets (plain-Frame frame.now) n (plain-Act act.now)) }
{
    match act {
        Act::Write(place, _, _) => {
            if is_behind(place.steps.as_slice()) {
                return Ok(Few::new(alloc));
            }
            parts(alloc, frame, layout, place)
        }
        _ => Ok(Few::new(alloc)),
    }
}

/// The parts that an action unsets.
pub fn unsets(
    alloc: Global,
    frame: &Frame<'_>,
    layout: &Layout,
    act: &Act,
) -> Result<Few<u32>, AllocError>
    requires sized { IsSized frame.now }
    requires layout { IsLayout (plain-Frame frame.now) layout.now }
    ensures { IfOk result (λ it. (n : ℕ) → has it n ≡ setting.unsets (plain-Frame frame.now) n (plain-Act act.now)) }
{
    match act {
        Act::Declare(variable) => variable_parts(alloc, frame, layout, *variable),
        Act::Dead(variable) => variable_parts(alloc, frame, layout, *variable),
        Act::Read(true, place, _) => parts(alloc, frame, layout, place),
        _ => Ok(Few::new(alloc)),
    }
}

/// Whether an action writes a place, or one that it is in.
fn regains(place: &Kept, act: &Act) -> bool
    ensures { result ≡ wholes.regains place.now.var place.now.steps (plain-Act act.now) }
{
    match act {
        Act::Write(written, _, _) => {
            is_variable(written.root, place.var)
                && is_front(written.steps.as_slice(), place.steps.as_slice())
        }
        _ => false,
    }
}

/// Whether an action moves exactly a place, or is the begin or the end of exactly this variable.
fn loses(place: &Kept, act: &Act) -> bool
    ensures { result ≡ wholes.loses place.now.var place.now.steps (plain-Act act.now) }
{
    match act {
        Act::Declare(variable) => *variable == place.var && place.steps.is_empty(),
        Act::Dead(variable) => *variable == place.var && place.steps.is_empty(),
        Act::Read(true, moved, _) => {
            is_variable(moved.root, place.var)
                && same_steps(moved.steps.as_slice(), place.steps.as_slice())
        }
        _ => false,
    }
}

/// Whether an action writes a part of a place, or through a reference that is the place.
pub fn enters(place: &Kept, act: &Act) -> bool
    ensures { result ≡ wholes.enters place.now.var place.now.steps (plain-Act act.now) }
{
    match act {
        Act::Write(written, _, _) => {
            is_variable(written.root, place.var)
                && holds_in(place.steps.as_slice(), written.steps.as_slice())
        }
        _ => false,
    }
}

/// Adds a number where something holds.
fn push_where(all: &mut Few<u32>, holds: bool, number: u32) -> Result<(), AllocError>
    ensures { OnOk result (all.new ≡ pushed_where holds all.old number) }
{
    if holds { all.push(number) } else { Ok(()) }
}

/// The numbers of the places that an action writes, or that are in one that it writes.
pub fn regained(alloc: Global, watched: &[Kept], act: &Act) -> Result<Few<u32>, AllocError>
    requires { length watched.now ≤ 4294967295 }
    ensures { IfOk result (λ it. (i : ℕ) → has it i ≡ picked (λ q. wholes.regains q.var q.steps (plain-Act act.now)) watched.now i) }
{
    let mut all = Few::new(alloc);
    for k in 0..watched.len() {
        push_where(&mut all, regains(&watched[k], act), k as u32)?;
    }
    Ok(all)
}

/// The numbers of the places that an action loses.
pub fn lost(alloc: Global, watched: &[Kept], act: &Act) -> Result<Few<u32>, AllocError>
    requires { length watched.now ≤ 4294967295 }
    ensures { IfOk result (λ it. (i : ℕ) → has it i ≡ picked (λ q. wholes.loses q.var q.steps (plain-Act act.now)) watched.now i) }
{
    let mut all = Few::new(alloc);
    for k in 0..watched.len() {
        push_where(&mut all, loses(&watched[k], act), k as u32)?;
    }
    Ok(all)
}

/// The variable that an action writes as a whole.
pub fn assigned(act: &Act) -> Option<u32>
    ensures { MatchOption result ((x : ℕ) → wholes.assigns x (plain-Act act.now) ≡ false) (λ y. (x : ℕ) → wholes.assigns x (plain-Act act.now) ≡ (y == x)) }
{
    match act {
        Act::Write(place, _, _) => match place.root {
            Root::Variable(variable) => {
                if place.steps.is_empty() {
                    Some(variable)
                } else {
                    None
                }
            }
            Root::Temporary(_) => None,
        },
        _ => None,
    }
}

/// The variable that an action begins.
pub fn begun(act: &Act) -> Option<u32>
    ensures { MatchOption result ((x : ℕ) → wholes.begins x (plain-Act act.now) ≡ false) (λ y. (x : ℕ) → wholes.begins x (plain-Act act.now) ≡ (y == x)) }
{
    match act {
        Act::Declare(variable) => Some(*variable),
        _ => None,
    }
}

/// The place that an action reads, borrows or tests.
pub fn looked_at(act: &Act) -> Option<&Place>
    ensures { option_map plain-Place (option_copied result) ≡ setting.looked_at (plain-Act act.now) }
{
    match act {
        Act::Read(_, place, _) => Some(place),
        Act::Borrow(_, place, _) => Some(place),
        Act::Test(place, _) => Some(place),
        _ => None,
    }
}

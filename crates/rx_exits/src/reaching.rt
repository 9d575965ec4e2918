//! Whether a run is reached, and each of its exits.

ghost use Rattle.std.specs.Prelude.{◌≡◌, ◌≢◌, ◌⊎◌, ◌↔◌, [], None, IsTrue, map, IfOk, MatchResult, MatchOption};
ghost use Rattle.rx_exits_plan.specs.Points as points;
ghost use Rattle.rx_typed.specs.Tree.{mark_of};
ghost use Rattle.rx_typed.specs.PlainTree.{plain-Expr};
ghost use Rattle.rx_lower_walks.specs.Walks.{Among};
ghost use Rattle.rx_exits_plan.specs.PlainPlan.{plain-Exit};
ghost use Rattle.rx_exits_plan.specs.Asked.{Asked};
ghost use Rattle.rx_exits_plan.specs.Unreachable.{HasValue, Unreachable, Endless};
ghost use Rattle.rx_exits.specs.Points.{IsPoints};
ghost use Rattle.rx_exits_plan.specs.PlainSyntax.{plain-Jump, plain-Value};
ghost use Rattle.rx_exits.specs.Asking.{IsAskedOf, IsReached, Hinders, plain-At};
ghost use Rattle.rx_exits.specs.Reaching as reach;

use crate::exit_forms::{first_jump, is_next};
use crate::{Point, RunPoints};
use rx_core::keep;
use rx_exits_jumps::{exits, jumps};
use rx_exits_plan::{Exit, Home, Jump, Run, last_value};
use rx_typed::Expr;
use std::alloc::{AllocError, Global};

/// Where it shows that a run is not reached.
#[derive(Clone, Copy, Debug, PartialEq, Eq)]
pub enum At {
    /// At its first statement.
    First,
    /// At its last statement, or its tail.
    Last,
    /// At the jump of this node.
    Jump(usize),
}

/// Why a run is not reached or not left.
#[derive(Clone, Copy, Debug, PartialEq, Eq)]
pub enum ReachFault {
    Unreachable(At),
    /// It has no exit.
    Endless,
    OutOfMemory,
}

/// The node of the first jump that takes an exit, where no walk comes to any of these.
fn jump_not_reached(points: &RunPoints<'_>, exit: Exit, jumps: &[Jump]) -> Option<usize>
    ensures { (A : Asked) → IsPoints A points.now → MatchOption result (reach.IsLeft A (plain-Exit exit) (map plain-Jump jumps.now)) (reach.IsNotLeft A (plain-Exit exit) (map plain-Jump jumps.now)) }
{
    if is_next(exit) {
        return None;
    }
    if points.comes(Point::Leaves(exit)) {
        return None;
    }
    first_jump(exit, jumps)
}

/// The node of such a jump of some exit.
fn some_not_reached(points: &RunPoints<'_>, exits: &[Exit], jumps: &[Jump]) -> Option<usize>
    ensures { (A : Asked) → IsPoints A points.now → MatchOption result (reach.AllLeft A (map plain-Exit exits.now) (map plain-Jump jumps.now)) (reach.SomeNotLeft A (map plain-Exit exits.now) (map plain-Jump jumps.now)) }
{
    for exit in exits {
        match jump_not_reached(points, *exit, jumps) {
            Some(node) => return Some(node),
            None => (),
        }
    }
    None
}

/// Whether an expression has a value: one that is Never has no type.
fn is_typed(expr: &Expr) -> bool
    ensures { reach.Tells result ((mark_of (plain-Expr expr.now)).typ ≢ None) }
{
    match &expr.mark.ty {
        Some(_) => true,
        None => false,
    }
}

/// Whether there is a value.
fn has_value(value: Option<&Expr>) -> bool
    ensures { reach.Tells result (HasValue (plain-Value value.entry)) }
{
    match value {
        Some(expr) => is_typed(expr),
        None => false,
    }
}

/// Whether the run's end is among its exits.
fn has_end(exits: &[Exit]) -> bool
    ensures { reach.Tells result (Among points.next (map plain-Exit exits.now)) }
{
    for exit in exits {
        if is_next(*exit) {
            return true;
        }
    }
    false
}

/// Whether the run's end is to be reached.
fn is_to_end(value: Option<&Expr>, exits: &[Exit]) -> bool
    ensures { reach.Tells result (Among points.next (map plain-Exit exits.now) ⊎ HasValue (plain-Value value.entry)) }
{
    if has_end(exits) {
        true
    } else {
        has_value(value)
    }
}

/// Whether it is to be reached, and no walk comes there.
fn is_not_ended(points: &RunPoints<'_>, value: Option<&Expr>, exits: &[Exit]) -> bool
    ensures { (A : Asked) → IsPoints A points.now → reach.EndTold A result (plain-Value value.entry) (map plain-Exit exits.now) }
{
    if points.comes(Point::Leaves(Exit::Next)) {
        false
    } else {
        is_to_end(value, exits)
    }
}

/// Where the run is not reached.
fn not_reached(
    points: &RunPoints<'_>,
    value: Option<&Expr>,
    exits: &[Exit],
    jumps: &[Jump],
) -> Option<At>
    ensures { (A : Asked) → IsPoints A points.now → reach.IsKnown A (plain-Value value.entry) (map plain-Exit exits.now) (map plain-Jump jumps.now)
        → MatchOption result (IsReached A) (λ at. Unreachable A (plain-At at)) }
{
    if !points.comes(Point::Enters) {
        return Some(At::First);
    }
    if is_not_ended(points, value, exits) {
        return Some(At::Last);
    }
    match some_not_reached(points, exits, jumps) {
        Some(node) => Some(At::Jump(node)),
        None => None,
    }
}

fn has_none(exits: &[Exit]) -> bool
    ensures { IsTrue result ↔ (exits.now ≡ []) }
{
    exits.is_empty()
}

/// Why the run is not reached or not left.
fn hindrance(
    points: &RunPoints<'_>,
    value: Option<&Expr>,
    exits: &[Exit],
    jumps: &[Jump],
) -> Option<ReachFault>
    ensures { (A : Asked) → IsPoints A points.now → reach.IsKnown A (plain-Value value.entry) (map plain-Exit exits.now) (map plain-Jump jumps.now)
        → MatchOption result (IsReached A × ¬ (Endless A)) (Hinders A) }
{
    match not_reached(points, value, exits, jumps) {
        Some(at) => Some(ReachFault::Unreachable(at)),
        None => {
            if has_none(exits) {
                Some(ReachFault::Endless)
            } else {
                None
            }
        }
    }
}

/// The same, of a run in its block.
fn hindrance_of(
    alloc: Global,
    home: &Home<'_>,
    points: &RunPoints<'_>,
    run: Run,
) -> Result<Option<ReachFault>, AllocError>
    ensures { IfOk result (λ it. (A : Asked) → IsAskedOf A run home.now points.now → MatchOption it (IsReached A × ¬ (Endless A)) (Hinders A)) }
{
    let jumps = jumps(alloc, home, run)?;
    let exits = exits(alloc, home, run, jumps.as_slice());
    let (exits, jumps) = keep(jumps, exits)?;
    Ok(hindrance(
        points,
        last_value(home, run),
        exits.as_slice(),
        jumps.as_slice(),
    ))
}

fn answer(found: Option<ReachFault>) -> Result<(), ReachFault>
    ensures { (A : Asked) → MatchOption found (IsReached A × ¬ (Endless A)) (Hinders A) → MatchResult result (λ done. IsReached A × ¬ (Endless A)) (Hinders A) }
{
    match found {
        Some(fault) => Err(fault),
        None => Ok(()),
    }
}

/// Whether some walk enters the run, some goes through it to its end where its end is an exit or it has a value, and to each
/// other exit some comes; and whether it has an exit.
///
/// # Errors
///
/// `Unreachable`, and then `Endless`, where it isn't so; or memory runs out.
pub fn reached(
    alloc: Global,
    home: &Home<'_>,
    points: &RunPoints<'_>,
    run: Run,
) -> Result<(), ReachFault>
    ensures { (A : Asked) → IsAskedOf A run home.now points.now → MatchResult result (λ done. IsReached A × ¬ (Endless A)) (Hinders A) }
{
    match hindrance_of(alloc, home, points, run) {
        Ok(found) => answer(found),
        Err(AllocError) => Err(ReachFault::OutOfMemory),
    }
}

//! Whether the match of what the new function gives has an arm for each exit, and one for the run's end.

ghost use Rattle.std.specs.Prelude.{◌≡◌, ◌&&◌, None, map, IfOk};
ghost use Rattle.rx_typed.specs.PlainTree.{plain-Arm, plain-Expr, plain-Subpattern, arms_of, subpatterns_of};
ghost use Rattle.rx_exits_plan.specs.PlainPlan.{plain-Exit, outs_in, plan_with};
ghost use Rattle.rx_exits_plan.specs.declared.plan.ExitOuts as listed;
ghost use Rattle.rx_engine_related.specs.Leaving.{place_from, returning_if, variant_for};
ghost use Rattle.rx_engine_simulation.specs.Jumps.{with_value};
ghost use Rattle.rx_engine_alike.specs.PlainSights.{plain-Renaming};
ghost use Rattle.rx_engine_extracted.specs.Arms as spec;
ghost use Rattle.rx_engine_extracted.specs.PlainTold.{plain-Told};
ghost use Rattle.rx_engine_extracted.specs.PlainArms.{plain-ArmOf, jumps_around};

use crate::arms::{ArmOf, arm_for, jump_arm};
use crate::handing::received_in;
use crate::told::Told;
use rx_engine_alike::{
    Leaving, LoopPair, Seen, give_of, gives_bare, is_in, is_new, pack_among, pack_of, same_exit,
    takes,
};
use rx_exits_plan::{Exit, ExitOuts, ExitPlan};
use rx_typed::{Arm, Expr, Subpattern};
use std::alloc::{AllocError, Global};

/// The number of an exit among these.
fn number_among(exits: &[ExitOuts], exit: Exit) -> Option<usize>
    ensures { result ≡ place_from 0 (plain-Exit exit) (map (λ (e : listed.ExitOuts). plain-Exit e.exit) exits.now) }
{
    match pack_among(exits, exit) {
        Some(pack) => Some(pack.variant),
        None => None,
    }
}

/// The variant for an exit.
pub(crate) fn variant_of(plan: &ExitPlan, exit: Exit) -> Option<usize>
    ensures { result ≡ variant_for (plan_with None plan.now) (plain-Exit exit) }
{
    number_among(plan.exits.as_slice(), exit)
}

/// What an exit hands out.
pub(crate) fn outs_of<'t>(exits: &'t [ExitOuts], exit: Exit) -> &'t [u32]
    ensures { result.now ≡ outs_in exits.entry.now (plain-Exit exit) }
{
    for listed in exits {
        if same_exit(exit, listed.exit) {
            return listed.outs.as_slice();
        }
    }
    &[]
}

fn has_no_part(parts: &[Subpattern]) -> bool
    ensures { result ≡ spec.has_no_part (subpatterns_of (map plain-Subpattern parts.now)) }
{
    match parts.split_first() {
        Some((_, _)) => false,
        None => true,
    }
}

/// Whether an expression returns the unit.
#[tactic(auto, using(crate::proofs::ReadLemmas::read_rules))]
fn returns_nothing(expr: &Expr) -> bool
    ensures { result ≡ spec.returns_nothing (plain-Expr expr.now) }
{
    match give_of(expr) {
        Some(value) => gives_bare(&[], value),
        None => false,
    }
}

/// Whether it returns the variable's value.
#[tactic(auto, using(crate::proofs::ReadLemmas::read_rules))]
fn returns_own(variable: u32, expr: &Expr) -> bool
    ensures { result ≡ spec.returns_own variable (plain-Expr expr.now) }
{
    match give_of(expr) {
        Some(value) => takes(variable, value),
        None => false,
    }
}

/// Whether what is received as the only part is returned.
fn returns_only(renaming: &[Seen], received: &[u32], expr: &Expr) -> bool
    ensures { result ≡ spec.returns_only (plain-Renaming renaming.now) received.now (plain-Expr expr.now) }
{
    match received {
        [variable] => is_new(renaming, *variable) && returns_own(*variable, expr),
        [] | [_, _, ..] => false,
    }
}

/// Whether the arm for a return's variant returns its only part.
fn value_arm(
    alloc: Global,
    _loops: &[LoopPair],
    renaming: &[Seen],
    arms: &[Arm],
    variant: usize,
) -> Result<bool, AllocError>
    ensures { IfOk result (λ it. it ≡ spec.return_arm (jumps_around _loops.now) (plain-Renaming renaming.now) (arms_of (map plain-Arm arms.now)) (with_value variant)) }
{
    let Some(arm) = arm_for(variant, arms) else {
        return Ok(false);
    };
    match received_in(alloc, arm.parts)? {
        Some(received) => Ok(returns_only(renaming, received.as_slice(), arm.body)),
        None => Ok(false),
    }
}

/// Whether the arm for a return's variant returns the unit.
fn unit_arm(arms: &[Arm], variant: usize) -> bool
    ensures { result ≡ spec.is_arm (spec.arm_for variant (arms_of (map plain-Arm arms.now))) (λ a. spec.has_no_part a.parts && spec.returns_nothing a.body) }
{
    match arm_for(variant, arms) {
        Some(arm) => has_no_part(arm.parts) && returns_nothing(arm.body),
        None => false,
    }
}

/// Whether the arm for a return does as the text; whether the run's function gives the unit.
fn return_arm(
    alloc: Global,
    loops: &[LoopPair],
    renaming: &[Seen],
    arms: &[Arm],
    unit: bool,
    variant: Option<usize>,
) -> Result<bool, AllocError>
    ensures { IfOk result (λ it. it ≡ spec.return_arm (jumps_around loops.now) (plain-Renaming renaming.now) (arms_of (map plain-Arm arms.now)) (returning_if unit variant)) }
{
    match variant {
        Some(variant) => {
            if unit {
                Ok(unit_arm(arms, variant))
            } else {
                value_arm(alloc, loops, renaming, arms, variant)
            }
        }
        None => Ok(true),
    }
}

/// What is told of the match: the loops outside, the text's variables there, and whether the run's function gives the unit.
#[derive(Clone, Copy)]
pub(crate) struct Match<'t> {
    pub loops: &'t [LoopPair],
    pub renaming: &'t [Seen],
    pub unit: bool,
}

/// Whether the arm for an exit does as the text.
fn exit_arm(
    alloc: Global,
    told: &Told<'_>,
    told_here: Match<'_>,
    arms: &[Arm],
    exit: Exit,
) -> Result<bool, AllocError>
    ensures { IfOk result (λ it. it
        ≡ spec.exit_arm (plain-Told told.now) told_here.entry.unit (jumps_around told_here.entry.loops.now) (plain-Renaming told_here.entry.renaming.now) (arms_of (map plain-Arm arms.now))
        (plain-Exit exit)) }
{
    let Match {
        loops,
        renaming,
        unit,
    } = told_here;
    let leaving = Leaving::ByPlan(told.plan);
    match exit {
        Exit::Next => Ok(true),
        Exit::Break(number) => {
            let pack = pack_of(leaving, number, false);
            jump_arm(alloc, told, loops, renaming, arms, (number, false), pack)
        }
        Exit::Continue(number) => {
            let pack = pack_of(leaving, number, true);
            jump_arm(alloc, told, loops, renaming, arms, (number, true), pack)
        }
        Exit::Return => {
            let variant = variant_of(told.plan, Exit::Return);
            return_arm(alloc, loops, renaming, arms, unit, variant)
        }
    }
}

/// Whether the arm for each exit does.
pub(crate) fn exit_arms(
    alloc: Global,
    told: &Told<'_>,
    told_here: Match<'_>,
    arms: &[Arm],
    exits: &[ExitOuts],
) -> Result<bool, AllocError>
    ensures { IfOk result (λ it. it
        ≡ spec.exit_arms (plain-Told told.now) told_here.entry.unit (jumps_around told_here.entry.loops.now) (plain-Renaming told_here.entry.renaming.now) (arms_of (map plain-Arm arms.now))
        (map (λ (e : listed.ExitOuts). plain-Exit e.exit) exits.now)) }
{
    for listed in exits {
        if !exit_arm(alloc, told, told_here, arms, listed.exit)? {
            return Ok(false);
        }
    }
    Ok(true)
}

/// Whether the variant of a return has no part.
pub(crate) fn gives_unit_by(variant: Option<usize>, arms: &[Arm]) -> bool
    ensures { result ≡ spec.gives_unit_by variant (arms_of (map plain-Arm arms.now)) }
{
    let Some(variant) = variant else {
        return false;
    };
    match arm_for(variant, arms) {
        Some(arm) => has_no_part(arm.parts),
        None => false,
    }
}

/// Whether these stand for no variable of the text, each another.
fn all_new(renaming: &[Seen], variables: &[u32]) -> bool
    ensures { result ≡ spec.all_new (plain-Renaming renaming.now) variables.now }
{
    let mut left = variables;
    while let [variable, behind @ ..] = left {
        let fits = is_new(renaming, *variable) && !is_in(*variable, behind);
        if !fits {
            return false;
        }
        left = behind;
    }
    true
}

/// Whether an arm gives the values of the run's end, so many.
pub(crate) fn end_arm(
    alloc: Global,
    renaming: &[Seen],
    count: usize,
    arm: ArmOf<'_>,
) -> Result<bool, AllocError>
    ensures { IfOk result (λ it. it ≡ spec.end_arm (plain-Renaming renaming.now) count (plain-ArmOf arm.entry)) }
{
    match received_in(alloc, arm.parts)? {
        Some(received) => {
            let numbers = received.as_slice();
            Ok(
                all_new(renaming, numbers)
                    && (gives_bare(numbers, arm.body) && numbers.len() == count),
            )
        }
        None => Ok(false),
    }
}

//! Whether an expression is the call of the new function, or the match of what it gives.

ghost use Rattle.std.specs.Prelude.{◌≡◌, true, false, map, option_map, IfOk};
ghost use Rattle.rx_typed.specs.PlainTree.{plain-Arm, plain-Expr, plain-Matched, plain-Operand, arms_of, operands_of};
ghost use Rattle.rx_exits_plan.specs.PlainPlan.{plain-Exit};
ghost use Rattle.rx_exits_plan.specs.declared.plan.ExitOuts as listed;
ghost use Rattle.rx_engine_simulation.specs.Statements.{count as count_of};
ghost use Rattle.rx_engine_related.specs.Leaving.{returning_if};
ghost use Rattle.rx_engine_alike.specs.PlainSights.{plain-Renaming};
ghost use Rattle.rx_engine_alike.specs.PlainJumping.{plain-Returning};
ghost use Rattle.rx_engine_extracted.specs.Calls as spec;
ghost use Rattle.rx_engine_extracted.specs.PlainTold.{plain-Told};
ghost use Rattle.rx_engine_extracted.specs.PlainArms.{jumps_around};
ghost use Rattle.rx_engine_extracted.specs.PlainCalls.{plain-Called, plain-GivenWay, matches_of};

use crate::arms::arm_for;
use crate::exits::{Match, end_arm, exit_arms, gives_unit_by, outs_of, variant_of};
use crate::told::{Told, specials_among};
use rx_core::List;
use rx_engine_alike::{Jumping, Leaving, LoopPair, Returning, Seen, call_of, choose_of};
use rx_exits_plan::{Exit, ExitOuts};
use rx_typed::{Arm, Expr, Matched, Operand};
use std::alloc::{AllocError, Global};

/// How the new function ends.
#[derive(Clone, Copy)]
pub(crate) enum GivenWay {
    /// With the values themselves.
    Bare,
    /// With a variant that has them.
    AsVariant(usize),
    /// Its end is not come to.
    NoWay,
}

/// A call of the new function: its operands, the jumps in the function, and how that ends.
#[derive(Drop)]
pub(crate) struct Called<'t> {
    pub operands: &'t [Operand],
    pub jumping: Jumping<'t>,
    pub way: GivenWay,
}

/// The operands of a call of this item.
#[tactic(auto, using(crate::proofs::ReadLemmas::read_rules))]
fn operands_in_call<'t>(number: u32, expr: &'t Expr) -> Option<&'t [Operand]>
    ensures { option_map (λ es. operands_of (map plain-Operand es.now)) result ≡ spec.operands_of number (plain-Expr expr.entry.now) }
{
    match call_of(expr) {
        Some((function, operands)) => {
            if number == function {
                Some(operands)
            } else {
                None
            }
        }
        None => None,
    }
}

#[tactic(auto, using(rx_typed::proofs::Rules::typed_tree_rules))]
fn operands_in<'t>(number: u32, matched: &'t Matched) -> Option<&'t [Operand]>
    ensures { option_map (λ es. operands_of (map plain-Operand es.now)) result ≡ spec.operands_in number (plain-Matched matched.entry.now) }
{
    match matched {
        Matched::Value(expr) => operands_in_call(number, expr.get()),
        Matched::Place(_, _) => None,
    }
}

/// What is matched, and the arms.
#[tactic(auto, using(crate::proofs::ReadLemmas::read_rules))]
fn matches_in<'t>(expr: &'t Expr) -> Option<(&'t Matched, &'t [Arm])>
    ensures { option_map (λ r. (plain-Matched r.0.now, arms_of (map plain-Arm r.1.now))) result ≡ matches_of (plain-Expr expr.entry.now) }
{
    match choose_of(expr) {
        Some((matched, arms)) => Some((matched, arms)),
        None => None,
    }
}

/// Whether the run's end is the only exit.
pub(crate) fn is_only_next(exits: &[ExitOuts]) -> bool
    ensures { result ≡ spec.is_only_next (map (λ (e : listed.ExitOuts). plain-Exit e.exit) exits.now) }
{
    match exits {
        [one] => match one.exit {
            Exit::Next => true,
            Exit::Break(_) | Exit::Continue(_) | Exit::Return => false,
        },
        [] | [_, _, ..] => false,
    }
}

/// What a return of the run is in the new function.
fn returning_of(unit: bool, variant: Option<usize>) -> Returning
    ensures { plain-Returning result ≡ returning_if unit variant }
{
    match variant {
        Some(variant) => {
            if unit {
                Returning::WithUnit(variant)
            } else {
                Returning::WithValue(variant)
            }
        }
        None => Returning::NoReturn,
    }
}

/// How many values the run's end hands out: its variables', and the run's own where it has one.
fn count(has: bool, outs: &[u32]) -> usize
    ensures { result ≡ count_of has outs.now }
{
    if has { outs.len() + 1 } else { outs.len() }
}

/// How the new function ends, by the variant of the run's end, if that is an exit.
fn way_with(
    alloc: Global,
    told: &Told<'_>,
    has: bool,
    renaming: &[Seen],
    arms: &[Arm],
    variant: Option<usize>,
) -> Result<Option<GivenWay>, AllocError>
    ensures { IfOk result (λ it. option_map plain-GivenWay it ≡ spec.way_with has (plain-Told told.now) (plain-Renaming renaming.now) (arms_of (map plain-Arm arms.now)) variant) }
{
    let Some(variant) = variant else {
        return Ok(Some(GivenWay::NoWay));
    };
    let Some(arm) = arm_for(variant, arms) else {
        return Ok(None);
    };
    let outs = outs_of(told.plan.exits.as_slice(), Exit::Next);
    if end_arm(alloc, renaming, count(has, outs), arm)? {
        Ok(Some(GivenWay::AsVariant(variant)))
    } else {
        Ok(None)
    }
}

/// The call whose result is matched.
fn matched<'t>(
    alloc: Global,
    told: &Told<'t>,
    has: bool,
    told_here: Match<'_>,
    operands: &'t [Operand],
    arms: &[Arm],
) -> Result<Option<Called<'t>>, AllocError>
    ensures { IfOk result (λ it. option_map (plain-Called told.now.elsewhere.now) it
        ≡ spec.matched_with has (plain-Told told.now) (jumps_around told_here.entry.loops.now) (plain-Renaming told_here.entry.renaming.now) told_here.entry.unit (operands_of
        (map plain-Operand operands.entry.now)) (arms_of (map plain-Arm arms.now))) }
{
    if !specials_among(told_here.renaming, told.elsewhere) {
        return Ok(None);
    }
    if !exit_arms(alloc, told, told_here, arms, told.plan.exits.as_slice())? {
        return Ok(None);
    }
    let ends = variant_of(told.plan, Exit::Next);
    let Some(way) = way_with(alloc, told, has, told_here.renaming, arms, ends)? else {
        return Ok(None);
    };
    let returns = variant_of(told.plan, Exit::Return);
    let jumping = Jumping {
        loops: List::new(alloc),
        leaving: Leaving::ByPlan(told.plan),
        returning: returning_of(told_here.unit, returns),
    };
    Ok(Some(Called {
        operands,
        jumping,
        way,
    }))
}

/// The call whose result is matched, with the loops outside and the text's variables there.
#[tactic(auto, using(crate::proofs::CallLemmas::call_rules))]
fn called_in_match<'t>(
    alloc: Global,
    told: &Told<'t>,
    has: bool,
    loops: &[LoopPair],
    renaming: &[Seen],
    expr: &'t Expr,
) -> Result<Option<Called<'t>>, AllocError>
    ensures { IfOk result (λ it. option_map (plain-Called told.now.elsewhere.now) it
        ≡ spec.called_in_with has (plain-Told told.now) (jumps_around loops.now) (plain-Renaming renaming.now) false (plain-Expr expr.entry.now)) }
{
    let Some((subject, arms)) = matches_in(expr) else {
        return Ok(None);
    };
    let Some(operands) = operands_in(told.new.number, subject) else {
        return Ok(None);
    };
    let unit = gives_unit_by(variant_of(told.plan, Exit::Return), arms);
    let told_here = Match {
        loops,
        renaming,
        unit,
    };
    matched(alloc, told, has, told_here, operands, arms)
}

/// The call alone.
fn called_alone<'t>(
    alloc: Global,
    told: &Told<'t>,
    _has: bool,
    _loops: &[LoopPair],
    _renaming: &[Seen],
    expr: &'t Expr,
) -> Option<Called<'t>>
    ensures { option_map (plain-Called told.now.elsewhere.now) result
        ≡ spec.called_in_with _has (plain-Told told.now) (jumps_around _loops.now) (plain-Renaming _renaming.now) true (plain-Expr expr.entry.now) }
{
    match operands_in_call(told.new.number, expr) {
        Some(operands) => Some(Called {
            operands,
            jumping: Jumping {
                loops: List::new(alloc),
                leaving: Leaving::Nowhere,
                returning: Returning::NoReturn,
            },
            way: GivenWay::Bare,
        }),
        None => None,
    }
}

/// The call of the new function that an expression is, alone or matched; whether the run has a value.
pub(crate) fn called_with<'t>(
    alloc: Global,
    told: &Told<'t>,
    has: bool,
    loops: &[LoopPair],
    renaming: &[Seen],
    expr: &'t Expr,
) -> Result<Option<Called<'t>>, AllocError>
    ensures { IfOk result (λ it. option_map (plain-Called told.now.elsewhere.now) it
        ≡ spec.called_with has (plain-Told told.now) (jumps_around loops.now) (plain-Renaming renaming.now) (plain-Expr expr.entry.now)) }
{
    if is_only_next(told.plan.exits.as_slice()) {
        Ok(called_alone(alloc, told, has, loops, renaming, expr))
    } else {
        called_in_match(alloc, told, has, loops, renaming, expr)
    }
}

//! Whether the new function ends as a run does that holds its block's tail.

ghost use Rattle.std.specs.Prelude.{◌≡◌, ◌∷◌, ◌&&◌, nat_eq, Some, map, option_map, IfOk, OnOk};
ghost use Rattle.rx_typed.specs.PlainTree.{plain-Expr, plain-Making, plain-Matched, plain-Operand, plain-Place, operands_of};
ghost use Rattle.rx_engine_alike.specs.Likeness.{if_so};
ghost use Rattle.rx_engine_alike.specs.Giving.{if_these, takes as takes_of, takes_all};
ghost use Rattle.rx_engine_alike.specs.PlainSights.{plain-Renaming};
ghost use Rattle.rx_engine_alike.specs.PlainJumping.{plain-Jumping};
ghost use Rattle.rx_engine_alike.specs.PlainParts.{plain-Part};
ghost use Rattle.rx_engine_alike.specs.PlainLikeness.{plain-Between};
ghost use Rattle.rx_engine_extracted.specs.Reading.{runs_first as runs_first_of};
ghost use Rattle.rx_engine_extracted.specs.TailEnding as spec;
ghost use Rattle.rx_engine_extracted.specs.PlainCalls.{plain-GivenWay};
ghost use Rattle.rx_engine_extracted.specs.PlainTails.{first_operand as first_operand_of, gives_before as gives_before_of, operands_made as operands_made_of};

use crate::body::{lets_first, runs_first};
use crate::calls::GivenWay;
use crate::ending::{End, ends_given, gives_outs};
use crate::handing::received_by;
use crate::stretches::{Passed, like_first, runs_alike};
use rx_core::{List, Place};
use rx_engine_alike::{
    Between, Jumping, Part, Seen, Use, build_of, gives_bare, gives_unit, is_in, is_new, like_place,
    numbers_of, read_of, takes,
};
use rx_typed::{Expr, Making, Matched, Operand};
use std::alloc::{AllocError, Global};

/// The tail of the run's block, and whether the run has a value.
#[derive(Clone, Copy)]
pub(crate) struct Tail<'t> {
    pub has: bool,
    pub expr: &'t Expr,
}

/// Whether what the function gives is the tail.
fn tail_is(
    alloc: Global,
    between: &Between,
    jumping: &Jumping<'_>,
    renaming: &[Seen],
    tail: &Expr,
    given: Option<&Expr>,
) -> Result<bool, AllocError>
    ensures { IfOk result (λ it. it
        ≡ spec.tail_is (plain-Between between.now) (plain-Jumping between.now.ways.elsewhere jumping.now) (plain-Renaming renaming.now) (plain-Expr tail.now)
        (option_map (λ e. plain-Expr e.now) given.entry)) }
{
    match given {
        Some(given) => runs_alike(alloc, between, jumping, renaming, tail, given),
        None => Ok(false),
    }
}

/// Whether an operand is for this field.
#[tactic(auto, using(rx_typed::proofs::Rules::typed_tree_rules))]
fn is_at(field: usize, operand: &Operand) -> bool
    ensures { result ≡ nat_eq field (plain-Operand operand.now).0 }
{
    field == operand.field
}

/// The operand for the first field, and those behind it.
#[tactic(auto, using(rx_typed::proofs::Rules::typed_tree_rules))]
fn first_operand<'t>(operands: &'t [Operand]) -> Option<(&'t Expr, &'t [Operand])>
    ensures { option_map (λ r. (plain-Expr r.0.now, operands_of (map plain-Operand r.1.now))) result ≡ first_operand_of (operands_of (map plain-Operand operands.entry.now)) }
{
    let Some((operand, behind)) = operands.split_first() else {
        return None;
    };
    if is_at(0, operand) {
        Some((&operand.value, behind))
    } else {
        None
    }
}

/// Whether an operand for this field is the variable's value.
#[tactic(auto, using(rx_typed::proofs::Rules::typed_tree_rules))]
fn takes_at(field: usize, variable: u32, operand: &Operand) -> bool
    ensures { result ≡ nat_eq field (plain-Operand operand.now).0 && takes_of variable (plain-Operand operand.now).1 }
{
    field == operand.field && takes(variable, &operand.value)
}

/// Whether operands give the values of these, for fields from the second on.
fn takes_behind(variables: &[u32], operands: &[Operand]) -> bool
    ensures { result ≡ takes_all 1 variables.now (operands_of (map plain-Operand operands.now)) }
{
    let mut right = operands;
    for index in 0..variables.len() {
        let [operand, behind @ ..] = right else {
            return false;
        };
        if !takes_at(index + 1, variables[index], operand) {
            return false;
        }
        right = behind;
    }
    match right {
        [] => true,
        [_, ..] => false,
    }
}

/// Whether operands are the tail, and values of variables behind it.
#[tactic(auto, using(crate::proofs::TailLemmas::operands_rules))]
fn tail_and_these(
    alloc: Global,
    between: &Between,
    jumping: &Jumping<'_>,
    renaming: &[Seen],
    variables: &[u32],
    tail: &Expr,
    operands: &[Operand],
) -> Result<bool, AllocError>
    ensures { IfOk result (λ it. it
        ≡ spec.tail_and_these (plain-Between between.now) (plain-Jumping between.now.ways.elsewhere jumping.now) (plain-Renaming renaming.now) variables.now (plain-Expr tail.now)
        (operands_of (map plain-Operand operands.now))) }
{
    let Some((value, behind)) = first_operand(operands) else {
        return Ok(false);
    };
    if runs_alike(alloc, between, jumping, renaming, tail, value)? {
        Ok(takes_behind(variables, behind))
    } else {
        Ok(false)
    }
}

/// Whether operands are the tail, and the values of these, where they are there.
fn tail_and_numbers(
    alloc: Global,
    between: &Between,
    jumping: &Jumping<'_>,
    renaming: &[Seen],
    numbers: Option<List<u32>>,
    tail: &Expr,
    operands: &[Operand],
) -> Result<bool, AllocError>
    ensures { IfOk result (λ it. it ≡ if_these numbers (λ zs. spec.tail_and_these (plain-Between between.now) (plain-Jumping between.now.ways.elsewhere jumping.now)
        (plain-Renaming renaming.now) zs (plain-Expr tail.now) (operands_of (map plain-Operand operands.now)))) }
{
    match numbers {
        Some(numbers) => {
            let numbers = numbers.as_slice();
            tail_and_these(alloc, between, jumping, renaming, numbers, tail, operands)
        }
        None => Ok(false),
    }
}

/// The operands that the variant of this number is made of.
fn operands_made<'t>(
    variant: usize,
    making: Making,
    operands: &'t [Operand],
) -> Option<&'t [Operand]>
    ensures { option_map (λ es. operands_of (map plain-Operand es.now)) result
        ≡ operands_made_of variant (plain-Making making) (operands_of (map plain-Operand operands.entry.now)) }
{
    match making {
        Making::Variant(_, made) => {
            if variant == made as usize {
                Some(operands)
            } else {
                None
            }
        }
        Making::Constant(_) | Making::Negation | Making::Inversion => None,
        Making::Operation(_) | Making::Tuple | Making::Struct(_) => None,
    }
}

/// The operands of a variant.
#[tactic(auto, using(crate::proofs::ReadLemmas::read_rules))]
fn variant_operands<'t>(variant: usize, expr: &'t Expr) -> Option<&'t [Operand]>
    ensures { option_map (λ es. operands_of (map plain-Operand es.now)) result ≡ spec.variant_operands variant (plain-Expr expr.entry.now) }
{
    match build_of(expr) {
        Some((making, operands)) => operands_made(variant, making, operands),
        None => None,
    }
}

/// Whether an expression is the variant with the tail, and what is handed out behind it.
fn in_variant(
    alloc: Global,
    between: &Between,
    jumping: &Jumping<'_>,
    variant: usize,
    renaming: &[Seen],
    outs: &[u32],
    tail: &Expr,
    given: &Expr,
) -> Result<bool, AllocError>
    ensures { IfOk result (λ it. it
        ≡ spec.in_variant (plain-Between between.now) (plain-Jumping between.now.ways.elsewhere jumping.now) variant (plain-Renaming renaming.now) outs.now (plain-Expr tail.now)
        (plain-Expr given.now)) }
{
    let Some(operands) = variant_operands(variant, given) else {
        return Ok(false);
    };
    let numbers = numbers_of(alloc, renaming, outs)?;
    tail_and_numbers(alloc, between, jumping, renaming, numbers, tail, operands)
}

/// Whether the tail is a place that is looked into in the answer's.
#[tactic(auto, using(crate::proofs::ReadLemmas::read_rules))]
fn looks_alike(renaming: &[Seen], tail: &Expr, place: &Place) -> bool
    ensures { result ≡ spec.looks_alike (plain-Renaming renaming.now) (plain-Expr tail.now) (plain-Place place.now) }
{
    match read_of(tail) {
        Some((_, read)) => like_place(renaming, Use::Looking, read, place),
        None => false,
    }
}

/// Whether what a `let` matches is the tail.
#[tactic(auto, using(rx_typed::proofs::Rules::typed_tree_rules))]
fn bound_alike(
    alloc: Global,
    between: &Between,
    jumping: &Jumping<'_>,
    renaming: &[Seen],
    tail: &Expr,
    matched: &Matched,
) -> Result<bool, AllocError>
    ensures { IfOk result (λ it. it
        ≡ spec.bound_alike (plain-Between between.now) (plain-Jumping between.now.ways.elsewhere jumping.now) (plain-Renaming renaming.now) (plain-Expr tail.now)
        (plain-Matched matched.now)) }
{
    match matched {
        Matched::Value(value) => {
            runs_alike(alloc, between, jumping, renaming, tail, value.get())
        }
        Matched::Place(_, place) => Ok(looks_alike(renaming, tail, place)),
    }
}

/// Puts a number in front of the others.
fn put_first(numbers: &mut Vec<u32>, number: u32) -> Result<(), AllocError>
    ensures { OnOk result (numbers.new.items ≡ number ∷ numbers.old.items) }
{
    match numbers.insert(0, number) {
        Ok(()) => Ok(()),
        Err(_) => Err(AllocError),
    }
}

/// Whether a variable is none of these, and its value is given in front of theirs.
fn gives_before(
    alloc: Global,
    variable: u32,
    numbers: &[u32],
    given: &Expr,
) -> Result<bool, AllocError>
    ensures { IfOk result (λ it. it ≡ gives_before_of variable numbers.now (plain-Expr given.now)) }
{
    if is_in(variable, numbers) {
        return Ok(false);
    }
    let mut all = Vec::from_slice(alloc, numbers)?;
    put_first(&mut all, variable)?;
    Ok(gives_bare(all.as_slice(), given))
}

/// Whether it is given in front of these, where they are there.
fn gives_before_these(
    alloc: Global,
    variable: u32,
    numbers: Option<List<u32>>,
    given: &Expr,
) -> Result<bool, AllocError>
    ensures { IfOk result (λ it. it ≡ if_these numbers (λ zs. gives_before_of variable zs (plain-Expr given.now))) }
{
    match numbers {
        Some(numbers) => gives_before(alloc, variable, numbers.as_slice(), given),
        None => Ok(false),
    }
}

/// Whether what the function gives is the variable's value in front of what is handed out.
fn gives_with(
    alloc: Global,
    renaming: &[Seen],
    outs: &[u32],
    variable: Option<u32>,
    given: Option<&Expr>,
) -> Result<bool, AllocError>
    ensures { IfOk result (λ it. it ≡ spec.gives_with (plain-Renaming renaming.now) outs.now variable (option_map (λ e. plain-Expr e.now) given.entry)) }
{
    let Some(variable) = variable else {
        return Ok(false);
    };
    let Some(given) = given else {
        return Ok(false);
    };
    if !is_new(renaming, variable) {
        return Ok(false);
    }
    let numbers = numbers_of(alloc, renaming, outs)?;
    gives_before_these(alloc, variable, numbers, given)
}

/// Whether the tail is bound, and given in a tuple with what is handed out.
#[tactic(auto, using(crate::proofs::TailLemmas::tuple_rules))]
fn in_tuple(
    alloc: Global,
    between: &Between,
    jumping: &Jumping<'_>,
    renaming: &[Seen],
    outs: &[u32],
    tail: &Expr,
    body: Part<'_>,
) -> Result<bool, AllocError>
    ensures { IfOk result (λ it. it
        ≡ spec.in_tuple (plain-Between between.now) (plain-Jumping between.now.ways.elsewhere jumping.now) (plain-Renaming renaming.now) outs.now (plain-Expr tail.now)
        (plain-Part body.entry)) }
{
    let Some((pattern, matched, rest)) = lets_first(body) else {
        return Ok(false);
    };
    if bound_alike(alloc, between, jumping, renaming, tail, matched)? {
        gives_with(
            alloc,
            renaming,
            outs,
            received_by(pattern),
            ends_given(rest),
        )
    } else {
        Ok(false)
    }
}

/// Whether the value is given alone, or in a tuple with what is handed out.
fn ends_bare(
    alloc: Global,
    between: &Between,
    jumping: &Jumping<'_>,
    renaming: &[Seen],
    outs: &[u32],
    tail: &Expr,
    body: Part<'_>,
) -> Result<bool, AllocError>
    ensures { IfOk result (λ it. it
        ≡ spec.ends_bare (plain-Between between.now) (plain-Jumping between.now.ways.elsewhere jumping.now) (plain-Renaming renaming.now) outs.now (plain-Expr tail.now)
        (plain-Part body.entry)) }
{
    match outs {
        [] => tail_is(alloc, between, jumping, renaming, tail, ends_given(body)),
        [_, ..] => in_tuple(alloc, between, jumping, renaming, outs, tail, body),
    }
}

/// Whether the function ends as the tail does, whose value it gives.
fn ends_with_value(
    alloc: Global,
    between: &Between,
    jumping: &Jumping<'_>,
    end: End<'_>,
    renaming: &[Seen],
    tail: &Expr,
    body: Part<'_>,
) -> Result<bool, AllocError>
    ensures { IfOk result (λ it. it
        ≡ spec.ends_with_value (plain-Between between.now) (plain-Jumping between.now.ways.elsewhere jumping.now) (plain-GivenWay end.entry.way) (plain-Renaming renaming.now)
        end.entry.outs.now (plain-Expr tail.now) (plain-Part body.entry)) }
{
    let outs = end.outs;
    match end.way {
        GivenWay::Bare => ends_bare(alloc, between, jumping, renaming, outs, tail, body),
        GivenWay::AsVariant(variant) => match ends_given(body) {
            Some(given) => in_variant(
                alloc, between, jumping, variant, renaming, outs, tail, given,
            ),
            None => Ok(false),
        },
        GivenWay::NoWay => Ok(false),
    }
}

/// Whether the tail stands in front of what is handed out.
fn in_front(
    alloc: Global,
    between: &Between,
    jumping: &Jumping<'_>,
    end: End<'_>,
    renaming: &[Seen],
    tail: &Expr,
    body: Part<'_>,
) -> Result<bool, AllocError>
    ensures { IfOk result (λ it. it
        ≡ spec.in_front (plain-Between between.now) (plain-Jumping between.now.ways.elsewhere jumping.now) (plain-GivenWay end.entry.way) (plain-Renaming renaming.now)
        end.entry.outs.now (plain-Expr tail.now) (runs_first_of (plain-Part body.entry))) }
{
    let Some((expr, rest)) = runs_first(body) else {
        return Ok(false);
    };
    if runs_alike(alloc, between, jumping, renaming, tail, expr)? {
        gives_outs(alloc, end.way, renaming, end.outs, rest)
    } else {
        Ok(false)
    }
}

/// Whether the tail's unit is what the function gives, or the tail stands in front of what is handed out.
fn dropped_bare(
    alloc: Global,
    between: &Between,
    jumping: &Jumping<'_>,
    renaming: &[Seen],
    outs: &[u32],
    tail: &Expr,
    body: Part<'_>,
) -> Result<bool, AllocError>
    ensures { IfOk result (λ it. it
        ≡ spec.dropped_bare (plain-Between between.now) (plain-Jumping between.now.ways.elsewhere jumping.now) (plain-Renaming renaming.now) outs.now (plain-Expr tail.now)
        (plain-Part body.entry)) }
{
    match outs {
        [] => tail_is(alloc, between, jumping, renaming, tail, ends_given(body)),
        [_, ..] => {
            let end = End {
                way: GivenWay::Bare,
                outs,
            };
            in_front(alloc, between, jumping, end, renaming, tail, body)
        }
    }
}

/// Whether the function ends as the tail does, whose unit is dropped, or which is not come to an end.
fn ends_without(
    alloc: Global,
    between: &Between,
    jumping: &Jumping<'_>,
    end: End<'_>,
    renaming: &[Seen],
    tail: &Expr,
    body: Part<'_>,
) -> Result<bool, AllocError>
    ensures { IfOk result (λ it. it
        ≡ spec.ends_without (plain-Between between.now) (plain-Jumping between.now.ways.elsewhere jumping.now) (plain-GivenWay end.entry.way) (plain-Renaming renaming.now)
        end.entry.outs.now (plain-Expr tail.now) (plain-Part body.entry)) }
{
    match end.way {
        GivenWay::Bare => {
            if gives_unit(between.units.as_slice(), tail) {
                dropped_bare(alloc, between, jumping, renaming, end.outs, tail, body)
            } else {
                Ok(false)
            }
        }
        GivenWay::AsVariant(_) => {
            if gives_unit(between.units.as_slice(), tail) {
                in_front(alloc, between, jumping, end, renaming, tail, body)
            } else {
                Ok(false)
            }
        }
        GivenWay::NoWay => match end.outs {
            [] => tail_is(alloc, between, jumping, renaming, tail, ends_given(body)),
            [_, ..] => Ok(false),
        },
    }
}

/// Whether the function ends as the tail does.
fn ends_with_tail(
    alloc: Global,
    between: &Between,
    jumping: &Jumping<'_>,
    end: End<'_>,
    renaming: &[Seen],
    tail: Tail<'_>,
    body: Part<'_>,
) -> Result<bool, AllocError>
    ensures { IfOk result (λ it. it
        ≡ spec.ends_with_tail tail.entry.has (plain-Between between.now) (plain-Jumping between.now.ways.elsewhere jumping.now) (plain-GivenWay end.entry.way) (plain-Renaming renaming.now)
        end.entry.outs.now (plain-Expr tail.entry.expr.now) (plain-Part body.entry)) }
{
    if tail.has {
        ends_with_value(alloc, between, jumping, end, renaming, tail.expr, body)
    } else {
        ends_without(alloc, between, jumping, end, renaming, tail.expr, body)
    }
}

/// Whether the function does so many statements and ends as the tail does; adds its variables.
pub(crate) fn ran_to_tail(
    alloc: Global,
    between: &Between,
    jumping: &Jumping<'_>,
    end: End<'_>,
    count: usize,
    renaming: &mut Vec<Seen>,
    tail: Tail<'_>,
    passed: Passed<'_>,
) -> Result<bool, AllocError>
    ensures { IfOk result (λ it. if_so it (Some (plain-Renaming renaming.new.items))
        ≡ spec.ran_to_tail tail.entry.has (plain-Between between.now) (plain-Jumping between.now.ways.elsewhere jumping.now) (plain-GivenWay end.entry.way) end.entry.outs.now count
        (plain-Renaming renaming.old.items) (plain-Part passed.entry.text) (plain-Expr tail.entry.expr.now) (plain-Part passed.entry.answer)) }
{
    match like_first(alloc, between, jumping, count, renaming, passed)? {
        Some(passed) => {
            let here = renaming.as_slice();
            ends_with_tail(alloc, between, jumping, end, here, tail, passed.answer)
        }
        None => Ok(false),
    }
}

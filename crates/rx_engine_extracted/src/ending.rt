//! Whether the new function does the run's statements and ends as the run.

ghost use Rattle.std.specs.Prelude.{◌≡◌, Some, None, map, option_map, IfOk};
ghost use Rattle.rx_typed.specs.PlainTree.{plain-Expr};
ghost use Rattle.rx_engine_alike.specs.Likeness.{if_so};
ghost use Rattle.rx_engine_alike.specs.Giving.{if_these};
ghost use Rattle.rx_engine_alike.specs.PlainSights.{plain-Renaming};
ghost use Rattle.rx_engine_alike.specs.PlainJumping.{plain-Jumping};
ghost use Rattle.rx_engine_alike.specs.PlainParts.{plain-Part};
ghost use Rattle.rx_engine_alike.specs.PlainLikeness.{plain-Between};
ghost use Rattle.rx_engine_extracted.specs.Ending as spec;
ghost use Rattle.rx_engine_extracted.specs.PlainCalls.{plain-GivenWay};
ghost use Rattle.rx_engine_extracted.specs.PlainEnding.{given_of, ends_given_of};

use crate::body::{ended, runs_first};
use crate::calls::GivenWay;
use crate::stretches::{Passed, count_of, like_first, runs_alike};
use rx_core::List;
use rx_engine_alike::{
    Between, Jumping, Part, Seen, give_of, gives_bare, gives_variant, numbers_of,
};
use rx_typed::Expr;
use std::alloc::{AllocError, Global};

/// What an expression returns.
#[tactic(auto, using(crate::proofs::ReadLemmas::read_rules))]
pub(crate) fn given<'t>(expr: &'t Expr) -> Option<&'t Expr>
    ensures { option_map (λ e. plain-Expr e.now) result ≡ given_of (plain-Expr expr.entry.now) }
{
    match give_of(expr) {
        Some(value) => Some(value),
        None => None,
    }
}

/// What a block without statements returns.
pub(crate) fn ends_given<'t>(body: Part<'t>) -> Option<&'t Expr>
    ensures { option_map (λ e. plain-Expr e.now) result ≡ ends_given_of (plain-Part body.entry) }
{
    match ended(body) {
        Some(tail) => given(tail),
        None => None,
    }
}

/// Whether an expression gives these, by how the function ends.
fn gives_in(way: GivenWay, numbers: &[u32], expr: &Expr) -> bool
    ensures { result ≡ spec.gives_in (plain-GivenWay way) numbers.now (plain-Expr expr.now) }
{
    match way {
        GivenWay::Bare => gives_bare(numbers, expr),
        GivenWay::AsVariant(variant) => gives_variant(variant, numbers, expr),
        GivenWay::NoWay => true,
    }
}

fn gives_these(way: GivenWay, numbers: Option<List<u32>>, expr: &Expr) -> bool
    ensures { result ≡ if_these numbers (λ zs. spec.gives_in (plain-GivenWay way) zs (plain-Expr expr.now)) }
{
    match numbers {
        Some(numbers) => gives_in(way, numbers.as_slice(), expr),
        None => false,
    }
}

/// Whether what is left is what is handed out.
#[tactic(auto, using(crate::proofs::EndLemmas::outs_rules))]
pub(crate) fn gives_outs(
    alloc: Global,
    way: GivenWay,
    renaming: &[Seen],
    outs: &[u32],
    body: Part<'_>,
) -> Result<bool, AllocError>
    ensures { IfOk result (λ it. it ≡ spec.gives_outs (plain-GivenWay way) (plain-Renaming renaming.now) outs.now (plain-Part body.entry)) }
{
    let Some(expr) = ends_given(body) else {
        return Ok(false);
    };
    let numbers = numbers_of(alloc, renaming, outs)?;
    Ok(gives_these(way, numbers, expr))
}

fn gives_last(way: GivenWay) -> bool
    ensures { result ≡ spec.gives_last (plain-GivenWay way) }
{
    match way {
        GivenWay::Bare | GivenWay::NoWay => true,
        GivenWay::AsVariant(_) => false,
    }
}

/// Whether the last statement is what the function gives.
#[tactic(auto, using(crate::proofs::EndLemmas::last_rules))]
fn last_is(
    alloc: Global,
    between: &Between,
    jumping: &Jumping<'_>,
    renaming: &[Seen],
    passed: Passed<'_>,
) -> Result<bool, AllocError>
    ensures { IfOk result (λ it. it
        ≡ spec.last_is (plain-Between between.now) (plain-Jumping between.now.ways.elsewhere jumping.now) (plain-Renaming renaming.now) (plain-Part passed.entry.text)
        (plain-Part passed.entry.answer)) }
{
    let Some((expr, _)) = runs_first(passed.text) else {
        return Ok(false);
    };
    let Some(other) = ends_given(passed.answer) else {
        return Ok(false);
    };
    runs_alike(alloc, between, jumping, renaming, expr, other)
}

/// How the new function ends, and what it hands out.
#[derive(Clone, Copy)]
pub(crate) struct End<'t> {
    pub way: GivenWay,
    pub outs: &'t [u32],
}

/// Whether the function does all statements, and gives what is handed out; adds its variables.
fn ran_all(
    alloc: Global,
    between: &Between,
    jumping: &Jumping<'_>,
    end: End<'_>,
    count: usize,
    renaming: &mut Vec<Seen>,
    passed: Passed<'_>,
) -> Result<bool, AllocError>
    ensures { IfOk result (λ it. if_so it (Some (plain-Renaming renaming.new.items))
        ≡ spec.ran_all (plain-Between between.now) (plain-Jumping between.now.ways.elsewhere jumping.now) (plain-GivenWay end.entry.way) end.entry.outs.now count
        (plain-Renaming renaming.old.items) (plain-Part passed.entry.text) (plain-Part passed.entry.answer)) }
{
    match like_first(alloc, between, jumping, count, renaming, passed)? {
        Some(passed) => gives_outs(alloc, end.way, renaming.as_slice(), end.outs, passed.answer),
        None => Ok(false),
    }
}

/// Whether it does all but the last, which is what it gives; adds its variables.
#[tactic(auto, using(crate::proofs::EndLemmas::but_rules))]
fn ran_but_last(
    alloc: Global,
    between: &Between,
    jumping: &Jumping<'_>,
    end: End<'_>,
    count: usize,
    renaming: &mut Vec<Seen>,
    passed: Passed<'_>,
) -> Result<bool, AllocError>
    ensures { IfOk result (λ it. if_so it (Some (plain-Renaming renaming.new.items))
        ≡ spec.ran_but_last (plain-Between between.now) (plain-Jumping between.now.ways.elsewhere jumping.now) (plain-GivenWay end.entry.way) end.entry.outs.now count
        (plain-Renaming renaming.old.items) (plain-Part passed.entry.text) (plain-Part passed.entry.answer)) }
{
    if count == 0 {
        return Ok(false);
    }
    let Some(passed) = like_first(alloc, between, jumping, count - 1, renaming, passed)? else {
        return Ok(false);
    };
    if end.outs.is_empty() && gives_last(end.way) {
        last_is(alloc, between, jumping, renaming.as_slice(), passed)
    } else {
        Ok(false)
    }
}

/// Whether the function does so many statements and ends as they do; adds its variables.
pub(crate) fn ran(
    alloc: Global,
    between: &Between,
    jumping: &Jumping<'_>,
    end: End<'_>,
    count: usize,
    renaming: &mut Vec<Seen>,
    passed: Passed<'_>,
) -> Result<bool, AllocError>
    ensures { IfOk result (λ it. if_so it (Some (plain-Renaming renaming.new.items))
        ≡ spec.ran (plain-Between between.now) (plain-Jumping between.now.ways.elsewhere jumping.now) (plain-GivenWay end.entry.way) end.entry.outs.now count (plain-Renaming renaming.old.items)
        (plain-Part passed.entry.text) (plain-Part passed.entry.answer)) }
{
    if count_of(passed.answer) == count {
        ran_all(alloc, between, jumping, end, count, renaming, passed)
    } else {
        ran_but_last(alloc, between, jumping, end, count, renaming, passed)
    }
}

//! Whether the block of a run that holds its tail is, in the answer, that block with the call in place of the run.

ghost use Rattle.std.specs.Prelude.{◌≡◌, true, Some, option_map, IfOk};
ghost use Rattle.rx_typed.specs.PlainTree.{plain-Expr};
ghost use Rattle.rx_exits_plan.specs.Blocks.{tail as tail_of, written_tail as written_tail_of};
ghost use Rattle.rx_engine_alike.specs.Likeness.{if_so};
ghost use Rattle.rx_engine_alike.specs.PlainSights.{plain-Renaming};
ghost use Rattle.rx_engine_alike.specs.PlainJumping.{plain-Jumping};
ghost use Rattle.rx_engine_alike.specs.PlainParts.{plain-Part};
ghost use Rattle.rx_engine_alike.specs.PlainLikeness.{plain-Hole};
ghost use Rattle.rx_engine_extracted.specs.Told.{closed_in};
ghost use Rattle.rx_engine_extracted.specs.Block.{between_in};
ghost use Rattle.rx_engine_extracted.specs.TailEnding.{ran_to_tail as ran_to_tail_of};
ghost use Rattle.rx_engine_extracted.specs.TailBlock as spec;
ghost use Rattle.rx_engine_extracted.specs.PlainTold.{plain-Told};
ghost use Rattle.rx_engine_extracted.specs.PlainHanding.{put_in, stood_in};
ghost use Rattle.rx_engine_extracted.specs.PlainArms.{jumps_around};
ghost use Rattle.rx_engine_extracted.specs.PlainCalls.{plain-Called, plain-GivenWay};
ghost use Rattle.rx_engine_extracted.specs.PlainStretches.{passed_in};
ghost use Rattle.rx_engine_extracted.specs.PlainTails.{unit_call_stands as unit_call_stands_of};

use crate::block::{between, front_alike, jumping_around};
use crate::body::{block_in, runs_first};
use crate::calls::{Called, called_with, is_only_next};
use crate::ending::End;
use crate::entering::{Begun, entered};
use crate::exits::outs_of;
use crate::handing::{Stood, hands_back, is_within, redeclared};
use crate::stretches::Passed;
use crate::tail_ending::{Tail, ran_to_tail};
use crate::tail_handing::{
    ends_in_unit_back, gives_at, gives_unit_back, gives_value, written_tail,
};
use crate::told::{Told, specials_among, without};
use rx_engine_alike::{Hole, LoopPair, Part, Seen};
use rx_exits_plan::Exit;
use rx_typed::Expr;
use std::alloc::{AllocError, Global};

/// Whether the rest of the new function does what the run does, and ends as its tail; adds its variables.
fn ends_within(
    alloc: Global,
    told: &Told<'_>,
    closed: &[u32],
    called: &Called<'_>,
    end: End<'_>,
    inside: &mut Vec<Seen>,
    tail: Tail<'_>,
    passed: Passed<'_>,
) -> Result<bool, AllocError>
    requires { closed.now ≡ closed_in (plain-Told told.now) }
    ensures { IfOk result (λ it. if_so it (Some (plain-Renaming inside.new.items))
        ≡ ran_to_tail_of tail.entry.has (between_in (plain-Told told.now)) (plain-Jumping told.now.elsewhere.now called.now.jumping) (plain-GivenWay end.entry.way) end.entry.outs.now
        told.now.run.count (plain-Renaming inside.old.items) (plain-Part passed.entry.text) (plain-Expr tail.entry.expr.now) (plain-Part passed.entry.answer)) }
{
    let within = between(alloc, told, closed, told.around, None)?;
    let jumping = &called.jumping;
    let count = told.run.count;
    let so = ran_to_tail(alloc, &within, jumping, end, count, inside, tail, passed)?;
    Ok(so)
}

/// The tail of the run's block as it is written.
#[tactic(auto, using(rx_exits_plan::proofs::StatementLemmas::body_tail))]
fn tail_in<'t>(node: usize, has: bool, text: Part<'t>) -> Tail<'t>
    ensures value { result.has ≡ has }
    ensures tail { plain-Expr result.expr.now ≡ written_tail_of node (tail_of (plain-Part text.entry)) }
{
    Tail {
        has,
        expr: written_tail(node, text.tail),
    }
}

/// Whether the new function does what the run does; its variables where the run ends.
fn function_ends(
    alloc: Global,
    told: &Told<'_>,
    closed: &[u32],
    has: bool,
    called: &Called<'_>,
    outer: &[Seen],
    text: Part<'_>,
) -> Result<Option<Vec<Seen>>, AllocError>
    requires { closed.now ≡ closed_in (plain-Told told.now) }
    ensures { IfOk result (λ it. option_map (λ s. plain-Renaming s.items) it
        ≡ spec.function_ends has (plain-Told told.now) (plain-Called told.now.elsewhere.now called.now) (plain-Renaming outer.now) (plain-Part text.entry)) }
{
    let Some(body) = block_in(&told.new.function.body) else {
        return Ok(None);
    };
    let Some(begun) = entered(alloc, told, closed, outer, called.operands, body)? else {
        return Ok(None);
    };
    let Begun { inside, rest } = begun;
    let mut inside = inside;
    let end = End {
        way: called.way,
        outs: outs_of(told.plan.exits.as_slice(), Exit::Next),
    };
    let tail = tail_in(told.run.block, has, text);
    let passed = Passed { text, answer: rest };
    if ends_within(alloc, told, closed, called, end, &mut inside, tail, passed)? {
        Ok(Some(inside))
    } else {
        Ok(None)
    }
}

/// Whether an expression is the call, and the new function does what the run does; its variables where the run ends.
fn call_ends(
    alloc: Global,
    told: &Told<'_>,
    closed: &[u32],
    has: bool,
    loops: &[LoopPair],
    outer: &[Seen],
    text: Part<'_>,
    expr: &Expr,
) -> Result<Option<Vec<Seen>>, AllocError>
    requires { closed.now ≡ closed_in (plain-Told told.now) }
    ensures { IfOk result (λ it. option_map (λ s. plain-Renaming s.items) it
        ≡ spec.call_ends has (plain-Told told.now) (jumps_around loops.now) (plain-Renaming outer.now) (plain-Part text.entry) (plain-Expr expr.now)) }
{
    match called_with(alloc, told, has, loops, outer, expr)? {
        Some(called) => function_ends(alloc, told, closed, has, &called, outer, text),
        None => Ok(None),
    }
}

/// Adds what is declared again where the call stands for a run without a value; what follows then.
fn unit_stands_for<'t>(
    alloc: Global,
    told: &Told<'_>,
    closed: &[u32],
    loops: &[LoopPair],
    outer: &[Seen],
    passed: Passed<'_>,
    inner: &mut Vec<Seen>,
    stood: Stood<'t>,
) -> Result<Option<Part<'t>>, AllocError>
    requires { closed.now ≡ closed_in (plain-Told told.now) }
    ensures { IfOk result (λ it. option_map (λ b. put_in (plain-Renaming inner.new.items) (plain-Part b)) it
        ≡ spec.unit_stands_for (plain-Told told.now) (jumps_around loops.now) (passed_in (plain-Renaming outer.now) passed.entry) (stood_in (plain-Renaming inner.old.items) stood.entry)) }
{
    let (text, expr) = (passed.text, stood.called);
    let Some(there) = call_ends(alloc, told, closed, false, loops, outer, text, expr)? else {
        return Ok(None);
    };
    let variables = told.plan.redeclared.as_slice();
    let Some(rest) = redeclared(there.as_slice(), inner, variables, stood.rest)? else {
        return Ok(None);
    };
    if is_within(outer, inner.as_slice()) {
        Ok(Some(rest))
    } else {
        Ok(None)
    }
}

/// Adds what is handed out and declared again where the call stands for such a run; what follows then.
fn unit_call_stands<'t>(
    alloc: Global,
    told: &Told<'_>,
    closed: &[u32],
    loops: &[LoopPair],
    outer: &[Seen],
    passed: Passed<'t>,
    inner: &mut Vec<Seen>,
) -> Result<Option<Part<'t>>, AllocError>
    requires { closed.now ≡ closed_in (plain-Told told.now) }
    ensures { IfOk result (λ it. option_map (λ b. put_in (plain-Renaming inner.new.items) (plain-Part b)) it
        ≡ unit_call_stands_of (plain-Told told.now) (jumps_around loops.now) (passed_in (plain-Renaming outer.now) passed.entry) (plain-Renaming inner.old.items)) }
{
    let outs = outs_of(told.plan.exits.as_slice(), Exit::Next);
    match hands_back(alloc, told, outer, inner, outs, passed.answer)? {
        Some(stood) => unit_stands_for(alloc, told, closed, loops, outer, passed, inner, stood),
        None => Ok(None),
    }
}

/// Whether the call stands for a run without a value, and the unit stands again at the end.
fn unit_stands(
    alloc: Global,
    told: &Told<'_>,
    closed: &[u32],
    loops: &[LoopPair],
    own: bool,
    outer: &[Seen],
    passed: Passed<'_>,
) -> Result<bool, AllocError>
    requires { closed.now ≡ closed_in (plain-Told told.now) }
    ensures { IfOk result (λ it. it ≡ spec.unit_stands (plain-Told told.now) (jumps_around loops.now) own (passed_in (plain-Renaming outer.now) passed.entry)) }
{
    let outs = outs_of(told.plan.exits.as_slice(), Exit::Next);
    let mut inner = without(alloc, outs, outer)?;
    match unit_call_stands(alloc, told, closed, loops, outer, passed, &mut inner)? {
        Some(rest) => Ok(ends_in_unit_back(own, rest)),
        None => Ok(false),
    }
}

/// Whether an expression is the call of a function that does what a run with a value does.
fn value_is_call(
    alloc: Global,
    told: &Told<'_>,
    closed: &[u32],
    loops: &[LoopPair],
    outer: &[Seen],
    text: Part<'_>,
    expr: &Expr,
) -> Result<bool, AllocError>
    requires { closed.now ≡ closed_in (plain-Told told.now) }
    ensures { IfOk result (λ it. it
        ≡ spec.is_some_renaming (spec.call_ends true (plain-Told told.now) (jumps_around loops.now) (plain-Renaming outer.now) (plain-Part text.entry) (plain-Expr expr.now))) }
{
    match call_ends(alloc, told, closed, true, loops, outer, text, expr)? {
        Some(_) => Ok(true),
        None => Ok(false),
    }
}

/// Whether the call gives the value of the run, which is the block's.
fn value_stands(
    alloc: Global,
    told: &Told<'_>,
    closed: &[u32],
    loops: &[LoopPair],
    own: bool,
    outer: &[Seen],
    passed: Passed<'_>,
) -> Result<bool, AllocError>
    requires { closed.now ≡ closed_in (plain-Told told.now) }
    ensures { IfOk result (λ it. it ≡ spec.value_stands (plain-Told told.now) (jumps_around loops.now) own (passed_in (plain-Renaming outer.now) passed.entry)) }
{
    let outs = outs_of(told.plan.exits.as_slice(), Exit::Next);
    let mut inner = without(alloc, outs, outer)?;
    match gives_value(alloc, told, own, outer, &mut inner, outs, passed.answer)? {
        Some(expr) => value_is_call(alloc, told, closed, loops, outer, passed.text, expr),
        None => Ok(false),
    }
}

/// Whether what the call gives may be dropped: the unit, by the run's only exit, which hands out nothing.
fn may_drop(told: &Told<'_>) -> bool
    ensures { result ≡ spec.may_drop (plain-Told told.now) }
{
    if !told.gives_unit || !is_only_next(told.plan.exits.as_slice()) {
        return false;
    }
    match outs_of(told.plan.exits.as_slice(), Exit::Next) {
        [] => true,
        [_, ..] => false,
    }
}

/// The expression that stands alone in front of the unit that a block gives.
fn dropped<'t>(own: bool, answer: Part<'t>) -> Option<&'t Expr>
    ensures { option_map (λ e. plain-Expr e.now) result ≡ spec.dropped own (plain-Part answer.entry) }
{
    let Some((expr, rest)) = runs_first(answer) else {
        return None;
    };
    if ends_in_unit_back(own, rest) {
        Some(expr)
    } else {
        None
    }
}

/// Whether the unit stands behind the call, which gives that of the run.
fn call_is_dropped(
    alloc: Global,
    told: &Told<'_>,
    closed: &[u32],
    loops: &[LoopPair],
    own: bool,
    outer: &[Seen],
    passed: Passed<'_>,
) -> Result<bool, AllocError>
    requires { closed.now ≡ closed_in (plain-Told told.now) }
    ensures { IfOk result (λ it. it ≡ spec.call_is_dropped (plain-Told told.now) (jumps_around loops.now) own (passed_in (plain-Renaming outer.now) passed.entry)) }
{
    match dropped(own, passed.answer) {
        Some(expr) => value_is_call(alloc, told, closed, loops, outer, passed.text, expr),
        None => Ok(false),
    }
}

/// Whether the call stands for a run that gives the unit, which the block gives again.
fn tail_is_unit(
    alloc: Global,
    told: &Told<'_>,
    closed: &[u32],
    loops: &[LoopPair],
    own: bool,
    outer: &[Seen],
    passed: Passed<'_>,
) -> Result<bool, AllocError>
    requires { closed.now ≡ closed_in (plain-Told told.now) }
    ensures { IfOk result (λ it. it ≡ spec.tail_is_unit (plain-Told told.now) (jumps_around loops.now) own (passed_in (plain-Renaming outer.now) passed.entry)) }
{
    if may_drop(told) {
        call_is_dropped(alloc, told, closed, loops, own, outer, passed)
    } else {
        unit_stands(alloc, told, closed, loops, own, outer, passed)
    }
}

/// Whether the call stands for the run: the answer's block tells whether there is a value, by what it gives.
#[tactic(auto, using(rx_exits_plan::proofs::StatementLemmas::body_tail))]
fn tail_stands(
    alloc: Global,
    told: &Told<'_>,
    closed: &[u32],
    loops: &[LoopPair],
    own: bool,
    outer: &[Seen],
    passed: Passed<'_>,
) -> Result<bool, AllocError>
    requires { closed.now ≡ closed_in (plain-Told told.now) }
    ensures { IfOk result (λ it. it ≡ spec.tail_stands (plain-Told told.now) (jumps_around loops.now) own (passed_in (plain-Renaming outer.now) passed.entry)) }
{
    if gives_unit_back(own, passed.answer.tail) {
        tail_is_unit(alloc, told, closed, loops, own, outer, passed)
    } else {
        value_stands(alloc, told, closed, loops, own, outer, passed)
    }
}

/// Whether nothing is handed out at the end of a function's own body.
fn may_end(told: &Told<'_>, own: bool) -> bool
    ensures { result ≡ spec.may_end (plain-Told told.now) own }
{
    if !own {
        return true;
    }
    match outs_of(told.plan.exits.as_slice(), Exit::Next) {
        [] => true,
        [_, ..] => false,
    }
}

/// Whether the call stands for the run behind the statements in front of it.
#[tactic(auto, using(rx_exits_plan::proofs::StatementLemmas::body_tail))]
fn tail_is_call(
    alloc: Global,
    told: &Told<'_>,
    closed: &[u32],
    loops: &[LoopPair],
    outer: &[Seen],
    passed: Passed<'_>,
) -> Result<bool, AllocError>
    requires { closed.now ≡ closed_in (plain-Told told.now) }
    ensures { IfOk result (λ it. it ≡ spec.tail_is_call (plain-Told told.now) (jumps_around loops.now) (Some (passed_in (plain-Renaming outer.now) passed.entry))) }
{
    if !specials_among(outer, told.elsewhere) {
        return Ok(false);
    }
    let own = gives_at(told.run.block, passed.text.tail);
    if may_end(told, own) {
        tail_stands(alloc, told, closed, loops, own, outer, passed)
    } else {
        Ok(false)
    }
}

/// Whether the block that was left open has the call in place of the run.
pub(crate) fn block_has_tail_call(
    alloc: Global,
    told: &Told<'_>,
    closed: &[u32],
    hole: &Hole<'_>,
) -> Result<bool, AllocError>
    requires { closed.now ≡ closed_in (plain-Told told.now) }
    ensures { IfOk result (λ it. it ≡ spec.block_has_tail_call (plain-Told told.now) (plain-Hole hole.now)) }
{
    let around = between(alloc, told, closed, &[], None)?;
    let jumping = jumping_around(alloc, hole.loops.as_slice())?;
    let mut inside = Vec::from_slice(alloc, hole.inside.as_slice())?;
    let passed = Passed {
        text: hole.text,
        answer: hole.answer,
    };
    match front_alike(alloc, told, &around, &jumping, &mut inside, passed)? {
        Some(passed) => {
            let loops = hole.loops.as_slice();
            tail_is_call(alloc, told, closed, loops, inside.as_slice(), passed)
        }
        None => Ok(false),
    }
}

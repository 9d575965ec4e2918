//! What the caller does with what the call gives of a run that holds its block's tail.

ghost use Rattle.std.specs.Prelude.{◌≡◌, map, option_map, IfOk};
ghost use Rattle.rx_typed.specs.PlainTree.{plain-Expr, plain-Pattern, plain-Subpattern, subpatterns_of};
ghost use Rattle.rx_exits_plan.specs.Blocks.{written_tail as written_tail_of};
ghost use Rattle.rx_engine_alike.specs.PlainSights.{plain-Renaming};
ghost use Rattle.rx_engine_alike.specs.PlainParts.{plain-Part};
ghost use Rattle.rx_engine_extracted.specs.TailHanding as spec;
ghost use Rattle.rx_engine_extracted.specs.PlainTold.{plain-Told};
ghost use Rattle.rx_engine_extracted.specs.PlainHanding.{put_in};
ghost use Rattle.rx_engine_extracted.specs.PlainTails.{parts_beside as parts_beside_of, put_and_gives as put_and_gives_of};

use crate::body::{binds_first, ended};
use crate::ending::given;
use crate::handing::{is_within, parts_of, put_back, received, received_in};
use crate::told::Told;
use rx_engine_alike::{Part, Seen, give_of, is_in, is_new, is_unit, takes};
use rx_typed::{Expr, Pattern, Subpattern};
use std::alloc::{AllocError, Global};

/// Whether an expression gives what the body of a function ends with, whose block has this node.
#[tactic(auto, using(crate::proofs::ReadLemmas::read_rules))]
pub(crate) fn gives_at(node: usize, expr: &Expr) -> bool
    ensures { result ≡ spec.gives_at node (plain-Expr expr.now) }
{
    match give_of(expr) {
        Some(_) => expr.mark.node == node,
        None => false,
    }
}

/// The tail as it is written: that of a function's body stands in a `Give` at the block's node.
#[tactic(auto, using(crate::proofs::ReadLemmas::read_rules))]
pub(crate) fn written_tail<'t>(node: usize, tail: &'t Expr) -> &'t Expr
    ensures { plain-Expr result.now ≡ written_tail_of node (plain-Expr tail.now) }
{
    match give_of(tail) {
        Some(inner) => { if tail.mark.node == node { inner } else { tail } }
        None => tail,
    }
}

/// What is given in place of the tail, where this is a function's own or isn't.
fn given_back<'t>(own: bool, expr: &'t Expr) -> Option<&'t Expr>
    ensures { option_map (λ e. plain-Expr e.now) result ≡ spec.given_back own (plain-Expr expr.entry.now) }
{
    if own { given(expr) } else { Some(expr) }
}

/// What a block without statements gives in its place.
fn ends_given_back<'t>(own: bool, body: Part<'t>) -> Option<&'t Expr>
    ensures { option_map (λ e. plain-Expr e.now) result ≡ spec.ends_given_back own (plain-Part body.entry) }
{
    match ended(body) {
        Some(tail) => given_back(own, tail),
        None => None,
    }
}

/// Whether the unit is given.
pub(crate) fn gives_unit_back(own: bool, expr: &Expr) -> bool
    ensures { result ≡ spec.gives_unit_back own (plain-Expr expr.now) }
{
    match given_back(own, expr) {
        Some(given) => is_unit(given),
        None => false,
    }
}

/// Whether a block is of the unit alone.
pub(crate) fn ends_in_unit_back(own: bool, body: Part<'_>) -> bool
    ensures { result ≡ spec.ends_in_unit_back own (plain-Part body.entry) }
{
    match ends_given_back(own, body) {
        Some(given) => is_unit(given),
        None => false,
    }
}

/// Whether the variable's value is given behind what is done with the others, and nothing is lost.
fn gives_back_last(own: bool, outer: &[Seen], inner: &[Seen], variable: u32, rest: Part<'_>) -> bool
    ensures { result ≡ spec.gives_back_last own (plain-Renaming outer.now) variable (put_in (plain-Renaming inner.now) (plain-Part rest.entry)) }
{
    match ends_given_back(own, rest) {
        Some(given) => takes(variable, given) && is_within(outer, inner),
        None => false,
    }
}

/// Whether what is handed out is put back, and the value is given behind it.
fn put_and_gives(
    told: &Told<'_>,
    own: bool,
    outer: &[Seen],
    inner: &mut Vec<Seen>,
    variables: &[u32],
    variable: u32,
    others: &[u32],
    body: Part<'_>,
) -> Result<bool, AllocError>
    ensures { IfOk result (λ it. it
        ≡ put_and_gives_of (plain-Told told.now) own (plain-Renaming outer.now) (plain-Renaming inner.old.items) variables.now variable others.now (plain-Part body.entry)) }
{
    match put_back(told, outer, inner, variables, others, body)? {
        Some(rest) => Ok(gives_back_last(own, outer, inner.as_slice(), variable, rest)),
        None => Ok(false),
    }
}

/// Whether the value is received in a new variable beside what is handed out, which is put back, and is given then.
fn put_beside(
    told: &Told<'_>,
    own: bool,
    outer: &[Seen],
    inner: &mut Vec<Seen>,
    variables: &[u32],
    variable: u32,
    others: &[u32],
    body: Part<'_>,
) -> Result<bool, AllocError>
    ensures { IfOk result (λ it. it
        ≡ spec.put_beside (plain-Told told.now) own (plain-Renaming outer.now) (plain-Renaming inner.old.items) variables.now (variable, others.now) (plain-Part body.entry)) }
{
    if !is_new(outer, variable) {
        return Ok(false);
    }
    if is_in(variable, others) {
        return Ok(false);
    }
    if received(outer, inner, variables, others)? {
        put_and_gives(told, own, outer, inner, variables, variable, others, body)
    } else {
        Ok(false)
    }
}

/// Whether the first part receives the value, and the others what is handed out.
fn received_beside(
    alloc: Global,
    told: &Told<'_>,
    own: bool,
    outer: &[Seen],
    inner: &mut Vec<Seen>,
    variables: &[u32],
    parts: &[Subpattern],
    body: Part<'_>,
) -> Result<bool, AllocError>
    ensures { IfOk result (λ it. it
        ≡ spec.received_beside (plain-Told told.now) own (plain-Renaming outer.now) (plain-Renaming inner.old.items) variables.now (subpatterns_of (map plain-Subpattern parts.now))
        (plain-Part body.entry)) }
{
    let Some(received) = received_in(alloc, parts)? else {
        return Ok(false);
    };
    match received.as_slice().split_first() {
        Some((first, others)) => {
            put_beside(told, own, outer, inner, variables, *first, others, body)
        }
        None => Ok(false),
    }
}

/// Whether the parts of a tuple's pattern do.
fn parts_beside(
    alloc: Global,
    told: &Told<'_>,
    own: bool,
    outer: &[Seen],
    inner: &mut Vec<Seen>,
    variables: &[u32],
    pattern: &Pattern,
    body: Part<'_>,
) -> Result<bool, AllocError>
    ensures { IfOk result (λ it. it
        ≡ parts_beside_of (plain-Told told.now) own (plain-Renaming outer.now) (plain-Renaming inner.old.items) variables.now (plain-Pattern pattern.now) (plain-Part body.entry)) }
{
    match parts_of(pattern) {
        Some(parts) => received_beside(alloc, told, own, outer, inner, variables, parts, body),
        None => Ok(false),
    }
}

/// The expression that gives the value, and what is handed out beside it.
fn gives_beside<'t>(
    alloc: Global,
    told: &Told<'_>,
    own: bool,
    outer: &[Seen],
    inner: &mut Vec<Seen>,
    variables: &[u32],
    body: Part<'t>,
) -> Result<Option<&'t Expr>, AllocError>
    ensures { IfOk result (λ it. option_map (λ e. plain-Expr e.now) it
        ≡ spec.gives_beside (plain-Told told.now) own (plain-Renaming outer.now) (plain-Renaming inner.old.items) variables.now (plain-Part body.entry)) }
{
    let Some((pattern, called, behind)) = binds_first(body) else {
        return Ok(None);
    };
    if parts_beside(alloc, told, own, outer, inner, variables, pattern, behind)? {
        Ok(Some(called))
    } else {
        Ok(None)
    }
}

/// The expression that gives the value: the block's last, or one behind which what is handed out is put back.
pub(crate) fn gives_value<'t>(
    alloc: Global,
    told: &Told<'_>,
    own: bool,
    outer: &[Seen],
    inner: &mut Vec<Seen>,
    outs: &[u32],
    body: Part<'t>,
) -> Result<Option<&'t Expr>, AllocError>
    ensures { IfOk result (λ it. option_map (λ e. plain-Expr e.now) it
        ≡ spec.gives_value (plain-Told told.now) own (plain-Renaming outer.now) (plain-Renaming inner.old.items) outs.now (plain-Part body.entry)) }
{
    match outs {
        [] => Ok(ends_given_back(own, body)),
        [_, ..] => gives_beside(alloc, told, own, outer, inner, outs, body),
    }
}

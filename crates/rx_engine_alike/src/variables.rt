//! New variables of both, and how the answer has those of the text then.

ghost use Rattle.std.specs.Prelude.{◌≡◌, Some, IfOk, map};
ghost use Rattle.rx_typed.specs.PlainTree.{plain-Param};
ghost use Rattle.rx_exits_plan.specs.Marked as marked;
ghost use Rattle.rx_engine_alike.specs.Likeness.{if_so};
ghost use Rattle.rx_engine_alike.specs.Variables as variables;
ghost use Rattle.rx_engine_alike.specs.PlainSights.{plain-How, plain-Renaming};
ghost use Rattle.rx_engine_alike.specs.PlainWays.{plain-Ways};

use crate::sights::{Hold, How, Seen, with_seen};
use rx_core::List;
use rx_typed::Param;
use std::alloc::AllocError;

/// How new variables are seen: these may be elsewhere for a while, to those no mutable reference may lead.
#[derive(Drop)]
pub struct Ways {
    pub elsewhere: List<u32>,
    pub closed: List<u32>,
}

/// Whether it is one of these.
pub fn is_in(number: u32, numbers: &[u32]) -> bool
    ensures is_in { result ≡ variables.is_in number numbers.now }
    ensures among { result ≡ marked.is_among number numbers.now }
{
    for other in numbers {
        if number == *other {
            return true;
        }
    }
    false
}

fn seen_as(ways: &Ways, variable: u32) -> How
    ensures { plain-How result ≡ variables.seen_as (plain-Ways ways.now) variable }
{
    if is_in(variable, ways.elsewhere.as_slice()) {
        How::Special
    } else if is_in(variable, ways.closed.as_slice()) {
        How::Plain(Hold::Shut)
    } else {
        How::Plain(Hold::Free)
    }
}

/// Adds a new variable of each; says whether they are new.
pub fn with_new(
    ways: &Ways,
    renaming: &mut Vec<Seen>,
    variable: u32,
    to: u32,
) -> Result<bool, AllocError>
    ensures { IfOk result (λ it. if_so it (Some (plain-Renaming renaming.new.items))
        ≡ variables.with_new (plain-Ways ways.now) (plain-Renaming renaming.old.items) variable to) }
{
    with_seen(renaming, variable, to, seen_as(ways, variable))
}

/// Adds the variables of both, one by one; says whether they are new and as many.
pub fn like_declared(
    ways: &Ways,
    renaming: &mut Vec<Seen>,
    declared: &[u32],
    others: &[u32],
) -> Result<bool, AllocError>
    ensures { IfOk result (λ it. if_so it (Some (plain-Renaming renaming.new.items))
        ≡ variables.like_declared (plain-Ways ways.now) (plain-Renaming renaming.old.items) declared.now others.now) }
{
    let mut left = declared;
    let mut right = others;
    while let [variable, declared_behind @ ..] = left {
        let [other, others_behind @ ..] = right else {
            return Ok(false);
        };
        if !with_new(ways, renaming, *variable, *other)? {
            return Ok(false);
        }
        left = declared_behind;
        right = others_behind;
    }
    Ok(right.is_empty())
}

/// Adds the parameters of both, one by one; says whether they are new and as many.
pub fn like_params(
    ways: &Ways,
    renaming: &mut Vec<Seen>,
    params: &[Param],
    others: &[Param],
) -> Result<bool, AllocError>
    ensures { IfOk result (λ it. if_so it (Some (plain-Renaming renaming.new.items))
        ≡ variables.like_params (plain-Ways ways.now) (plain-Renaming renaming.old.items) (map plain-Param params.now) (map plain-Param others.now)) }
{
    let mut left = params;
    let mut right = others;
    while let [param, params_behind @ ..] = left {
        let [other, others_behind @ ..] = right else {
            return Ok(false);
        };
        if !with_new(ways, renaming, param.variable, other.variable)? {
            return Ok(false);
        }
        left = params_behind;
        right = others_behind;
    }
    Ok(right.is_empty())
}

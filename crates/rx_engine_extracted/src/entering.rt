//! Whether the new function is given what the plan says, and how it has the text's variables then.

ghost use Rattle.std.specs.Prelude.{◌≡◌, ℕ, ◌+◌, List as ListOf, [], Some, map, option_map, if◌then◌else◌, IfOk};
ghost use Rattle.rx_typed.specs.PlainTree.{plain-Expr, plain-Operand, plain-Param, operands_of};
ghost use Rattle.rx_engine_simulation.specs.Sights.{Renaming, sight_of as sight_in};
ghost use Rattle.rx_engine_alike.specs.Likeness.{if_so, is_none};
ghost use Rattle.rx_engine_alike.specs.PlainSights.{plain-Hold, plain-How, plain-Sight, plain-Renaming};
ghost use Rattle.rx_engine_extracted.specs.Entering as spec;
ghost use Rattle.rx_engine_extracted.specs.Told.{closed_in};
ghost use Rattle.rx_engine_extracted.specs.Handing.{is_there as is_there_in};
ghost use Rattle.rx_engine_alike.specs.PlainParts.{plain-Part};
ghost use Rattle.rx_engine_extracted.specs.PlainTold.{plain-Told};
ghost use Rattle.rx_engine_extracted.specs.PlainEntering.{begun_in, plain-Begun, next_with, next_given as next_given_of, given_by, with_others as with_others_of};

use crate::body::declares_one;
use crate::told::{Told, is_special, is_special_in};
use rx_engine_alike::{
    Hold, How, Part, Seen, borrow_of, is_in, is_own, leads_from, read_of, same_bool, sight_of,
    with_seen,
};
use rx_modes_policy::Mode;
use rx_typed::{Expr, Operand, Param};
use std::alloc::{AllocError, Global};

/// Whether an expression is the variable itself.
#[tactic(auto, using(crate::proofs::ReadLemmas::read_rules))]
fn reads_own(variable: u32, expr: &Expr) -> bool
    ensures { result ≡ spec.reads_own variable (plain-Expr expr.now) }
{
    match read_of(expr) {
        Some((_, place)) => is_own(variable, place),
        None => false,
    }
}

/// Whether it is a reference to the variable.
#[tactic(auto, using(crate::proofs::ReadLemmas::read_rules))]
fn borrows_own(mutable: bool, variable: u32, expr: &Expr) -> bool
    ensures { result ≡ spec.borrows_own mutable variable (plain-Expr expr.now) }
{
    match borrow_of(expr) {
        Some((other, place)) => same_bool(mutable, other) && is_own(variable, place),
        None => false,
    }
}

/// Whether it is the reference in the variable, asked for again.
#[tactic(auto, using(crate::proofs::ReadLemmas::read_rules))]
fn asks_again(mutable: bool, variable: u32, expr: &Expr) -> bool
    ensures { result ≡ spec.asks_again mutable variable (plain-Expr expr.now) }
{
    match borrow_of(expr) {
        Some((other, place)) => same_bool(mutable, other) && leads_from(variable, place),
        None => false,
    }
}

/// How the new function has a param that moves, or is copied.
fn by_value_as(how: How, variable: u32, closed: bool, expr: &Expr) -> Option<How>
    ensures { option_map plain-How result ≡ spec.by_value_as (plain-How how) variable closed (plain-Expr expr.now) }
{
    match how {
        How::Special => {
            if reads_own(variable, expr) || asks_again(true, variable, expr) {
                Some(How::Special)
            } else {
                None
            }
        }
        How::Plain(Hold::Shut) => {
            if closed && reads_own(variable, expr) {
                Some(How::Copied)
            } else {
                None
            }
        }
        How::Plain(Hold::Fixed) | How::Plain(Hold::Free) => None,
        How::Through(_, _) | How::Copied | How::Viewed | How::Absent => None,
    }
}

/// How it has a param that is lent.
fn lent_as(mutable: bool, how: How, variable: u32, expr: &Expr) -> Option<How>
    ensures { option_map plain-How result ≡ spec.lent_as mutable (plain-How how) variable (plain-Expr expr.now) }
{
    match how {
        How::Plain(hold) => {
            if borrows_own(mutable, variable, expr) {
                Some(How::Through(hold, mutable))
            } else {
                None
            }
        }
        How::Special | How::Through(_, _) | How::Copied | How::Viewed | How::Absent => None,
    }
}

/// How it has a param whose reference is asked for again.
fn again_as(
    mutable: bool,
    given: How,
    how: How,
    variable: u32,
    closed: bool,
    expr: &Expr,
) -> Option<How>
    ensures { option_map plain-How result ≡ spec.again_as mutable (plain-How given) (plain-How how) variable closed (plain-Expr expr.now) }
{
    match how {
        How::Plain(Hold::Shut) => {
            if closed && asks_again(mutable, variable, expr) {
                Some(given)
            } else {
                None
            }
        }
        How::Plain(Hold::Fixed) | How::Plain(Hold::Free) => None,
        How::Special | How::Through(_, _) | How::Copied | How::Viewed | How::Absent => None,
    }
}

/// How the new function has a param, by its mode, how the caller has it and what the call gives.
fn passed_as(mode: Mode, how: How, variable: u32, closed: bool, expr: &Expr) -> Option<How>
    ensures { option_map plain-How result ≡ spec.passed_as mode (plain-How how) variable closed (plain-Expr expr.now) }
{
    match mode {
        Mode::Value => by_value_as(how, variable, closed, expr),
        Mode::Shared => lent_as(false, how, variable, expr),
        Mode::Mut => {
            if closed {
                None
            } else {
                lent_as(true, how, variable, expr)
            }
        }
        Mode::Reborrow => again_as(true, How::Copied, how, variable, closed, expr),
        Mode::View => again_as(false, How::Viewed, how, variable, closed, expr),
    }
}

fn passed_if(mode: Mode, seen: Option<Seen>, closed: bool, expr: &Expr) -> Option<How>
    ensures { option_map plain-How result ≡ spec.passed_if mode (option_map plain-Sight seen) closed (plain-Expr expr.now) }
{
    match seen {
        Some(seen) => passed_as(mode, seen.how, seen.to, closed, expr),
        None => None,
    }
}

/// What is left of the modes of the plan's params, the call's operands and the new function's params.
#[derive(Clone, Copy)]
pub(crate) struct Given<'t> {
    pub modes: &'t [Mode],
    pub operands: &'t [Operand],
    pub params: &'t [Param],
}

/// The next of each: the mode, what is given, the param's variable; and what is left.
#[tactic(auto, using(rx_typed::proofs::Rules::typed_tree_rules))]
fn next_given<'t>(given: Given<'t>) -> Option<(Mode, &'t Expr, u32, Given<'t>)>
    ensures { option_map (λ r. next_with r.0 (plain-Expr r.1.now) r.2 r.3) result
        ≡ next_given_of given.entry.modes.now (operands_of (map plain-Operand given.entry.operands.now)) (map plain-Param given.entry.params.now) }
{
    let Some((mode, modes)) = given.modes.split_first() else {
        return None;
    };
    let Some((operand, operands)) = given.operands.split_first() else {
        return None;
    };
    let Some((param, params)) = given.params.split_first() else {
        return None;
    };
    let left = Given {
        modes,
        operands,
        params,
    };
    Some((*mode, &operand.value, param.variable, left))
}

/// Whether nothing is left.
fn is_done(given: Given<'_>) -> bool
    ensures { (R Rp : Renaming) (cold : ListOf ℕ) → spec.given_to R cold Rp [] given.entry.modes.now (operands_of (map plain-Operand given.entry.operands.now))
        (map plain-Param given.entry.params.now) ≡ if_so result (Some Rp) }
{
    match given.modes.split_first() {
        Some((_, _)) => false,
        None => match given.operands.split_first() {
            Some((_, _)) => false,
            None => match given.params.split_first() {
                Some((_, _)) => false,
                None => true,
            },
        },
    }
}

/// Adds the new function's params, one by one; says whether they are as many, new, and given as their modes say.
#[tactic(auto, using(crate::proofs::Firsts::given_first))]
fn given_to(
    outer: &[Seen],
    closed: &[u32],
    inner: &mut Vec<Seen>,
    variables: &[u32],
    given: Given<'_>,
) -> Result<bool, AllocError>
    ensures { IfOk result (λ it. if_so it (Some (plain-Renaming inner.new.items))
        ≡ given_by (plain-Renaming outer.now) closed.now (plain-Renaming inner.old.items) variables.now given.entry) }
{
    let mut left = variables;
    let mut rest = given;
    while let [variable, behind @ ..] = left {
        let Some((mode, expr, to, further)) = next_given(rest) else {
            return Ok(false);
        };
        let seen = sight_of(outer, *variable);
        let Some(how) = passed_if(mode, seen, is_in(*variable, closed), expr) else {
            return Ok(false);
        };
        if !with_seen(inner, *variable, to, how)? {
            return Ok(false);
        }
        left = behind;
        rest = further;
    }
    Ok(is_done(rest))
}

/// Adds the variables that the new function declares first, one by one; what follows, where they are new.
#[tactic(auto, using(crate::proofs::Firsts::locals_first))]
fn with_locals_of<'t>(
    outer: &[Seen],
    inner: &mut Vec<Seen>,
    locals: &[u32],
    body: Part<'t>,
) -> Result<Option<Part<'t>>, AllocError>
    ensures { IfOk result (λ it. option_map (λ b. begun_in (plain-Renaming inner.new.items) (plain-Part b)) it
        ≡ spec.with_locals_of (plain-Renaming outer.now) (plain-Renaming inner.old.items) locals.now (plain-Part body.entry)) }
{
    let mut left = locals;
    let mut rest = body;
    while let [local, behind @ ..] = left {
        let Some((variable, further)) = declares_one(rest) else {
            return Ok(None);
        };
        if !is_special_in(outer, *local) {
            return Ok(None);
        }
        if !with_seen(inner, *local, variable, How::Special)? {
            return Ok(None);
        }
        left = behind;
        rest = further;
    }
    Ok(Some(rest))
}

/// Whether the answer has a variable.
pub(crate) fn is_there(renaming: &[Seen], variable: u32) -> bool
    ensures { result ≡ is_there_in (plain-Renaming renaming.now) variable }
{
    match sight_of(renaming, variable) {
        Some(_) => true,
        None => false,
    }
}

/// Adds a variable that is nowhere, unless it has its number already; says whether it is new.
fn with_absent_one(beyond: u32, inner: &mut Vec<Seen>, variable: u32) -> Result<bool, AllocError>
    ensures { IfOk result (λ it. if_so it (Some (plain-Renaming inner.new.items))
        ≡ (if is_none (sight_in (plain-Renaming inner.old.items) variable) then spec.with_number (plain-Renaming inner.old.items) variable (beyond + variable) else Some
        (plain-Renaming inner.old.items))) }
{
    if is_there(inner.as_slice(), variable) {
        return Ok(true);
    }
    match beyond.checked_add(variable) {
        Some(to) => with_seen(inner, variable, to, How::Absent),
        None => Ok(false),
    }
}

/// Adds the other variables of the text; says whether they are new.
fn with_absent(beyond: u32, outer: &[Seen], inner: &mut Vec<Seen>) -> Result<bool, AllocError>
    ensures { IfOk result (λ it. if_so it (Some (plain-Renaming inner.new.items))
        ≡ spec.with_absent beyond (plain-Renaming outer.now) (plain-Renaming inner.old.items)) }
{
    for seen in outer {
        if !with_absent_one(beyond, inner, seen.variable)? {
            return Ok(false);
        }
    }
    Ok(true)
}

/// Whether what is elsewhere outside is the new function's own.
fn specials_stay(outer: &[Seen], inner: &[Seen]) -> bool
    ensures { result ≡ spec.specials_stay (plain-Renaming outer.now) (plain-Renaming inner.now) }
{
    for seen in outer {
        let fits = !is_special(seen.how) || is_special_in(inner, seen.variable);
        if !fits {
            return false;
        }
    }
    true
}

/// Whether a variable has its own storage, to which no mutable reference leads.
fn is_shut_in(renaming: &[Seen], variable: u32) -> bool
    ensures { result ≡ spec.is_shut_sight (sight_in (plain-Renaming renaming.now) variable) }
{
    match sight_of(renaming, variable) {
        Some(seen) => match seen.how {
            How::Plain(Hold::Shut) => true,
            How::Plain(Hold::Fixed) | How::Plain(Hold::Free) => false,
            How::Special | How::Through(_, _) | How::Copied | How::Viewed | How::Absent => false,
        },
        None => false,
    }
}

fn are_shut(renaming: &[Seen], variables: &[u32]) -> bool
    ensures { result ≡ spec.are_shut (plain-Renaming renaming.now) variables.now }
{
    for variable in variables {
        if !is_shut_in(renaming, *variable) {
            return false;
        }
    }
    true
}

/// The new function's variables for the text's, and its body behind those without a value.
#[derive(Drop)]
pub(crate) struct Begun<'t> {
    pub inside: Vec<Seen>,
    pub rest: Part<'t>,
}

/// Adds the variables without a value, and those that are nowhere.
fn with_others<'t>(
    told: &Told<'_>,
    outer: &[Seen],
    inner: &mut Vec<Seen>,
    body: Part<'t>,
) -> Result<Option<Part<'t>>, AllocError>
    ensures { IfOk result (λ it. option_map (λ b. begun_in (plain-Renaming inner.new.items) (plain-Part b)) it
        ≡ with_others_of (plain-Told told.now) (plain-Renaming outer.now) (plain-Renaming inner.old.items) (plain-Part body.entry)) }
{
    let locals = told.plan.locals.as_slice();
    let Some(rest) = with_locals_of(outer, inner, locals, body)? else {
        return Ok(None);
    };
    if !with_absent(told.beyond, outer, inner)? {
        return Ok(None);
    }
    if specials_stay(outer, inner.as_slice()) {
        Ok(Some(rest))
    } else {
        Ok(None)
    }
}

/// Where the run begins in the new function, with the closed params.
pub(crate) fn entered<'t>(
    alloc: Global,
    told: &Told<'_>,
    closed: &[u32],
    outer: &[Seen],
    operands: &[Operand],
    body: Part<'t>,
) -> Result<Option<Begun<'t>>, AllocError>
    requires { closed.now ≡ closed_in (plain-Told told.now) }
    ensures { IfOk result (λ it. option_map plain-Begun it
        ≡ spec.entered (plain-Told told.now) (plain-Renaming outer.now) (operands_of (map plain-Operand operands.now)) (plain-Part body.entry)) }
{
    if !are_shut(outer, closed) {
        return Ok(None);
    }
    let mut inner = Vec::new(alloc);
    let given = Given {
        modes: told.modes,
        operands,
        params: told.new.function.params.as_slice(),
    };
    if !given_to(
        outer,
        closed,
        &mut inner,
        told.plan.params.as_slice(),
        given,
    )? {
        return Ok(None);
    }
    match with_others(told, outer, &mut inner, body)? {
        Some(rest) => Ok(Some(Begun {
            inside: inner,
            rest,
        })),
        None => Ok(None),
    }
}

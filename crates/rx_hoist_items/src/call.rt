//! What stands in place of the run: the call of the new function, and what is done with what it hands out.

ghost use Rattle.std.specs.Prelude.{◌≡◌, IfOk, map};
ghost use Rattle.rx_tree.specs.Plain as plain;
ghost use Rattle.rx_tree.specs.PlainOf.{plain-Expr, plain-Program};
ghost use Rattle.rx_hoist_plan.specs.PlainPlan.{plain-Mode, plain-Param, plain-Plan};
ghost use Rattle.rx_hoist_extraction.specs.Call as calls;
ghost use Rattle.rx_hoist_made.specs.PlainParts.{plain-Labels, plain-Parts, plain-RunParts};

use crate::arms::arms;
use crate::receiving::put_in_place;
use rx_core::{Boxed, List, Name, Span, keep, pushed};
use rx_hoist_made::{Parts, RunParts, declared, handed_on, has_enum, together, variable, written};
use rx_hoist_plan::{NamedPlan, Param};
use rx_modes_policy::Mode;
use rx_tree::{Expr, ExprNode, Ident, Program};
use std::alloc::{AllocError, Global};

/// A reference to a variable.
#[tactic(auto, using(rx_tree::proofs::Rules::expression_rules))]
fn borrowed(alloc: Global, span: Span, mutable: bool, name: &Name) -> Result<Expr, AllocError>
    ensures { IfOk result (λ it. plain-Expr it ≡ plain.borrow span mutable (plain.var span name.now)) }
{
    let place = variable(alloc, span, name)?;
    Ok(Expr {
        span,
        node: ExprNode::Borrow(mutable, Boxed::new(alloc, place)?),
    })
}

/// The argument for a parameter.
fn argument(alloc: Global, span: Span, mode: Mode, name: &Name) -> Result<Expr, AllocError>
    ensures { IfOk result (λ it. plain-Expr it ≡ calls.argument span (plain-Mode mode) name.now) }
{
    match mode {
        Mode::Value | Mode::Reborrow | Mode::View => variable(alloc, span, name),
        Mode::Shared => borrowed(alloc, span, false, name),
        Mode::Mut => borrowed(alloc, span, true, name),
    }
}

/// The arguments.
fn arguments(alloc: Global, span: Span, params: &[Param]) -> Result<List<Expr>, AllocError>
    ensures { IfOk result (λ it. map plain-Expr it ≡ calls.arguments span (map plain-Param params.now)) }
{
    let mut all = List::new(alloc);
    for param in params {
        let argument = argument(alloc, span, param.mode, &param.variable.name);
        let (next, held) = keep(all, argument)?;
        all = pushed(held, next)?;
    }
    Ok(all)
}

/// The call alone.
#[tactic(auto, using(rx_tree::proofs::Rules::expression_rules))]
fn bare_call(alloc: Global, plan: &NamedPlan, span: Span) -> Result<Expr, AllocError>
    ensures { IfOk result (λ it. plain-Expr it ≡ calls.bare_call (plain-Plan plan.now) span) }
{
    let arguments = arguments(alloc, span, plan.params.as_slice())?;
    let (callee, arguments) = keep(arguments, written(alloc, span, &plan.name))?;
    Ok(Expr {
        span,
        node: ExprNode::Call(callee, arguments),
    })
}

/// The match on the call.
#[tactic(auto, using(rx_tree::proofs::Rules::expression_rules))]
fn matched(
    alloc: Global,
    plan: &NamedPlan,
    span: Span,
    labels: &[Option<&Ident>],
    call: Expr,
) -> Result<Expr, AllocError>
    ensures { IfOk result (λ it. plain-Expr it ≡ plain.match span (plain-Expr call)
        (calls.arms (plain-Plan plan.now) span (plain-Labels labels.now) (plain-Plan plan.now).exits)) }
{
    let (arms, call) = keep(call, arms(alloc, plan, span, labels))?;
    let (call, arms) = keep(arms, Boxed::new(alloc, call))?;
    Ok(Expr {
        span,
        node: ExprNode::Match(call, arms),
    })
}

/// The call; with an enum the match on it.
fn whole_call(
    alloc: Global,
    plan: &NamedPlan,
    span: Span,
    labels: &[Option<&Ident>],
) -> Result<Expr, AllocError>
    ensures { IfOk result (λ it. plain-Expr it ≡ calls.whole_call (plain-Plan plan.now) span (plain-Labels labels.now)) }
{
    let call = bare_call(alloc, plan, span)?;
    if has_enum(plan.exits.as_slice()) {
        return matched(alloc, plan, span, labels, call);
    }
    Ok(call)
}

/// What stands in place of the run, with the labels of the loops round it, the innermost first.
pub fn replacement(
    alloc: Global,
    program: &Program,
    plan: &NamedPlan,
    span: Span,
    labels: &[Option<&Ident>],
    run: RunParts<'_>,
) -> Result<Parts, AllocError>
    ensures { IfOk result (λ it. plain-Parts it
        ≡ calls.replacement (plain-Program program.now) (plain-Plan plan.now) span (plain-Labels labels.now) (plain-RunParts run.entry)) }
{
    let call = whole_call(alloc, plan, span, labels)?;
    let handed = put_in_place(alloc, plan, span, run.stmts, call, handed_on(plan))?;
    let redeclared = declared(alloc, program, span, plan.redeclared.as_slice());
    let (redeclared, handed) = keep(handed, redeclared)?;
    let Parts { stmts, tail } = handed;
    let (stmts, tail) = keep(tail, together(stmts, redeclared))?;
    Ok(Parts { stmts, tail })
}

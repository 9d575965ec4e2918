//! The match on the call: an arm for each exit.

ghost use Rattle.std.specs.Prelude.{◌≡◌, false, IfOk, map, option_map};
ghost use Rattle.rx_tree.specs.Plain as plain;
ghost use Rattle.rx_tree.specs.PlainOf.{plain-Arm, plain-Expr, plain-Pattern, plain-Stmt, arms_of, optional_of};
ghost use Rattle.rx_hoist_plan.specs.PlainPlan.{plain-Exit, plain-Leaving, plain-Plan, plain-Variable};
ghost use Rattle.rx_hoist_extraction.specs.Made as made;
ghost use Rattle.rx_hoist_extraction.specs.Call as calls;
ghost use Rattle.rx_hoist_made.specs.PlainParts.{plain-Labels};
ghost use Rattle.rx_hoist_items.specs.Calling as calling;

use rx_core::{Boxed, LetGo, List, Name, Span, keep, pushed};
use rx_hoist_made::{
    Parts, all_variables, assignment, binding, block_of, count, done, fresh_names, handed_by,
    joined, variable, variant_pattern, written,
};
use rx_hoist_plan::{Exit, Leaving, NamedPlan, Variable};
use rx_tree::{Arm, Expr, ExprNode, Ident, Pattern, Stmt};
use std::alloc::{AllocError, Global};

/// The label of a jump to the loop of this number, counted outwards: the innermost needs none.
#[tactic(auto, using(crate::proofs::CallLemmas::nth_is))]
fn jump_label(
    alloc: Global,
    span: Span,
    labels: &[Option<&Ident>],
    number: usize,
) -> Result<Option<Ident>, AllocError>
    ensures { IfOk result (λ it. it ≡ calls.jump_label span (plain-Labels labels.now) number) }
{
    if number == 0 {
        return Ok(None);
    }
    match labels.get(number) {
        Some(Some(label)) => Ok(Some(written(alloc, span, &label.name)?)),
        _ => Ok(None),
    }
}

/// `x = out_0;`
pub(crate) fn put(
    alloc: Global,
    span: Span,
    out: &Variable,
    name: &Name,
) -> Result<Stmt, AllocError>
    ensures { IfOk result (λ it. plain-Stmt it
        ≡ made.assignment span (plain-Variable out.now).name (plain.var span name.now)) }
{
    let value = variable(alloc, span, name)?;
    assignment(alloc, span, &out.name, value)
}

/// An assignment to each out of the name at its place.
fn assigned(
    alloc: Global,
    span: Span,
    outs: &[Variable],
    names: &[Name],
) -> Result<List<Stmt>, AllocError>
    ensures { IfOk result (λ it. map plain-Stmt it ≡ calls.assigned span (map plain-Variable outs.now) names.now) }
{
    let mut all = List::new(alloc);
    let mut left = names;
    for out in outs {
        let [name, rest @ ..] = left else {
            return Ok(all);
        };
        let (next, held) = keep(all, put(alloc, span, out, name))?;
        all = pushed(held, next)?;
        left = rest;
    }
    Ok(all)
}

/// A block of these statements.
#[tactic(auto, using(rx_tree::proofs::Rules::expression_rules))]
fn block(alloc: Global, span: Span, stmts: List<Stmt>) -> Result<Expr, AllocError>
    ensures { IfOk result (λ it. plain-Expr it ≡ calling.block_of_statements span (map plain-Stmt stmts)) }
{
    let block = block_of(span, Parts { stmts, tail: None });
    Ok(Expr {
        span,
        node: ExprNode::Block(Boxed::new(alloc, block)?),
    })
}

/// The jump alone, or behind the assignments.
fn jump_behind(alloc: Global, span: Span, stmts: List<Stmt>, jump: Expr) -> Result<Expr, AllocError>
    ensures { IfOk result (λ it. plain-Expr it ≡ calls.jump_behind span (map plain-Stmt stmts) (plain-Expr jump)) }
{
    if stmts.is_empty() {
        stmts.let_go();
        return Ok(jump);
    }
    let stmts = pushed(stmts, done(span, jump))?;
    block(alloc, span, stmts)
}

/// A value, or `{}`.
#[tactic(auto, using(rx_tree::proofs::Rules::block_rules))]
fn value_or_unit(alloc: Global, span: Span, value: Option<Boxed<Expr>>) -> Result<Expr, AllocError>
    ensures { IfOk result (λ it. plain-Expr it ≡ calls.value_or_unit span (optional_of (option_map plain-Expr value))) }
{
    match value {
        Some(value) => Ok(value.into_inner()),
        None => block(alloc, span, List::new(alloc)),
    }
}

/// Nothing, the one variable, the tuple of more.
fn joined_variables(
    alloc: Global,
    span: Span,
    names: &[Name],
) -> Result<Option<Boxed<Expr>>, AllocError>
    ensures { IfOk result (λ it. optional_of (option_map plain-Expr it) ≡ made.joined span (map (plain.var span) names.now)) }
{
    let exprs = all_variables(alloc, span, names)?;
    joined(alloc, span, exprs)
}

/// A `break` to the loop of this number.
#[tactic(auto, using(rx_tree::proofs::Rules::expression_rules))]
fn break_to(
    alloc: Global,
    span: Span,
    labels: &[Option<&Ident>],
    number: usize,
) -> Result<Expr, AllocError>
    ensures { IfOk result (λ it. plain-Expr it ≡ plain.break span (calls.jump_label span (plain-Labels labels.now) number)) }
{
    Ok(Expr {
        span,
        node: ExprNode::Break(jump_label(alloc, span, labels, number)?),
    })
}

/// A `continue` of the loop of this number.
#[tactic(auto, using(rx_tree::proofs::Rules::expression_rules))]
fn continue_of(
    alloc: Global,
    span: Span,
    labels: &[Option<&Ident>],
    number: usize,
) -> Result<Expr, AllocError>
    ensures { IfOk result (λ it. plain-Expr it ≡ plain.continue span (calls.jump_label span (plain-Labels labels.now) number)) }
{
    Ok(Expr {
        span,
        node: ExprNode::Continue(jump_label(alloc, span, labels, number)?),
    })
}

/// A `return` of these.
#[tactic(auto, using(rx_tree::proofs::Rules::expression_rules))]
fn returned(alloc: Global, span: Span, names: &[Name]) -> Result<Expr, AllocError>
    ensures { IfOk result (λ it. plain-Expr it ≡ plain.return span (made.joined span (map (plain.var span) names.now))) }
{
    Ok(Expr {
        span,
        node: ExprNode::Return(joined_variables(alloc, span, names)?),
    })
}

/// What is done at an exit with what it hands out under these names.
fn arm_value(
    alloc: Global,
    span: Span,
    labels: &[Option<&Ident>],
    leaving: &Leaving,
    names: &[Name],
) -> Result<Expr, AllocError>
    ensures { IfOk result (λ it. plain-Expr it ≡ calls.arm_value span (plain-Labels labels.now) (plain-Leaving leaving.now).exit
        (plain-Leaving leaving.now).outs names.now) }
{
    match leaving.exit {
        Exit::Next => {
            let value = joined_variables(alloc, span, names)?;
            value_or_unit(alloc, span, value)
        }
        Exit::Break(number) => {
            let jump = break_to(alloc, span, labels, number)?;
            let (stmts, jump) = keep(jump, assigned(alloc, span, leaving.outs.as_slice(), names))?;
            jump_behind(alloc, span, stmts, jump)
        }
        Exit::Continue(number) => {
            let jump = continue_of(alloc, span, labels, number)?;
            let (stmts, jump) = keep(jump, assigned(alloc, span, leaving.outs.as_slice(), names))?;
            jump_behind(alloc, span, stmts, jump)
        }
        Exit::Return => returned(alloc, span, names),
    }
}

/// Patterns that bind these names.
fn bindings(alloc: Global, span: Span, names: &[Name]) -> Result<List<Pattern>, AllocError>
    ensures { IfOk result (λ it. map plain-Pattern it ≡ map (λ x. made.binding span x false) names.now) }
{
    let mut all = List::new(alloc);
    for name in names {
        let (next, held) = keep(all, binding(alloc, span, name, false))?;
        all = pushed(held, next)?;
    }
    Ok(all)
}

/// The pattern of an exit's arm.
fn arm_pattern(
    alloc: Global,
    plan: &NamedPlan,
    span: Span,
    exit: Exit,
    names: &[Name],
) -> Result<Pattern, AllocError>
    ensures { IfOk result (λ it. plain-Pattern it ≡ calls.arm_pattern (plain-Plan plan.now) span (plain-Exit exit) names.now) }
{
    let fields = bindings(alloc, span, names)?;
    variant_pattern(alloc, plan, span, exit, fields)
}

/// The arm of an exit, under these names.
#[tactic(auto, using(rx_tree::proofs::Rules::expression_rules))]
fn named_arm(
    alloc: Global,
    plan: &NamedPlan,
    span: Span,
    labels: &[Option<&Ident>],
    leaving: &Leaving,
    names: &[Name],
) -> Result<Arm, AllocError>
    ensures { IfOk result (λ it. plain-Arm it
        ≡ calling.named_arm (plain-Plan plan.now) span (plain-Labels labels.now) (plain-Leaving leaving.now) names.now) }
{
    let pattern = arm_pattern(alloc, plan, span, leaving.exit, names)?;
    let (body, pattern) = keep(pattern, arm_value(alloc, span, labels, leaving, names))?;
    Ok(Arm { pattern, body })
}

/// The arm of an exit.
#[tactic(auto, using(crate::proofs::CallLemmas::fresh_from_is))]
fn arm(
    alloc: Global,
    plan: &NamedPlan,
    span: Span,
    labels: &[Option<&Ident>],
    leaving: &Leaving,
) -> Result<Arm, AllocError>
    ensures { IfOk result (λ it. plain-Arm it
        ≡ calling.arm (plain-Plan plan.now) span (plain-Labels labels.now) (plain-Leaving leaving.now)) }
{
    let many = count(handed_by(plan, leaving));
    let names = fresh_names(alloc, "out_", plan.identifiers.as_slice(), many)?;
    named_arm(alloc, plan, span, labels, leaving, names.as_slice())
}

/// The arms of these exits.
fn exit_arms(
    alloc: Global,
    plan: &NamedPlan,
    span: Span,
    labels: &[Option<&Ident>],
    exits: &[Leaving],
) -> Result<List<Arm>, AllocError>
    ensures { IfOk result (λ it. map plain-Arm it
        ≡ map (calling.arm (plain-Plan plan.now) span (plain-Labels labels.now)) (map plain-Leaving exits.now)) }
{
    let mut all = List::new(alloc);
    for leaving in exits {
        let (next, held) = keep(all, arm(alloc, plan, span, labels, leaving))?;
        all = pushed(held, next)?;
    }
    Ok(all)
}

/// The arms of the exits.
#[tactic(auto, using(crate::proofs::CallLemmas::arms_are))]
pub(crate) fn arms(
    alloc: Global,
    plan: &NamedPlan,
    span: Span,
    labels: &[Option<&Ident>],
) -> Result<List<Arm>, AllocError>
    ensures { IfOk result (λ it. arms_of (map plain-Arm it)
        ≡ calls.arms (plain-Plan plan.now) span (plain-Labels labels.now) (plain-Plan plan.now).exits) }
{
    exit_arms(alloc, plan, span, labels, plan.exits.as_slice())
}

//! What expressions ask.

ghost use Rattle.std.specs.Prelude.{◌≡◌, Bool, true, false, ◌&&◌, ◌||◌, [], ◌∷◌, ◌++◌, map, Ok, Err, Option, Some, None, option_map, OnOk, IfOk};
ghost use Rattle.rx_tree.specs.PlainOf.{plain-Expr};
ghost use Rattle.rx_tree.specs.Plain as plain;
ghost use Rattle.rx_typed.specs.Named as named;
ghost use Rattle.rx_typed.specs.Naming as naming;
ghost use Rattle.rx_typeck_typed.specs.Demands as demands;
ghost use Rattle.rx_typeck_elaborate_parts.specs.Seeing as seeing;
ghost use Rattle.rx_typeck_demand_parts.specs.Walks as walks;

use crate::assignments::{assign, left_side, update};
use crate::blocks::{block, unit, unit_body};
use crate::branches::{all_arms, branch, condition, is_there, matched_value, other, scrutinee};
use crate::loops::{endless, return_jump};
use crate::values::{call, make, tuple, variant};
use rx_core::Span;
use rx_tree::{BinaryOp, Expr, ExprNode, Ident};
use rx_typeck_demand_parts::{Walk, is_strict};
use rx_typeck_elaborate_parts::{Seen, both, either, part_seen, value_seen};
use rx_typeck_solver::Op;
use rx_typed::{Node, Site};
use std::alloc::AllocError;

/// An expression; whether it stands directly under a minus, and what its place makes of its value.
#[cycle(expression)]
#[tactic(auto, using(rx_typeck_demand_parts::proofs::Placed::expression_placed))]
pub(crate) fn expression<'t>(
    walk: &mut Walk<'t>,
    minus: bool,
    site: Site,
    expr: &'t Expr,
) -> Result<Seen, AllocError>
    ensures { walks.Walks (naming.of_expression minus site (plain-Expr expr.now)) (demands.of_exp walk.old.item) seeing.seen_of walk.old result walk.new }
{
    let seen = form(walk, minus, site, expr)?;
    walk.placed(seen, expr)?;
    Ok(seen)
}

/// The same but for what it asks as a place.
#[cycle(expression)]
#[tactic(auto, using(rx_tree::proofs::Rules::expression_rules))]
fn form<'t>(
    walk: &mut Walk<'t>,
    minus: bool,
    site: Site,
    expr: &'t Expr,
) -> Result<Seen, AllocError>
    ensures { walks.Walks (naming.of_expression minus site (plain-Expr expr.now)) (demands.of_form walk.old.item) seeing.seen_of walk.old result walk.new }
{
    let span = expr.span;
    match &expr.node {
        ExprNode::Int(value, suffix) => walk.integer(minus, site, span, *value, *suffix),
        ExprNode::Bool(value) => walk.truth(site, span, *value),
        ExprNode::Tuple(parts) => tuple(walk, site, span, parts.as_slice()),
        ExprNode::Var(name) => walk.variable(site, span, name),
        ExprNode::Field(inner, name) => field_step(walk, site, span, inner.get(), name),
        ExprNode::Part(inner, place) => part_step(walk, site, span, inner.get(), *place),
        ExprNode::Deref(inner) => dereference(walk, site, span, inner.get()),
        ExprNode::Neg(inner) => negation(walk, site, span, inner.get()),
        ExprNode::Not(inner) => inversion(walk, site, span, inner.get()),
        ExprNode::Borrow(mutable, inner) => borrow(walk, site, span, *mutable, inner.get()),
        ExprNode::Binary(operator, left, right) => {
            let node = walk.node(span, site)?;
            let left = expression(walk, false, Site::Value, left.get())?;
            let right = expression(walk, false, Site::Value, right.get())?;
            binary(walk, node, *operator, left, right)
        }
        ExprNode::Assign(place, value) => {
            let node = walk.node(span, site)?;
            let left = left_side(walk, place.get())?;
            assign(walk, node, left, value.get(), place.get())
        }
        ExprNode::Update(_, place, value) => {
            let node = walk.node(span, site)?;
            let updated = expression(walk, false, Site::Place, place.get())?;
            let value = expression(walk, false, Site::Value, value.get())?;
            update(walk, node, updated, value, place.get())
        }
        ExprNode::Call(callee, arguments) => {
            call(walk, site, span, callee, arguments.as_slice())
        }
        ExprNode::NextInput => walk.next_input(site, span),
        ExprNode::Variant(name, case, arguments) => match arguments {
            None => variant(walk, site, span, name, case, &[]),
            Some(arguments) => variant(walk, site, span, name, case, arguments.as_slice()),
        },
        ExprNode::Make(name, fields) => make(walk, site, span, name, fields.as_slice()),
        ExprNode::Print(inner) => print(walk, site, span, inner.get()),
        ExprNode::Block(inner) => block(walk, site, span, inner.get()),
        ExprNode::If(test, body, rest) => {
            let node = walk.node(span, site)?;
            let test = condition(walk, test.get())?;
            let body = branch(walk, node, is_there(rest), body.get())?;
            other(walk, node, test.diverges, body, rest)
        }
        ExprNode::IfLet(pattern, value, body, rest) => {
            let node = walk.node(span, site)?;
            let value = scrutinee(walk, value.get(), pattern)?;
            let body = branch(walk, node, is_there(rest), body.get())?;
            other(walk, node, value.diverges, body, rest)
        }
        ExprNode::Match(value, arms) => {
            let node = walk.node(span, site)?;
            let seen = matched_value(walk, value.get())?;
            all_arms(walk, arms.as_slice(), value.get(), node, seen)
        }
        ExprNode::Loop(label, body) => endless(walk, site, span, label, body.get()),
        ExprNode::While(_, test, body) => {
            let node = walk.node(span, site)?;
            walk.cursor.new_loop()?;
            let test = condition(walk, test.get())?;
            unit_body(walk, body.get())?;
            unit(walk, node, test.diverges)
        }
        ExprNode::WhileLet(_, pattern, value, body) => {
            let node = walk.node(span, site)?;
            walk.cursor.new_loop()?;
            let value = scrutinee(walk, value.get(), pattern)?;
            unit_body(walk, body.get())?;
            unit(walk, node, value.diverges)
        }
        ExprNode::Break(label) => walk.break_jump(site, span, label),
        ExprNode::Continue(label) => walk.continue_jump(site, span, label),
        ExprNode::Return(value) => return_jump(walk, site, span, value),
    }
}

#[cycle(expression)]
fn field_step<'t>(
    walk: &mut Walk<'t>,
    site: Site,
    span: Span,
    inner: &'t Expr,
    name: &Ident,
) -> Result<Seen, AllocError>
    ensures { walks.Walks (naming.of_expression false site (plain.field span (plain-Expr inner.now) name.now)) (demands.of_form walk.old.item) seeing.seen_of walk.old result walk.new }
{
    let node = walk.node(span, site)?;
    let place = expression(walk, false, Site::Place, inner)?;
    let made = Op::Field(name.name.copy(walk.alloc)?);
    walk.step_at(node, made, place.node)?;
    Ok(part_seen(node, place))
}

#[cycle(expression)]
fn part_step<'t>(
    walk: &mut Walk<'t>,
    site: Site,
    span: Span,
    inner: &'t Expr,
    index: u64,
) -> Result<Seen, AllocError>
    ensures { walks.Walks (naming.of_expression false site (plain.part span (plain-Expr inner.now) index)) (demands.of_form walk.old.item) seeing.seen_of walk.old result walk.new }
{
    let node = walk.node(span, site)?;
    let place = expression(walk, false, Site::Place, inner)?;
    walk.step_at(node, Op::Part(index), place.node)?;
    Ok(part_seen(node, place))
}

#[cycle(expression)]
fn dereference<'t>(
    walk: &mut Walk<'t>,
    site: Site,
    span: Span,
    inner: &'t Expr,
) -> Result<Seen, AllocError>
    ensures { walks.Walks (naming.of_expression false site (plain.deref span (plain-Expr inner.now))) (demands.of_form walk.old.item) seeing.seen_of walk.old result walk.new }
{
    let node = walk.node(span, site)?;
    let place = expression(walk, false, Site::Place, inner)?;
    walk.step_at(node, Op::Pointee, place.node)?;
    Ok(part_seen(node, place))
}

#[cycle(expression)]
fn negation<'t>(
    walk: &mut Walk<'t>,
    site: Site,
    span: Span,
    inner: &'t Expr,
) -> Result<Seen, AllocError>
    ensures { walks.Walks (naming.of_expression false site (plain.negate span (plain-Expr inner.now))) (demands.of_form walk.old.item) seeing.seen_of walk.old result walk.new }
{
    let node = walk.node(span, site)?;
    let inner = expression(walk, true, Site::Value, inner)?;
    walk.negated(node, inner)?;
    Ok(value_seen(node, false, inner.diverges))
}

#[cycle(expression)]
fn inversion<'t>(
    walk: &mut Walk<'t>,
    site: Site,
    span: Span,
    inner: &'t Expr,
) -> Result<Seen, AllocError>
    ensures { walks.Walks (naming.of_expression false site (plain.invert span (plain-Expr inner.now))) (demands.of_form walk.old.item) seeing.seen_of walk.old result walk.new }
{
    let node = walk.node(span, site)?;
    let inner = expression(walk, false, Site::Value, inner)?;
    walk.inverted(node, inner)?;
    Ok(value_seen(node, false, inner.diverges))
}

#[cycle(expression)]
#[tactic(auto, using(rx_typeck_demand_parts::proofs::Placed::through_here))]
fn borrow<'t>(
    walk: &mut Walk<'t>,
    site: Site,
    span: Span,
    mutable: bool,
    inner: &'t Expr,
) -> Result<Seen, AllocError>
    ensures { walks.Walks (naming.of_expression false site (plain.borrow span mutable (plain-Expr inner.now))) (demands.of_form walk.old.item) seeing.seen_of walk.old result walk.new }
{
    let node = walk.node(span, site)?;
    let place = expression(walk, false, Site::Place, inner)?;
    walk.borrowed(node, mutable, place, inner)?;
    Ok(value_seen(node, false, place.diverges))
}

#[cycle(expression)]
fn print<'t>(
    walk: &mut Walk<'t>,
    site: Site,
    span: Span,
    inner: &'t Expr,
) -> Result<Seen, AllocError>
    ensures { walks.Walks (naming.of_expression false site (plain.print span (plain-Expr inner.now))) (demands.of_form walk.old.item) seeing.seen_of walk.old result walk.new }
{
    let node = walk.node(span, site)?;
    let inner = expression(walk, false, Site::Value, inner)?;
    walk.printed(inner)?;
    walk.own(node, Op::Unit, &[])?;
    Ok(value_seen(node, false, inner.diverges))
}

/// An operator behind its operands.
fn binary(
    walk: &mut Walk<'_>,
    node: Node,
    operator: BinaryOp,
    left: Seen,
    right: Seen,
) -> Result<Seen, AllocError>
    ensures { IfOk result (λ seen. (seen ≡ seeing.value_seen node false (left.diverges || (named.is_strict operator && right.diverges))) × (walk.new ≡ walks.asked (demands.operation operator node left.node left.never right.node right.never) walk.old)) }
{
    walk.operation(operator, node, left, right)?;
    let diverges = either(left.diverges, both(is_strict(operator), right.diverges));
    Ok(value_seen(node, false, diverges))
}

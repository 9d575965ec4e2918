//! Typed expressions, form by form.

ghost use Rattle.rx_tree.specs.PlainOf.{plain-Expr as plain-ExprTree};
ghost use Rattle.rx_typed.specs.Naming as naming;
ghost use Rattle.rx_typed.specs.Elaborated as elaborated;
ghost use Rattle.rx_typed.specs.PlainTree.{plain-Expr};
ghost use Rattle.rx_typeck_elaborate_parts.specs.Seeing.{seen_of};
ghost use Rattle.rx_typeck_elaborate_parts.specs.Walks as walks;

use crate::branches::{block, if_at, if_let, match_at, return_at};
use crate::expressions::{assign, binary, borrow, invert, negate, print, update};
use crate::operands::{call_tree, make_tree, tuple_tree, variant_tree};
use crate::statements::{loop_at, while_at, while_let};
use crate::walked_places::{deref_value, field_value, part_value};
use rx_tree::{Expr as ExprTree, ExprNode};
use rx_typeck_elaborate_parts::{Seen, Walk};
use rx_typed::{Expr, Site};
use std::alloc::AllocError;

/// A value: whether it stands directly under a minus, and what its place makes of it.
#[cycle(expression)]
#[tactic(auto, using(rx_tree::proofs::Rules::expression_rules, rx_tree::proofs::Rules::block_rules, rx_tree::proofs::Rules::let_rules, rx_typed::proofs::Rules::typed_tree_rules, rx_typeck_elaborate_parts::proofs::Listed::listed_rules))]
pub(crate) fn expression<'t>(
    walk: &mut Walk<'t>,
    minus: bool,
    site: Site,
    expr: &'t ExprTree,
) -> Result<(Expr, Seen), AllocError>
    ensures { walks.Tells plain-Expr (naming.of_expression minus site (plain-ExprTree expr.now)) elaborated.value seen_of walk.old result walk.new }
{
    let span = expr.span;
    match &expr.node {
        ExprNode::Int(number, suffix) => walk.integer(span, site, minus, *number, *suffix),
        ExprNode::Bool(truth) => walk.truth(span, site, *truth),
        ExprNode::Tuple(parts) => tuple_tree(walk, span, site, parts.as_slice()),
        ExprNode::Var(name) => walk.variable_value(span, site, name),
        ExprNode::Field(inner, name) => field_value(walk, span, site, inner.get(), name),
        ExprNode::Part(inner, number) => part_value(walk, span, site, inner.get(), *number),
        ExprNode::Deref(inner) => deref_value(walk, span, site, inner.get()),
        ExprNode::Neg(inner) => negate(walk, span, site, inner.get()),
        ExprNode::Not(inner) => invert(walk, span, site, inner.get()),
        ExprNode::Borrow(mutable, inner) => borrow(walk, span, site, *mutable, inner.get()),
        ExprNode::Binary(op, left, right) => {
            binary(walk, span, site, *op, left.get(), right.get())
        }
        ExprNode::Assign(left, right) => assign(walk, span, site, left.get(), right.get()),
        ExprNode::Update(op, left, right) => {
            update(walk, span, site, *op, left.get(), right.get())
        }
        ExprNode::Call(callee, arguments) => {
            call_tree(walk, span, site, callee, arguments.as_slice())
        }
        ExprNode::NextInput => walk.next_input(span, site),
        ExprNode::Variant(name, variant, arguments) => {
            variant_tree(walk, span, site, name, variant, arguments)
        }
        ExprNode::Make(name, fields) => make_tree(walk, span, site, name, fields.as_slice()),
        ExprNode::Print(inner) => print(walk, span, site, inner.get()),
        ExprNode::Block(body) => block(walk, span, site, body.get()),
        ExprNode::If(condition, body, other) => {
            if_at(walk, other, span, site, condition.get(), body.get())
        }
        ExprNode::IfLet(pattern, expr, body, other) => {
            if_let(walk, other, span, site, pattern, expr.get(), body.get())
        }
        ExprNode::Match(expr, arms) => match_at(walk, span, site, expr.get(), arms.as_slice()),
        ExprNode::Loop(label, body) => loop_at(walk, span, site, label, body.get()),
        ExprNode::While(label, condition, body) => {
            while_at(walk, span, site, label, condition.get(), body.get())
        }
        ExprNode::WhileLet(label, pattern, expr, body) => {
            while_let(walk, span, site, label, pattern, expr.get(), body.get())
        }
        ExprNode::Break(label) => walk.break_at(span, site, label),
        ExprNode::Continue(label) => walk.continue_at(span, site, label),
        ExprNode::Return(other) => return_at(walk, span, site, other),
    }
}

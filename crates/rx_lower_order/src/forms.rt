//! Flows of expressions, by their forms.

ghost use Rattle.std.specs.Prelude.{◌≡◌, IfOk};
ghost use Rattle.rx_typed.specs.Tree as tree;
ghost use Rattle.rx_typed.specs.PlainTree.{plain-Expr};
ghost use Rattle.rx_lower_walks.specs.Orders as order;
ghost use Rattle.rx_lower_walks.specs.Flows.{order_of};
ghost use Rattle.rx_lower_walks.specs.PlainFlow.{plain-Flow, plain-Temporary};

use crate::expressions::{assign, build, call, give, lazily, print, repeat, share, update};
use crate::statements::{arm_flows, matched_items, statement_items, then_last};
use crate::{acts, borrow, jump, read, subject_of, temporary_of};
use rx_lower_walks::{Act, Flow, Temporary};
use rx_typed::{Expr, Form};
use std::alloc::{AllocError, Global};

/// The flow of an expression, whose value goes to this temporary.
#[cycle(expression)]
#[tactic(auto, using(rx_typed::proofs::Rules::typed_tree_rules, rx_lower_walks::proofs::Rules::flow_rules))]
pub(crate) fn expression(alloc: Global, expr: &Expr, into: Temporary) -> Result<Flow, AllocError>
    ensures { IfOk result (λ it. order_of (plain-Flow it) ≡ order.order (plain-Expr expr.now) (plain-Temporary into)) }
{
    let mark = &expr.mark;
    match &expr.form {
        Form::Read(moves, place) => read(alloc, mark.node, *moves, place, into),
        Form::Borrow(mutable, place) => borrow(alloc, mark.node, *mutable, place, into),
        Form::Share(value) => share(alloc, value, mark, into),
        Form::Build(making, operands) => build(alloc, operands, mark, *making, into),
        Form::Unit => Ok(Flow::Nothing),
        Form::Lazily(both, left, right) => {
            let from = temporary_of(left.get());
            let first = value(alloc, left.get())?;
            lazily(alloc, right, first, from, mark, *both, into)
        }
        Form::Assign(place, value) => assign(alloc, value, mark, place, into),
        Form::Update(op, place, value) => update(alloc, value, mark, *op, place, into),
        Form::Call(function, operands) => call(alloc, operands, mark, *function, into),
        Form::Input => Ok(acts(mark.node, Act::Input(into))),
        Form::Print(value) => print(alloc, value, mark, into),
        Form::Block(statements, last) => {
            let items = statement_items(alloc, statements.as_slice(), mark.node)?;
            then_last(alloc, last, items, into)
        }
        Form::Choose(matched, arms) => {
            let first = matched_items(alloc, matched)?;
            arm_flows(alloc, arms.as_slice(), first, subject_of(matched), into)
        }
        Form::Loop(number, body) => repeat(alloc, body, mark, *number, into),
        Form::Jump(number, again) => Ok(jump(mark.node, *number, *again)),
        Form::Give(value) => give(alloc, value, mark, into),
    }
}

/// The flow of an expression whose value goes to its own temporary.
#[cycle(expression)]
pub(crate) fn value(alloc: Global, expr: &Expr) -> Result<Flow, AllocError>
    ensures { IfOk result (λ it. order_of (plain-Flow it) ≡ order.order (plain-Expr expr.now) (tree.temporary_of (plain-Expr expr.now))) }
{
    expression(alloc, expr, temporary_of(expr))
}

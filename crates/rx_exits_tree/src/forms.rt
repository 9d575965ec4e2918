//! Copies of expressions, by their forms.

ghost use Rattle.std.specs.Prelude.{◌≡◌, IfOk};
ghost use Rattle.rx_typed.specs.PlainTree.{plain-Expr};
ghost use Rattle.rx_exits_plan.specs.Changed.{changed};
ghost use Rattle.rx_exits_tree.specs.Changing.{changes_of};

use crate::changes::{Change, at_block};
use crate::expressions::{
    assign, borrow, build, call, give, input, lazily, print, read, repeat, share, unit, update,
};
use crate::marks::jump;
use crate::statements::{block_last, block_statements, choose, matched};
use rx_core::Boxed;
use rx_typed::{Expr, Form};
use std::alloc::{AllocError, Global};

/// A copy with changes inside.
#[cycle(expression)]
#[tactic(auto, using(rx_typed::proofs::Rules::typed_tree_rules))]
pub(crate) fn expression(alloc: Global, expr: &Expr, change: Change<'_>) -> Result<Expr, AllocError>
    ensures { IfOk result (λ it. plain-Expr it ≡ changed (changes_of change.entry) (plain-Expr expr.now)) }
{
    let mark = &expr.mark;
    match &expr.form {
        Form::Read(moves, place) => read(alloc, mark, *moves, place),
        Form::Borrow(mutable, place) => borrow(alloc, mark, *mutable, place),
        Form::Share(value) => share(alloc, value, mark, change),
        Form::Build(making, operands) => build(alloc, operands, mark, *making, change),
        Form::Unit => unit(alloc, mark),
        Form::Lazily(both, left, right) => {
            let left = boxed(alloc, left, change)?;
            lazily(alloc, right, left, mark, *both, change)
        }
        Form::Assign(place, value) => assign(alloc, value, mark, place, change),
        Form::Update(op, place, value) => update(alloc, value, mark, *op, place, change),
        Form::Call(function, operands) => call(alloc, operands, mark, *function, change),
        Form::Input => input(alloc, mark),
        Form::Print(value) => print(alloc, value, mark, change),
        Form::Block(all, last) => {
            let at = at_block(change, mark.node);
            let copies = block_statements(alloc, all, at, change)?;
            block_last(alloc, last, copies, mark, at, change)
        }
        Form::Choose(scrutinee, all) => {
            let scrutinee = matched(alloc, scrutinee, change)?;
            choose(alloc, all, scrutinee, mark, change)
        }
        Form::Loop(number, body) => repeat(alloc, body, mark, *number, change),
        Form::Jump(number, again) => jump(alloc, mark, *number, *again, change),
        Form::Give(value) => give(alloc, value, mark, change),
    }
}

/// The same in a box.
#[cycle(expression)]
pub(crate) fn boxed(
    alloc: Global,
    expr: &Boxed<Expr>,
    change: Change<'_>,
) -> Result<Boxed<Expr>, AllocError>
    ensures { IfOk result (λ it. plain-Expr it ≡ changed (changes_of change.entry) (plain-Expr expr.now)) }
{
    Boxed::new(alloc, expression(alloc, expr.get(), change)?)
}

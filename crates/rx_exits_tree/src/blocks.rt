//! The parts of a run's block, and its tail.

ghost use Rattle.std.specs.Prelude.{◌≡◌, take, drop, if◌then◌else◌, IfOk};
ghost use Rattle.rx_typed.specs.Tree as tree;
ghost use Rattle.rx_typed.specs.PlainTree.{plain-Expr};
ghost use Rattle.rx_exits_tree.specs.Shapes.{gives_at};

use crate::expressions::given_by;
use rx_exits_plan::Run;
use rx_typed::{Expr, Form, Stmt};
use std::alloc::{AllocError, Global};

/// The first statements, as many as there are.
fn first_of(all: &[Stmt], count: usize) -> &[Stmt]
    ensures { result.now ≡ take count all.now }
{
    if count < all.len() {
        &all[..count]
    } else {
        all
    }
}

/// The statements behind the first.
fn rest_of(all: &[Stmt], count: usize) -> &[Stmt]
    ensures { result.now ≡ drop count all.now }
{
    if count < all.len() {
        &all[count..]
    } else {
        &all[all.len()..]
    }
}

/// Those in front of the run.
pub(crate) fn in_front(all: &[Stmt], run: Run) -> &[Stmt]
    ensures { result.now ≡ take run.first all.now }
{
    first_of(all, run.first)
}

/// Those of the run.
pub(crate) fn inside(all: &[Stmt], run: Run) -> &[Stmt]
    ensures { result.now ≡ take run.count (drop run.first all.now) }
{
    first_of(rest_of(all, run.first), run.count)
}

/// Those behind the run.
pub(crate) fn behind(all: &[Stmt], run: Run) -> &[Stmt]
    ensures { result.now ≡ drop run.count (drop run.first all.now) }
{
    rest_of(rest_of(all, run.first), run.count)
}

/// Whether the expression is a `return` at this node. Only the end of a function's body is one at the node of its block.
fn is_given_at(last: &Expr, node: usize) -> bool
    ensures { result ≡ gives_at node (plain-Expr last.now) }
{
    match &last.form {
        Form::Give(_) => last.mark.node == node,
        _ => false,
    }
}

/// A value, and the end of the function's body behind it where the tail was one.
pub(crate) fn given_again(
    alloc: Global,
    last: &Expr,
    node: usize,
    value: Expr,
) -> Result<Expr, AllocError>
    ensures { IfOk result (λ it. plain-Expr it ≡ (if gives_at node (plain-Expr last.now) then tree.give (tree.mark_of (plain-Expr last.now)) (plain-Expr value) else plain-Expr value)) }
{
    if is_given_at(last, node) {
        given_by(alloc, &last.mark, value)
    } else {
        Ok(value)
    }
}

//! The run alone.

ghost use Rattle.std.specs.Prelude.{◌≡◌, ◌++◌, IfOk, map};
ghost use Rattle.rx_typed.specs.PlainTree.{plain-Expr, plain-Stmt, plain-TypedTree, nested_of};
ghost use Rattle.rx_exits_plan.specs.PlainPlan.{plain-Run};
ghost use Rattle.rx_exits_plan.specs.Runs.{last_value};
ghost use Rattle.rx_exits_tree.specs.Alone.{alone, value_as_statement};
ghost use Rattle.rx_exits_tree.specs.Shapes.{plain-Statement};

use crate::blocks::inside;
use crate::changes::Change;
use crate::marks::{at_node, block_of, runs_behind, unit_of};
use crate::statements::{statements, value_of};
use rx_core::{List, keep};
use rx_exits_plan::Run;
use rx_typed::{Expr, Stmt, TypedTree};
use std::alloc::{AllocError, Global};

/// The run's last value as a statement, behind others.
fn with_value(
    alloc: Global,
    held: List<Stmt>,
    last: &Expr,
    run: Run,
) -> Result<List<Stmt>, AllocError>
    ensures { (all : List Stmt) → IfOk result (λ it. map plain-Statement it ≡ map plain-Statement held
        ++ value_as_statement (last_value (plain-Run run) (nested_of (map plain-Stmt all) (plain-Expr last.now)))) }
{
    if run.tail {
        let (value, held) = keep(held, value_of(alloc, last, run.block, Change::Keep))?;
        runs_behind(held, value)
    } else {
        Ok(held)
    }
}

/// The run as a function of its own, which has the actions of the run: by its block's statements and tail. The function has no
/// parameters, and its body leaves by its end.
pub fn run_alone(
    alloc: Global,
    all: &[Stmt],
    last: &Expr,
    run: Run,
) -> Result<TypedTree, AllocError>
    ensures { IfOk result (λ it. plain-TypedTree it ≡ alone (plain-Run run) (nested_of (map plain-Stmt all.now) (plain-Expr last.now))) }
{
    let copies = statements(alloc, inside(all, run), List::new(alloc), Change::Keep)?;
    let copies = with_value(alloc, copies, last, run)?;
    let body = block_of(
        alloc,
        at_node(run.block),
        copies,
        unit_of(at_node(run.block)),
    )?;
    Ok(TypedTree {
        params: List::new(alloc),
        body,
    })
}

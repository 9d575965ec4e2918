//! The statements of a run, those around it, and its last value.

ghost use Rattle.std.specs.Prelude.{◌≡◌, ◌++◌, OnOk, take, drop, map};
ghost use Rattle.rx_typed.specs.PlainTree.{plain-Expr};
ghost use Rattle.rx_exits_plan.specs.Blocks.{declared_by, declared_by_all, written_tail};
ghost use Rattle.rx_exits_plan.specs.Runs as runs;
ghost use Rattle.rx_exits_plan.specs.PlainPlan.{plain-Run};
ghost use Rattle.rx_exits_plan.specs.PlainSyntax.{plain-Statement, plain-Home, plain-Value};

use crate::Run;
use crate::around::push_all;
use crate::bound::push_bound;
use crate::parts::Home;
use rx_core::List;
use rx_typed::{Expr, Form, Stmt};
use std::alloc::AllocError;

/// The first few statements.
fn first<'t>(stmts: &'t [Stmt], count: usize) -> &'t [Stmt]
    ensures { result.now ≡ take count stmts.now }
{
    if count < stmts.len() {
        &stmts[..count]
    } else {
        stmts
    }
}

/// All statements but the first few.
fn rest<'t>(stmts: &'t [Stmt], count: usize) -> &'t [Stmt]
    ensures { result.now ≡ drop count stmts.now }
{
    let from = if count < stmts.len() {
        count
    } else {
        stmts.len()
    };
    &stmts[from..]
}

/// The statements in front of a run.
pub fn in_front<'t>(home: &Home<'t>, run: Run) -> &'t [Stmt]
    ensures { map plain-Statement result.now ≡ runs.in_front (plain-Run run) (plain-Home home.now).body }
{
    first(home.stmts, run.first)
}

/// The statements of a run.
pub fn inside<'t>(home: &Home<'t>, run: Run) -> &'t [Stmt]
    ensures { map plain-Statement result.now ≡ runs.inside (plain-Run run) (plain-Home home.now).body }
{
    first(rest(home.stmts, run.first), run.count)
}

/// The statements behind a run.
pub fn behind<'t>(home: &Home<'t>, run: Run) -> &'t [Stmt]
    ensures { map plain-Statement result.now ≡ runs.behind (plain-Run run) (plain-Home home.now).body }
{
    rest(rest(home.stmts, run.first), run.count)
}

/// The tail as it is written: that of a function's body stands in a `Give` at the block's node.
#[tactic(auto, using(rx_typed::proofs::Rules::typed_tree_rules))]
fn written_tail<'t>(node: usize, tail: &'t Expr) -> &'t Expr
    ensures { plain-Expr result.now ≡ written_tail node (plain-Expr tail.now) }
{
    match &tail.form {
        Form::Give(inner) => {
            if tail.mark.node == node {
                inner.get()
            } else {
                tail
            }
        }
        Form::Read(_, _) | Form::Borrow(_, _) | Form::Share(_) | Form::Build(_, _) => tail,
        Form::Unit | Form::Lazily(_, _, _) | Form::Assign(_, _) | Form::Update(_, _, _) => tail,
        Form::Call(_, _) | Form::Input | Form::Print(_) | Form::Block(_, _) => tail,
        Form::Choose(_, _) | Form::Loop(_, _) | Form::Jump(_, _) => tail,
    }
}

/// The last value of a run, where the block's tail is of it.
#[tactic(auto, using(crate::proofs::StatementLemmas::body_tail))]
pub fn last_value<'t>(home: &Home<'t>, run: Run) -> Option<&'t Expr>
    ensures { plain-Value result ≡ runs.last_value (plain-Run run) (plain-Home home.now).body }
{
    if run.tail {
        Some(written_tail(run.block, home.tail))
    } else {
        None
    }
}

/// Adds the variables that a statement declares.
#[tactic(auto, using(rx_typed::proofs::Rules::typed_tree_rules, crate::proofs::StatementLemmas::statement_rules))]
pub fn push_declared(variables: &mut List<u32>, stmt: &Stmt) -> Result<(), AllocError>
    ensures { OnOk result (variables.new ≡ variables.old ++ declared_by (plain-Statement stmt.now)) }
{
    match stmt {
        Stmt::Runs(_) => Ok(()),
        Stmt::Declares(_, declared) => push_all(variables, declared.as_slice()),
        Stmt::Lets(_, pattern, _) => push_bound(variables, pattern),
    }
}

/// Adds the variables that statements declare.
pub fn push_all_declared(variables: &mut List<u32>, stmts: &[Stmt]) -> Result<(), AllocError>
    ensures { OnOk result (variables.new ≡ variables.old ++ declared_by_all (map plain-Statement stmts.now)) }
{
    for stmt in stmts {
        push_declared(variables, stmt)?;
    }
    Ok(())
}

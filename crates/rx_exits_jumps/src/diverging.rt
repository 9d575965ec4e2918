//! Whether a part of a function never goes on, by its syntax.

ghost use Rattle.std.specs.Prelude.{◌≡◌, map};
ghost use Rattle.rx_typed.specs.PlainTree.{plain-Expr, plain-Operand, plain-Arm, plain-Matched, plain-Mark, operands_of, arms_of};
ghost use Rattle.rx_typed.specs.Tree.{loop};
ghost use Rattle.rx_exits_plan.specs.Diverging as diverging;
ghost use Rattle.rx_exits_plan.specs.PlainSyntax.{plain-Statement};
ghost use Rattle.rx_exits_jumps.specs.Broken as broken;

use crate::breaking::breaks;
use rx_core::Boxed;
use rx_typed::{Arm, Expr, Form, Mark, Matched, Operand, Stmt};

/// Whether an expression never goes on, by its syntax (Rust Reference, "Never type").
#[cycle(diverging)]
#[tactic(auto, using(rx_typed::proofs::Rules::typed_tree_rules, crate::proofs::BrokenLemmas::diverging_rules))]
pub fn diverges(expr: &Expr) -> bool
    ensures { result ≡ diverging.diverges (plain-Expr expr.now) }
{
    match &expr.form {
        Form::Read(_, _) | Form::Borrow(_, _) | Form::Unit | Form::Input => false,
        Form::Share(inner) => diverges(inner.get()),
        Form::Build(_, operands) => some_diverges(operands.as_slice()),
        Form::Lazily(_, left, _) => diverges(left.get()),
        Form::Assign(_, value) => diverges(value.get()),
        Form::Update(_, _, value) => diverges(value.get()),
        Form::Call(_, operands) => some_diverges(operands.as_slice()),
        Form::Print(value) => diverges(value.get()),
        Form::Block(stmts, tail) => any_diverges(stmts.as_slice()) || diverges(tail.get()),
        Form::Choose(matched, arms) => { matched_diverges(matched) || all_diverge(arms.as_slice()) }
        Form::Loop(number, body) => loop_diverges(body, &expr.mark, *number),
        Form::Jump(_, _) | Form::Give(_) => true,
    }
}

/// Whether an expression is a `match` or an `if`, as the body of a `while` is.
#[tactic(auto, using(rx_typed::proofs::Rules::typed_tree_rules))]
fn is_choose(expr: &Expr) -> bool
    ensures { result ≡ broken.is_choose (plain-Expr expr.now) }
{
    match &expr.form {
        Form::Choose(_, _) => true,
        Form::Read(_, _) | Form::Borrow(_, _) | Form::Share(_) | Form::Build(_, _) => false,
        Form::Unit | Form::Lazily(_, _, _) | Form::Assign(_, _) | Form::Update(_, _, _) => false,
        Form::Call(_, _) | Form::Input | Form::Print(_) | Form::Block(_, _) => false,
        Form::Loop(_, _) | Form::Jump(_, _) | Form::Give(_) => false,
    }
}

/// Whether what a `match` or an `if` tests never goes on.
#[cycle(diverging)]
#[tactic(auto, using(rx_typed::proofs::Rules::typed_tree_rules))]
fn test_diverges(expr: &Expr) -> bool
    ensures { result ≡ broken.test_diverges (plain-Expr expr.now) }
{
    match &expr.form {
        Form::Choose(matched, _) => matched_diverges(matched),
        Form::Read(_, _) | Form::Borrow(_, _) | Form::Share(_) | Form::Build(_, _) => false,
        Form::Unit | Form::Lazily(_, _, _) | Form::Assign(_, _) | Form::Update(_, _, _) => false,
        Form::Call(_, _) | Form::Input | Form::Print(_) | Form::Block(_, _) => false,
        Form::Loop(_, _) | Form::Jump(_, _) | Form::Give(_) => false,
    }
}

/// A `while` never goes on where its test doesn't; another loop where no `break` leaves it.
#[cycle(diverging)]
fn loop_diverges(body: &Boxed<Expr>, _mark: &Mark, number: u32) -> bool
    ensures { result ≡ diverging.diverges (loop (plain-Mark _mark.now) number (plain-Expr body.now)) }
{
    let body = body.get();
    if is_choose(body) {
        test_diverges(body)
    } else {
        !breaks(number, body)
    }
}

#[cycle(diverging)]
#[tactic(auto, using(rx_typed::proofs::Rules::typed_tree_rules))]
fn some_diverges(operands: &[Operand]) -> bool
    ensures { result ≡ diverging.some_diverges (operands_of (map plain-Operand operands.now)) }
{
    for operand in operands {
        if diverges(&operand.value) {
            return true;
        }
    }
    false
}

#[cycle(diverging)]
#[tactic(auto, using(rx_typed::proofs::Rules::typed_tree_rules))]
fn matched_diverges(matched: &Matched) -> bool
    ensures { result ≡ diverging.matched_diverges (plain-Matched matched.now) }
{
    match matched {
        Matched::Place(_, _) => false,
        Matched::Value(expr) => diverges(expr.get()),
    }
}

#[cycle(diverging)]
#[tactic(auto, using(rx_typed::proofs::Rules::typed_tree_rules))]
fn all_diverge(arms: &[Arm]) -> bool
    ensures { result ≡ diverging.all_diverge (arms_of (map plain-Arm arms.now)) }
{
    for arm in arms {
        if !diverges(&arm.body) {
            return false;
        }
    }
    true
}

#[cycle(diverging)]
#[tactic(auto, using(rx_typed::proofs::Rules::typed_tree_rules))]
fn stmt_diverges(stmt: &Stmt) -> bool
    ensures { result ≡ broken.statement_diverges (plain-Statement stmt.now) }
{
    match stmt {
        Stmt::Runs(expr) => diverges(expr),
        Stmt::Declares(_, _) => false,
        Stmt::Lets(_, _, matched) => matched_diverges(matched),
    }
}

/// Whether one of these statements never goes on.
#[cycle(diverging)]
#[tactic(auto, using(crate::proofs::BrokenLemmas::diverging_rules))]
pub(crate) fn any_diverges(stmts: &[Stmt]) -> bool
    ensures { result ≡ diverging.any_diverges (map plain-Statement stmts.now) }
{
    for stmt in stmts {
        if stmt_diverges(stmt) {
            return true;
        }
    }
    false
}

//! Whether an expression gives the unit, where it gives something, by its form; and whether each return in it is of the unit.

ghost use Rattle.std.specs.Prelude.{◌≡◌, ◌&&◌, Some, map};
ghost use Rattle.rx_typed.specs.Tree.{Exp, Body};
ghost use Rattle.rx_typed.specs.PlainTree.{plain-Expr, plain-Operand, plain-Arm, plain-Matched, plain-Stmt, plain-TypedTree, operands_of, arms_of, nested_of};
ghost use Rattle.rx_engine_alike.specs.Units as units_of;

use crate::variables::is_in;
use rx_typed::{Arm, Expr, Form, Matched, Operand, Stmt, TypedTree};

/// Whether an expression gives the unit, with the items of functions whose calls do.
#[cycle(given)]
#[tactic(auto, using(rx_typed::proofs::Rules::typed_tree_rules, crate::proofs::BlockLemmas::block_rules))]
pub fn gives_unit(units: &[u32], expr: &Expr) -> bool
    ensures { result ≡ units_of.gives_unit units.now (plain-Expr expr.now) }
{
    match &expr.form {
        Form::Unit | Form::Assign(_, _) | Form::Update(_, _, _) | Form::Print(_) => true,
        Form::Call(function, _) => is_in(*function, units),
        Form::Block(_, tail) => gives_unit(units, tail.get()),
        Form::Choose(_, arms) => all_give_unit(units, arms.as_slice()),
        Form::Loop(_, _) | Form::Jump(_, _) | Form::Give(_) => true,
        Form::Read(_, _) | Form::Borrow(_, _) | Form::Share(_) | Form::Build(_, _) => false,
        Form::Lazily(_, _, _) | Form::Input => false,
    }
}

#[cycle(given)]
#[tactic(auto, using(rx_typed::proofs::Rules::typed_tree_rules))]
fn arm_gives_unit(units: &[u32], arm: &Arm) -> bool
    ensures { result ≡ units_of.gives_unit units.now (plain-Arm arm.now).1 }
{
    gives_unit(units, &arm.body)
}

#[cycle(given)]
fn all_give_unit(units: &[u32], arms: &[Arm]) -> bool
    ensures { result ≡ units_of.all_give_unit units.now (arms_of (map plain-Arm arms.now)) }
{
    for arm in arms {
        if !arm_gives_unit(units, arm) {
            return false;
        }
    }
    true
}

/// Whether each return in an expression is of the unit.
#[cycle(returned)]
#[tactic(auto, using(rx_typed::proofs::Rules::typed_tree_rules))]
pub fn returns_unit(units: &[u32], expr: &Expr) -> bool
    ensures { result ≡ units_of.returns_unit units.now (plain-Expr expr.now) }
{
    match &expr.form {
        Form::Read(_, _) | Form::Borrow(_, _) | Form::Unit | Form::Input => true,
        Form::Share(inner) => returns_unit(units, inner.get()),
        Form::Build(_, operands) => all_return_unit(units, operands.as_slice()),
        Form::Lazily(_, left, right) => {
            returns_unit(units, left.get()) && returns_unit(units, right.get())
        }
        Form::Assign(_, value) => returns_unit(units, value.get()),
        Form::Update(_, _, value) => returns_unit(units, value.get()),
        Form::Call(_, operands) => all_return_unit(units, operands.as_slice()),
        Form::Print(value) => returns_unit(units, value.get()),
        Form::Block(stmts, tail) => {
            stmts_return_unit(units, stmts.as_slice()) && returns_unit(units, tail.get())
        }
        Form::Choose(matched, arms) => {
            matched_returns_unit(units, matched) && arms_return_unit(units, arms.as_slice())
        }
        Form::Loop(_, body) => returns_unit(units, body.get()),
        Form::Jump(_, _) => true,
        Form::Give(value) => gives_unit(units, value.get()) && returns_unit(units, value.get()),
    }
}

#[cycle(returned)]
#[tactic(auto, using(rx_typed::proofs::Rules::typed_tree_rules))]
fn operand_returns_unit(units: &[u32], operand: &Operand) -> bool
    ensures { result ≡ units_of.returns_unit units.now (plain-Operand operand.now).1 }
{
    returns_unit(units, &operand.value)
}

#[cycle(returned)]
fn all_return_unit(units: &[u32], operands: &[Operand]) -> bool
    ensures { result ≡ units_of.all_return_unit units.now (operands_of (map plain-Operand operands.now)) }
{
    for operand in operands {
        if !operand_returns_unit(units, operand) {
            return false;
        }
    }
    true
}

#[cycle(returned)]
#[tactic(auto, using(rx_typed::proofs::Rules::typed_tree_rules))]
fn matched_returns_unit(units: &[u32], matched: &Matched) -> bool
    ensures { result ≡ units_of.matched_returns_unit units.now (plain-Matched matched.now) }
{
    match matched {
        Matched::Place(_, _) => true,
        Matched::Value(expr) => returns_unit(units, expr.get()),
    }
}

#[cycle(returned)]
#[tactic(auto, using(rx_typed::proofs::Rules::typed_tree_rules))]
fn arm_returns_unit(units: &[u32], arm: &Arm) -> bool
    ensures { result ≡ units_of.returns_unit units.now (plain-Arm arm.now).1 }
{
    returns_unit(units, &arm.body)
}

#[cycle(returned)]
fn arms_return_unit(units: &[u32], arms: &[Arm]) -> bool
    ensures { result ≡ units_of.arms_return_unit units.now (arms_of (map plain-Arm arms.now)) }
{
    for arm in arms {
        if !arm_returns_unit(units, arm) {
            return false;
        }
    }
    true
}

/// Whether each return in a statement is of the unit, whatever follows it.
#[cycle(returned)]
#[tactic(auto, using(rx_typed::proofs::Rules::typed_tree_rules))]
fn stmt_returns_unit(units: &[u32], stmt: &Stmt) -> bool
    ensures { (b : Body) → units_of.body_returns_unit units.now (plain-Stmt stmt.now b) ≡ result && units_of.body_returns_unit units.now b }
{
    match stmt {
        Stmt::Runs(expr) => returns_unit(units, expr),
        Stmt::Declares(_, _) => true,
        Stmt::Lets(_, _, matched) => matched_returns_unit(units, matched),
    }
}

/// Whether each return in statements is of the unit, whatever tail follows.
#[cycle(returned)]
fn stmts_return_unit(units: &[u32], stmts: &[Stmt]) -> bool
    ensures { (e : Exp) → units_of.body_returns_unit units.now (nested_of (map plain-Stmt stmts.now) e) ≡ result && units_of.returns_unit units.now e }
{
    for stmt in stmts {
        if !stmt_returns_unit(units, stmt) {
            return false;
        }
    }
    true
}

/// Whether a function leaves by returns of the unit.
pub fn function_returns_unit(units: &[u32], tree: &TypedTree) -> bool
    ensures { result ≡ units_of.function_returns_unit units.now (Some (Some (plain-TypedTree tree.now))) }
{
    returns_unit(units, &tree.body)
}

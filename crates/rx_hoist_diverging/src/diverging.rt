//! The `let`s of a typed tree whose initialiser never goes on.

ghost use Rattle.std.specs.Prelude.{◌≡◌, ◌++◌, ◌∷◌, [], map, if◌then◌else◌, OnOk, IfOk};
ghost use Rattle.rx_typed.specs.PlainTree.{plain-Expr, plain-Operand, plain-Arm, plain-Matched, plain-Stmt, plain-TypedTree, operands_of, arms_of, nested_of};
ghost use Rattle.rx_typed.specs.Tree.{Body as BodyOf, Exp};
ghost use Rattle.rx_exits_plan.specs.Diverging as plan;
ghost use Rattle.rx_hoist_diverging.specs.Diverging as spec;

use rx_exits_jumps::diverges;
use rx_typed::{Arm, Expr, Form, Matched, Operand, Stmt, TypedTree};
use std::alloc::{AllocError, Global};

/// The numbers of these `let`s, in the order of the text.
pub fn diverging_lets(alloc: Global, tree: &TypedTree) -> Result<Vec<usize>, AllocError>
    ensures { IfOk result (λ all. all.items ≡ spec.diverging (plain-TypedTree tree.now).body) }
{
    let mut all = Vec::new(alloc);
    add(&tree.body, &mut all)?;
    Ok(all)
}

#[cycle(diverging)]
#[tactic(auto, using(rx_typed::proofs::Rules::typed_tree_rules, crate::proofs::Lists::append_nothing))]
fn add(expr: &Expr, all: &mut Vec<usize>) -> Result<(), AllocError>
    ensures { OnOk result (all.new.items ≡ all.old.items ++ spec.diverging (plain-Expr expr.now)) }
{
    match &expr.form {
        Form::Read(_, _) | Form::Borrow(_, _) | Form::Unit | Form::Input | Form::Jump(_, _) => Ok(
            (),
        ),
        Form::Share(inner) => add(inner.get(), all),
        Form::Build(_, operands) => add_operands(operands.as_slice(), all),
        Form::Lazily(_, left, right) => {
            add(left.get(), all)?;
            add(right.get(), all)
        }
        Form::Assign(_, value) => add(value.get(), all),
        Form::Update(_, _, value) => add(value.get(), all),
        Form::Call(_, operands) => add_operands(operands.as_slice(), all),
        Form::Print(value) => add(value.get(), all),
        Form::Block(stmts, tail) => {
            add_stmts(stmts.as_slice(), all)?;
            add(tail.get(), all)
        }
        Form::Choose(matched, arms) => {
            add_matched(matched, all)?;
            add_arms(arms.as_slice(), all)
        }
        Form::Loop(_, body) => add(body.get(), all),
        Form::Give(value) => add(value.get(), all),
    }
}

#[cycle(diverging)]
fn add_operands(operands: &[Operand], all: &mut Vec<usize>) -> Result<(), AllocError>
    ensures { OnOk result (all.new.items ≡ all.old.items ++ spec.diverging_operands (operands_of (map plain-Operand operands.now))) }
{
    for operand in operands {
        add(&operand.value, all)?;
    }
    Ok(())
}

#[cycle(diverging)]
#[tactic(auto, using(rx_typed::proofs::Rules::typed_tree_rules, crate::proofs::Lists::append_nothing))]
fn add_matched(matched: &Matched, all: &mut Vec<usize>) -> Result<(), AllocError>
    ensures { OnOk result (all.new.items ≡ all.old.items ++ spec.diverging_matched (plain-Matched matched.now)) }
{
    match matched {
        Matched::Place(_, _) => Ok(()),
        Matched::Value(expr) => add(expr.get(), all),
    }
}

#[cycle(diverging)]
fn add_arms(arms: &[Arm], all: &mut Vec<usize>) -> Result<(), AllocError>
    ensures { OnOk result (all.new.items ≡ all.old.items ++ spec.diverging_arms (arms_of (map plain-Arm arms.now))) }
{
    for arm in arms {
        add(&arm.body, all)?;
    }
    Ok(())
}

/// The number of a `let` whose initialiser is this.
fn add_number(number: usize, value: &Expr, all: &mut Vec<usize>) -> Result<(), AllocError>
    ensures { OnOk result (all.new.items ≡ all.old.items ++ (if plan.diverges (plain-Expr value.now) then number ∷ [] else [])) }
{
    if diverges(value) {
        all.push(number)?;
    }
    Ok(())
}

#[cycle(diverging)]
#[tactic(auto, using(std::proofs::lemmas::List::append_assoc))]
fn add_value(number: usize, value: &Expr, all: &mut Vec<usize>) -> Result<(), AllocError>
    ensures { OnOk result (all.new.items ≡ all.old.items ++ ((if plan.diverges (plain-Expr value.now) then number ∷ [] else []) ++ spec.diverging (plain-Expr value.now))) }
{
    add_number(number, value, all)?;
    add(value, all)
}

#[cycle(diverging)]
#[tactic(auto, using(rx_typed::proofs::Rules::typed_tree_rules, crate::proofs::Lists::append_nothing))]
fn add_let(number: usize, matched: &Matched, all: &mut Vec<usize>) -> Result<(), AllocError>
    ensures { OnOk result (all.new.items ≡ all.old.items ++ spec.diverging_let number (plain-Matched matched.now)) }
{
    match matched {
        Matched::Place(_, _) => Ok(()),
        Matched::Value(expr) => add_value(number, expr.get(), all),
    }
}

/// A statement's own, of which the rest of its block tells no other.
#[cycle(diverging)]
#[tactic(auto, using(rx_typed::proofs::Rules::typed_tree_rules, crate::proofs::Lists::append_nothing))]
fn add_stmt(stmt: &Stmt, all: &mut Vec<usize>) -> Result<(), AllocError>
    ensures { (b : BodyOf) → OnOk result (all.new.items ++ spec.diverging_body b ≡ all.old.items ++ spec.diverging_body (plain-Stmt stmt.now b)) }
{
    match stmt {
        Stmt::Runs(expr) => add(expr, all),
        Stmt::Declares(_, _) => Ok(()),
        Stmt::Lets(number, _, matched) => add_let(*number, matched, all),
    }
}

#[cycle(diverging)]
fn add_stmts(stmts: &[Stmt], all: &mut Vec<usize>) -> Result<(), AllocError>
    ensures { (tail : Exp) → OnOk result (all.new.items ++ spec.diverging tail
        ≡ all.old.items ++ spec.diverging_body (nested_of (map plain-Stmt stmts.now) tail)) }
{
    for stmt in stmts {
        add_stmt(stmt, all)?;
    }
    Ok(())
}

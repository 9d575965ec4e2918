//! The occurrences of variables, in the order of the text.

ghost use Rattle.std.specs.Prelude.{◌≡◌, ◌++◌, OnOk, map};
ghost use Rattle.rx_typed.specs.PlainTree.{plain-Expr, plain-Operand, plain-Arm, plain-Matched, plain-Pattern, plain-Place, operands_of, arms_of};
ghost use Rattle.rx_exits_plan.specs.Blocks.{bound};
ghost use Rattle.rx_exits_plan.specs.Occurrences as occurrences;
ghost use Rattle.rx_exits_plan.specs.PlainSyntax.{plain-Statement};
ghost use Rattle.rx_exits_occurrences.specs.PlainOccurrence.{plain-Occurrence};

use rx_core::{Boxed, LetGo, List, Place};
use rx_exits_plan::push_bound;
use rx_typed::{Arm, Expr, Form, Matched, Operand, Pattern, Stmt};
use std::alloc::{AllocError, Global};

#[derive(Clone, Copy)]
pub(crate) enum Occurrence {
    Names(u32),
    Declares(u32),
}

impl LetGo for Occurrence {
    fn let_go(self) {}
}

fn push_declarations(found: &mut List<Occurrence>, variables: &[u32]) -> Result<(), AllocError>
    ensures { OnOk result (map plain-Occurrence found.new ≡ map plain-Occurrence found.old ++ occurrences.all_declared variables.now) }
{
    for variable in variables {
        found.push(Occurrence::Declares(*variable))?;
    }
    Ok(())
}

/// Adds the variables that a pattern declares.
fn push_pattern(
    alloc: Global,
    found: &mut List<Occurrence>,
    pattern: &Pattern,
) -> Result<(), AllocError>
    ensures { OnOk result (map plain-Occurrence found.new ≡ map plain-Occurrence found.old ++ occurrences.all_declared (bound (plain-Pattern pattern.now))) }
{
    let mut variables = List::new(alloc);
    push_bound(&mut variables, pattern)?;
    push_declarations(found, variables.as_slice())
}

fn push_place(found: &mut List<Occurrence>, place: &Place) -> Result<(), AllocError>
    ensures { OnOk result (map plain-Occurrence found.new ≡ map plain-Occurrence found.old ++ occurrences.named_place (plain-Place place.now)) }
{
    found.push(Occurrence::Names(place.var))
}

/// Adds the occurrences in an expression.
#[cycle(occurring)]
#[tactic(auto, using(rx_typed::proofs::Rules::typed_tree_rules, crate::proofs::OccurringLemmas::occurring_rules))]
pub(crate) fn push_occurrences(
    alloc: Global,
    found: &mut List<Occurrence>,
    expr: &Expr,
) -> Result<(), AllocError>
    ensures { OnOk result (map plain-Occurrence found.new ≡ map plain-Occurrence found.old ++ occurrences.occurrences (plain-Expr expr.now)) }
{
    match &expr.form {
        Form::Unit | Form::Input | Form::Jump(_, _) => Ok(()),
        Form::Read(_, place) => push_place(found, place),
        Form::Borrow(_, place) => push_place(found, place),
        Form::Share(inner) => push_occurrences(alloc, found, inner.get()),
        Form::Build(_, operands) => push_operands(alloc, found, operands.as_slice()),
        Form::Lazily(_, left, right) => {
            push_occurrences(alloc, found, left.get())?;
            push_occurrences(alloc, found, right.get())
        }
        Form::Assign(place, value) => push_named(alloc, found, place, value),
        Form::Update(_, place, value) => push_named(alloc, found, place, value),
        Form::Call(_, operands) => push_operands(alloc, found, operands.as_slice()),
        Form::Print(value) => push_occurrences(alloc, found, value.get()),
        Form::Block(stmts, tail) => {
            push_statements(alloc, found, stmts.as_slice())?;
            push_occurrences(alloc, found, tail.get())
        }
        Form::Choose(matched, arms) => {
            push_matched(alloc, found, matched)?;
            push_arms(alloc, found, arms.as_slice())
        }
        Form::Loop(_, body) => push_occurrences(alloc, found, body.get()),
        Form::Give(value) => push_occurrences(alloc, found, value.get()),
    }
}

/// A place, and the value that it is given.
#[cycle(occurring)]
#[tactic(auto, using(crate::proofs::OccurringLemmas::occurring_rules))]
fn push_named(
    alloc: Global,
    found: &mut List<Occurrence>,
    place: &Place,
    value: &Boxed<Expr>,
) -> Result<(), AllocError>
    ensures { OnOk result (map plain-Occurrence found.new
        ≡ map plain-Occurrence found.old ++ (occurrences.named_place (plain-Place place.now) ++ occurrences.occurrences (plain-Expr value.now))) }
{
    push_place(found, place)?;
    push_occurrences(alloc, found, value.get())
}

#[cycle(occurring)]
#[tactic(auto, using(rx_typed::proofs::Rules::typed_tree_rules))]
fn push_operands(
    alloc: Global,
    found: &mut List<Occurrence>,
    operands: &[Operand],
) -> Result<(), AllocError>
    ensures { OnOk result (map plain-Occurrence found.new
        ≡ map plain-Occurrence found.old ++ occurrences.occurrences_in (operands_of (map plain-Operand operands.now))) }
{
    for operand in operands {
        push_occurrences(alloc, found, &operand.value)?;
    }
    Ok(())
}

#[cycle(occurring)]
#[tactic(auto, using(rx_typed::proofs::Rules::typed_tree_rules, crate::proofs::OccurringLemmas::occurring_rules))]
fn push_matched(
    alloc: Global,
    found: &mut List<Occurrence>,
    matched: &Matched,
) -> Result<(), AllocError>
    ensures { OnOk result (map plain-Occurrence found.new
        ≡ map plain-Occurrence found.old ++ occurrences.occurrences_matched (plain-Matched matched.now)) }
{
    match matched {
        Matched::Place(_, place) => push_place(found, place),
        Matched::Value(expr) => push_occurrences(alloc, found, expr.get()),
    }
}

#[cycle(occurring)]
#[tactic(auto, using(rx_typed::proofs::Rules::typed_tree_rules, crate::proofs::OccurringLemmas::occurring_rules))]
fn push_arm(alloc: Global, found: &mut List<Occurrence>, arm: &Arm) -> Result<(), AllocError>
    ensures { OnOk result (map plain-Occurrence found.new
        ≡ map plain-Occurrence found.old ++ (occurrences.all_declared (bound (plain-Arm arm.now).0) ++ occurrences.occurrences (plain-Arm arm.now).1)) }
{
    push_pattern(alloc, found, &arm.pattern)?;
    push_occurrences(alloc, found, &arm.body)
}

#[cycle(occurring)]
fn push_arms(alloc: Global, found: &mut List<Occurrence>, arms: &[Arm]) -> Result<(), AllocError>
    ensures { OnOk result (map plain-Occurrence found.new
        ≡ map plain-Occurrence found.old ++ occurrences.occurrences_armed (arms_of (map plain-Arm arms.now))) }
{
    for arm in arms {
        push_arm(alloc, found, arm)?;
    }
    Ok(())
}

/// The variables of a `let`, and the occurrences in its initialiser.
#[cycle(occurring)]
#[tactic(auto, using(crate::proofs::OccurringLemmas::occurring_rules))]
fn push_let(
    alloc: Global,
    matched: &Matched,
    found: &mut List<Occurrence>,
    pattern: &Pattern,
) -> Result<(), AllocError>
    ensures { OnOk result (map plain-Occurrence found.new
        ≡ map plain-Occurrence found.old ++ (occurrences.all_declared (bound (plain-Pattern pattern.now)) ++ occurrences.occurrences_matched (plain-Matched matched.now))) }
{
    push_pattern(alloc, found, pattern)?;
    push_matched(alloc, found, matched)
}

#[cycle(occurring)]
#[tactic(auto, using(rx_typed::proofs::Rules::typed_tree_rules, crate::proofs::OccurringLemmas::occurring_rules))]
fn push_statement(
    alloc: Global,
    found: &mut List<Occurrence>,
    stmt: &Stmt,
) -> Result<(), AllocError>
    ensures { OnOk result (map plain-Occurrence found.new ≡ map plain-Occurrence found.old ++ occurrences.in_statement (plain-Statement stmt.now)) }
{
    match stmt {
        Stmt::Runs(expr) => push_occurrences(alloc, found, expr),
        Stmt::Declares(_, variables) => push_declarations(found, variables.as_slice()),
        Stmt::Lets(_, pattern, matched) => push_let(alloc, matched, found, pattern),
    }
}

/// Adds the occurrences in statements.
#[cycle(occurring)]
pub(crate) fn push_statements(
    alloc: Global,
    found: &mut List<Occurrence>,
    stmts: &[Stmt],
) -> Result<(), AllocError>
    ensures { OnOk result (map plain-Occurrence found.new ≡ map plain-Occurrence found.old ++ occurrences.in_statements (map plain-Statement stmts.now)) }
{
    for stmt in stmts {
        push_statement(alloc, found, stmt)?;
    }
    Ok(())
}

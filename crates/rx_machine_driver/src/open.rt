//! What an expression and a block do first.

ghost use Rattle.std.specs.Prelude.{◌≡◌, [], ◌∷◌, map};
ghost use Rattle.rx_typed.specs.Tree as tree;
ghost use Rattle.rx_typed.specs.PlainTree.{plain-Mark, plain-Place, plain-Making, plain-Pattern, plain-Expr, plain-Matched, plain-Stmt};
ghost use Rattle.rx_lower_walks.specs.Orders as orders;
ghost use Rattle.rx_meaning.specs.Values as plain;
ghost use Rattle.rx_machine_values.specs.PlainValues.{plain-Value};
ghost use Rattle.rx_machine_frames.specs.Frames as frames;
ghost use Rattle.rx_machine_driver.specs.PlainSteps.{plain-Work, plain-Exit, plain-Next, rest_of, arms_in, operands_in, next_operand};

use crate::next::{Exit, Hole, Next, Subject, Work};
use rx_core::List;
use rx_machine_values::Value;
use rx_typed::{Arm, Expr, Form, Making, Matched, Operand, Pattern, Stmt};
use std::alloc::Global;

/// The first of the operands that are left, or what is done with their values.
#[tactic(auto, using(rx_typed::proofs::Rules::operand_by_parts))]
pub fn operands<'a>(work: Work<'a>, done: List<Value>, left: &'a [Operand]) -> Next<'a>
    ensures { plain-Next result ≡ next_operand (plain-Work work.entry) (map plain-Value done) (operands_in left.entry.now) }
{
    match left.split_first() {
        None => Next::Finishes(work, done),
        Some((first, rest)) => Next::Part(Hole::Operand(work, done, rest), &first.value),
    }
}

/// Tries the arms on a place, or on the value of an expression.
#[tactic(auto, using(crate::proofs::StepRules::matched_rules, crate::proofs::Marks::expr_mark))]
fn choice<'a>(matched: &'a Matched, arms: &'a [Arm]) -> Next<'a>
    ensures { plain-Next result ≡ frames.opened_choice (plain-Matched matched.entry.now) (arms_in arms.entry.now) }
{
    match matched {
        Matched::Place(_, place) => Next::Tries(Subject::Place(place), arms),
        Matched::Value(value) => {
            let value = value.get();
            Next::Part(Hole::Scrutinee(value.mark.node, arms), value)
        }
    }
}

/// Binds a pattern to a place, or to the value of an expression.
#[tactic(auto, using(crate::proofs::StepRules::matched_rules, crate::proofs::Marks::expr_mark))]
fn initialised<'a>(
    pattern: &'a Pattern,
    matched: &'a Matched,
    rest: &'a [Stmt],
    last: &'a Expr,
) -> Next<'a>
    ensures { plain-Next result ≡ frames.opened_let (plain-Matched matched.entry.now) (plain-Pattern pattern.entry.now) (rest_of rest.entry.now last.entry.now) }
{
    match matched {
        Matched::Place(_, place) => Next::Binds(Subject::Place(place), pattern, rest, last),
        Matched::Value(value) => {
            let value = value.get();
            Next::Part(
                Hole::Initialiser(value.mark.node, pattern, rest, last),
                value,
            )
        }
    }
}

/// The jump at a node.
#[tactic(auto, using(crate::proofs::StepRules::unit_is))]
fn jumps<'a>(node: usize, number: u32, again: bool) -> Next<'a>
    ensures { plain-Next result ≡ frames.leaves (orders.exit node number again) plain.unit_value }
{
    if again {
        Next::Leaves(Exit::Continues(node, number), Value::Unit)
    } else {
        Next::Leaves(Exit::Breaks(node, number), Value::Unit)
    }
}

/// What an expression does first.
#[tactic(auto, using(rx_typed::proofs::Rules::typed_tree_rules, crate::proofs::StepRules::unit_is, crate::proofs::StepRules::opened_operands_is))]
pub fn opened<'a>(alloc: Global, expr: &'a Expr) -> Next<'a>
    ensures { plain-Next result ≡ frames.opened (plain-Expr expr.entry.now) }
{
    match &expr.form {
        Form::Read(moves, place) => Next::Reads(*moves, place),
        Form::Borrow(mutable, place) => Next::Borrows(*mutable, place),
        Form::Share(value) => Next::Part(Hole::Shares, value.get()),
        Form::Build(making, operands_of) => operands(
            Work::Makes(*making, operands_of.as_slice()),
            List::new(alloc),
            operands_of.as_slice(),
        ),
        Form::Unit => Next::Gives(Value::Unit),
        Form::Lazily(truth, first, second) => {
            Next::Part(Hole::FirstOf(*truth, second.get()), first.get())
        }
        Form::Assign(place, value) => Next::Part(Hole::Assigns(place), value.get()),
        Form::Update(op, place, value) => Next::Part(Hole::Updates(*op, place), value.get()),
        Form::Call(function, arguments) => operands(
            Work::Calls(*function),
            List::new(alloc),
            arguments.as_slice(),
        ),
        Form::Input => Next::Inputs,
        Form::Print(value) => Next::Part(Hole::Prints, value.get()),
        Form::Block(statements, last) => Next::RunsBody(statements.as_slice(), last.get()),
        Form::Choose(matched, arms) => choice(matched, arms.as_slice()),
        Form::Loop(number, body) => Next::Loops(&expr.mark, *number, body.get()),
        Form::Jump(number, again) => jumps(expr.mark.node, *number, *again),
        Form::Give(value) => Next::Part(Hole::GivesBack(expr.mark.node), value.get()),
    }
}

/// What is left of a block behind its first statement, and what that does first.
#[tactic(auto, using(crate::proofs::StepRules::stmt_rules))]
fn statement<'a>(first: &'a Stmt, rest: &'a [Stmt], last: &'a Expr) -> Next<'a>
    ensures { plain-Next result ≡ frames.opened_body (plain-Stmt first.entry.now (rest_of rest.entry.now last.entry.now)) }
{
    match first {
        Stmt::Runs(expr) => Next::Part(Hole::Statement(rest, last), expr),
        Stmt::Declares(_, variables) => Next::Begins(variables.as_slice(), rest, last),
        Stmt::Lets(_, pattern, matched) => initialised(pattern, matched, rest, last),
    }
}

/// What a block does first.
pub fn opened_body<'a>(statements: &'a [Stmt], last: &'a Expr) -> Next<'a>
    ensures { plain-Next result ≡ frames.opened_body (rest_of statements.entry.now last.entry.now) }
{
    match statements.split_first() {
        None => Next::GoesInto(last),
        Some((first, rest)) => statement(first, rest, last),
    }
}

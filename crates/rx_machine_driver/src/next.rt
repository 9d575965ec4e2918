//! What a run has still to do, by the parts of the typed trees.

use rx_core::{LetGo, List, Place};
use rx_machine_values::Value;
use rx_tree::BinaryOp;
use rx_typed::{Arm, Expr, Making, Mark, Operand, Pattern, Stmt};

/// What operands are for.
#[derive(Clone, Copy)]
pub enum Work<'a> {
    /// What is made, of all these operands.
    Makes(Making, &'a [Operand]),
    /// The function's item.
    Calls(u32),
}

/// What is matched: a place, or a value that is held, with the node that it is the value of.
#[derive(Drop)]
pub enum Subject<'a> {
    Place(&'a Place),
    Held(usize, Value),
}

/// A way out of a part, at the node of its jump.
#[derive(Clone, Copy)]
pub enum Exit {
    /// The jump, and the loop's number.
    Breaks(usize, u32),
    Continues(usize, u32),
    Returns(usize),
}

/// What is left of a form while an operand is out.
#[derive(Drop)]
pub enum Hole<'a> {
    /// The values of the operands before it, and the operands behind it.
    Operand(Work<'a>, List<Value>, &'a [Operand]),
    Shares,
    /// Of `&&` and `||` the first operand, with the second.
    FirstOf(bool, &'a Expr),
    SecondOf,
    Assigns(&'a Place),
    Updates(BinaryOp, &'a Place),
    Prints,
    /// The node.
    GivesBack(usize),
    /// The node of what is matched.
    Scrutinee(usize, &'a [Arm]),
    /// What is left of the block.
    Statement(&'a [Stmt], &'a Expr),
    /// The node of the initialiser, the pattern, and what is left of the block.
    Initialiser(usize, &'a Pattern, &'a [Stmt], &'a Expr),
}

/// What comes next.
#[derive(Drop)]
pub enum Next<'a> {
    GoesInto(&'a Expr),
    /// A part, while the hole waits for it.
    Part(Hole<'a>, &'a Expr),
    Gives(Value),
    /// Whether it moves.
    Reads(bool, &'a Place),
    /// Whether it is mutable.
    Borrows(bool, &'a Place),
    /// A mutable reference that becomes shared.
    Shares(Value),
    Writes(&'a Place, Value),
    Prints(Value),
    Inputs,
    /// The operand of `&&` or `||` that tells.
    Settles(Value),
    Finishes(Work<'a>, List<Value>),
    RunsBody(&'a [Stmt], &'a Expr),
    Tries(Subject<'a>, &'a [Arm]),
    Binds(Subject<'a>, &'a Pattern, &'a [Stmt], &'a Expr),
    Begins(&'a [u32], &'a [Stmt], &'a Expr),
    Loops(&'a Mark, u32, &'a Expr),
    Leaves(Exit, Value),
    Decides(bool, Value, &'a Expr),
    Modifies(BinaryOp, &'a Place, Value),
}

/// Lets a value of any type go. A check sees nothing of its parts here, so each type's drop is proved once.
fn gone<T: Drop>(held: T) {
    let _gone = held;
}

impl<'a> LetGo for Subject<'a> {
    fn let_go(self) {
        gone(self);
    }
}

impl<'a> LetGo for Hole<'a> {
    fn let_go(self) {
        gone(self);
    }
}

impl<'a> LetGo for Next<'a> {
    fn let_go(self) {
        gone(self);
    }
}

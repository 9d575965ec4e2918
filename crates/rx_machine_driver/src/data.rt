//! The machine's data.

use crate::slots::Slots;
use crate::{Hole, Next};
use rx_core::{LetGo, List, Text};
use rx_machine_values::{Memory, Value};
use rx_meaning::End;
use rx_typed::{Expr, Mark};

/// What waits for the value of a part.
#[derive(Drop)]
pub enum Frame<'a> {
    /// A form while an operand is out.
    Hole(Hole<'a>),
    /// A pass of a loop: its mark, its number and its body.
    Pass(&'a Mark, u32, &'a Expr),
    /// A call, with the slots of the caller's variables.
    Call(Slots),
}

impl<'a> LetGo for Frame<'a> {
    fn let_go(self) {
        let _gone = self;
    }
}

/// A run on its way.
#[derive(Drop)]
pub struct Machine<'a> {
    pub memory: Memory,
    /// Of the activation that runs.
    pub slots: Slots,
    /// The innermost is the last.
    pub frames: List<Frame<'a>>,
    /// What is left of the input.
    pub input: &'a [i64],
    pub printed: Text,
}

/// What takes a turn.
#[derive(Drop)]
pub enum Turn<'a> {
    /// The function's item, and the arguments.
    Calls(usize, List<Value>),
    /// A pass of a loop: its mark, its number and its body.
    Loops(&'a Mark, u32, &'a Expr),
}

/// What a step leads to.
#[derive(Drop)]
pub enum Step<'a> {
    Next(Next<'a>),
    Turn(Turn<'a>),
    End(End),
}

/// Where a run waits for a turn, or how it ended.
#[derive(Drop)]
pub enum Paused<'a> {
    Turn(Turn<'a>),
    End(End),
}

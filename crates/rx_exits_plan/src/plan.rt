//! A run of a function, its exits and its plan: data.

use rx_core::{LetGo, List};

/// A run in the typed tree of its function: the number of its block's node, how many of the block's statements stand in
/// front of it, how many are of it, and whether the block's tail is of it.
#[derive(Clone, Copy, Debug, PartialEq, Eq)]
pub struct Run {
    pub block: usize,
    pub first: usize,
    pub count: usize,
    pub tail: bool,
}

/// How a run is left: by its end; out of a loop that encloses it, or to the next pass of that loop, by the loop's number; out
/// of the function.
#[derive(Clone, Copy, Debug, PartialEq, Eq)]
pub enum Exit {
    Next,
    Break(u32),
    Continue(u32),
    Return,
}

/// An exit, and the variables that it hands out, in the order of their first occurrence in the run.
#[derive(Drop)]
pub struct ExitOuts {
    pub exit: Exit,
    pub outs: List<u32>,
}

/// What is decided of a run that is to become a function: variables by their numbers in the function, each list in the order
/// of first occurrence in the run.
#[derive(Drop)]
pub struct ExitPlan {
    /// In their order: the run's end, a `break` and a `continue` of each loop around it, the innermost first, `return`.
    pub exits: List<ExitOuts>,
    /// Whether the run has a value: the block's tail, where that has one which isn't the unit.
    pub value: bool,
    /// Declared outside, and set where the run is entered.
    pub params: List<u32>,
    /// Declared outside, and unset where the run is entered.
    pub locals: List<u32>,
    /// Declared by direct statements of the run, named behind it, and not handed out at its end.
    pub redeclared: List<u32>,
    /// Named in the run and outside, and neither a param nor handed out.
    pub loose: List<u32>,
}

impl LetGo for ExitOuts {
    fn let_go(self) {
        let _gone = self;
    }
}

impl LetGo for ExitPlan {
    fn let_go(self) {
        let _gone = self;
    }
}

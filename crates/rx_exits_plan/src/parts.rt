//! The block of a run, and the jumps out of the run.

use crate::Exit;
use rx_core::{LetGo, List};
use rx_typed::{Expr, Stmt};

/// The block of a run: its statements and its tail, which is the unit where none is written, and what is around it.
#[derive(Drop)]
pub struct Home<'t> {
    /// The variables in scope at its start, the last declared first.
    pub scope: List<u32>,
    /// The loops around it by their numbers, the innermost first.
    pub loops: List<u32>,
    pub stmts: &'t [Stmt],
    pub tail: &'t Expr,
}

/// A `break`, `continue` or `return` that leaves a run, or the end of the function's body in it.
#[derive(Drop)]
pub struct Jump {
    pub exit: Exit,
    pub node: usize,
    /// The variables in scope there, the last declared first.
    pub scope: List<u32>,
}

impl<'t> LetGo for Home<'t> {
    fn let_go(self) {
        self.scope.let_go();
        self.loops.let_go();
    }
}

impl LetGo for Jump {
    fn let_go(self) {
        self.scope.let_go();
    }
}

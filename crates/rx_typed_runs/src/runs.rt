//! The place of a run of statements.

use rx_core::{LetGo, Position, Span};

/// A run: statements of one block of a function, from the first to the last, counted from 0. The block's tail counts as
/// its last statement.
#[derive(Drop)]
pub struct RunPos {
    /// The number of the item that is the function.
    pub function: u32,
    pub block: Position,
    pub first: u32,
    pub last: u32,
    /// Whether the last statement is the block's tail.
    pub tail: bool,
    /// From the run's first token to its last.
    pub span: Span,
}

impl LetGo for RunPos {
    fn let_go(self) {
        let _gone = self;
    }
}

//! What stands behind a line's head.

use rx_core::LetGo;

/// What stands behind a line's head, after a space.
#[derive(Clone, Copy)]
pub enum Item {
    Number(u32),
    /// The sites from the first to the last, both included.
    Range(u32, u32),
    /// An end point, by the number of its lifetime among the function's own.
    End(u32),
}

impl LetGo for Item {
    fn let_go(self) {}
}

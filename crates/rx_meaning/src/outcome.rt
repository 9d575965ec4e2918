//! How a run ends, and what it printed.

use rx_core::Text;

/// What an operator does in place of giving a value.
#[derive(Clone, Copy, Debug, PartialEq, Eq)]
pub enum Trap {
    /// The result is outside of its integer type.
    Overflow,
    DivideByZero,
}

#[derive(Clone, Copy, Debug, PartialEq, Eq)]
pub enum End {
    /// `main` has ended.
    Ended,
    Trapped(Trap),
    /// No turn was left.
    Running,
    /// What has no meaning was done: a part was read or tested that was never written, a path was followed that leads
    /// nowhere (to the parts of another variant, or into what was never written), something was written through a shared
    /// reference, or an operator was given operands of types that it doesn't take.
    Wrong,
}

/// The bytes that a run printed, and how it ended.
#[derive(Drop)]
pub struct Outcome {
    pub printed: Text,
    pub end: End,
}

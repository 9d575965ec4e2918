//! What is wrong with what a program declares.

use rx_core::Span;
use rx_typeck_solver::Rule;

/// What is wrong with a declaration.
#[derive(Clone, Copy)]
pub enum DeclareFault {
    /// A node or a name that breaks a rule of types: Lifetimes, Unused, CopyOf, Parts or Main.
    Mismatch { at: Span, rule: Rule },
    /// A type that leaves out a lifetime which nothing tells.
    Elision { at: Span },
    OutOfMemory,
}

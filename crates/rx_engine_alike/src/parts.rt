//! Parts of blocks by reference.

use rx_typed::{Expr, Stmt};

/// A block: its statements and its tail.
#[derive(Clone, Copy)]
pub struct Part<'t> {
    pub stmts: &'t [Stmt],
    pub tail: &'t Expr,
}

/// A variable that is bound in front, its value, and what is given then.
#[derive(Clone, Copy)]
pub struct Bound<'t> {
    pub variable: u32,
    pub value: &'t Expr,
    pub given: &'t Expr,
}

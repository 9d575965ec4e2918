//! How typed trees are let go. Their drops are proved here alone, so no crate above drops one.

use crate::tree::{Arm, Expr, Mark, Matched, Operand, Param, Pattern, Stmt, Subpattern, TypedTree};
use rx_core::LetGo;

/// Lets a value of any type go. A check sees nothing of its parts here, so each type's drop is proved once.
fn gone<T: Drop>(held: T) {
    let _gone = held;
}

impl LetGo for Mark {
    fn let_go(self) {
        gone(self);
    }
}

impl LetGo for Pattern {
    fn let_go(self) {
        gone(self);
    }
}

impl LetGo for Subpattern {
    fn let_go(self) {
        gone(self);
    }
}

impl LetGo for Expr {
    fn let_go(self) {
        gone(self);
    }
}

impl LetGo for Operand {
    fn let_go(self) {
        gone(self);
    }
}

impl LetGo for Matched {
    fn let_go(self) {
        gone(self);
    }
}

impl LetGo for Arm {
    fn let_go(self) {
        gone(self);
    }
}

impl LetGo for Stmt {
    fn let_go(self) {
        gone(self);
    }
}

impl LetGo for TypedTree {
    fn let_go(self) {
        gone(self);
    }
}

impl LetGo for Param {
    fn let_go(self) {}
}

//! How trees are let go. The drops of trees are proved here alone, so no crate above drops one.

use crate::tree::{
    Arm, Block, BoundLifetime, Derive, EnumVariant, Expr, Field, FieldExpr, FieldPattern, Func,
    Ident, Item, Param, Pattern, Program, Stmt, TypeText,
};
use rx_core::LetGo;

/// Lets a value of any type go. A check sees nothing of its parts here, so each type's drop is proved once.
fn gone<T: Drop>(held: T) {
    let _gone = held;
}

impl LetGo for Ident {
    fn let_go(self) {
        gone(self);
    }
}

impl LetGo for TypeText {
    fn let_go(self) {
        gone(self);
    }
}

impl LetGo for Pattern {
    fn let_go(self) {
        gone(self);
    }
}

impl LetGo for FieldPattern {
    fn let_go(self) {
        gone(self);
    }
}

impl LetGo for Block {
    fn let_go(self) {
        gone(self);
    }
}

impl LetGo for Stmt {
    fn let_go(self) {
        gone(self);
    }
}

impl LetGo for Expr {
    fn let_go(self) {
        gone(self);
    }
}

impl LetGo for FieldExpr {
    fn let_go(self) {
        gone(self);
    }
}

impl LetGo for Arm {
    fn let_go(self) {
        gone(self);
    }
}

impl LetGo for Program {
    fn let_go(self) {
        gone(self);
    }
}

impl LetGo for Item {
    fn let_go(self) {
        gone(self);
    }
}

impl LetGo for Field {
    fn let_go(self) {
        gone(self);
    }
}

impl LetGo for EnumVariant {
    fn let_go(self) {
        gone(self);
    }
}

impl LetGo for BoundLifetime {
    fn let_go(self) {
        gone(self);
    }
}

impl LetGo for Param {
    fn let_go(self) {
        gone(self);
    }
}

impl LetGo for Func {
    fn let_go(self) {
        gone(self);
    }
}

impl LetGo for Derive {
    fn let_go(self) {}
}

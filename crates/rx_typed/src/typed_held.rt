//! How declarations are let go.

use crate::declarations::{Decl, FieldDecl, Polarity, VariantDecl};
use rx_core::LetGo;

/// Lets a value of any type go. A check sees nothing of its parts here, so each type's drop is proved once.
fn gone<T: Drop>(held: T) {
    let _gone = held;
}

impl LetGo for Decl {
    fn let_go(self) {
        gone(self);
    }
}

impl LetGo for FieldDecl {
    fn let_go(self) {
        gone(self);
    }
}

impl LetGo for VariantDecl {
    fn let_go(self) {
        gone(self);
    }
}

impl LetGo for Polarity {
    fn let_go(self) {}
}

//! How flows are let go. Their drops are proved here alone, so no crate above drops one.

use crate::actions::{Act, Action, Place, Root, Temporary};
use crate::flow::{Flow, Item};
use rx_core::LetGo;

/// Lets a value of any type go. A check sees nothing of its parts here, so each type's drop is proved once.
fn gone<T: Drop>(held: T) {
    let _gone = held;
}

impl LetGo for Temporary {
    fn let_go(self) {}
}

impl LetGo for Root {
    fn let_go(self) {}
}

impl LetGo for Place {
    fn let_go(self) {
        gone(self);
    }
}

impl LetGo for Act {
    fn let_go(self) {
        gone(self);
    }
}

impl LetGo for Action {
    fn let_go(self) {
        gone(self);
    }
}

impl LetGo for Flow {
    fn let_go(self) {
        gone(self);
    }
}

impl LetGo for Item {
    fn let_go(self) {
        gone(self);
    }
}

//! How lifetimes are written otherwise.

use rx_core::{LetGo, Name};

/// How a lifetime is written otherwise: another name, or `None` where it is left out.
#[derive(Drop)]
pub struct Rewriting {
    pub name: Name,
    pub becomes: Option<Name>,
}

impl LetGo for Rewriting {
    fn let_go(self) {
        let _gone = self;
    }
}

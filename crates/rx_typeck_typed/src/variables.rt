//! Variables with types.

use rx_core::{LetGo, Ty};

/// A variable that a `let` with a type binds, by its number in its function, and its type: a lifetime is meant by its number
/// in the function, and one that is free has the number of the function's lifetimes.
#[derive(Drop)]
pub struct AnnotatedVariable {
    pub variable: u32,
    pub ty: Ty,
}

impl LetGo for AnnotatedVariable {
    fn let_go(self) {
        self.ty.let_go();
    }
}

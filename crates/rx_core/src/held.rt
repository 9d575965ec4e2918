//! Values that are let go by a call, so that the drop of a large value is proved once, in the crate that has its type.
//!
//! Where two ways out of a function drop the same tree, a check goes through all forms of the tree at the place where
//! they join. So above the trees' crate no tree is dropped: `keep` holds one while a step may fail, and lets it go
//! by its `LetGo` where the step failed.

ghost use Rattle.std.specs.Prelude.{◌≡◌, [], ◌∷◌, ◌++◌, Ok, Err, IfOk, MatchResult};

use crate::boxed::Boxed;
use crate::list::List;
use crate::text::Text;
use crate::types::{Bound, Place, Position, Span, Step, Ty};
use std::alloc::{AllocError, Global};

/// What can be let go by a call.
pub trait LetGo {
    /// Lets the value go, with all that it owns.
    fn let_go(self);
}

/// What a step gave, beside the value that was held meanwhile. Where the step failed the value is let go.
pub fn keep<T: LetGo, U, E>(held: T, outcome: Result<U, E>) -> Result<(U, T), E>
    ensures { MatchResult result (λ both. (outcome ≡ Ok both.0) × (both.1 ≡ held)) (λ fault. outcome ≡ Err fault) }
{
    match outcome {
        Ok(value) => Ok((value, held)),
        Err(fault) => {
            held.let_go();
            Err(fault)
        }
    }
}

/// The list with one more item at its end. Where memory runs out both are let go.
pub fn pushed<T: LetGo>(list: List<T>, item: T) -> Result<List<T>, AllocError>
    ensures { IfOk result (λ all. all ≡ list ++ item ∷ []) }
{
    let mut list = list;
    match list.push(item) {
        Ok(()) => Ok(list),
        Err(AllocError) => {
            list.let_go();
            Err(AllocError)
        }
    }
}

impl<T: LetGo> LetGo for Option<T> {
    fn let_go(self) {
        match self {
            Some(held) => held.let_go(),
            None => (),
        }
    }
}

impl<A: LetGo, B: LetGo> LetGo for (A, B) {
    fn let_go(self) {
        let (first, second) = self;
        first.let_go();
        second.let_go();
    }
}

impl<T: LetGo> LetGo for Boxed<T> {
    fn let_go(self) {
        self.into_inner().let_go();
    }
}

impl<T: LetGo> LetGo for List<T> {
    fn let_go(self) {
        let mut items = self.into_vec();
        for _turn in 0..items.len() {
            match items.pop() {
                Some(item) => item.let_go(),
                None => (),
            }
        }
        items.destroy_empty();
    }
}

impl LetGo for Text {
    fn let_go(self) {
        let _gone = self;
    }
}

impl LetGo for Span {
    fn let_go(self) {}
}

impl LetGo for Position {
    fn let_go(self) {
        self.path.let_go();
    }
}

impl LetGo for Ty {
    fn let_go(self) {
        let _gone = self;
    }
}

impl LetGo for Step {
    fn let_go(self) {}
}

impl LetGo for Place {
    fn let_go(self) {
        self.steps.let_go();
    }
}

impl LetGo for Bound {
    fn let_go(self) {}
}

impl LetGo for u8 {
    fn let_go(self) {}
}

impl LetGo for u32 {
    fn let_go(self) {}
}

impl LetGo for u64 {
    fn let_go(self) {}
}

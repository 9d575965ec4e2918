//! A box. Contracts see it as its value.

ghost use Rattle.std.specs.Prelude.{◌≡◌, IfOk};

use crate::held::LetGo;
use std::alloc::{AllocError, Global};
use std::marker::Model;

/// A `Box` that contracts see as its value. A tree may hold itself through it.
#[derive(Drop)]
pub struct Boxed<T> {
    inner: Box<T>,
}

impl<T> Model for Boxed<T> {
    ghost Value = { T };

    ghost coded = { T.code };

    ghost view = { λ b. b.inner.value };
}

impl<T> Boxed<T> {
    pub fn get(&self) -> &T
        ensures { result.now ≡ self.now }
    {
        &self.inner
    }

    pub fn into_inner(self) -> T
        ensures { result ≡ self }
    {
        let Boxed { inner } = self;
        Box::into_inner(inner)
    }
}

impl<T: LetGo> Boxed<T> {
    /// A value on the heap. Where memory runs out it is let go.
    pub fn new(alloc: Global, value: T) -> Result<Boxed<T>, AllocError>
        ensures { IfOk result (λ b. b ≡ value) }
    {
        match Box::new(alloc, value) {
            Ok(inner) => Ok(Boxed { inner }),
            Err(failed) => {
                failed.value.let_go();
                Err(AllocError)
            }
        }
    }
}

//! Copies of types.

ghost use Rattle.std.specs.Prelude.{◌≡◌, IfOk};

use rx_core::{Boxed, List, Ty, keep, pushed};
use std::alloc::{AllocError, Global};

/// The same type, with its lifetimes.
#[cycle(copied)]
pub(crate) fn copied(alloc: Global, ty: &Ty) -> Result<Ty, AllocError>
    ensures { IfOk result (λ it. it ≡ ty.now) }
{
    match ty {
        Ty::Int(kind) => Ok(Ty::Int(*kind)),
        Ty::Bool => Ok(Ty::Bool),
        Ty::Tuple(parts) => Ok(Ty::Tuple(all_copied(alloc, parts.as_slice())?)),
        Ty::Shared(lifetime, inner) => {
            let inner = copied(alloc, inner.get())?;
            Ok(Ty::Shared(*lifetime, Boxed::new(alloc, inner)?))
        }
        Ty::Mut(lifetime, inner) => {
            let inner = copied(alloc, inner.get())?;
            Ok(Ty::Mut(*lifetime, Boxed::new(alloc, inner)?))
        }
        Ty::Adt(item, lifetimes) => {
            Ok(Ty::Adt(*item, List::from_slice(alloc, lifetimes.as_slice())?))
        }
    }
}

/// The same types.
#[cycle(copied)]
fn all_copied(alloc: Global, parts: &[Ty]) -> Result<List<Ty>, AllocError>
    ensures { IfOk result (λ all. all ≡ parts.now) }
{
    let mut all = List::new(alloc);
    for part in parts {
        let (copy, copies) = keep(all, copied(alloc, part))?;
        all = pushed(copies, copy)?;
    }
    Ok(all)
}

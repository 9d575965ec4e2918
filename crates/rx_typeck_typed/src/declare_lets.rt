//! The types that `let`s write.

ghost use Rattle.std.specs.Prelude.{◌≡◌, map, IfOk};
ghost use Rattle.rx_tree.specs.PlainOf.{plain-Item, plain-TypeText};
ghost use Rattle.rx_typeck_typed.specs.Lets as spec;

use crate::declare_types::Types;
use crate::fault::DeclareFault;
use crate::reader::{Role, begins};
use rx_core::{List, Ty};
use rx_resolve_names::NodeNames;
use rx_tree::{Item, TypeText};
use std::alloc::{AllocError, Global};

/// The type that a `let` writes: of the items of the program, the entries of names from the type's on, and the number that
/// each lifetime has which it leaves out.
///
/// # Errors
///
/// Memory runs out.
pub fn let_type(
    alloc: Global,
    items: &[Item],
    typ: &TypeText,
    names: &[NodeNames],
    free: u32,
) -> Result<Ty, AllocError>
    ensures { IfOk result (λ t. t ≡ spec.let_type (map plain-Item items.now) free (plain-TypeText typ.now) names.now) }
{
    let types = Types { alloc, items };
    let mut reader = begins(alloc, names, free);
    match types.typ(Role::Let(free), &mut reader, typ) {
        Ok(ty) => Ok(ty),
        Err(DeclareFault::OutOfMemory) => Err(AllocError),
        Err(_) => Ok(Ty::Tuple(List::new(alloc))),
    }
}

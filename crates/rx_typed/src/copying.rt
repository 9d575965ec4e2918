//! Which types are Copy.

ghost use Rattle.std.specs.Prelude.{◌≡◌, map, slice_get};
ghost use Rattle.rx_typed.specs.Types as types;
ghost use Rattle.rx_typed.specs.PlainTypes.{declarations, plain-Ty};

use crate::declarations::{Decl, Decls};
use rx_core::Ty;

/// Whether a type is Copy (Rust Reference, "Special types and traits", "Copy"). A number of no struct or enum is not.
#[cycle(copies)]
#[tactic(auto, using(crate::proofs::TypedRules::typ_rules))]
pub fn is_copy(ty: &Ty, decls: &Decls) -> bool
    ensures { result ≡ types.copies (declarations decls.now.items) (plain-Ty ty.now) }
{
    match ty {
        Ty::Int(_) | Ty::Bool => true,
        Ty::Tuple(parts) => all_copy(parts.as_slice(), decls),
        Ty::Shared(_, _) => true,
        Ty::Mut(_, _) => false,
        Ty::Adt(item, _) => derives_copy(decls, *item),
    }
}

/// Whether all these types are Copy.
#[cycle(copies)]
fn all_copy(parts: &[Ty], decls: &Decls) -> bool
    ensures { result ≡ types.all_copy (declarations decls.now.items) (types.shapes_of (map plain-Ty parts.now)) }
{
    for i in 0..parts.len() {
        if !is_copy(&parts[i], decls) {
            return false;
        }
    }
    true
}

/// Whether an item is a struct or enum that is Copy.
#[tactic(auto, using(crate::proofs::Items::declared_at))]
fn derives_copy(decls: &Decls, item: u32) -> bool
    ensures { result ≡ types.derives_copy (slice_get (declarations decls.now.items) item) }
{
    match decls.items.get(item as usize) {
        Some(Decl::Struct { copy, .. }) => *copy,
        Some(Decl::Enum { copy, .. }) => *copy,
        _ => false,
    }
}

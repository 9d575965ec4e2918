//! What is looked up of declarations.

ghost use Rattle.std.specs.Prelude.{◌≡◌, map, slice_get};
ghost use Rattle.std.specs.Option.{option_copied};
ghost use Rattle.rx_typed.specs.Types as types;
ghost use Rattle.rx_typed.specs.PlainTypes.{plain-Ty, plain-FieldDecl, plain-VariantDecl, declarations};
ghost use Rattle.rx_typed.specs.Elaborated as elaborated;
ghost use Rattle.rx_typeck_elaborate_parts.specs.Assigning.{shape_of};

use crate::dereferenced::peeled;
use rx_core::{List, Name, Ty};
use rx_typed::{Decl, Decls, FieldDecl, VariantDecl, is_copy};

/// The fields of a struct.
#[tactic(auto, using(rx_typed::proofs::Items::declared_at))]
fn fields_of(items: &List<Decl>, item: u32) -> &[FieldDecl]
    ensures { map plain-FieldDecl result.now ≡ types.fields_declared (slice_get (declarations items.now) item) }
{
    match items.get(item as usize) {
        Some(decl) => match decl {
            Decl::Struct { fields, .. } => fields.as_slice(),
            _ => &[],
        },
        None => &[],
    }
}

/// The number of a field by its name; where there is none, that behind the last.
fn field_number(fields: &[FieldDecl], name: &Name) -> usize
    ensures { result ≡ types.field_number (map plain-FieldDecl fields.now) name.now }
{
    for number in 0..fields.len() {
        if fields[number].name.is(name) {
            return number;
        }
    }
    fields.len()
}

/// The number of a field of an item.
pub fn field_of(items: &List<Decl>, item: u32, name: &Name) -> usize
    ensures { result ≡ elaborated.field_in (declarations items.now) (types.named item) name.now }
{
    field_number(fields_of(items, item), name)
}

/// The number of a field of what stands under all references; where that has none, 0.
#[tactic(auto, using(rx_typed::proofs::TypedRules::typ_rules))]
pub(crate) fn field_behind(items: &List<Decl>, ty: Option<&Ty>, name: &Name) -> usize
    ensures { result ≡ elaborated.field_in (declarations items.now) (types.peeled (shape_of (option_copied ty.entry))) name.now }
{
    match ty {
        Some(ty) => field_in(items, peeled(ty), name),
        None => 0,
    }
}

#[tactic(auto, using(rx_typed::proofs::TypedRules::typ_rules))]
fn field_in(items: &List<Decl>, ty: &Ty, name: &Name) -> usize
    ensures { result ≡ elaborated.field_in (declarations items.now) (plain-Ty ty.now) name.now }
{
    match ty {
        Ty::Adt(item, _) => field_of(items, *item, name),
        Ty::Int(_) | Ty::Bool | Ty::Tuple(_) | Ty::Shared(_, _) | Ty::Mut(_, _) => 0,
    }
}

/// Whether an enum has more than one variant.
#[tactic(auto, using(rx_typed::proofs::Items::declared_at))]
pub fn has_several(items: &List<Decl>, item: u32) -> bool
    ensures { result ≡ elaborated.has_several (declarations items.now) item }
{
    match items.get(item as usize) {
        Some(decl) => match decl {
            Decl::Enum { variants, .. } => are_several(variants.as_slice()),
            _ => false,
        },
        None => false,
    }
}

fn are_several(variants: &[VariantDecl]) -> bool
    ensures { result ≡ elaborated.is_several (map plain-VariantDecl variants.now) }
{
    match variants {
        [_, _, ..] => true,
        _ => false,
    }
}

/// Whether a type is Copy, as the unit is.
pub(crate) fn copies(ty: Option<&Ty>, decls: &Decls) -> bool
    ensures { result ≡ types.copies (declarations decls.now.items) (shape_of (option_copied ty.entry)) }
{
    match ty {
        Some(ty) => is_copy(ty, decls),
        None => true,
    }
}

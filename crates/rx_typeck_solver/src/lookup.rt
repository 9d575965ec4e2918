//! What is declared of an item.

ghost use Rattle.std.specs.Prelude.{◌≡◌, map, slice_get, option_map};
ghost use Rattle.std.specs.Option.{option_copied};
ghost use Rattle.rx_typed.specs.Types as types;
ghost use Rattle.rx_typed.specs.PlainTypes.{plain-Ty, plain-FieldDecl, declarations};

use rx_core::{List, Name, Ty};
use rx_typed::{Decl, FieldDecl};

/// The fields of a struct.
#[tactic(auto, using(crate::proofs::Lookups::lookup_rules))]
pub(crate) fn fields_of(items: &List<Decl>, item: u32) -> &[FieldDecl]
    ensures { map plain-FieldDecl result.now ≡ types.fields_declared (slice_get (declarations items.now) item) }
{
    match items.get(item as usize) {
        Some(decl) => match decl {
            Decl::Struct { fields, .. } => fields.as_slice(),
            _ => &[],
        },
        None => &[],
    }
}

/// The type of a field by its name.
#[tactic(auto, using(crate::proofs::Lookups::lookup_rules))]
pub(crate) fn field_named<'d>(fields: &'d [FieldDecl], name: &Name) -> Option<&'d Ty>
    ensures { option_map plain-Ty (option_copied result) ≡ types.field_typ (map plain-FieldDecl fields.now) name.now }
{
    for field in fields {
        if field.name.is(name) {
            return Some(&field.ty);
        }
    }
    None
}

/// The types of a function's parameters.
#[tactic(auto, using(crate::proofs::Lookups::lookup_rules))]
pub(crate) fn parameters_of(items: &List<Decl>, item: u32) -> &[Ty]
    ensures { map plain-Ty result.now ≡ types.parameters_declared (slice_get (declarations items.now) item) }
{
    match items.get(item as usize) {
        Some(decl) => match decl {
            Decl::Func { params, .. } => params.as_slice(),
            _ => &[],
        },
        None => &[],
    }
}

/// The result of a function.
#[tactic(auto, using(crate::proofs::Lookups::lookup_rules))]
pub(crate) fn result_of(items: &List<Decl>, item: u32) -> Option<&Ty>
    ensures { option_map plain-Ty (option_copied result) ≡ types.result_declared (slice_get (declarations items.now) item) }
{
    match items.get(item as usize) {
        Some(decl) => match decl {
            Decl::Func { answer, .. } => Some(answer),
            _ => None,
        },
        None => None,
    }
}

/// The types of a variant's parts.
#[tactic(auto, using(crate::proofs::Lookups::lookup_rules))]
pub(crate) fn parts_of(items: &List<Decl>, item: u32, variant: u32) -> &[Ty]
    ensures { map plain-Ty result.now ≡ types.variant_parts (declarations items.now) item variant }
{
    match items.get(item as usize) {
        Some(decl) => match decl {
            Decl::Enum { variants, .. } => match variants.get(variant as usize) {
                Some(variant) => variant.parts.as_slice(),
                None => &[],
            },
            _ => &[],
        },
        None => &[],
    }
}

/// How many lifetimes a struct or enum has.
#[tactic(auto, using(crate::proofs::Lookups::lookup_rules))]
pub(crate) fn lifetimes_of(items: &List<Decl>, item: u32) -> u32
    ensures { result ≡ types.lifetimes_declared (slice_get (declarations items.now) item) }
{
    match items.get(item as usize) {
        Some(decl) => match decl {
            Decl::Struct { lifetimes, .. } => *lifetimes,
            Decl::Enum { lifetimes, .. } => *lifetimes,
            _ => 0,
        },
        None => 0,
    }
}

/// Whether a struct or enum derives Copy.
#[tactic(auto, using(crate::proofs::Lookups::lookup_rules))]
pub(crate) fn derives_copy(items: &List<Decl>, item: u32) -> bool
    ensures { result ≡ types.derives_copy (slice_get (declarations items.now) item) }
{
    match items.get(item as usize) {
        Some(decl) => match decl {
            Decl::Struct { copy, .. } => *copy,
            Decl::Enum { copy, .. } => *copy,
            _ => false,
        },
        None => false,
    }
}

/// A type of a list, by its number from 0.
pub(crate) fn ty_at(types: &[Ty], number: usize) -> Option<&Ty>
    ensures { option_copied result ≡ slice_get types.now number }
{
    types.get(number)
}

//! What structs and enums derive.

ghost use Rattle.std.specs.Prelude.{◌≡◌, map, slice_get};
ghost use Rattle.rx_tree.specs.PlainOf.{plain-Item};
ghost use Rattle.rx_typed.specs.PlainTypes.{declarations, plain-Ty, plain-FieldDecl, plain-VariantDecl};
ghost use Rattle.rx_typeck_typed.specs.Programs as programs;

use crate::fault::DeclareFault;
use rx_core::{Span, Ty};
use rx_tree::{Derive, Item, ItemNode};
use rx_typeck_solver::Rule;
use rx_typed::{Decl, Decls, FieldDecl, VariantDecl, is_copy};

/// Whether all these are Copy.
fn parts_copy(decls: &Decls, parts: &[Ty]) -> bool
    ensures { result ≡ programs.parts_copy (declarations decls.now.items) (map plain-Ty parts.now) }
{
    for ty in parts {
        if !is_copy(ty, decls) {
            return false;
        }
    }
    true
}

/// Whether all fields are Copy.
fn fields_copy(decls: &Decls, fields: &[FieldDecl]) -> bool
    ensures { result ≡ programs.fields_copy (declarations decls.now.items) (map plain-FieldDecl fields.now) }
{
    for field in fields {
        if !is_copy(&field.ty, decls) {
            return false;
        }
    }
    true
}

/// Whether all parts of variants are Copy.
fn variants_copy(decls: &Decls, variants: &[VariantDecl]) -> bool
    ensures { result ≡ programs.variants_copy (declarations decls.now.items) (map plain-VariantDecl variants.now) }
{
    for variant in variants {
        if !parts_copy(decls, variant.parts.as_slice()) {
            return false;
        }
    }
    true
}

/// Whether all that an item holds is Copy.
#[tactic(auto, using(crate::proofs::ItemLemmas::declared_at))]
fn holds_copies(decls: &Decls, item: usize) -> bool
    ensures { result ≡ programs.holds_copies (declarations decls.now.items)
        (slice_get (declarations decls.now.items) item) }
{
    match decls.items.get(item) {
        Some(Decl::Struct { fields, .. }) => fields_copy(decls, fields.as_slice()),
        Some(Decl::Enum { variants, .. }) => variants_copy(decls, variants.as_slice()),
        _ => true,
    }
}

/// Whether these may be derived, by whether all that is held is Copy.
fn may_derive(derives: &[Derive], copy: bool) -> bool
    ensures { result ≡ programs.may_derive derives.now copy }
{
    match derives {
        [] => true,
        [Derive::Clone] => true,
        [Derive::Clone, Derive::Copy] => copy,
        [Derive::Copy, Derive::Clone] => copy,
        _ => false,
    }
}

fn derived_at(span: Span, fits: bool) -> Result<(), DeclareFault>
    ensures { result ≡ programs.derived_at span fits }
{
    if fits {
        Ok(())
    } else {
        Err(DeclareFault::Mismatch {
            at: span,
            rule: Rule::CopyOf,
        })
    }
}

/// What an item derives.
fn derived(decls: &Decls, place: usize, item: &Item) -> Result<(), DeclareFault>
    ensures { result ≡ programs.derived (declarations decls.now.items)
        (slice_get (declarations decls.now.items) place) (plain-Item item.now) }
{
    match &item.node {
        ItemNode::Rt(_) => Ok(()),
        ItemNode::Struct(data) => {
            let fits = may_derive(data.derives.as_slice(), holds_copies(decls, place));
            derived_at(data.name.span, fits)
        }
        ItemNode::Enum(data) => {
            let fits = may_derive(data.derives.as_slice(), holds_copies(decls, place));
            derived_at(data.name.span, fits)
        }
        ItemNode::Func(_) => Ok(()),
    }
}

/// What each item derives.
pub(crate) fn all_derived(decls: &Decls, items: &[Item]) -> Result<(), DeclareFault>
    ensures { result ≡ programs.all_derived (declarations decls.now.items) 0 (map plain-Item items.now) }
{
    for i in 0..items.len() {
        derived(decls, i, &items[i])?;
    }
    Ok(())
}

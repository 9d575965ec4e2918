//! The limits that structs and enums keep.

ghost use Rattle.std.specs.Prelude.{◌≡◌, ◌<◌, Ok, Err, map, slice_get, nat_le};
ghost use Rattle.rx_tree.specs.PlainOf.{plain-Item};
ghost use Rattle.rx_typed.specs.Types as types;
ghost use Rattle.rx_typed_declarations.specs.Sizes as sizes_of;
ghost use Rattle.rx_typed.specs.PlainTypes.{declarations, plain-Ty, plain-FieldDecl, plain-VariantDecl};
ghost use Rattle.rx_resolve_names.specs.Holding.{name_span as span_of_name};
ghost use Rattle.rx_typeck_typed.specs.Limits as limits;

use crate::fault::DeclareFault;
use rx_core::{Span, Ty};
use rx_tree::{Item, ItemNode};
use rx_typeck_solver::Rule;
use rx_typed::{Decl, Decls, FieldDecl, VariantDecl};
use rx_typed_declarations::{first_endless, sizes};
use std::alloc::{AllocError, Global};

/// Whether a type has at most so many levels.
#[cycle(levels)]
#[tactic(auto, using(crate::proofs::LimitLemmas::level_rules))]
fn has_levels(ty: &Ty, limit: u32) -> bool
    ensures { result ≡ nat_le (types.levels (plain-Ty ty.now)) limit }
{
    match ty {
        Ty::Int(_) | Ty::Bool => limit > 0,
        Ty::Tuple(parts) => limit > 0 && all_have_levels(parts.as_slice(), limit - 1),
        Ty::Shared(_, inner) => limit > 0 && has_levels(inner.get(), limit - 1),
        Ty::Mut(_, inner) => limit > 0 && has_levels(inner.get(), limit - 1),
        Ty::Adt(_, _) => limit > 0,
    }
}

/// Whether types have at most so many levels.
#[cycle(levels)]
#[tactic(auto, using(crate::proofs::LimitLemmas::level_rules))]
fn all_have_levels(parts: &[Ty], limit: u32) -> bool
    ensures { result ≡ nat_le (types.most_levels (types.shapes_of (map plain-Ty parts.now))) limit }
{
    for ty in parts {
        if !has_levels(ty, limit) {
            return false;
        }
    }
    true
}

fn parts_fit(parts: &[Ty]) -> bool
    ensures { result ≡ limits.parts_fit (map plain-Ty parts.now) }
{
    for ty in parts {
        if !has_levels(ty, 128) {
            return false;
        }
    }
    true
}

fn fields_fit(fields: &[FieldDecl]) -> bool
    ensures { result ≡ limits.fields_fit (map plain-FieldDecl fields.now) }
{
    for field in fields {
        if !has_levels(&field.ty, 128) {
            return false;
        }
    }
    true
}

fn variants_fit(variants: &[VariantDecl]) -> bool
    ensures { result ≡ limits.variants_fit (map plain-VariantDecl variants.now) }
{
    for variant in variants {
        if !parts_fit(variant.parts.as_slice()) {
            return false;
        }
    }
    true
}

/// The parts of an item by a table.
fn told(sizes: &[u64], item: usize) -> u64
    ensures { result ≡ sizes_of.told sizes.now item }
{
    match sizes.get(item) {
        Some(size) => *size,
        None => 1,
    }
}

/// Whether an item keeps the limits, by its parts.
#[tactic(auto, using(crate::proofs::ItemLemmas::declared_at))]
fn item_fits(decls: &Decls, item: usize, parts: u64) -> bool
    ensures { result ≡ limits.item_fits parts (slice_get (declarations decls.now.items) item) }
{
    match decls.items.get(item) {
        Some(Decl::Struct { fields, .. }) => parts <= 4096 && fields_fit(fields.as_slice()),
        Some(Decl::Enum { variants, .. }) => parts <= 4096 && variants_fit(variants.as_slice()),
        Some(Decl::Rt) => parts <= 4096,
        Some(Decl::Func { .. }) => parts <= 4096,
        None => true,
    }
}

fn fits_at(span: Span, fits: bool) -> Result<(), DeclareFault>
    ensures { result ≡ limits.fits_at span fits }
{
    if fits {
        Ok(())
    } else {
        Err(DeclareFault::Mismatch {
            at: span,
            rule: Rule::Parts,
        })
    }
}

/// The place of an item's name.
fn name_span(item: &Item) -> Span
    ensures { result ≡ span_of_name (plain-Item item.now) }
{
    match &item.node {
        ItemNode::Rt(span) => *span,
        ItemNode::Struct(data) => data.name.span,
        ItemNode::Enum(data) => data.name.span,
        ItemNode::Func(function) => function.name.span,
    }
}

/// The place of the name of an item by its number.
#[tactic(auto, using(crate::proofs::ItemLemmas::item_at))]
fn place_of(items: &[Item], item: u32) -> Span
    ensures { result ≡ limits.place_of (slice_get (map plain-Item items.now) item) }
{
    match items.get(item as usize) {
        Some(item) => name_span(item),
        None => Span { start: 0, end: 0 },
    }
}

/// Whether each item keeps the limits, by a table of their parts.
fn all_fit(sizes: &[u64], decls: &Decls, items: &[Item]) -> Result<(), DeclareFault>
    ensures { result ≡ limits.all_fit (sizes_of.told sizes.now) (declarations decls.now.items) 0
        (map plain-Item items.now) }
{
    for i in 0..items.len() {
        fits_at(name_span(&items[i]), item_fits(decls, i, told(sizes, i)))?;
    }
    Ok(())
}

/// Whether each struct and enum keeps the limits.
pub(crate) fn within_limits(
    alloc: Global,
    decls: &Decls,
    items: &[Item],
) -> Result<(), DeclareFault>
    ensures { limits.Limits (map plain-Item items.now) (declarations decls.now.items) result }
{
    if decls.items.len() > 4_294_967_295 {
        return Err(DeclareFault::OutOfMemory);
    }
    match first_endless(alloc, decls) {
        Ok(Some(item)) => fits_at(place_of(items, item), false),
        Ok(None) => match sizes(alloc, decls) {
            Ok(sizes) => all_fit(sizes.as_slice(), decls, items),
            Err(AllocError) => Err(DeclareFault::OutOfMemory),
        },
        Err(AllocError) => Err(DeclareFault::OutOfMemory),
    }
}

//! How many parts structs and enums have.

ghost use Rattle.std.specs.Prelude.{◌≡◌, ◌+◌, ◌<◌, IfOk, length, map, replicate, slice_get};
ghost use Rattle.rx_typed.specs.Types as types;
ghost use Rattle.rx_typed.specs.PlainTypes.{plain-Ty, plain-FieldDecl, plain-VariantDecl, declarations};
ghost use Rattle.rx_typed_declarations.specs.Held.{field_types, variant_types, held_by_each as held_spec};
ghost use Rattle.rx_graph_cycles.specs.Reaches.{NoCycle};
ghost use Rattle.rx_typed_declarations.specs.Sizes as spec;

use crate::holding::held;
use rx_core::{List, Ty};
use rx_graph_cycles::in_order;
use rx_typed::{Decl, Decls, FieldDecl, VariantDecl};
use std::alloc::{AllocError, Global};

/// A sum, at most `u64::MAX`.
fn capped_sum(a: u64, b: u64) -> u64
    ensures { result ≡ spec.capped (a + b) }
{
    a.saturating_add(b)
}

fn at_least_one(n: u64) -> u64
    ensures { result ≡ types.at_least_one n }
{
    if n == 0 { 1 } else { n }
}

/// The parts of a struct or enum by a table.
fn told(sizes: &[u64], item: u32) -> u64
    ensures { result ≡ spec.told sizes.now item }
{
    match sizes.get(item as usize) {
        Some(size) => *size,
        None => 1,
    }
}

/// The parts of a type by a table of those of structs and enums.
#[cycle(parts)]
#[tactic(auto, using(rx_typed::proofs::TypedRules::typ_rules))]
fn told_parts(sizes: &[u64], ty: &Ty) -> u64
    ensures { result ≡ spec.told_parts sizes.now (plain-Ty ty.now) }
{
    match ty {
        Ty::Int(_) | Ty::Bool => 1,
        Ty::Tuple(parts) => at_least_one(add_parts(sizes, 0, parts.as_slice())),
        Ty::Shared(_, inner) => capped_sum(1, told_parts(sizes, inner.get())),
        Ty::Mut(_, inner) => capped_sum(1, told_parts(sizes, inner.get())),
        Ty::Adt(item, _) => told(sizes, *item),
    }
}

/// A number and the parts of types.
#[cycle(parts)]
fn add_parts(sizes: &[u64], number: u64, parts: &[Ty]) -> u64
    ensures { result ≡ spec.told_sum sizes.now number (types.shapes_of (map plain-Ty parts.now)) }
{
    let mut total = number;
    for ty in parts {
        total = capped_sum(total, told_parts(sizes, ty));
    }
    total
}

/// The parts of fields.
fn add_fields(sizes: &[u64], fields: &[FieldDecl]) -> u64
    ensures { result ≡ spec.told_sum sizes.now 0 (types.shapes_of (field_types (map plain-FieldDecl fields.now))) }
{
    let mut total = 0;
    for field in fields {
        total = capped_sum(total, told_parts(sizes, &field.ty));
    }
    total
}

/// One, and the parts of variants.
#[tactic(auto, using(crate::proofs::SizeLemmas::told_sum_append))]
fn add_variants(sizes: &[u64], variants: &[VariantDecl]) -> u64
    ensures { result
        ≡ spec.told_sum sizes.now 1 (types.shapes_of (variant_types (map plain-VariantDecl variants.now))) }
{
    let mut total = 1;
    for variant in variants {
        total = add_parts(sizes, total, variant.parts.as_slice());
    }
    total
}

/// The parts of an item by a table of those that it holds.
#[tactic(auto, using(rx_typed::proofs::Items::declared_at))]
fn told_declared(decls: &Decls, sizes: &[u64], item: u32) -> u64
    ensures { result ≡ spec.told_declared sizes.now (slice_get (declarations decls.now.items) item) }
{
    match decls.items.get(item as usize) {
        Some(Decl::Struct { fields, .. }) => at_least_one(add_fields(sizes, fields.as_slice())),
        Some(Decl::Enum { variants, .. }) => add_variants(sizes, variants.as_slice()),
        _ => 1,
    }
}

/// A table of ones.
fn ones(alloc: Global, len: usize) -> Result<Vec<u64>, AllocError>
    ensures { IfOk result (λ it. it.items ≡ replicate len 1) }
{
    let mut ones = Vec::new(alloc);
    for _item in 0..len {
        ones.push(1)?;
    }
    Ok(ones)
}

/// Fills a table in an order of the items.
fn fill(decls: &Decls, sizes: &mut Vec<u64>, order: &[u32])
    ensures { sizes.new.items ≡ spec.fill (declarations decls.now.items) sizes.old.items order.now }
{
    for i in 0..order.len() {
        let size = told_declared(decls, sizes, order[i]);
        let place = order[i] as usize;
        if place < sizes.len() {
            sizes[place] = size;
        }
    }
}

/// How many parts each struct and enum has, by its item's number, at most `u64::MAX`: a struct those of its fields,
/// at least one, an enum one and those of all its variants. Other items have one. Linear in the size of the
/// declarations.
pub fn sizes(alloc: Global, decls: &Decls) -> Result<List<u64>, AllocError>
    requires numbered { length decls.now.items < 4294967296 }
    requires finite { NoCycle (held_spec (declarations decls.now.items)) }
    ensures { IfOk result (λ it. spec.IsSizes (declarations decls.now.items) it) }
{
    let edges = held(alloc, decls.items.as_slice())?;
    let order = in_order(alloc, edges.as_slice())?;
    let mut table = ones(alloc, decls.items.len())?;
    fill(decls, &mut table, order.as_slice());
    Ok(List::from_vec(table))
}

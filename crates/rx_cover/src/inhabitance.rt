//! Which structs and enums have values.

ghost use Rattle.std.specs.Prelude.{◌≡◌, ◌<◌, false, IfOk, length, map, replicate, slice_get};
ghost use Rattle.rx_typed.specs.Types.{shapes_of};
ghost use Rattle.rx_typed.specs.PlainTypes.{plain-Ty, plain-FieldDecl, plain-VariantDecl, declarations};
ghost use Rattle.rx_typed_declarations.specs.Held.{field_types, held_by_each as held_spec};
ghost use Rattle.rx_graph_cycles.specs.Reaches.{NoCycle};
ghost use Rattle.rx_cover.specs.Inhabited as spec;

use rx_core::{List, Ty};
use rx_graph_cycles::in_order;
use rx_typed::{Decl, Decls, FieldDecl, VariantDecl};
use rx_typed_declarations::held;
use std::alloc::{AllocError, Global};

fn told(table: &[bool], item: u32) -> bool
    ensures { result ≡ spec.told table.now item }
{
    match table.get(item as usize) {
        Some(valued) => *valued,
        None => false,
    }
}

/// Whether a type has values, by a table of the structs and enums.
#[cycle(valued)]
#[tactic(auto, using(rx_typed::proofs::TypedRules::typ_rules))]
fn valued(table: &[bool], ty: &Ty) -> bool
    ensures { result ≡ spec.valued table.now (plain-Ty ty.now) }
{
    match ty {
        Ty::Int(_) | Ty::Bool => true,
        Ty::Tuple(parts) => all_valued(table, parts.as_slice()),
        Ty::Shared(_, inner) => valued(table, inner.get()),
        Ty::Mut(_, inner) => valued(table, inner.get()),
        Ty::Adt(item, _) => told(table, *item),
    }
}

/// Whether all these types have values.
#[cycle(valued)]
pub(crate) fn all_valued(table: &[bool], types: &[Ty]) -> bool
    ensures { result ≡ spec.all_valued table.now (shapes_of (map plain-Ty types.now)) }
{
    for ty in types {
        if !valued(table, ty) {
            return false;
        }
    }
    true
}

fn fields_valued(table: &[bool], fields: &[FieldDecl]) -> bool
    ensures { result ≡ spec.all_valued table.now (shapes_of (field_types (map plain-FieldDecl fields.now))) }
{
    for field in fields {
        if !valued(table, &field.ty) {
            return false;
        }
    }
    true
}

fn some_variant(table: &[bool], variants: &[VariantDecl]) -> bool
    ensures { result ≡ spec.some_variant table.now (map plain-VariantDecl variants.now) }
{
    for variant in variants {
        if all_valued(table, variant.parts.as_slice()) {
            return true;
        }
    }
    false
}

/// Whether an item has values, by a table of those that it holds.
#[tactic(auto, using(rx_typed::proofs::Items::declared_at))]
fn declared_valued(decls: &Decls, table: &[bool], item: u32) -> bool
    ensures { result ≡ spec.declared_valued table.now (slice_get (declarations decls.now.items) item) }
{
    match decls.items.get(item as usize) {
        Some(Decl::Struct { fields, .. }) => fields_valued(table, fields.as_slice()),
        Some(Decl::Enum { variants, .. }) => some_variant(table, variants.as_slice()),
        _ => false,
    }
}

fn none_yet(alloc: Global, len: usize) -> Result<Vec<bool>, AllocError>
    ensures { IfOk result (λ it. it.items ≡ replicate len false) }
{
    let mut table = Vec::new(alloc);
    for _item in 0..len {
        table.push(false)?;
    }
    Ok(table)
}

/// Fills a table in an order of the items.
fn fill(decls: &Decls, table: &mut Vec<bool>, order: &[u32])
    ensures { table.new.items ≡ spec.fill (declarations decls.now.items) table.old.items order.now }
{
    for i in 0..order.len() {
        let valued = declared_valued(decls, table, order[i]);
        let place = order[i] as usize;
        if place < table.len() {
            table[place] = valued;
        }
    }
}

/// Which structs and enums have values, by their items' numbers. Other items have none. Linear in the size of the
/// declarations.
pub fn inhabited(alloc: Global, decls: &Decls) -> Result<List<bool>, AllocError>
    requires numbered { length decls.now.items < 4294967296 }
    requires finite { NoCycle (held_spec (declarations decls.now.items)) }
    ensures { IfOk result (λ it. spec.Inhabited (declarations decls.now.items) it) }
{
    let edges = held(alloc, decls.items.as_slice())?;
    let order = in_order(alloc, edges.as_slice())?;
    let mut table = none_yet(alloc, decls.items.len())?;
    fill(decls, &mut table, order.as_slice());
    Ok(List::from_vec(table))
}

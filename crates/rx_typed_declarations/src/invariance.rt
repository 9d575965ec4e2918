//! Which lifetimes of structs and enums are invariant.

ghost use Rattle.std.specs.Prelude.{◌≡◌, IfOk, OnOk, false, [], map, length, replicate, slice_get, slice_set};
ghost use Rattle.std.specs.Prelude.{slice_index_or};
ghost use Rattle.rx_typed.specs.declared.declarations.Polarity.TheVariants.{Co};
ghost use Rattle.rx_typed.specs.Regions.{region-Ty, regions_of, region_fields, region_variants};
ghost use Rattle.rx_typed_declarations.specs.WellFormed.{WellFormed};
ghost use Rattle.rx_typed_declarations.specs.Variance as spec;

use crate::holding::held;
use rx_core::{List, Ty};
use rx_graph_cycles::in_order;
use rx_typed::{Decl, FieldDecl, Polarity, VariantDecl};
use std::alloc::{AllocError, Global};

/// The polarity of a lifetime in a list; what is past its end is covariant.
pub(crate) fn polarity_of(polarities: &[Polarity], lifetime: usize) -> Polarity
    ensures { result ≡ spec.polarity polarities.now lifetime }
{
    match polarities.get(lifetime) {
        Some(polarity) => *polarity,
        None => Polarity::Co,
    }
}

fn is_inv(polarity: Polarity) -> bool
    ensures { result ≡ spec.is_inv polarity }
{
    match polarity {
        Polarity::Co => false,
        Polarity::Inv => true,
    }
}

/// Marks a lifetime where it stands under a `&mut`.
fn fix_one(polarities: &mut Vec<Polarity>, under: bool, lifetime: u32)
    ensures { polarities.new.items ≡ spec.fix_one under polarities.old.items lifetime }
{
    let place = lifetime as usize;
    if under && place < polarities.len() {
        polarities[place] = Polarity::Inv;
    }
}

/// Marks lifetimes that stand under a `&mut` or in the place of an invariant one.
fn fix_arguments(polarities: &mut Vec<Polarity>, under: bool, of: &[Polarity], lifetimes: &[u32])
    ensures { polarities.new.items ≡ spec.fix_arguments under of.now 0 polarities.old.items lifetimes.now }
{
    for i in 0..lifetimes.len() {
        let fixed = under || is_inv(polarity_of(of, i));
        fix_one(polarities, fixed, lifetimes[i]);
    }
}

/// The polarities of an item in a table.
fn told(table: &[List<Polarity>], item: u32) -> &[Polarity]
    ensures { result.now ≡ slice_index_or table.now item [] }
{
    match table.get(item as usize) {
        Some(polarities) => polarities.as_slice(),
        None => &[],
    }
}

/// Marks what is invariant in a type.
#[cycle(fix)]
#[tactic(auto, using(rx_typed::proofs::TypedRules::region_rules))]
fn fix_in(table: &[List<Polarity>], polarities: &mut Vec<Polarity>, under: bool, ty: &Ty)
    ensures { polarities.new.items ≡ spec.fix_in table.now under polarities.old.items (region-Ty ty.now) }
{
    match ty {
        Ty::Int(_) | Ty::Bool => (),
        Ty::Tuple(parts) => fix_among(table, polarities, under, parts.as_slice()),
        Ty::Shared(lifetime, inner) => {
            fix_one(polarities, under, *lifetime);
            fix_in(table, polarities, under, inner.get());
        }
        Ty::Mut(lifetime, inner) => {
            fix_one(polarities, under, *lifetime);
            fix_in(table, polarities, true, inner.get());
        }
        Ty::Adt(item, lifetimes) => {
            fix_arguments(polarities, under, told(table, *item), lifetimes.as_slice());
        }
    }
}

/// Marks what is invariant in these types.
#[cycle(fix)]
fn fix_among(table: &[List<Polarity>], polarities: &mut Vec<Polarity>, under: bool, types: &[Ty])
    ensures { polarities.new.items
        ≡ spec.fix_among table.now under polarities.old.items (regions_of (map region-Ty types.now)) }
{
    for ty in types {
        fix_in(table, polarities, under, ty);
    }
}

/// Marks what is invariant in fields.
fn fix_fields(table: &[List<Polarity>], polarities: &mut Vec<Polarity>, fields: &[FieldDecl])
    ensures { polarities.new.items
        ≡ spec.fix_among table.now false polarities.old.items (regions_of (region_fields fields.now)) }
{
    for field in fields {
        fix_in(table, polarities, false, &field.ty);
    }
}

/// Marks what is invariant in the parts of variants.
fn fix_variants(table: &[List<Polarity>], polarities: &mut Vec<Polarity>, variants: &[VariantDecl])
    ensures { polarities.new.items
        ≡ spec.fix_among table.now false polarities.old.items (regions_of (region_variants variants.now)) }
{
    for variant in variants {
        fix_among(table, polarities, false, variant.parts.as_slice());
    }
}

/// A list without a mark.
fn none_marked(alloc: Global, lifetimes: u32) -> Result<Vec<Polarity>, AllocError>
    ensures { IfOk result (λ it. it.items ≡ replicate lifetimes Co) }
{
    let mut polarities = Vec::new(alloc);
    for _lifetime in 0..lifetimes {
        polarities.push(Polarity::Co)?;
    }
    Ok(polarities)
}

/// The polarities of an item's lifetimes by a table of those of the items that it holds.
fn polarities_of(
    alloc: Global,
    items: &[Decl],
    table: &[List<Polarity>],
    item: u32,
) -> Result<List<Polarity>, AllocError>
    ensures { IfOk result (λ it. it ≡ spec.polarities_of table.now (slice_get items.now item)) }
{
    match items.get(item as usize) {
        Some(
            Decl::Struct {
                lifetimes,
                fields,
                ..
            },
        ) => {
            let mut polarities = none_marked(alloc, *lifetimes)?;
            fix_fields(table, &mut polarities, fields.as_slice());
            Ok(List::from_vec(polarities))
        }
        Some(
            Decl::Enum {
                lifetimes,
                variants,
                ..
            },
        ) => {
            let mut polarities = none_marked(alloc, *lifetimes)?;
            fix_variants(table, &mut polarities, variants.as_slice());
            Ok(List::from_vec(polarities))
        }
        _ => Ok(List::new(alloc)),
    }
}

/// Puts the polarities of an item into a table.
fn put(table: &mut Vec<List<Polarity>>, item: u32, polarities: List<Polarity>)
    ensures { table.new.items ≡ slice_set table.old.items item polarities }
{
    let place = item as usize;
    if place < table.len() {
        table[place] = polarities;
    }
}

/// Fills a table in an order of the items.
fn fill(
    alloc: Global,
    items: &[Decl],
    table: &mut Vec<List<Polarity>>,
    order: &[u32],
) -> Result<(), AllocError>
    ensures { OnOk result (table.new.items ≡ spec.fill items.now table.old.items order.now) }
{
    for i in 0..order.len() {
        let polarities = polarities_of(alloc, items, table, order[i])?;
        put(table, order[i], polarities);
    }
    Ok(())
}

/// A table of empty lists.
fn empty_lists(alloc: Global, len: usize) -> Result<Vec<List<Polarity>>, AllocError>
    ensures { IfOk result (λ it. length it.items ≡ len) }
{
    let mut table = Vec::new(alloc);
    for _item in 0..len {
        table.push(List::new(alloc))?;
    }
    Ok(table)
}

/// The polarities of the lifetimes of each item, by its number.
pub(crate) fn variances(alloc: Global, items: &[Decl]) -> Result<Vec<List<Polarity>>, AllocError>
    requires { WellFormed items.now }
    ensures { IfOk result (λ it. spec.AreVariances items.now it.items) }
{
    let edges = held(alloc, items)?;
    let order = in_order(alloc, edges.as_slice())?;
    let mut table = empty_lists(alloc, items.len())?;
    fill(alloc, items, &mut table, order.as_slice())?;
    Ok(table)
}

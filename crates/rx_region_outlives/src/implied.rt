//! Pairs of lifetimes that a type asks because it is formed.

ghost use Rattle.std.specs.Prelude.{◌≡◌, ◌↔◌, ◌++◌, ◌<◌, ℕ, [], ◌∷◌, length, OnOk, IfOk, map, slice_get, slice_set, slice_index_or};
ghost use Rattle.rx_typed.specs.Regions.{region-Ty, regions_of, region_fields, region_variants, held_regions, lifetimes_in, lifetimes_among};
ghost use Rattle.rx_typed_declarations.specs.WellFormed.{WellFormed};
ghost use Rattle.rx_typed_declarations.proofs.Filling.{Fills};
ghost use Rattle.rx_region_outlives.specs.Implied as spec;

use rx_core::{Bound, List, Ty};
use rx_graph_bits::Row;
use rx_graph_cycles::in_order;
use rx_typed::{Decl, Decls, FieldDecl, VariantDecl};
use rx_typed_declarations::held;
use std::alloc::{AllocError, Global};

/// Of each struct and enum, which of its lifetimes outlive which because of its fields.
#[derive(Drop)]
pub struct Implied {
    /// By item, pairs of lifetimes by their numbers in it.
    pub items: List<List<Bound>>,
}

/// A lifetime of a type by its number in the item that it names.
fn argument(lifetimes: &[u32], number: u32) -> Option<u32>
    ensures { result ≡ slice_get lifetimes.now number }
{
    match lifetimes.get(number as usize) {
        Some(lifetime) => Some(*lifetime),
        None => None,
    }
}

/// Adds that a lifetime outlives another, where both are there.
#[tactic(auto, using(crate::proofs::Appending::appending))]
fn add_pair(
    pairs: &mut List<Bound>,
    long: Option<u32>,
    short: Option<u32>,
) -> Result<(), AllocError>
    ensures { OnOk result (pairs.new ≡ pairs.old ++ spec.pair_of long short) }
{
    match long {
        Some(long) => match short {
            Some(short) => pairs.push(Bound { long, short }),
            None => Ok(()),
        },
        None => Ok(()),
    }
}

/// Adds the pairs of an item, for a type that has these lifetimes.
fn add_with_arguments(
    pairs: &mut List<Bound>,
    lifetimes: &[u32],
    of: &[Bound],
) -> Result<(), AllocError>
    ensures { OnOk result (pairs.new ≡ pairs.old ++ spec.with_arguments lifetimes.now of.now) }
{
    for pair in of {
        add_pair(
            pairs,
            argument(lifetimes, pair.long),
            argument(lifetimes, pair.short),
        )?;
    }
    Ok(())
}

/// Adds that these lifetimes outlive one.
fn add_outlived(pairs: &mut List<Bound>, lifetimes: &[u32], short: u32) -> Result<(), AllocError>
    ensures { OnOk result (pairs.new ≡ pairs.old ++ spec.all_outlive lifetimes.now short) }
{
    for long in lifetimes {
        pairs.push(Bound { long: *long, short })?;
    }
    Ok(())
}

/// Adds the lifetimes in a type, in order.
#[cycle(lifetimes)]
#[tactic(auto, using(rx_typed::proofs::TypedRules::region_rules, crate::proofs::Appending::appending))]
fn add_lifetimes(lifetimes: &mut List<u32>, ty: &Ty) -> Result<(), AllocError>
    ensures { OnOk result (lifetimes.new ≡ lifetimes.old ++ lifetimes_in (region-Ty ty.now)) }
{
    match ty {
        Ty::Int(_) | Ty::Bool => Ok(()),
        Ty::Tuple(parts) => add_lifetimes_among(lifetimes, parts.as_slice()),
        Ty::Shared(lifetime, inner) | Ty::Mut(lifetime, inner) => {
            lifetimes.push(*lifetime)?;
            add_lifetimes(lifetimes, inner.get())
        }
        Ty::Adt(_, list) => add_all(lifetimes, list.as_slice()),
    }
}

/// Adds those in these types.
#[cycle(lifetimes)]
fn add_lifetimes_among(lifetimes: &mut List<u32>, types: &[Ty]) -> Result<(), AllocError>
    ensures { OnOk result (lifetimes.new ≡ lifetimes.old ++ lifetimes_among (regions_of (map region-Ty types.now))) }
{
    for ty in types {
        add_lifetimes(lifetimes, ty)?;
    }
    Ok(())
}

fn add_all(lifetimes: &mut List<u32>, list: &[u32]) -> Result<(), AllocError>
    ensures { OnOk result (lifetimes.new ≡ lifetimes.old ++ list.now) }
{
    for lifetime in list {
        lifetimes.push(*lifetime)?;
    }
    Ok(())
}

/// Adds that all lifetimes in a type outlive one.
fn add_pointed_to(
    alloc: Global,
    pairs: &mut List<Bound>,
    inner: &Ty,
    short: u32,
) -> Result<(), AllocError>
    ensures { OnOk result (pairs.new ≡ pairs.old ++ spec.all_outlive (lifetimes_in (region-Ty inner.now)) short) }
{
    let mut lifetimes = List::new(alloc);
    add_lifetimes(&mut lifetimes, inner)?;
    add_outlived(pairs, lifetimes.as_slice(), short)
}

/// The pairs of an item in a table.
fn told(table: &[List<Bound>], item: u32) -> &[Bound]
    ensures { result.now ≡ spec.pairs_of table.now item }
{
    match table.get(item as usize) {
        Some(pairs) => pairs.as_slice(),
        None => &[],
    }
}

/// Adds the pairs of a type, by those of the items that it names.
#[cycle(implied)]
#[tactic(auto, using(rx_typed::proofs::TypedRules::region_rules, crate::proofs::Appending::appending))]
fn add_implied(
    alloc: Global,
    pairs: &mut List<Bound>,
    table: &[List<Bound>],
    ty: &Ty,
) -> Result<(), AllocError>
    ensures { OnOk result (pairs.new ≡ pairs.old ++ spec.implied_in (spec.pairs_of table.now) (region-Ty ty.now)) }
{
    match ty {
        Ty::Int(_) | Ty::Bool => Ok(()),
        Ty::Tuple(parts) => add_implied_among(alloc, pairs, table, parts.as_slice()),
        Ty::Shared(lifetime, inner) | Ty::Mut(lifetime, inner) => {
            add_pointed_to(alloc, pairs, inner.get(), *lifetime)?;
            add_implied(alloc, pairs, table, inner.get())
        }
        Ty::Adt(item, lifetimes) => add_with_arguments(
            pairs,
            lifetimes.as_slice(),
            told(table, *item),
        ),
    }
}

/// Adds those of these types.
#[cycle(implied)]
fn add_implied_among(
    alloc: Global,
    pairs: &mut List<Bound>,
    table: &[List<Bound>],
    types: &[Ty],
) -> Result<(), AllocError>
    ensures { OnOk result (pairs.new ≡ pairs.old ++ spec.implied_among (spec.pairs_of table.now) (regions_of (map region-Ty types.now))) }
{
    for ty in types {
        add_implied(alloc, pairs, table, ty)?;
    }
    Ok(())
}

/// Adds those of the types of fields.
fn add_by_fields(
    alloc: Global,
    pairs: &mut List<Bound>,
    table: &[List<Bound>],
    fields: &[FieldDecl],
) -> Result<(), AllocError>
    ensures { OnOk result (pairs.new ≡ pairs.old ++ spec.implied_among (spec.pairs_of table.now) (regions_of (region_fields fields.now))) }
{
    for field in fields {
        add_implied(alloc, pairs, table, &field.ty)?;
    }
    Ok(())
}

/// Adds those of the parts of variants.
#[tactic(auto, using(crate::proofs::ImpliedLemmas::among_append))]
fn add_by_variants(
    alloc: Global,
    pairs: &mut List<Bound>,
    table: &[List<Bound>],
    variants: &[VariantDecl],
) -> Result<(), AllocError>
    ensures { OnOk result (pairs.new ≡ pairs.old ++ spec.implied_among (spec.pairs_of table.now) (regions_of (region_variants variants.now))) }
{
    for variant in variants {
        add_implied_among(alloc, pairs, table, variant.parts.as_slice())?;
    }
    Ok(())
}

/// Whether a pair was marked.
fn is_marked(marks: &[Row], pair: Bound) -> bool
    ensures { result ≡ spec.marked marks.now pair.long pair.short }
{
    match marks.get(pair.long as usize) {
        Some(row) => row.holds(pair.short as usize),
        None => false,
    }
}

/// Marks a pair, where there is a row for it.
fn mark(marks: &mut [Row], pair: Bound)
    ensures marked { spec.Marked marks.old marks.new pair }
    ensures count { length marks.new ≡ length marks.old }
{
    let place = pair.long as usize;
    if place < marks.len() {
        marks[place].insert(pair.short as usize);
    }
}

/// Rows for pairs of so many lifetimes, none of which is marked.
fn none_marked(alloc: Global, lifetimes: u32) -> Result<Vec<Row>, AllocError>
    ensures { IfOk result (λ it. spec.Unmarked it.items) }
{
    let mut marks = Vec::new(alloc);
    for _lifetime in 0..lifetimes {
        marks.push(Row::new(alloc, lifetimes as usize)?)?;
    }
    Ok(marks)
}

/// Adds a pair that is not marked, and marks it.
fn add_new(kept: &mut List<Bound>, marks: &mut [Row], pair: Bound) -> Result<(), AllocError>
    requires { spec.Kept marks.old kept.old }
    ensures same { OnOk result ((l k : ℕ) → spec.HasPair kept.new l k ↔ spec.HasPair (kept.old ++ pair ∷ []) l k) }
    ensures kept { OnOk result (spec.Kept marks.new kept.new) }
    ensures count { OnOk result (length marks.new ≡ length marks.old) }
{
    if is_marked(marks, pair) {
        return Ok(());
    }
    kept.push(pair)?;
    mark(marks, pair);
    Ok(())
}

/// The same pairs of so many lifetimes, each once.
fn distinct(alloc: Global, lifetimes: u32, pairs: &[Bound]) -> Result<List<Bound>, AllocError>
    ensures { IfOk result (λ it. spec.SamePairs it pairs.now) }
{
    let mut marks = none_marked(alloc, lifetimes)?;
    let mut kept = List::new(alloc);
    for pair in pairs {
        add_new(&mut kept, marks.as_mut_slice(), *pair)?;
    }
    Ok(kept)
}

/// Adds what an item's fields ask of its lifetimes.
fn add_held(
    alloc: Global,
    pairs: &mut List<Bound>,
    table: &[List<Bound>],
    item: &Decl,
) -> Result<(), AllocError>
    ensures { OnOk result (pairs.new ≡ pairs.old ++ spec.implied_among (spec.pairs_of table.now) (regions_of (held_regions item.now))) }
{
    match item {
        Decl::Struct { fields, .. } => add_by_fields(alloc, pairs, table, fields.as_slice()),
        Decl::Enum { variants, .. } => add_by_variants(alloc, pairs, table, variants.as_slice()),
        _ => Ok(()),
    }
}

/// How many lifetimes an item declares.
fn lifetimes_of(item: &Decl) -> u32 {
    match item {
        Decl::Struct { lifetimes, .. }
        | Decl::Enum { lifetimes, .. }
        | Decl::Func { lifetimes, .. } => *lifetimes,
        Decl::Rt => 0,
    }
}

/// What the fields of an item ask of its lifetimes, by a table of what those of the items that it holds ask.
fn implied_by(
    alloc: Global,
    items: &[Decl],
    table: &[List<Bound>],
    number: u32,
) -> Result<List<Bound>, AllocError>
    ensures { IfOk result (λ it. spec.FromHeld items.now table.now number it) }
{
    match items.get(number as usize) {
        Some(item) => {
            let mut pairs = List::new(alloc);
            add_held(alloc, &mut pairs, table, item)?;
            distinct(alloc, lifetimes_of(item), pairs.as_slice())
        }
        None => Ok(List::new(alloc)),
    }
}

/// Puts the pairs of an item into a table.
fn put(table: &mut Vec<List<Bound>>, number: u32, pairs: List<Bound>)
    ensures { table.new.items ≡ slice_set table.old.items number pairs }
{
    let place = number as usize;
    if place < table.len() {
        table[place] = pairs;
    }
}

/// Fills a table in an order of the items.
fn fill(
    alloc: Global,
    items: &[Decl],
    table: &mut Vec<List<Bound>>,
    order: &[u32],
) -> Result<(), AllocError>
    ensures { OnOk result (Fills (spec.FromHeld items.now) table.old.items order.now table.new.items) }
{
    for place in 0..order.len() {
        let pairs = implied_by(alloc, items, table.as_slice(), order[place])?;
        put(table, order[place], pairs);
    }
    Ok(())
}

/// A table of empty lists.
fn empty_lists(alloc: Global, len: usize) -> Result<Vec<List<Bound>>, AllocError>
    ensures { IfOk result (λ it. length it.items ≡ len) }
{
    let mut table = Vec::new(alloc);
    for _item in 0..len {
        table.push(List::new(alloc))?;
    }
    Ok(table)
}

/// Of each struct and enum of these declarations, which of its lifetimes outlive which because of its fields (Rust Reference,
/// "Lifetime bounds"). Each pair stands once.
///
/// # Errors
///
/// Memory runs out.
pub fn implied_by_fields(alloc: Global, decls: &Decls) -> Result<Implied, AllocError>
    requires { WellFormed decls.now.items }
    ensures { IfOk result (λ it. spec.AreImplied decls.now.items it.items) }
{
    let items = decls.items.as_slice();
    let edges = held(alloc, items)?;
    let order = in_order(alloc, edges.as_slice())?;
    let mut table = empty_lists(alloc, items.len())?;
    fill(alloc, items, &mut table, order.as_slice())?;
    Ok(Implied {
        items: List::from_vec(table),
    })
}

/// Adds the pairs of a type: all lifetimes in `T` outlive `'a` of `&'a T`, at every depth, and a struct or enum has those of
/// its fields.
///
/// # Errors
///
/// Memory runs out.
pub fn add_implied_by(
    alloc: Global,
    pairs: &mut List<Bound>,
    implied: &Implied,
    ty: &Ty,
) -> Result<(), AllocError>
    ensures { OnOk result (pairs.new ≡ pairs.old ++ spec.implied_in (spec.pairs_of implied.now.items) (region-Ty ty.now)) }
{
    add_implied(alloc, pairs, implied.items.as_slice(), ty)
}

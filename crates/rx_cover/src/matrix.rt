//! Matrices: rows of what is asked of the values of each column.

ghost use Rattle.std.specs.Prelude.{◌≡◌, [], ◌∷◌, ◌++◌, Bool, false, IfOk, OnOk, List, length, map, option_map, replicate, drop, slice_get, nat_lt};
ghost use Rattle.rx_typed.specs.PlainTypes.{plain-Ty, plain-FieldDecl, plain-VariantDecl, declarations};
ghost use Rattle.rx_typed.specs.Types.{variants_declared, fields_declared};
ghost use Rattle.rx_cover.specs.Values as values_spec;
ghost use Rattle.rx_typed.specs.PlainTree.{plain-Pattern, plain-Subpattern, subpatterns_of};
ghost use Rattle.rx_typed.specs.Tree as tree;
ghost use Rattle.rx_typed_declarations.specs.Held.{field_types};
ghost use Rattle.rx_cover.specs.Heads as heads_spec;
ghost use Rattle.rx_cover.specs.PlainCells.{plain-Head, plain-Cell, plain-Row, plain-Cells, plain-Column};
ghost use Rattle.rx_cover.specs.Matrices as spec;

use crate::heads::{Cell, Head, asks, head_of, pattern_asks, same_head};
use crate::kinds::{below_zero, greatest};
use crate::sets::add;
use indexmap::IndexSet;
use rx_core::{Kind, LetGo, List, Ty};
use rx_typed::{Decl, Decls, FieldDecl, Pattern, Subpattern, VariantDecl};
use std::alloc::{AllocError, Global};

/// A column, by the type of its values.
#[derive(Clone, Copy)]
pub(crate) struct Column<'a> {
    pub ty: &'a Ty,
}

impl<'a> LetGo for Column<'a> {
    fn let_go(self) {}
}

/// A row, by its cells.
#[derive(Clone, Copy)]
pub(crate) struct Row<'r, 'a> {
    pub cells: &'r [Cell<'a>],
}

impl<'r, 'a> LetGo for Row<'r, 'a> {
    fn let_go(self) {}
}

/// Whether a row asks nothing.
fn is_open(row: &[Cell<'_>]) -> bool
    ensures { result ≡ spec.is_open (plain-Row row.now) }
{
    for i in 0..row.len() {
        if asks(row[i]) {
            return false;
        }
    }
    true
}

/// Whether some row asks nothing.
pub(crate) fn some_open(rows: &[List<Cell<'_>>]) -> bool
    ensures { result ≡ spec.some_open (map plain-Row rows.now) }
{
    for row in rows {
        if is_open(row.as_slice()) {
            return true;
        }
    }
    false
}

// ---- heads

pub(crate) fn first_head(row: &[Cell<'_>]) -> Option<Head>
    ensures { option_map plain-Head result ≡ spec.row_head (plain-Row row.now) }
{
    match row.get(0) {
        Some(cell) => head_of(*cell),
        None => None,
    }
}

fn is_integer(head: Head, kind: Kind) -> bool
    ensures { result ≡ heads_spec.integer_head kind (plain-Head head) }
{
    match head {
        Head::Natural(number) => number <= greatest(kind),
        Head::Negative(distance) => distance < below_zero(kind),
        _ => false,
    }
}

fn is_truth(head: Head) -> bool
    ensures { result ≡ heads_spec.truth_head (plain-Head head) }
{
    match head {
        Head::Truth(_) => true,
        _ => false,
    }
}

fn is_composed(head: Head) -> bool
    ensures { result ≡ heads_spec.composed_head (plain-Head head) }
{
    match head {
        Head::Composed => true,
        _ => false,
    }
}

fn is_pointed(head: Head) -> bool
    ensures { result ≡ heads_spec.pointed_head (plain-Head head) }
{
    match head {
        Head::Pointed => true,
        _ => false,
    }
}

#[tactic(auto, using(rx_typed::proofs::Items::declared_at))]
fn is_struct(decls: &Decls, item: u32) -> bool
    ensures { result ≡ values_spec.is_struct (slice_get (declarations decls.now.items) item) }
{
    match decls.items.get(item as usize) {
        Some(Decl::Struct { .. }) => true,
        _ => false,
    }
}

#[tactic(auto, using(rx_typed::proofs::Items::declared_at))]
pub(crate) fn variants_of<'a>(decls: &'a Decls, item: u32) -> &'a [VariantDecl]
    ensures { map plain-VariantDecl result.now ≡ variants_declared (slice_get (declarations decls.now.items) item) }
{
    match decls.items.get(item as usize) {
        Some(Decl::Enum { variants, .. }) => variants.as_slice(),
        _ => &[],
    }
}

#[tactic(auto, using(rx_typed::proofs::Items::declared_at))]
pub(crate) fn fields_of<'a>(decls: &'a Decls, item: u32) -> &'a [FieldDecl]
    ensures { map plain-FieldDecl result.now ≡ fields_declared (slice_get (declarations decls.now.items) item) }
{
    match decls.items.get(item as usize) {
        Some(Decl::Struct { fields, .. }) => fields.as_slice(),
        _ => &[],
    }
}

#[tactic(auto, using(crate::proofs::LeastLemmas::variant_length))]
fn has_variant(decls: &Decls, item: u32, variant: u32) -> bool
    ensures { result ≡ nat_lt variant (length (variants_declared (slice_get (declarations decls.now.items) item))) }
{
    (variant as usize) < variants_of(decls, item).len()
}

fn item_has(decls: &Decls, item: u32, head: Head) -> bool
    ensures { result ≡ heads_spec.item_head (slice_get (declarations decls.now.items) item) item (plain-Head head) }
{
    match head {
        Head::Composed => is_struct(decls, item),
        Head::Chosen(other, variant) => item == other && has_variant(decls, item, variant),
        _ => false,
    }
}

/// Whether values of the type have this head.
#[tactic(auto, using(rx_typed::proofs::TypedRules::typ_rules))]
fn is_head(decls: &Decls, ty: &Ty, head: Head) -> bool
    ensures { result ≡ heads_spec.is_head (declarations decls.now.items) (plain-Ty ty.now) (plain-Head head) }
{
    match ty {
        Ty::Int(kind) => is_integer(head, *kind),
        Ty::Bool => is_truth(head),
        Ty::Tuple(_) => is_composed(head),
        Ty::Shared(_, _) => is_pointed(head),
        Ty::Mut(_, _) => is_pointed(head),
        Ty::Adt(item, _) => item_has(decls, *item, head),
    }
}

/// Adds a head of the type that is not there yet.
fn add_head(
    decls: &Decls,
    ty: &Ty,
    heads: &mut IndexSet<Head>,
    head: Option<Head>,
) -> Result<(), AllocError>
    ensures { OnOk result (map plain-Head heads.new.keys ≡ spec.with_head_in (declarations decls.now.items)
        (plain-Ty ty.now) (map plain-Head heads.old.keys) (option_map plain-Head head)) }
{
    match head {
        Some(head) => {
            if is_head(decls, ty, head) {
                add(heads, head)
            } else {
                Ok(())
            }
        }
        None => Ok(()),
    }
}

/// The heads of the type that the first column has.
pub(crate) fn heads_among(
    alloc: Global,
    decls: &Decls,
    ty: &Ty,
    rows: &[List<Cell<'_>>],
) -> Result<IndexSet<Head>, AllocError>
    ensures { IfOk result (λ it. map plain-Head it.keys ≡ spec.gather (declarations decls.now.items) (plain-Ty ty.now)
        [] (map plain-Row rows.now)) }
{
    let mut heads = IndexSet::new(alloc);
    for row in rows {
        add_head(decls, ty, &mut heads, first_head(row.as_slice()))?;
    }
    Ok(heads)
}

// ---- masks

fn mark_one(mask: &mut Vec<bool>, at: usize, asked: bool)
    ensures { mask.new.items ≡ spec.mark_one mask.old.items at asked }
{
    if asked && at < mask.len() {
        mask[at] = true;
    }
}

#[tactic(auto, using(rx_typed::proofs::Rules::typed_pattern_rules))]
fn mark_parts(mask: &mut Vec<bool>, parts: &[Subpattern])
    ensures { mask.new.items ≡ spec.mark_parts mask.old.items (subpatterns_of (map plain-Subpattern parts.now)) }
{
    for part in parts {
        mark_one(mask, part.field, pattern_asks(&part.pattern));
    }
}

#[tactic(auto, using(rx_typed::proofs::Rules::typed_pattern_rules))]
fn mark_pattern(mask: &mut Vec<bool>, pattern: &Pattern)
    ensures { mask.new.items ≡ spec.mark_parts mask.old.items (heads_spec.parts_in (plain-Pattern pattern.now)) }
{
    match pattern {
        Pattern::Parts(parts) => mark_parts(mask, parts.as_slice()),
        Pattern::Variant(_, _, _, _, parts) => mark_parts(mask, parts.as_slice()),
        Pattern::Behind(_, inner) => mark_one(mask, 0, pattern_asks(inner.get())),
        Pattern::Any | Pattern::Bind(_, _, _) | Pattern::Exactly(_, _) => (),
    }
}

fn mark_cell(mask: &mut Vec<bool>, cell: Cell<'_>)
    ensures { mask.new.items ≡ spec.mark_parts mask.old.items (heads_spec.parts_in (plain-Cell cell.entry)) }
{
    match cell {
        Cell::Open => (),
        Cell::Asks(pattern) => mark_pattern(mask, pattern),
    }
}

/// Whether a cell asks for this head.
fn is_it(cell: Cell<'_>, head: Head) -> bool
    ensures { result ≡ spec.is_it (heads_spec.head_in (plain-Cell cell.entry)) (plain-Head head) }
{
    match head_of(cell) {
        Some(other) => same_head(other, head),
        None => false,
    }
}

/// Whether a value with this head may be what a cell asks for.
pub(crate) fn admits(cell: Cell<'_>, head: Head) -> bool
    ensures { result ≡ spec.admits (heads_spec.head_in (plain-Cell cell.entry)) (plain-Head head) }
{
    match head_of(cell) {
        Some(other) => same_head(other, head),
        None => true,
    }
}

fn mark_row(mask: &mut Vec<bool>, head: Head, row: &[Cell<'_>])
    ensures { mask.new.items ≡ spec.mark_row (plain-Head head) mask.old.items (plain-Row row.now) }
{
    match row.get(0) {
        Some(cell) => {
            if is_it(*cell, head) {
                mark_cell(mask, *cell);
            }
        }
        None => (),
    }
}

fn no_marks(alloc: Global, len: usize) -> Result<Vec<bool>, AllocError>
    ensures { IfOk result (λ it. it.items ≡ replicate len false) }
{
    let mut mask = Vec::new(alloc);
    for _part in 0..len {
        mask.push(false)?;
    }
    Ok(mask)
}

fn mark_rows(mask: &mut Vec<bool>, head: Head, rows: &[Row<'_, '_>])
    ensures { mask.new.items ≡ spec.mark_rows (plain-Head head) mask.old.items (map plain-Cells rows.now) }
{
    for row in rows {
        mark_row(mask, head, row.cells);
    }
}

/// Which parts of a value with this head some row asks for.
pub(crate) fn mask_of(
    alloc: Global,
    head: Head,
    len: usize,
    rows: &[Row<'_, '_>],
) -> Result<List<bool>, AllocError>
    ensures { IfOk result (λ it. it ≡ spec.mark_rows (plain-Head head) (replicate len false) (map plain-Cells rows.now)) }
{
    let mut mask = no_marks(alloc, len)?;
    mark_rows(&mut mask, head, rows);
    Ok(List::from_vec(mask))
}

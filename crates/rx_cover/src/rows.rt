//! What a head leaves of a matrix.

ghost use Rattle.std.specs.Prelude.{◌≡◌, [], ◌∷◌, ◌++◌, IfOk, OnOk, List, length, map, drop, slice_get};
ghost use Rattle.rx_typed.specs.PlainTypes.{plain-Ty, plain-FieldDecl, declarations};
ghost use Rattle.rx_typed_declarations.specs.Held.{field_types};
ghost use Rattle.rx_cover.specs.Heads as heads_spec;
ghost use Rattle.rx_cover.specs.PlainCells.{plain-Head, plain-Cell, plain-Row, plain-Cells, plain-Column};
ghost use Rattle.rx_cover.specs.Matrices as spec;
ghost use Rattle.rx_typed.specs.Types.{parts_declared, variants_declared};

use crate::heads::{Cell, Head, asks, part};
use crate::matrix::{Column, Row, admits, fields_of, first_head, variants_of};
use crate::sets::place;
use indexmap::IndexSet;
use rx_core::{List, Ty};
use rx_typed::{Decls, FieldDecl};
use std::alloc::{AllocError, Global};

/// Adds the marked parts of a cell to a row.
fn push_kept<'a>(row: &mut List<Cell<'a>>, mask: &[bool], cell: Cell<'a>) -> Result<(), AllocError>
    ensures { OnOk result ((rest : spec.Row) → plain-Row row.new ++ rest
        ≡ plain-Row row.old ++ spec.kept_parts mask.now 0 (heads_spec.parts_in (plain-Cell cell.entry)) rest) }
{
    for i in 0..mask.len() {
        if mask[i] {
            row.push(part(cell, i))?;
        }
    }
    Ok(())
}

/// Adds all cells but the first.
#[tactic(auto, using(crate::proofs::CellLemmas::rest_is))]
fn push_rest<'a>(row: &mut List<Cell<'a>>, from: &[Cell<'a>]) -> Result<(), AllocError>
    ensures { OnOk result (plain-Row row.new ≡ plain-Row row.old ++ spec.rest_of (plain-Row from.now)) }
{
    for i in 1..from.len() {
        row.push(from[i])?;
    }
    Ok(())
}

fn kept_row<'a>(
    alloc: Global,
    mask: &[bool],
    cell: Cell<'a>,
    row: &[Cell<'a>],
) -> Result<List<Cell<'a>>, AllocError>
    ensures { IfOk result (λ it. plain-Row it ≡ spec.kept_parts mask.now 0 (heads_spec.parts_in (plain-Cell cell.entry))
        (spec.rest_of (plain-Row row.now))) }
{
    let mut kept = List::new(alloc);
    push_kept(&mut kept, mask, cell)?;
    push_rest(&mut kept, row)?;
    Ok(kept)
}

fn rest_row<'a>(alloc: Global, row: &[Cell<'a>]) -> Result<List<Cell<'a>>, AllocError>
    ensures { IfOk result (λ it. plain-Row it ≡ spec.rest_of (plain-Row row.now)) }
{
    let mut rest = List::new(alloc);
    push_rest(&mut rest, row)?;
    Ok(rest)
}

fn no_cells<'a>(alloc: Global) -> List<Cell<'a>>
    ensures { plain-Row result ≡ [] }
{
    List::new(alloc)
}

fn add_row_under<'a>(
    alloc: Global,
    rows: &mut List<List<Cell<'a>>>,
    head: Head,
    mask: &[bool],
    row: &[Cell<'a>],
) -> Result<(), AllocError>
    ensures { OnOk result (map plain-Row rows.new
        ≡ map plain-Row rows.old ++ spec.row_under (plain-Head head) mask.now (plain-Row row.now)) }
{
    match row.get(0) {
        Some(cell) => {
            if admits(*cell, head) {
                let kept = kept_row(alloc, mask, *cell, row)?;
                rows.push(kept)?;
            }
            Ok(())
        }
        None => rows.push(no_cells(alloc)),
    }
}

/// What rows ask of the marked parts of a first value with this head, and of the other values.
pub(crate) fn rows_under<'a>(
    alloc: Global,
    head: Head,
    mask: &[bool],
    rows: &[Row<'_, 'a>],
) -> Result<List<List<Cell<'a>>>, AllocError>
    ensures { IfOk result (λ it. map plain-Row it ≡ spec.rows_under (plain-Head head) mask.now (map plain-Cells rows.now)) }
{
    let mut under = List::new(alloc);
    for row in rows {
        add_row_under(alloc, &mut under, head, mask, row.cells)?;
    }
    Ok(under)
}

/// All rows.
pub(crate) fn all_rows<'r, 'a>(
    alloc: Global,
    rows: &'r [List<Cell<'a>>],
) -> Result<List<Row<'r, 'a>>, AllocError>
    ensures { IfOk result (λ it. map plain-Cells it ≡ map plain-Row rows.now) }
{
    let mut all = List::new(alloc);
    for row in rows {
        all.push(Row {
            cells: row.as_slice(),
        })?;
    }
    Ok(all)
}

/// Whether a row asks for a head from one place to before another, or for none.
fn is_within(heads: &IndexSet<Head>, low: usize, high: usize, row: Row<'_, '_>) -> bool
    ensures { result ≡ spec.head_within (map plain-Head heads.now.keys) low high (spec.row_head (plain-Cells row.entry)) }
{
    match first_head(row.cells) {
        Some(head) => {
            let at = place(heads, head);
            low <= at && at < high
        }
        None => true,
    }
}

/// The rows that ask for a head from one place to before another, or for none.
pub(crate) fn rows_within<'r, 'a>(
    alloc: Global,
    heads: &IndexSet<Head>,
    low: usize,
    high: usize,
    rows: &[Row<'r, 'a>],
) -> Result<List<Row<'r, 'a>>, AllocError>
    ensures { IfOk result (λ it. map plain-Cells it
        ≡ spec.rows_within (map plain-Head heads.now.keys) low high (map plain-Cells rows.now)) }
{
    let mut within = List::new(alloc);
    for i in 0..rows.len() {
        if is_within(heads, low, high, rows[i]) {
            within.push(rows[i])?;
        }
    }
    Ok(within)
}

fn add_row_beside<'a>(
    alloc: Global,
    rows: &mut List<List<Cell<'a>>>,
    row: &[Cell<'a>],
) -> Result<(), AllocError>
    ensures { OnOk result (map plain-Row rows.new ≡ map plain-Row rows.old ++ spec.row_beside (plain-Row row.now)) }
{
    match row.get(0) {
        Some(cell) => {
            if !asks(*cell) {
                let rest = rest_row(alloc, row)?;
                rows.push(rest)?;
            }
            Ok(())
        }
        None => rows.push(no_cells(alloc)),
    }
}

/// The rows that ask nothing of the first value, without it.
pub(crate) fn rows_beside<'a>(
    alloc: Global,
    rows: &[List<Cell<'a>>],
) -> Result<List<List<Cell<'a>>>, AllocError>
    ensures { IfOk result (λ it. map plain-Row it ≡ spec.rows_beside (map plain-Row rows.now)) }
{
    let mut beside = List::new(alloc);
    for row in rows {
        add_row_beside(alloc, &mut beside, row.as_slice())?;
    }
    Ok(beside)
}

// ---- columns

fn columns_of<'a>(alloc: Global, types: &'a [Ty]) -> Result<List<Column<'a>>, AllocError>
    ensures { IfOk result (λ it. map plain-Column it ≡ map plain-Ty types.now) }
{
    let mut columns = List::new(alloc);
    for ty in types {
        columns.push(Column { ty })?;
    }
    Ok(columns)
}

fn columns_of_fields<'a>(
    alloc: Global,
    fields: &'a [FieldDecl],
) -> Result<List<Column<'a>>, AllocError>
    ensures { IfOk result (λ it. map plain-Column it ≡ field_types (map plain-FieldDecl fields.now)) }
{
    let mut columns = List::new(alloc);
    for field in fields {
        columns.push(Column { ty: &field.ty })?;
    }
    Ok(columns)
}

pub(crate) fn one_column<'a>(alloc: Global, ty: &'a Ty) -> Result<List<Column<'a>>, AllocError>
    ensures { IfOk result (λ it. map plain-Column it ≡ plain-Ty ty.now ∷ []) }
{
    let mut columns = List::new(alloc);
    columns.push(Column { ty })?;
    Ok(columns)
}

fn columns_of_variant<'a>(
    alloc: Global,
    decls: &'a Decls,
    item: u32,
    variant: u32,
) -> Result<List<Column<'a>>, AllocError>
    ensures { IfOk result (λ it. map plain-Column it ≡ parts_declared
        (slice_get (variants_declared (slice_get (declarations decls.now.items) item)) variant)) }
{
    match variants_of(decls, item).get(variant as usize) {
        Some(variant) => columns_of(alloc, variant.parts.as_slice()),
        None => Ok(List::new(alloc)),
    }
}

fn item_columns<'a>(
    alloc: Global,
    decls: &'a Decls,
    item: u32,
    head: Head,
) -> Result<List<Column<'a>>, AllocError>
    ensures { IfOk result (λ it. map plain-Column it
        ≡ heads_spec.item_types (slice_get (declarations decls.now.items) item) (plain-Head head)) }
{
    match head {
        Head::Chosen(_, variant) => columns_of_variant(alloc, decls, item, variant),
        _ => columns_of_fields(alloc, fields_of(decls, item)),
    }
}

/// The types of the parts of a value with this head.
#[tactic(auto, using(rx_typed::proofs::TypedRules::typ_rules, crate::proofs::InhabitedLemmas::listed))]
pub(crate) fn types_under<'a>(
    alloc: Global,
    decls: &'a Decls,
    ty: &'a Ty,
    head: Head,
) -> Result<List<Column<'a>>, AllocError>
    ensures { IfOk result (λ it. map plain-Column it
        ≡ heads_spec.types_under (declarations decls.now.items) (plain-Ty ty.now) (plain-Head head)) }
{
    match ty {
        Ty::Int(_) | Ty::Bool => Ok(List::new(alloc)),
        Ty::Tuple(parts) => columns_of(alloc, parts.as_slice()),
        Ty::Shared(_, inner) => one_column(alloc, inner.get()),
        Ty::Mut(_, inner) => one_column(alloc, inner.get()),
        Ty::Adt(item, _) => item_columns(alloc, decls, *item, head),
    }
}

fn push_columns<'a>(columns: &mut List<Column<'a>>, from: &[Column<'a>]) -> Result<(), AllocError>
    ensures { OnOk result (map plain-Column columns.new ≡ map plain-Column columns.old ++ map plain-Column from.now) }
{
    for i in 0..from.len() {
        columns.push(from[i])?;
    }
    Ok(())
}

fn push_if<'a>(
    columns: &mut List<Column<'a>>,
    marked: bool,
    column: Column<'a>,
) -> Result<(), AllocError>
    ensures { OnOk result (map plain-Column columns.new
        ≡ map plain-Column columns.old ++ spec.kept_types (marked ∷ []) (plain-Column column.entry ∷ []) []) }
{
    if marked { columns.push(column) } else { Ok(()) }
}

fn push_kept_columns<'a>(
    columns: &mut List<Column<'a>>,
    mask: &[bool],
    from: &[Column<'a>],
) -> Result<(), AllocError>
    requires long { length mask.now ≡ length from.now }
    ensures { OnOk result (map plain-Column columns.new
        ≡ map plain-Column columns.old ++ spec.kept_types mask.now (map plain-Column from.now) []) }
{
    for i in 0..from.len() {
        push_if(columns, mask[i], from[i])?;
    }
    Ok(())
}

/// The marked ones of these columns, and others behind them.
#[tactic(auto, using(crate::proofs::CellLemmas::kept_types_append))]
pub(crate) fn kept_columns<'a>(
    alloc: Global,
    mask: &[bool],
    columns: &[Column<'a>],
    rest: &[Column<'a>],
) -> Result<List<Column<'a>>, AllocError>
    requires long { length mask.now ≡ length columns.now }
    ensures { IfOk result (λ it. map plain-Column it
        ≡ spec.kept_types mask.now (map plain-Column columns.now) (map plain-Column rest.now)) }
{
    let mut kept = List::new(alloc);
    push_kept_columns(&mut kept, mask, columns)?;
    push_columns(&mut kept, rest)?;
    Ok(kept)
}

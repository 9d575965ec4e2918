//! Values that no row of a matrix matches.

ghost use Rattle.std.specs.Prelude.{◌≡◌, ◌<◌, ◌≤◌, negsuc, [], ◌∷◌, true, IfOk, IsTrue, List, map, option_map, length, drop};
ghost use Rattle.rx_typed.specs.PlainTypes.{plain-Ty, declarations};
ghost use Rattle.rx_typed.specs.Types.{Typ, Declarations};
ghost use Rattle.rx_cover.specs.Finite.{Finite};
ghost use Rattle.rx_cover.specs.Inhabited.{Inhabited};
ghost use Rattle.rx_cover.specs.Heads as heads_spec;
ghost use Rattle.rx_cover.specs.Matrices as matrices;
ghost use Rattle.rx_cover.specs.PlainCells.{plain-Head, plain-Cell, plain-Row, plain-Cells, plain-Column};
ghost use Rattle.rx_cover.specs.PlainValue.{plain-Value, plain_values};
ghost use Rattle.rx_cover.specs.Finding as spec;
ghost use Rattle.rx_cover.specs.Values as plain;

use crate::heads::{Cell, Head};
use crate::least::{add_value, apart};
use crate::matrix::{Column, Row, heads_among, mask_of, some_open};
use crate::rows::{all_rows, kept_columns, rows_beside, rows_under, rows_within, types_under};
use crate::value::{Value, integer, made, reference, truth, tuple, variant};
use indexmap::IndexSet;
use rx_core::{LetGo, List, Ty, keep, pushed};
use rx_typed::Decls;
use std::alloc::{AllocError, Global};

#[tactic(auto, using(rx_typed::proofs::TypedRules::typ_rules))]
fn composed(alloc: Global, ty: &Ty, parts: List<Value>) -> Result<Value, AllocError>
    ensures { IfOk result (λ v. plain-Value v
        ≡ heads_spec.with_head (plain-Ty ty.now) heads_spec.composed (plain_values parts)) }
{
    match ty {
        Ty::Adt(item, _) => made(alloc, *item, parts),
        Ty::Int(_) => tuple(alloc, parts),
        Ty::Bool => tuple(alloc, parts),
        Ty::Tuple(_) => tuple(alloc, parts),
        Ty::Shared(_, _) => tuple(alloc, parts),
        Ty::Mut(_, _) => tuple(alloc, parts),
    }
}

fn pointing(alloc: Global, parts: List<Value>) -> Result<Value, AllocError>
    ensures { IfOk result (λ v. plain-Value v ≡ heads_spec.pointed_value (plain_values parts)) }
{
    let mut parts = parts;
    match parts.pop() {
        Some(value) => {
            parts.let_go();
            reference(alloc, value)
        }
        None => tuple(alloc, parts),
    }
}

/// The integer below 0 at this distance from -1.
fn below_zero(alloc: Global, distance: u64) -> Result<Value, AllocError>
    requires near { distance < 18446744073709551615 }
    ensures { IfOk result (λ v. plain-Value v ≡ plain.number (negsuc distance)) }
{
    integer(alloc, true, distance + 1)
}

/// The value of a type with this head and these parts.
fn with_head(alloc: Global, ty: &Ty, head: Head, parts: List<Value>) -> Result<Value, AllocError>
    requires near { heads_spec.IsNear (plain-Head head) }
    ensures { IfOk result (λ v. plain-Value v
        ≡ heads_spec.with_head (plain-Ty ty.now) (plain-Head head) (plain_values parts)) }
{
    match head {
        Head::Natural(magnitude) => {
            parts.let_go();
            integer(alloc, false, magnitude)
        }
        Head::Negative(distance) => {
            parts.let_go();
            below_zero(alloc, distance)
        }
        Head::Truth(value) => {
            parts.let_go();
            truth(alloc, value)
        }
        Head::Composed => composed(alloc, ty, parts),
        Head::Chosen(item, chosen) => variant(alloc, item, chosen, parts),
        Head::Pointed => pointing(alloc, parts),
    }
}

/// Moves the last value of a list to the end of another; whether there is one.
fn take(stack: &mut List<Value>, parts: &mut List<Value>) -> Result<bool, AllocError>
    ensures { IfOk result (λ b. spec.Takes stack.old parts.old stack.new parts.new b) }
{
    match stack.pop() {
        Some(value) => {
            parts.push(value)?;
            Ok(true)
        }
        None => Ok(false),
    }
}

/// Fills in a part: the last value of the stack where it is marked, else one of its type; whether there is one.
fn refill_one(
    alloc: Global,
    decls: &Decls,
    inhabited: &[bool],
    column: Column<'_>,
    marked: bool,
    stack: &mut List<Value>,
    parts: &mut List<Value>,
) -> Result<bool, AllocError>
    requires finite { Finite (declarations decls.now.items) }
    requires numbered { spec.Numbered (declarations decls.now.items) }
    requires inhabited { Inhabited (declarations decls.now.items) inhabited.now }
    ensures { IfOk result (λ b. (ts : List Typ) → spec.Stacked (declarations decls.now.items)
        (matrices.kept_types (marked ∷ []) (plain-Column column.entry ∷ []) ts) stack.old
        → spec.Refills (declarations decls.now.items) (marked ∷ []) (plain-Column column.entry ∷ []) ts
        stack.old parts.old stack.new parts.new b) }
{
    if marked {
        take(stack, parts)
    } else {
        add_value(alloc, decls, inhabited, column.ty, parts)
    }
}

/// Fills in parts; whether all have values.
fn refill(
    alloc: Global,
    decls: &Decls,
    inhabited: &[bool],
    columns: &[Column<'_>],
    mask: &[bool],
    stack: &mut List<Value>,
    parts: &mut List<Value>,
) -> Result<bool, AllocError>
    requires finite { Finite (declarations decls.now.items) }
    requires numbered { spec.Numbered (declarations decls.now.items) }
    requires inhabited { Inhabited (declarations decls.now.items) inhabited.now }
    requires long { length mask.now ≡ length columns.now }
    ensures { IfOk result (λ b. (ts : List Typ) → spec.Stacked (declarations decls.now.items)
        (matrices.kept_types mask.now (map plain-Column columns.now) ts) stack.old
        → spec.Refills (declarations decls.now.items) mask.now (map plain-Column columns.now) ts
        stack.old parts.old stack.new parts.new b) }
{
    for i in 0..columns.len() {
        if !refill_one(alloc, decls, inhabited, columns[i], mask[i], stack, parts)? {
            return Ok(false);
        }
    }
    Ok(true)
}

/// The stack with the value of these parts at its end.
fn finished(
    alloc: Global,
    ty: &Ty,
    head: Head,
    parts: List<Value>,
    stack: List<Value>,
) -> Result<List<Value>, AllocError>
    requires near { heads_spec.IsNear (plain-Head head) }
    ensures { IfOk result (λ it. spec.Finished stack
        (heads_spec.with_head (plain-Ty ty.now) (plain-Head head) (plain_values parts)) it) }
{
    let (value, stack) = keep(stack, with_head(alloc, ty, head, parts))?;
    pushed(stack, value)
}

/// The stack with its last values made into the parts of a value with this head, where such a value is.
fn rebuilt(
    alloc: Global,
    decls: &Decls,
    inhabited: &[bool],
    ty: &Ty,
    head: Head,
    columns: &[Column<'_>],
    mask: &[bool],
    stack: List<Value>,
) -> Result<Option<List<Value>>, AllocError>
    requires finite { Finite (declarations decls.now.items) }
    requires numbered { spec.Numbered (declarations decls.now.items) }
    requires inhabited { Inhabited (declarations decls.now.items) inhabited.now }
    requires long { length mask.now ≡ length columns.now }
    requires near { heads_spec.IsNear (plain-Head head) }
    ensures { IfOk result (λ o. (ts : List Typ) → spec.Stacked (declarations decls.now.items)
        (matrices.kept_types mask.now (map plain-Column columns.now) ts) stack
        → spec.Rebuilds (declarations decls.now.items) (plain-Ty ty.now) (plain-Head head) mask.now
        (map plain-Column columns.now) ts stack o) }
{
    let mut stack = stack;
    let mut parts = List::new(alloc);
    match refill(
        alloc, decls, inhabited, columns, mask, &mut stack, &mut parts,
    ) {
        Ok(true) => Ok(Some(finished(alloc, ty, head, parts, stack)?)),
        Ok(false) => {
            parts.let_go();
            stack.let_go();
            Ok(None)
        }
        Err(AllocError) => {
            parts.let_go();
            stack.let_go();
            Err(AllocError)
        }
    }
}

/// The stack with a value at its end whose head is none of these, where there is one.
fn beside(
    alloc: Global,
    decls: &Decls,
    inhabited: &[bool],
    ty: &Ty,
    heads: &IndexSet<Head>,
    stack: List<Value>,
) -> Result<Option<List<Value>>, AllocError>
    requires finite { Finite (declarations decls.now.items) }
    requires numbered { spec.Numbered (declarations decls.now.items) }
    requires inhabited { Inhabited (declarations decls.now.items) inhabited.now }
    ensures { IfOk result (λ o. spec.Besides (declarations decls.now.items) (plain-Ty ty.now)
        (map plain-Head heads.now.keys) stack o) }
{
    let (value, stack) = keep(stack, apart(alloc, decls, inhabited, ty, heads))?;
    match value {
        Some(value) => Ok(Some(pushed(stack, value)?)),
        None => {
            stack.let_go();
            Ok(None)
        }
    }
}

/// Values of these columns that no row matches, the first at the list's end, where there are such.
#[cycle(missing)]
pub(crate) fn missing<'a>(
    alloc: Global,
    decls: &'a Decls,
    inhabited: &[bool],
    columns: &[Column<'a>],
    rows: &[List<Cell<'a>>],
) -> Result<Option<List<Value>>, AllocError>
    requires finite { Finite (declarations decls.now.items) }
    requires numbered { spec.Numbered (declarations decls.now.items) }
    requires inhabited { Inhabited (declarations decls.now.items) inhabited.now }
    ensures { IfOk result (λ o. spec.Settles (declarations decls.now.items) (map plain-Column columns.now)
        (map plain-Row rows.now) o) }
{
    if some_open(rows) {
        return Ok(None);
    }
    match columns.get(0) {
        Some(column) => split(alloc, decls, inhabited, column.ty, rest_of(columns), rows),
        None => Ok(at_end(alloc, rows)),
    }
}

/// Whether values without a column are missed.
fn at_end(alloc: Global, rows: &[List<Cell<'_>>]) -> Option<List<Value>>
    ensures { (D : Declarations) → spec.Settles D [] (map plain-Row rows.now) result }
{
    if rows.is_empty() {
        Some(List::new(alloc))
    } else {
        None
    }
}

fn rest_of<'s, 'a>(columns: &'s [Column<'a>]) -> &'s [Column<'a>]
    ensures { result.now ≡ drop 1 columns.now }
{
    if columns.is_empty() {
        columns
    } else {
        &columns[1..]
    }
}

#[cycle(missing)]
fn split<'a>(
    alloc: Global,
    decls: &'a Decls,
    inhabited: &[bool],
    ty: &'a Ty,
    rest: &[Column<'a>],
    rows: &[List<Cell<'a>>],
) -> Result<Option<List<Value>>, AllocError>
    requires finite { Finite (declarations decls.now.items) }
    requires numbered { spec.Numbered (declarations decls.now.items) }
    requires inhabited { Inhabited (declarations decls.now.items) inhabited.now }
    ensures { IfOk result (λ o. spec.Settles (declarations decls.now.items)
        (plain-Ty ty.now ∷ map plain-Column rest.now) (map plain-Row rows.now) o) }
{
    let heads = heads_among(alloc, decls, ty, rows)?;
    match by_heads(alloc, decls, inhabited, ty, rest, rows, &heads)? {
        Some(stack) => Ok(Some(stack)),
        None => by_others(alloc, decls, inhabited, ty, rest, rows, &heads),
    }
}

/// The values whose first has one of these heads.
#[cycle(missing)]
fn by_heads<'a>(
    alloc: Global,
    decls: &'a Decls,
    inhabited: &[bool],
    ty: &'a Ty,
    rest: &[Column<'a>],
    rows: &[List<Cell<'a>>],
    heads: &IndexSet<Head>,
) -> Result<Option<List<Value>>, AllocError>
    requires finite { Finite (declarations decls.now.items) }
    requires numbered { spec.Numbered (declarations decls.now.items) }
    requires inhabited { Inhabited (declarations decls.now.items) inhabited.now }
    requires fit { spec.HeadsOf (declarations decls.now.items) (plain-Ty ty.now) (map plain-Head heads.now.keys) }
    ensures { IfOk result (λ o. spec.SettlesHeads (declarations decls.now.items) (plain-Ty ty.now)
        (map plain-Column rest.now) (map plain-Head heads.now.keys) (map plain-Row rows.now) o) }
{
    let all = all_rows(alloc, rows)?;
    in_range(
        alloc,
        decls,
        inhabited,
        ty,
        rest,
        all.as_slice(),
        heads,
        0,
        heads.len(),
    )
}

/// The values whose first has one of the heads from one place to before another, by the rows that may match them.
#[cycle(missing)]
fn in_range<'a>(
    alloc: Global,
    decls: &'a Decls,
    inhabited: &[bool],
    ty: &'a Ty,
    rest: &[Column<'a>],
    rows: &[Row<'_, 'a>],
    heads: &IndexSet<Head>,
    low: usize,
    high: usize,
) -> Result<Option<List<Value>>, AllocError>
    requires finite { Finite (declarations decls.now.items) }
    requires numbered { spec.Numbered (declarations decls.now.items) }
    requires inhabited { Inhabited (declarations decls.now.items) inhabited.now }
    requires fit { spec.HeadsOf (declarations decls.now.items) (plain-Ty ty.now) (map plain-Head heads.now.keys) }
    requires ends { high ≤ length heads.now.keys }
    ensures { IfOk result (λ o. spec.SettlesRange (declarations decls.now.items) (plain-Ty ty.now)
        (map plain-Column rest.now) (map plain-Head heads.now.keys) low high (map plain-Cells rows.now) o) }
{
    let within = rows_within(alloc, heads, low, high, rows)?;
    by_range(
        alloc,
        decls,
        inhabited,
        ty,
        rest,
        within.as_slice(),
        heads,
        low,
        high,
    )
}

/// The values whose first has one of the heads from one place to before another. Halving the heads keeps the rows that
/// are gone through few.
#[cycle(missing)]
fn by_range<'a>(
    alloc: Global,
    decls: &'a Decls,
    inhabited: &[bool],
    ty: &'a Ty,
    rest: &[Column<'a>],
    rows: &[Row<'_, 'a>],
    heads: &IndexSet<Head>,
    low: usize,
    high: usize,
) -> Result<Option<List<Value>>, AllocError>
    requires finite { Finite (declarations decls.now.items) }
    requires numbered { spec.Numbered (declarations decls.now.items) }
    requires inhabited { Inhabited (declarations decls.now.items) inhabited.now }
    requires fit { spec.HeadsOf (declarations decls.now.items) (plain-Ty ty.now) (map plain-Head heads.now.keys) }
    requires ends { high ≤ length heads.now.keys }
    ensures { IfOk result (λ o. spec.SettlesRange (declarations decls.now.items) (plain-Ty ty.now)
        (map plain-Column rest.now) (map plain-Head heads.now.keys) low high (map plain-Cells rows.now) o) }
{
    if high <= low {
        return Ok(None);
    }
    if high - low == 1 {
        return at_head(
            alloc,
            decls,
            inhabited,
            ty,
            rest,
            rows,
            heads.as_slice()[low],
        );
    }
    let middle = low + (high - low) / 2;
    match in_range(alloc, decls, inhabited, ty, rest, rows, heads, low, middle)? {
        Some(stack) => Ok(Some(stack)),
        None => in_range(alloc, decls, inhabited, ty, rest, rows, heads, middle, high),
    }
}

/// The values whose first has this head.
#[cycle(missing)]
fn at_head<'a>(
    alloc: Global,
    decls: &'a Decls,
    inhabited: &[bool],
    ty: &'a Ty,
    rest: &[Column<'a>],
    rows: &[Row<'_, 'a>],
    head: Head,
) -> Result<Option<List<Value>>, AllocError>
    requires finite { Finite (declarations decls.now.items) }
    requires numbered { spec.Numbered (declarations decls.now.items) }
    requires inhabited { Inhabited (declarations decls.now.items) inhabited.now }
    requires fits { heads_spec.IsHead (declarations decls.now.items) (plain-Ty ty.now) (plain-Head head) }
    ensures { IfOk result (λ o. spec.SettlesHead (declarations decls.now.items) (plain-Ty ty.now)
        (map plain-Column rest.now) (plain-Head head) (map plain-Cells rows.now) o) }
{
    let columns = types_under(alloc, decls, ty, head)?;
    let mask = mask_of(alloc, head, columns.len(), rows)?;
    let types = columns.as_slice();
    let marks = mask.as_slice();
    let kept = kept_columns(alloc, marks, types, rest)?;
    let under = rows_under(alloc, head, marks, rows)?;
    match missing(alloc, decls, inhabited, kept.as_slice(), under.as_slice())? {
        Some(stack) => rebuilt(alloc, decls, inhabited, ty, head, types, marks, stack),
        None => Ok(None),
    }
}

/// The values whose first has none of these heads.
#[cycle(missing)]
fn by_others<'a>(
    alloc: Global,
    decls: &'a Decls,
    inhabited: &[bool],
    ty: &'a Ty,
    rest: &[Column<'a>],
    rows: &[List<Cell<'a>>],
    heads: &IndexSet<Head>,
) -> Result<Option<List<Value>>, AllocError>
    requires finite { Finite (declarations decls.now.items) }
    requires numbered { spec.Numbered (declarations decls.now.items) }
    requires inhabited { Inhabited (declarations decls.now.items) inhabited.now }
    requires all { matrices.AreHeads (declarations decls.now.items) (plain-Ty ty.now) (map plain-Row rows.now)
        (map plain-Head heads.now.keys) }
    requires covered { matrices.CoversHeads (declarations decls.now.items) (plain-Ty ty.now) (map plain-Column rest.now)
        (map plain-Head heads.now.keys) (map plain-Row rows.now) }
    ensures { IfOk result (λ o. spec.Settles (declarations decls.now.items)
        (plain-Ty ty.now ∷ map plain-Column rest.now) (map plain-Row rows.now) o) }
{
    let others = rows_beside(alloc, rows)?;
    match missing(alloc, decls, inhabited, rest, others.as_slice())? {
        Some(stack) => beside(alloc, decls, inhabited, ty, heads, stack),
        None => Ok(None),
    }
}

//! What follows along pairs, as rows of bits.

ghost use Rattle.std.specs.Prelude.{◌≡◌, ◌<◌, ℕ, length, IfOk, OnOk};
ghost use Rattle.rx_graph_bits.specs.Rows as bits;
ghost use Rattle.rx_graph.specs.Tables as tables;
ghost use Rattle.rx_graph_closure.specs.Filling.{Added};
ghost use Rattle.rx_region.specs.Tables.{ClosedFrom};

use rx_core::Bound;
use rx_graph_bits::Row;
use rx_graph_closure::{close, empty_rows};
use std::alloc::{AllocError, Global};

/// Adds its own number to the row of a member, where there is one.
fn insert_at(rows: &mut [Row], member: usize)
    ensures { (w : ℕ) → tables.Regular (length rows.old) w rows.old → Added w rows.old rows.new (λ m i. (m ≡ member) × (i ≡ member)) }
{
    if member < rows.len() {
        rows[member].insert(member);
    }
}

/// Adds its own number to the row of each of the first members.
fn insert_each(rows: &mut [Row], count: usize)
    ensures { (w : ℕ) → tables.Regular (length rows.old) w rows.old → Added w rows.old rows.new (λ m i. (m < count) × (i ≡ m)) }
{
    'members: for k in 0..count {
        insert_at(rows, k);
    }
}

/// Fills an empty table with what follows from each member along pairs.
fn fill(alloc: Global, rows: &mut [Row], pairs: &[Bound], count: usize) -> Result<(), AllocError>
    requires { tables.Empty count (bits.words count) rows.old }
    ensures { OnOk result (ClosedFrom pairs.now count rows.new) }
{
    insert_each(rows, count);
    close(alloc, rows, pairs, count)?;
    Ok(())
}

/// By member, what follows from it along pairs, for so many members.
pub(crate) fn closed(alloc: Global, pairs: &[Bound], count: usize) -> Result<Vec<Row>, AllocError>
    ensures { IfOk result (λ it. ClosedFrom pairs.now count it.items) }
{
    let mut rows = empty_rows(alloc, count, count)?;
    fill(alloc, rows.as_mut_slice(), pairs, count)?;
    Ok(rows)
}

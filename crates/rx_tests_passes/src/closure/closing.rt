//! Sets closed under pairs, where at first each member has the number of its own.

ghost use Rattle.rx_graph_bits.specs.Rows.{words};
ghost use Rattle.rx_graph.specs.Tables.{Empty};

use rx_core::Bound;
use rx_graph_bits::Row;
use rx_graph_closure::{close, empty_rows, put_diagonal};
use std::alloc::{AllocError, Global};

/// What is closed under these pairs, of so many members.
pub fn closed(
    alloc: Global,
    count: u32,
    bound: usize,
    pairs: &[Bound],
) -> Result<Vec<Row>, AllocError> {
    let mut rows = empty_rows(alloc, count as usize, bound)?;
    fill(alloc, rows.as_mut_slice(), count, bound, pairs)?;
    Ok(rows)
}

fn fill(
    alloc: Global,
    rows: &mut [Row],
    count: u32,
    bound: usize,
    pairs: &[Bound],
) -> Result<(), AllocError>
    requires { Empty count (words bound) rows.old }
{
    put_diagonal(rows, count, 0);
    close(alloc, rows, pairs, bound)
}

/// Whether the row of a member has a number.
pub fn has(rows: &[Row], member: usize, number: usize) -> bool {
    match rows.get(member) {
        Some(row) => row.holds(number),
        None => false,
    }
}

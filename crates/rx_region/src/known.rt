//! Which of a function's own lifetimes are known to outlive which.

ghost use Rattle.std.specs.Prelude.{IfOk, OnOk};
ghost use Rattle.rx_graph_bits.specs.Rows as bits;
ghost use Rattle.rx_graph.specs.Tables as tables;
ghost use Rattle.rx_region.specs.PlainContext.{plain-Given};
ghost use Rattle.rx_region.specs.Tables as spec;

use crate::Given;
use rx_core::{Bound, List};
use rx_graph_bits::Row;
use rx_graph_closure::{close, count, empty_rows, pairs_where, put_diagonal};
use std::alloc::{AllocError, Global};

/// Which of a function's own lifetimes are known to outlive which.
#[derive(Drop)]
pub struct Known {
    /// In the order of the longer, then of the shorter. Each outlives itself.
    pub pairs: List<Bound>,
    /// By lifetime, those that it outlives.
    pub(crate) rows: List<Row>,
    /// How many lifetimes the function has of its own.
    pub(crate) own: u32,
}

/// Fills an empty table with what follows from each member along pairs.
fn fill(alloc: Global, rows: &mut [Row], pairs: &[Bound], count: u32) -> Result<(), AllocError>
    requires { tables.Empty count (bits.words count) rows.old }
    ensures { OnOk result (spec.ClosedFrom pairs.now count rows.new) }
{
    put_diagonal(rows, count, 0);
    close(alloc, rows, pairs, count as usize)?;
    Ok(())
}

/// By lifetime, those that it outlives by these pairs, for so many lifetimes.
fn closed(alloc: Global, pairs: &[Bound], count: u32) -> Result<Vec<Row>, AllocError>
    ensures { IfOk result (λ it. spec.ClosedFrom pairs.now count it.items) }
{
    let size = count as usize;
    let mut rows = empty_rows(alloc, size, size)?;
    fill(alloc, rows.as_mut_slice(), pairs, count)?;
    Ok(rows)
}

/// Which of a function's own lifetimes are known to outlive which: by the declared bounds, because the types of its parameters
/// and its result are formed, and by what follows from these (Rust Reference, "Lifetime bounds").
///
/// # Errors
///
/// Memory runs out.
pub fn known_pairs(alloc: Global, given: &Given<'_>) -> Result<Known, AllocError>
    ensures { IfOk result (λ it. spec.Knows (plain-Given given.now) it) }
{
    let told = given.told(alloc)?;
    let own = given.lifetimes.own;
    let size = match u32::try_from(count(told.as_slice(), own as usize)) {
        Ok(size) => size,
        Err(_) => return Err(AllocError),
    };
    let rows = closed(alloc, told.as_slice(), size)?;
    let pairs = pairs_where(alloc, own, rows.as_slice(), 0, &[])?;
    Ok(Known {
        pairs,
        rows: List::from_vec(rows),
        own,
    })
}

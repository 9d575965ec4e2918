//! Which lifetimes of a function are known to outlive which.

ghost use Rattle.std.specs.Prelude.{◌≡◌, IfOk};
ghost use Rattle.rx_graph.specs.Tables.{at};
ghost use Rattle.rx_typed_declarations.specs.WellFormed.{WellFormed};
ghost use Rattle.rx_compact.specs.Compacted.{Tells};
ghost use Rattle.rx_compact_known.specs.Knowing as spec;

use crate::closed::closed;
use crate::said::{item_of, said};
use rx_core::List;
use rx_graph_bits::Row;
use rx_graph_closure::count;
use rx_region_outlives::implied_by_fields;
use rx_typed::Decls;
use std::alloc::{AllocError, Global};

/// Which lifetimes of a function are known to outlive which. Each outlives itself.
#[derive(Drop)]
pub struct KnownLifetimes {
    /// By lifetime, those that it outlives.
    pub(crate) rows: List<Row>,
    /// How many lifetimes have a row.
    pub(crate) count: usize,
}

/// Whether the row of a member has a number.
fn has(rows: &[Row], member: usize, number: usize) -> bool
    ensures { result ≡ at rows.now member number }
{
    match rows.get(member) {
        Some(row) => row.holds(number),
        None => false,
    }
}

impl KnownLifetimes {
    /// Whether it is known that a lifetime outlives another, by their numbers in the function.
    pub fn outlives(&self, long: usize, short: usize) -> bool
        ensures { result ≡ spec.knows self.now long short }
    {
        long == short
            || (long < self.count && short < self.count && has(self.rows.as_slice(), long, short))
    }
}

/// Which lifetimes of the function of an item are known to outlive which: by its bounds, because the types of its parameters and its
/// result are formed, and by what follows (Rust Reference, "Lifetime bounds"). Of an item that is no function nothing is known.
///
/// # Errors
///
/// Memory runs out.
pub fn known_lifetimes(
    alloc: Global,
    decls: &Decls,
    function: u32,
) -> Result<KnownLifetimes, AllocError>
    requires { WellFormed decls.now.items }
    ensures { IfOk result (λ it. Tells decls.now.items function (spec.knows it)) }
{
    let implied = implied_by_fields(alloc, decls)?;
    let item = item_of(decls.items.as_slice(), function);
    let pairs = said(alloc, &implied, item)?;
    let count = count(pairs.as_slice(), 0);
    let rows = closed(alloc, pairs.as_slice(), count)?;
    Ok(KnownLifetimes {
        rows: List::from_vec(rows),
        count,
    })
}

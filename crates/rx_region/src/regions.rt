//! The least sets.

ghost use Rattle.std.specs.Prelude.{◌≡◌, List as ListOf, length, IfOk};
ghost use Rattle.rx_graph_bits.specs.Rows as bits;
ghost use Rattle.rx_graph.specs.Tables.{Regular};
ghost use Rattle.rx_graph_closure.specs.Closing.{Closed};
ghost use Rattle.rx_lower_walks.specs.Graph as graphs;
ghost use Rattle.rx_region.specs.Constraints.{Context};
ghost use Rattle.rx_region.specs.Solutions.{AreLeast, site as site_point, end as end_point};
ghost use Rattle.rx_region.specs.Tables as spec;

use crate::outlives::{Outlives, has};
use rx_core::List;
use rx_graph_bits::Row;
use rx_graph_closure::{close, copied};
use std::alloc::{AllocError, Global};

/// Sets of points for the lifetimes of a function.
#[derive(Drop)]
pub struct Regions {
    /// By lifetime: sites, then the ends of the function's own lifetimes.
    pub(crate) rows: List<Row>,
    pub(crate) sites: u32,
}

impl Regions {
    /// By lifetime, the sites that its set has; behind them stand the ends of the function's own lifetimes.
    pub fn rows(&self) -> &[Row]
        ensures { result.now ≡ self.now.rows }
    {
        self.rows.as_slice()
    }

    /// Whether the set of a lifetime has a site.
    pub fn holds(&self, region: u32, site: u32) -> bool
        ensures { result ≡ spec.sets_of self.now region (site_point site) }
    {
        site < self.sites && has(self.rows.as_slice(), region, site as usize)
    }

    /// Whether the set of a lifetime has the end of one of the function's own.
    pub fn holds_end(&self, region: u32, lifetime: u32) -> bool
        ensures { result ≡ spec.sets_of self.now region (end_point lifetime) }
    {
        has(
            self.rows.as_slice(),
            region,
            self.sites as usize + lifetime as usize,
        )
    }
}

/// The rows of constraints, closed under their pairs.
fn closed(alloc: Global, outlives: &Outlives, bound: usize) -> Result<Vec<Row>, AllocError>
    requires { Regular (length outlives.now.rows) (bits.words bound) outlives.now.rows }
    ensures { IfOk result (λ it. Closed outlives.now.pairs (bits.words bound) outlives.now.rows it.items) }
{
    let mut rows = copied(alloc, outlives.rows.as_slice(), bound)?;
    close(alloc, rows.as_mut_slice(), outlives.pairs.as_slice(), bound)?;
    Ok(rows)
}

/// The least sets that meet constraints: they have what is asked and nothing else (RFC 2094, "Solving constraints").
///
/// # Errors
///
/// Memory runs out.
pub fn solve(alloc: Global, outlives: &Outlives) -> Result<Regions, AllocError>
    requires { spec.IsOutlivesTable outlives.now }
    ensures least { IfOk result (λ r. (C : Context) (g : ListOf graphs.Site) → spec.Asks C g outlives.now → AreLeast C g (spec.sets_of r)) }
    ensures sites { IfOk result (λ r. r.sites ≡ outlives.now.sites) }
{
    let bound = outlives.sites as usize + outlives.own as usize;
    let rows = closed(alloc, outlives, bound)?;
    Ok(Regions {
        rows: List::from_vec(rows),
        sites: outlives.sites,
    })
}

//! The pairs that are missing.

ghost use Rattle.std.specs.Prelude.{List as ListOf, [], IfOk, ◌≡◌, ◌&&◌, not};
ghost use Rattle.rx_graph.specs.Tables.{at};
ghost use Rattle.rx_lower_walks.specs.Graph as graphs;
ghost use Rattle.rx_graph_closure.specs.Listing.{pairs_below};
ghost use Rattle.rx_region.specs.Constraints.{Context};
ghost use Rattle.rx_region.specs.Solutions.{AreLeast, end as end_point};
ghost use Rattle.rx_region.specs.Passing.{FirstIsLeast};
ghost use Rattle.rx_region.specs.Tables as spec;

use crate::known::Known;
use crate::regions::Regions;
use rx_core::{Bound, List};
use rx_graph_closure::pairs_where;
use std::alloc::{AllocError, Global};

/// The pairs of a function's own lifetimes of which the set of `long` has the end of `short`, and `long` is not known to outlive
/// `short`: by `long`, then by `short`.
///
/// # Errors
///
/// Memory runs out.
pub fn missing(alloc: Global, regions: &Regions, known: &Known) -> Result<List<Bound>, AllocError>
    ensures in_order { IfOk result (λ ps. ps ≡ pairs_below (λ l k. spec.sets_of regions.now l (end_point k) && not (at known.now.rows l k)) known.now.own) }
    ensures first { IfOk result FirstIsLeast }
    ensures keeps { IfOk result (λ ps. (C : Context) → spec.Knows C known.now → ps ≡ [] → spec.Keeps C (spec.sets_of regions.now)) }
    ensures exact { IfOk result (λ ps. (C : Context) (g : ListOf graphs.Site) → AreLeast C g (spec.sets_of regions.now) → spec.Knows C known.now → spec.Misses C g ps) }
{
    let pairs = pairs_where(
        alloc,
        known.own,
        regions.rows.as_slice(),
        regions.sites,
        known.rows.as_slice(),
    )?;
    Ok(pairs)
}

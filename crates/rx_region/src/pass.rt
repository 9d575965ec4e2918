//! Whether the least sets of a function keep to what is known of its own lifetimes.

ghost use Rattle.std.specs.Prelude.{◌≤◌, length, map, IfOk};
ghost use Rattle.rx_lower_walks.specs.PlainSite.{plain-Site};
ghost use Rattle.rx_facts_tables.specs.LiveTables.{IsIndex, Lives};
ghost use Rattle.rx_region.specs.PlainContext.{plain-Given};
ghost use Rattle.rx_region.specs.Passing as spec;

use crate::Given;
use crate::known::known_pairs;
use crate::missing_pairs::missing;
use crate::outlives::constraints;
use crate::regions::{Regions, solve};
use rx_core::{Bound, List};
use rx_facts_tables::LiveTable;
use rx_lower_walks::Site;
use std::alloc::{AllocError, Global};

/// Why a function's lifetimes do not fit.
#[derive(Drop)]
pub enum RegionFault {
    /// The end of `short` is in the least set of `long`, and it is not known that this outlives that.
    Missing { long: u32, short: u32 },
    OutOfMemory,
}

/// The least sets, and the pairs that are missing.
fn solved(
    alloc: Global,
    given: &Given<'_>,
    sites: &[Site],
    live: &LiveTable,
) -> Result<(Regions, List<Bound>), AllocError>
    requires few { length sites.now ≤ 16384 }
    requires index { IsIndex live.now.index }
    ensures { IfOk result (λ it. Lives (map plain-Site sites.now) live.now → spec.Solved (plain-Given given.now) (map plain-Site sites.now) it.0 it.1) }
{
    let outlives = constraints(alloc, given, sites, live)?;
    let regions = solve(alloc, &outlives)?;
    let known = known_pairs(alloc, given)?;
    let pairs = missing(alloc, &regions, &known)?;
    Ok((regions, pairs))
}

/// The sets, where no pair is missing.
fn accepted(regions: Regions, pairs: &[Bound]) -> Result<Regions, RegionFault>
    ensures { spec.FirstOf regions pairs.now result }
{
    match pairs.split_first() {
        Some((first, _)) => Err(RegionFault::Missing {
            long: first.long,
            short: first.short,
        }),
        None => Ok(regions),
    }
}

/// The least sets of a function, where they keep to what is known of its own lifetimes (RFC 2094, "Named lifetimes").
///
/// # Errors
///
/// A pair is missing: the first by the longer lifetime, then by the shorter. Or memory runs out.
pub fn check_regions(
    alloc: Global,
    given: &Given<'_>,
    sites: &[Site],
    live: &LiveTable,
) -> Result<Regions, RegionFault>
    requires few { length sites.now ≤ 16384 }
    requires index { IsIndex live.now.index }
    ensures { Lives (map plain-Site sites.now) live.now → spec.RegionAnswer (plain-Given given.now) (map plain-Site sites.now) result }
{
    match solved(alloc, given, sites, live) {
        Ok((regions, pairs)) => accepted(regions, pairs.as_slice()),
        Err(_) => Err(RegionFault::OutOfMemory),
    }
}

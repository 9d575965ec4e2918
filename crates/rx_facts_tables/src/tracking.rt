//! Facts that hold on ways to a site, and that lie ahead on ways from it.

ghost use Rattle.std.specs.Prelude.{◌≤◌, IfOk, length, map};
ghost use Rattle.rx_lower_walks.specs.PlainSite.{plain-Site};
ghost use Rattle.rx_facts_tables.specs.Along.{edges_of};
ghost use Rattle.rx_facts_tables.specs.Tracking.{Tracks, Foresees};

use crate::onward::Onward;
use crate::turning::turned;
use rx_graph::{Effect, Few, Start, Table, holding};
use rx_lower_walks::Site;
use std::alloc::{AllocError, Global};

/// By site, the facts below a bound that hold there on some way from site 0, where these facts hold at the start.
/// `effects` has for each site what it does.
///
/// # Errors
///
/// Memory runs out.
#[tactic(auto, using(crate::proofs::Telling::tracks))]
pub fn along(
    alloc: Global,
    sites: &[Site],
    effects: &[Effect],
    facts: Few<u32>,
    bound: usize,
) -> Result<Table, AllocError>
    ensures { IfOk result (λ table. Tracks (edges_of (map plain-Site sites.now)) effects.now facts bound table.rows) }
{
    let start = Start { site: 0, facts };
    holding(alloc, &Onward { sites }, effects, &start, bound, false)
}

/// By site, the facts below a bound that lie ahead on some way from a site that it leads to.
///
/// # Errors
///
/// Memory runs out.
#[tactic(auto, using(crate::proofs::Telling::foresees))]
pub fn ahead(
    alloc: Global,
    sites: &[Site],
    effects: &[Effect],
    bound: usize,
) -> Result<Table, AllocError>
    requires { length sites.now ≤ 4294967296 }
    ensures { IfOk result (λ table. Foresees (edges_of (map plain-Site sites.now)) effects.now bound table.rows) }
{
    let back = turned(alloc, &Onward { sites })?;
    let start = Start {
        site: 0,
        facts: Few::new(alloc),
    };
    holding(alloc, &back, effects, &start, bound, true)
}

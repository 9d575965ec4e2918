//! The graph of a flow.

ghost use Rattle.std.specs.Prelude.{◌≡◌, ◌≤◌, [], ◌++◌, length, map, IfOk, OnOk, MatchResult};
ghost use Rattle.rx_lower_walks.specs.Flows.{order_of};
ghost use Rattle.rx_lower_walks.specs.PlainFlow.{plain-Flow};
ghost use Rattle.rx_lower_walks.specs.Pieces.{part, graph_of};
ghost use Rattle.rx_lower_walks.specs.PlainSite.{plain-Site};
ghost use Rattle.rx_lower_walks.specs.Around.{nothing_around};
ghost use Rattle.rx_lower_walks.specs.Sums.{cap, sum};
ghost use Rattle.rx_lower_walks.specs.Rows.{flow_rows};
ghost use Rattle.rx_lower_walks.specs.Emitted.{emitted};
ghost use Rattle.rx_lower_walks.specs.Refusal.{Refuses, RefusesOver};

use crate::Flow;
use crate::around::Around;
use crate::emit::emit;
use crate::measure::measure;
use crate::site::Site;
use crate::sums::{Row, Sum};
use rx_core::List;
use std::alloc::{AllocError, Global};

/// Why a flow has no graph in code.
#[derive(Drop)]
pub enum GraphFault {
    /// It has so many sites, or 2^64 - 1 where there are more.
    TooLarge(u64),
    OutOfMemory,
}

/// What a flow is where nothing is around it.
pub fn summed(alloc: Global, flow: &Flow) -> Result<Sum, AllocError>
    ensures { IfOk result (λ it. it ≡ sum nothing_around (plain-Flow flow.now)) }
{
    let mut rows = List::new(alloc);
    measured(alloc, flow, &mut rows)
}

/// The same, and the rows of the flow.
fn measured(alloc: Global, flow: &Flow, rows: &mut List<Row>) -> Result<Sum, AllocError>
    ensures sum { IfOk result (λ it. it ≡ sum nothing_around (plain-Flow flow.now)) }
    ensures rows { OnOk result (rows.new ≡ rows.old ++ flow_rows nothing_around (plain-Flow flow.now)) }
{
    let mut around = Around::nothing(alloc);
    measure(alloc, flow, &mut around, rows)
}

/// How many sites it has, and its rows.
#[tactic(auto, using(crate::proofs::Graphs::size_summed))]
fn size_of(alloc: Global, flow: &Flow, rows: &mut List<Row>) -> Result<u64, AllocError>
    ensures size { IfOk result (λ n. n ≡ cap (part [] (order_of (plain-Flow flow.now))).size) }
    ensures rows { OnOk result (rows.new ≡ rows.old ++ flow_rows nothing_around (plain-Flow flow.now)) }
{
    Ok(measured(alloc, flow, rows)?.size)
}

fn whole(alloc: Global, flow: &Flow, rows: &[Row]) -> Result<List<Site>, AllocError>
    requires { rows.now ≡ flow_rows nothing_around (plain-Flow flow.now) }
    ensures { IfOk result (λ g. map plain-Site g ≡ emitted nothing_around (plain-Flow flow.now) 0 [] []) }
{
    let mut around = Around::nothing(alloc);
    let mut out = List::new(alloc);
    let nothing = List::new(alloc);
    emit(
        alloc,
        flow,
        rows,
        0,
        nothing.as_slice(),
        nothing.as_slice(),
        &mut around,
        &mut out,
    )?;
    Ok(out)
}

/// The sites of a flow that has at most so many. Of one that has more no site is made.
pub fn graph_within(alloc: Global, flow: &Flow, limit: u32) -> Result<List<Site>, GraphFault>
    ensures { MatchResult result (λ g. (map plain-Site g ≡ graph_of (order_of (plain-Flow flow.now))) × (length g ≤ limit))
        (λ fault. RefusesOver limit fault (part [] (order_of (plain-Flow flow.now))).size) }
{
    let mut rows = List::new(alloc);
    match size_of(alloc, flow, &mut rows) {
        Err(_) => Err(GraphFault::OutOfMemory),
        Ok(size) => {
            if size > limit as u64 {
                return Err(GraphFault::TooLarge(size));
            }
            match whole(alloc, flow, rows.as_slice()) {
                Ok(sites) => Ok(sites),
                Err(_) => Err(GraphFault::OutOfMemory),
            }
        }
    }
}

/// The sites of a flow that has at most 16,384. Of one that has more no site is made.
pub fn graph(alloc: Global, flow: &Flow) -> Result<List<Site>, GraphFault>
    ensures { MatchResult result (λ g. (map plain-Site g ≡ graph_of (order_of (plain-Flow flow.now))) × (length g ≤ 16384))
        (λ fault. Refuses fault (part [] (order_of (plain-Flow flow.now))).size) }
{
    graph_within(alloc, flow, 16384)
}

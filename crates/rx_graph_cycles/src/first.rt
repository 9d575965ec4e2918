//! The first node of a graph that comes back to itself.

ghost use Rattle.std.specs.Prelude.{◌<◌, ◌^◌, IfOk, length};
ghost use Rattle.rx_graph_cycles.specs.Reaches.{FirstOnCycle};

use crate::order::order;
use crate::search::reaches_itself;
use crate::settled::settled;
use rx_core::List;
use std::alloc::{AllocError, Global};

/// The first node that comes back to itself, by a search from each.
fn first_by_search(alloc: Global, edges: &[List<u32>]) -> Result<Option<u32>, AllocError>
    requires { length edges.now < 2 ^ 32 }
    ensures { IfOk result (λ r. FirstOnCycle edges.now r) }
{
    for i in 0..edges.len() {
        let node = i as u32;
        if reaches_itself(alloc, edges, node)? {
            return Ok(Some(node));
        }
    }
    Ok(None)
}

/// The first node of a graph, by its number from 0, that comes back to itself along one edge or more. `edges` has
/// for each node the numbers of those that it leads to; a number without a list leads nowhere. Linear in the graph's
/// size where no node does; else it takes a search for each node before the first that does.
pub fn first_on_cycle(alloc: Global, edges: &[List<u32>]) -> Result<Option<u32>, AllocError>
    requires { length edges.now < 2 ^ 32 }
    ensures { IfOk result (λ r. FirstOnCycle edges.now r) }
{
    let order = order(alloc, edges)?;
    if settled(alloc, edges, &order)? {
        return Ok(None);
    }
    first_by_search(alloc, edges)
}

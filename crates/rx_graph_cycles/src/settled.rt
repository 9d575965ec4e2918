//! Whether an order shows that no node of a graph comes back to itself.

ghost use Rattle.std.specs.Prelude.{◌≡◌, IsTrue, IfOk};
ghost use Rattle.rx_graph_cycles.specs.Reaches.{NoCycle};
ghost use Rattle.rx_graph_cycles.specs.Marks as marks_of;

use crate::marks::{all_marked, full, mark, no_marks, targets};
use rx_core::List;
use std::alloc::{AllocError, Global};

/// Marks a node, where all that it leads to have their marks.
fn settle(edges: &[List<u32>], done: &mut [bool], node: u32)
    ensures { done.new ≡ marks_of.settle edges.now done.old node }
{
    if all_marked(done, targets(edges, node)) {
        mark(done, node);
    }
}

/// Settles nodes in their order.
fn settle_all(edges: &[List<u32>], done: &mut [bool], nodes: &[u32])
    ensures { done.new ≡ marks_of.settle_all edges.now done.old nodes.now }
{
    for i in 0..nodes.len() {
        settle(edges, done, nodes[i]);
    }
}

/// Whether each node stands in this order behind all that it leads to. Then none comes back to itself.
pub(crate) fn settled(alloc: Global, edges: &[List<u32>], order: &[u32]) -> Result<bool, AllocError>
    ensures { IfOk result (λ r. IsTrue r → NoCycle edges.now) }
{
    let mut marks = no_marks(alloc, edges.len())?;
    let done = marks.as_mut_slice();
    settle_all(edges, done, order);
    Ok(full(done))
}

//! The nodes of a graph without a cycle in an order.

ghost use Rattle.std.specs.Prelude.{ℕ, ◌≡◌, ◌<◌, ◌^◌, IfOk, OnOk, length};
ghost use Rattle.rx_graph_cycles.specs.Reaches.{IsIn, NoCycle};
ghost use Rattle.rx_graph_cycles.specs.Orders.{InOrder};
ghost use Rattle.rx_graph_cycles.specs.Marks as marks_of;

use crate::marks::{all_marked, full, is_marked, mark, no_marks, targets};
use crate::order::order;
use rx_core::List;
use std::alloc::{AllocError, Global};

/// Puts a node at the end of the order, where all that it leads to stand in it and it does not yet.
fn place(
    edges: &[List<u32>],
    done: &mut [bool],
    order: &mut Vec<u32>,
    node: u32,
) -> Result<(), AllocError>
    ensures done { OnOk result (done.new ≡ marks_of.settle edges.now done.old node) }
    ensures order { OnOk result (order.new.items ≡ marks_of.with_settled edges.now done.old order.old.items node) }
{
    if all_marked(done, targets(edges, node)) {
        if !is_marked(done, node) {
            order.push(node)?;
        }
        mark(done, node);
    }
    Ok(())
}

/// Puts nodes at the end of the order, one after another.
fn place_all(
    edges: &[List<u32>],
    done: &mut [bool],
    order: &mut Vec<u32>,
    nodes: &[u32],
) -> Result<(), AllocError>
    ensures done { OnOk result (done.new ≡ marks_of.settle_all edges.now done.old nodes.now) }
    ensures order { OnOk result (order.new.items
        ≡ marks_of.with_all_settled edges.now done.old order.old.items nodes.now) }
{
    for i in 0..nodes.len() {
        place(edges, done, order, nodes[i])?;
    }
    Ok(())
}

/// All numbers below this one.
fn numbers(alloc: Global, len: usize) -> Result<Vec<u32>, AllocError>
    requires { len < 2 ^ 32 }
    ensures { IfOk result (λ it. (j : ℕ) → j < len → IsIn it.items j) }
{
    let mut numbers = Vec::new(alloc);
    for i in 0..len {
        numbers.push(i as u32)?;
    }
    Ok(numbers)
}

/// Puts the nodes that are left at the end of the order. Where none are left it takes linear time.
fn place_rest(
    alloc: Global,
    edges: &[List<u32>],
    done: &mut [bool],
    order: &mut Vec<u32>,
) -> Result<(), AllocError>
    requires small { length edges.now < 2 ^ 32 }
    requires apart { NoCycle edges.now }
    requires placed { marks_of.Placed edges.now done.old order.old.items }
    ensures { OnOk result (InOrder edges.now order.new.items) }
{
    let numbers = numbers(alloc, edges.len())?;
    while !full(done) {
        place_all(edges, done, order, &numbers)?;
    }
    Ok(())
}

/// All nodes of a graph in which none comes back to itself, by their numbers from 0, each behind all that it leads
/// to. `edges` has for each node the numbers of those that it leads to; a number without a list leads nowhere. Linear
/// in the graph's size.
pub fn in_order(alloc: Global, edges: &[List<u32>]) -> Result<List<u32>, AllocError>
    requires small { length edges.now < 2 ^ 32 }
    requires apart { NoCycle edges.now }
    ensures { IfOk result (λ order. InOrder edges.now order) }
{
    let found = order(alloc, edges)?;
    let mut marks = no_marks(alloc, edges.len())?;
    let done = marks.as_mut_slice();
    let mut placed = Vec::new(alloc);
    place_all(edges, done, &mut placed, &found)?;
    place_rest(alloc, edges, done, &mut placed)?;
    Ok(List::from_vec(placed))
}

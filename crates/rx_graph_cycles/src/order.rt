//! An order of a graph's nodes, each behind those that it leads to, where the graph has such an order.
//!
//! Nothing is proved of the order but that it is found: `settled` looks whether it is one.

ghost use Rattle.std.specs.Prelude.{◌<◌, ◌^◌, length};

use crate::marks::{is_marked, mark, no_marks, targets};
use rx_core::List;
use std::alloc::{AllocError, Global};

/// A node of the search's stack.
#[derive(Clone, Copy)]
struct Entry {
    node: u32,
    /// Whether all that the node leads to were put above it.
    expanded: bool,
}

/// Puts nodes on the stack.
fn push_all(stack: &mut Vec<Entry>, nodes: &[u32]) -> Result<(), AllocError> {
    for i in 0..nodes.len() {
        stack.push(Entry {
            node: nodes[i],
            expanded: false,
        })?;
    }
    Ok(())
}

/// A stack of all nodes.
fn all_entries(alloc: Global, edges: &[List<u32>]) -> Result<Vec<Entry>, AllocError>
    requires { length edges.now < 2 ^ 32 }
{
    let mut stack = Vec::new(alloc);
    for i in 0..edges.len() {
        stack.push(Entry {
            node: i as u32,
            expanded: false,
        })?;
    }
    Ok(stack)
}

/// How many entries the search takes from its stack: each node twice, and once more for each edge.
fn turns(edges: &[List<u32>]) -> usize {
    let mut turns = edges.len().saturating_add(edges.len());
    for i in 0..edges.len() {
        turns = turns.saturating_add(edges[i].len());
    }
    turns
}

/// Takes an entry from the stack. A node goes to the end of the order once all that it leads to have gone.
fn visit(
    edges: &[List<u32>],
    seen: &mut [bool],
    stack: &mut Vec<Entry>,
    order: &mut Vec<u32>,
) -> Result<(), AllocError> {
    if let Some(entry) = stack.pop() {
        if entry.expanded {
            order.push(entry.node)?;
        } else if !is_marked(seen, entry.node) {
            mark(seen, entry.node);
            stack.push(Entry {
                node: entry.node,
                expanded: true,
            })?;
            push_all(stack, targets(edges, entry.node))?;
        }
    }
    Ok(())
}

/// The nodes in the order in which a search depth-first leaves them.
pub(crate) fn order(alloc: Global, edges: &[List<u32>]) -> Result<Vec<u32>, AllocError>
    requires { length edges.now < 2 ^ 32 }
{
    let mut seen = no_marks(alloc, edges.len())?;
    let mut stack = all_entries(alloc, edges)?;
    let mut order = Vec::new(alloc);
    for _turn in 0..turns(edges) {
        visit(edges, &mut seen, &mut stack, &mut order)?;
    }
    Ok(order)
}

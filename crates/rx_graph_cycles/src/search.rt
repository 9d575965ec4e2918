//! A search for a way from a node back to itself.

ghost use Rattle.std.specs.Prelude.{◌≡◌, ◌<◌, ◌↔◌, IsTrue, IfOk, OnOk, length};
ghost use Rattle.rx_graph_cycles.specs.Reaches.{Reaches};
ghost use Rattle.rx_graph_cycles.specs.Marks as marks_of;

use crate::marks::{is_marked, mark, no_marks, targets};
use rx_core::List;
use std::alloc::{AllocError, Global};

/// Marks a node, and adds it to the work where it had no mark.
fn find(seen: &mut [bool], work: &mut Vec<u32>, node: u32) -> Result<(), AllocError>
    ensures seen { OnOk result (seen.new ≡ marks_of.mark seen.old node) }
    ensures work { OnOk result (work.new.items ≡ marks_of.with_one seen.old work.old.items node) }
{
    if !is_marked(seen, node) {
        work.push(node)?;
        mark(seen, node);
    }
    Ok(())
}

/// Marks nodes, and adds those of them to the work that had no mark.
fn find_all(seen: &mut [bool], work: &mut Vec<u32>, nodes: &[u32]) -> Result<(), AllocError>
    ensures seen { OnOk result (seen.new ≡ marks_of.mark_all seen.old nodes.now) }
    ensures work { OnOk result (work.new.items ≡ marks_of.with_new seen.old work.old.items nodes.now) }
{
    for i in 0..nodes.len() {
        find(seen, work, nodes[i])?;
    }
    Ok(())
}

/// Whether one edge or more lead from a node back to it.
pub(crate) fn reaches_itself(
    alloc: Global,
    edges: &[List<u32>],
    node: u32,
) -> Result<bool, AllocError>
    requires { node < length edges.now }
    ensures { IfOk result (λ r. IsTrue r ↔ Reaches edges.now node node) }
{
    let mut marks = no_marks(alloc, edges.len())?;
    let seen = marks.as_mut_slice();
    let mut work = Vec::new(alloc);
    find_all(seen, &mut work, targets(edges, node))?;
    while let Some(next) = work.pop() {
        if next == node {
            return Ok(true);
        }
        find_all(seen, &mut work, targets(edges, next))?;
    }
    Ok(false)
}

//! Tables of marks, one for each node of a graph.

ghost use Rattle.std.specs.Prelude.{◌≡◌, IfOk, false, replicate};
ghost use Rattle.rx_graph_cycles.specs.Reaches.{targets};
ghost use Rattle.rx_graph_cycles.specs.Marks as marks_of;

use rx_core::List;
use std::alloc::{AllocError, Global};

/// The nodes that a node leads to. A number without a list leads nowhere.
pub(crate) fn targets(edges: &[List<u32>], node: u32) -> &[u32]
    ensures { result.now ≡ targets edges.now node }
{
    match edges.get(node as usize) {
        Some(targets) => targets.as_slice(),
        None => &[],
    }
}

/// A table without a mark.
pub(crate) fn no_marks(alloc: Global, len: usize) -> Result<Vec<bool>, AllocError>
    ensures { IfOk result (λ marks. marks.items ≡ replicate len false) }
{
    let mut marks = Vec::new(alloc);
    for _node in 0..len {
        marks.push(false)?;
    }
    Ok(marks)
}

/// Whether a node has its mark. A number past the table's end counts as marked.
pub(crate) fn is_marked(marks: &[bool], node: u32) -> bool
    ensures { result ≡ marks_of.marked marks.now node }
{
    match marks.get(node as usize) {
        Some(mark) => *mark,
        None => true,
    }
}

/// Marks a node, where the table has it.
pub(crate) fn mark(marks: &mut [bool], node: u32)
    ensures { marks.new ≡ marks_of.mark marks.old node }
{
    let place = node as usize;
    if place < marks.len() {
        marks[place] = true;
    }
}

/// Whether these nodes have their marks.
pub(crate) fn all_marked(marks: &[bool], nodes: &[u32]) -> bool
    ensures { result ≡ marks_of.all_marked marks.now nodes.now }
{
    for i in 0..nodes.len() {
        if !is_marked(marks, nodes[i]) {
            return false;
        }
    }
    true
}

/// Whether every mark of a table is set.
pub(crate) fn full(marks: &[bool]) -> bool
    ensures { result ≡ marks_of.full marks.now }
{
    for i in 0..marks.len() {
        if !marks[i] {
            return false;
        }
    }
    true
}

//! The nodes of an item in the order of the text.

ghost use Rattle.std.specs.Prelude.{◌≡◌, ◌<◌, ◌^◌, ◌∷◌, ◌++◌, length, map, take, slice_get, OnOk, IfOk, option_map};
ghost use Rattle.rx_tree.specs.PlainOf.{plain-Program};
ghost use Rattle.rx_tree.specs.Positions.{children, node_at};
ghost use Rattle.rx_tree_operations.specs.NodeOf.{plain-Node};
ghost use Rattle.rx_hoist_nodes.specs.Nodes as spec;

use rx_tree::Program;
use rx_tree_operations::{Node, child};
use std::alloc::{AllocError, Global};

/// Adds a node and those below it.
fn add_nodes<'t>(node: Node<'t>, all: &mut Vec<Node<'t>>) -> Result<(), AllocError>
    ensures { OnOk result (map plain-Node all.new.items ≡ map plain-Node all.old.items ++ spec.within (plain-Node node.entry)) }
{
    all.push(node)?;
    for number in 0..usize::MAX {
        match child(node, number) {
            Some(next) => add_nodes(next, all)?,
            None => return Ok(()),
        }
    }
    unreachable!()
}

/// All nodes of the item of this number; none where there is no such item.
pub fn item_nodes(
    alloc: Global,
    program: &Program,
    item: usize,
) -> Result<Vec<Node<'_>>, AllocError>
    ensures nodes { IfOk result (λ all. map plain-Node all.items ≡ spec.nodes_of (slice_get (plain-Program program.now) item)) }
    ensures small { IfOk result (λ all. length all.items < 2 ^ 63) }
{
    let mut all = Vec::new(alloc);
    match program.items.get(item) {
        Some(found) => add_nodes(Node::Item(found), &mut all)?,
        None => {}
    }
    Ok(all)
}

/// Adds a node, and those of its children in front of one, with what stands below them.
fn add_in_front<'t>(node: Node<'t>, number: u32, all: &mut Vec<Node<'t>>) -> Result<(), AllocError>
    ensures { OnOk result (map plain-Node all.new.items
        ≡ map plain-Node all.old.items ++ (plain-Node node.entry ∷ spec.within_all (take number (children (plain-Node node.entry))))) }
{
    all.push(node)?;
    for at in 0..number {
        match child(node, at as usize) {
            Some(next) => add_nodes(next, all)?,
            None => return Ok(()),
        }
    }
    Ok(())
}

/// A node by its position: how many nodes of its item stand in front of it, and the node, where there is one.
#[derive(Clone, Copy)]
pub struct Found<'t> {
    pub number: usize,
    pub node: Option<Node<'t>>,
}

/// The node at the end of a way of numbers of children from an item. A way that leads nowhere stops there, and the number is that
/// of the nodes in front of its last step.
pub fn node_of<'t>(
    alloc: Global,
    program: &'t Program,
    item: u32,
    path: &[u32],
) -> Result<Found<'t>, AllocError>
    ensures number { IfOk result (λ found. found.number ≡ spec.number_at (plain-Program program.now) item path.now) }
    ensures node { IfOk result (λ found. option_map plain-Node found.node ≡ node_at (plain-Program program.now) item path.now) }
    ensures small { IfOk result (λ found. found.number < 2 ^ 63) }
{
    let mut all = Vec::new(alloc);
    let mut node = match program.items.get(item as usize) {
        Some(found) => Node::Item(found),
        None => {
            return Ok(Found {
                number: 0,
                node: None,
            });
        }
    };
    for number in path {
        add_in_front(node, *number, &mut all)?;
        node = match child(node, *number as usize) {
            Some(next) => next,
            None => {
                return Ok(Found {
                    number: all.len(),
                    node: None,
                });
            }
        };
    }
    Ok(Found {
        number: all.len(),
        node: Some(node),
    })
}

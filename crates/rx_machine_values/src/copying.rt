//! Copies of values.

ghost use Rattle.std.specs.Prelude.{◌≡◌, ◌++◌, [], ◌∷◌, IfOk, OnOk, map};
ghost use Rattle.rx_machine_values.specs.Rows.{values_in};
ghost use Rattle.rx_machine_values.specs.PlainValues.{plain-Value, plain-Parts, plain-Pointer, plain-Part, plain-Node, plain-Nodes, row_of, rows_of, values_of};

use crate::reading::Part;
use crate::value::{Node, Parts, Pointer, Value};
use rx_core::{LetGo, List};
use std::alloc::{AllocError, Global};

/// Values in a box.
pub fn boxed_parts(alloc: Global, parts: Parts) -> Result<Box<Parts>, AllocError>
    ensures { IfOk result (λ it. it.value ≡ parts) }
{
    match Box::new(alloc, parts) {
        Ok(boxed) => Ok(boxed),
        Err(failed) => {
            failed.value.let_go();
            Err(AllocError)
        }
    }
}

/// Where a reference leads, in a box.
pub fn boxed_pointer(alloc: Global, pointer: Pointer) -> Result<Box<Pointer>, AllocError>
    ensures { IfOk result (λ it. it.value ≡ pointer) }
{
    match Box::new(alloc, pointer) {
        Ok(boxed) => Ok(boxed),
        Err(failed) => {
            failed.value.let_go();
            Err(AllocError)
        }
    }
}

fn copied_pointer(alloc: Global, pointer: &Pointer) -> Result<Box<Pointer>, AllocError>
    ensures { IfOk result (λ it. plain-Pointer it.value ≡ plain-Pointer pointer.now) }
{
    let path = List::from_slice(alloc, pointer.path.as_slice())?;
    boxed_pointer(
        alloc,
        Pointer {
            slot: pointer.slot,
            path,
            mutable: pointer.mutable,
        },
    )
}

fn copied_node(alloc: Global, node: &Node) -> Result<Node, AllocError>
    ensures { IfOk result (λ it. plain-Node it ≡ plain-Node node.now) }
{
    match node {
        Node::Number(number) => Ok(Node::Number(*number)),
        Node::Truth(truth) => Ok(Node::Truth(*truth)),
        Node::Whole(extent) => Ok(Node::Whole(*extent)),
        Node::Tagged(tag, extent) => Ok(Node::Tagged(*tag, *extent)),
        Node::Pointer(pointer) => Ok(Node::Pointer(copied_pointer(alloc, pointer)?)),
        Node::Lacking(lack) => Ok(Node::Lacking(*lack)),
    }
}

fn add_copy(alloc: Global, row: &mut List<Node>, node: &Node) -> Result<(), AllocError>
    ensures { OnOk result (map plain-Node row.new ≡ map plain-Node row.old ++ plain-Node node.now ∷ []) }
{
    let copy = copied_node(alloc, node)?;
    row.push(copy)
}

/// Adds copies of nodes to a row.
pub fn add_copies(alloc: Global, row: &mut List<Node>, nodes: &[Node]) -> Result<(), AllocError>
    ensures { OnOk result (plain-Nodes row.new ≡ plain-Nodes row.old ++ plain-Nodes nodes.now) }
{
    for node in nodes {
        add_copy(alloc, row, node)?;
    }
    Ok(())
}

/// No nodes, with room for so many.
pub fn row_for(alloc: Global, count: usize) -> Result<List<Node>, AllocError>
    ensures { IfOk result (λ it. it ≡ []) }
{
    let nodes = Vec::with_capacity(alloc, count)?;
    Ok(List::from_vec(nodes))
}

/// A copy of a row as parts.
#[tactic(auto, using(crate::proofs::ValueRules::parts_are))]
pub fn copied_parts(alloc: Global, nodes: &[Node]) -> Result<Box<Parts>, AllocError>
    ensures { IfOk result (λ it. plain-Parts it.value ≡ values_in (plain-Nodes nodes.now)) }
{
    let mut row = row_for(alloc, nodes.len())?;
    add_copies(alloc, &mut row, nodes)?;
    boxed_parts(alloc, Parts { nodes: row })
}

/// A copy of what stands somewhere. The parts of a variant become a tuple.
#[tactic(auto, using(crate::proofs::ValueRules::value_rules))]
pub fn copied_part(alloc: Global, part: Part) -> Result<Value, AllocError>
    ensures { IfOk result (λ it. plain-Value it ≡ plain-Part part.entry) }
{
    match part {
        Part::Number(number) => Ok(Value::Number(number)),
        Part::Truth(truth) => Ok(Value::Truth(truth)),
        Part::Whole(nodes) => Ok(Value::Whole(copied_parts(alloc, nodes)?)),
        Part::Tagged(tag, nodes) => Ok(Value::Tagged(tag, copied_parts(alloc, nodes)?)),
        Part::Pointer(pointer) => Ok(Value::Pointer(copied_pointer(alloc, pointer)?)),
        Part::Lacking(lack) => Ok(Value::Lacking(lack)),
    }
}

/// Adds a node in front of its parts to a row.
fn add_parts(
    alloc: Global,
    row: &mut List<Node>,
    node: Node,
    parts: &[Node],
) -> Result<(), AllocError>
    ensures { OnOk result (plain-Nodes row.new ≡ plain-Nodes row.old ++ (plain-Node node ∷ plain-Nodes parts.now)) }
{
    row.push(node)?;
    add_copies(alloc, row, parts)
}

/// Adds a copy of a value to a row.
pub fn add_value(alloc: Global, row: &mut List<Node>, value: &Value) -> Result<(), AllocError>
    ensures { OnOk result (plain-Nodes row.new ≡ plain-Nodes row.old ++ row_of value.now) }
{
    match value {
        Value::Number(number) => row.push(Node::Number(*number)),
        Value::Truth(truth) => row.push(Node::Truth(*truth)),
        Value::Unit => row.push(Node::Whole(0)),
        Value::Whole(parts) => {
            let node = Node::Whole(parts.nodes.len());
            add_parts(alloc, row, node, parts.nodes.as_slice())
        }
        Value::Tagged(tag, parts) => {
            let node = Node::Tagged(*tag, parts.nodes.len());
            add_parts(alloc, row, node, parts.nodes.as_slice())
        }
        Value::Pointer(pointer) => {
            let copy = copied_pointer(alloc, pointer)?;
            row.push(Node::Pointer(copy))
        }
        Value::Lacking(lack) => row.push(Node::Lacking(*lack)),
    }
}

/// Adds copies of values to a row.
fn add_values(alloc: Global, row: &mut List<Node>, values: &[Value]) -> Result<(), AllocError>
    ensures { OnOk result (plain-Nodes row.new ≡ plain-Nodes row.old ++ rows_of values.now) }
{
    for value in values {
        add_value(alloc, row, value)?;
    }
    Ok(())
}

fn row_of_values(alloc: Global, values: &[Value]) -> Result<List<Node>, AllocError>
    ensures { IfOk result (λ it. plain-Nodes it ≡ rows_of values.now) }
{
    let mut row = row_for(alloc, values.len())?;
    add_values(alloc, &mut row, values)?;
    Ok(row)
}

/// Copies of values as parts.
pub fn parts_of(alloc: Global, values: &[Value]) -> Result<Box<Parts>, AllocError>
    ensures { IfOk result (λ it. plain-Parts it.value ≡ values_of (map plain-Value values.now)) }
{
    let row = row_of_values(alloc, values)?;
    let parts = boxed_parts(alloc, Parts { nodes: row })?;
    Ok(parts)
}

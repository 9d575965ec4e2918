//! Values, each as a row of nodes.

ghost use Rattle.std.specs.Prelude.{◌≡◌, [], ◌∷◌, ◌++◌, ◌&&◌, nat_lt, IfOk, OnOk};
ghost use Rattle.rx_typed.specs.Elaborated.{with_sign};
ghost use Rattle.rx_cover.specs.Values as plain;
ghost use Rattle.rx_cover.specs.PlainValue.{plain-Value, plain_values, nodes_of, IsWhole};

use crate::node::Node;
use rx_core::{LetGo, List, keep};
use std::alloc::{AllocError, Global};
use std::marker::Model;

/// A value, by its nodes, each in front of its parts. So a value of any depth is copied, written and let go by loops.
#[derive(Drop)]
pub struct Value {
    nodes: List<Node>,
}

impl Model for Value {
    ghost use Rattle.std.specs.Prelude.{List as ListOf};
    ghost use Rattle.rx_cover.specs.declared.node.Node.{Node as NodeOf};

    ghost Value = { ListOf NodeOf };

    ghost use Rattle.rx_cover.specs.PlainValue.{IsWhole};

    ghost view = { λ v. v.nodes };

    ghost invariant = { λ v. IsWhole v.nodes };
}

impl LetGo for Value {
    fn let_go(self) {
        let _gone = self;
    }
}

impl Value {
    /// Its nodes.
    pub fn nodes(&self) -> &[Node]
        ensures same { result.now ≡ self.now }
        ensures whole { IsWhole self.now }
    {
        self.nodes.as_slice()
    }
}

/// The value of its nodes.
pub(crate) fn of_nodes(nodes: List<Node>) -> Value
    requires { IsWhole nodes }
    ensures { result ≡ nodes }
{
    Value { nodes }
}

/// Adds nodes to a row.
fn push_nodes(row: &mut List<Node>, nodes: &[Node]) -> Result<(), AllocError>
    ensures { OnOk result (row.new ≡ row.old ++ nodes.now) }
{
    for i in 0..nodes.len() {
        row.push(nodes[i])?;
    }
    Ok(())
}

/// Adds the nodes of parts to a row.
fn push_parts(row: &mut List<Node>, parts: &[Value]) -> Result<(), AllocError>
    ensures { OnOk result (row.new ≡ row.old ++ nodes_of (plain_values parts.now)) }
{
    for part in parts {
        push_nodes(row, part.nodes())?;
    }
    Ok(())
}

/// A node and its parts.
fn with_parts(alloc: Global, node: Node, parts: &[Value]) -> Result<List<Node>, AllocError>
    ensures { IfOk result (λ row. row ≡ node ∷ nodes_of (plain_values parts.now)) }
{
    let mut row = List::new(alloc);
    row.push(node)?;
    push_parts(&mut row, parts)?;
    Ok(row)
}

/// A node and its parts, which are let go.
fn joined(alloc: Global, node: Node, parts: List<Value>) -> Result<List<Node>, AllocError>
    ensures { IfOk result (λ row. row ≡ node ∷ nodes_of (plain_values parts)) }
{
    let row = with_parts(alloc, node, parts.as_slice());
    parts.let_go();
    row
}

/// A reference and what it leads to.
fn led(alloc: Global, nodes: &[Node]) -> Result<List<Node>, AllocError>
    ensures { IfOk result (λ row. row ≡ Node.Reference ∷ nodes.now) }
{
    let mut row = List::new(alloc);
    row.push(Node::Reference)?;
    push_nodes(&mut row, nodes)?;
    Ok(row)
}

/// A row of one node.
fn alone(alloc: Global, node: Node) -> Result<List<Node>, AllocError>
    ensures { IfOk result (λ row. row ≡ node ∷ []) }
{
    let mut row = List::new(alloc);
    row.push(node)?;
    Ok(row)
}

/// Whether an integer is below 0.
fn is_below(negative: bool, magnitude: u64) -> bool
    ensures { result ≡ (negative && nat_lt 0 magnitude) }
{
    negative && magnitude > 0
}

/// An integer, by its sign and magnitude.
pub(crate) fn integer(alloc: Global, negative: bool, magnitude: u64) -> Result<Value, AllocError>
    ensures { IfOk result (λ v. plain-Value v ≡ plain.number (with_sign negative magnitude)) }
{
    let negative = is_below(negative, magnitude);
    let row = alone(
        alloc,
        Node::Int {
            negative,
            magnitude,
        },
    )?;
    Ok(of_nodes(row))
}

pub(crate) fn truth(alloc: Global, truth: bool) -> Result<Value, AllocError>
    ensures { IfOk result (λ v. plain-Value v ≡ plain.truth truth) }
{
    let row = alone(alloc, Node::Bool(truth))?;
    Ok(of_nodes(row))
}

pub(crate) fn tuple(alloc: Global, parts: List<Value>) -> Result<Value, AllocError>
    ensures { IfOk result (λ v. plain-Value v ≡ plain.tuple (plain_values parts)) }
{
    let row = joined(alloc, Node::Tuple(parts.len()), parts)?;
    Ok(of_nodes(row))
}

/// A struct, by its item's number and its fields in order.
pub(crate) fn made(alloc: Global, adt: u32, fields: List<Value>) -> Result<Value, AllocError>
    ensures { IfOk result (λ v. plain-Value v ≡ plain.made adt (plain_values fields)) }
{
    let node = Node::Made {
        adt,
        fields: fields.len(),
    };
    let row = joined(alloc, node, fields)?;
    Ok(of_nodes(row))
}

/// A variant, by its number, of an enum, by its item's.
pub(crate) fn variant(
    alloc: Global,
    adt: u32,
    variant: u32,
    parts: List<Value>,
) -> Result<Value, AllocError>
    ensures { IfOk result (λ v. plain-Value v ≡ plain.variant adt variant (plain_values parts)) }
{
    let node = Node::Variant {
        adt,
        variant,
        parts: parts.len(),
    };
    let row = joined(alloc, node, parts)?;
    Ok(of_nodes(row))
}

/// A reference to a value.
pub(crate) fn reference(alloc: Global, value: Value) -> Result<Value, AllocError>
    ensures { IfOk result (λ v. plain-Value v ≡ plain.pointing (plain-Value value)) }
{
    match led(alloc, value.nodes()) {
        Ok(row) => {
            value.let_go();
            Ok(of_nodes(row))
        }
        Err(AllocError) => {
            value.let_go();
            Err(AllocError)
        }
    }
}

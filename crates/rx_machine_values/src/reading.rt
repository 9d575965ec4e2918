//! Parts of values.

ghost use Rattle.std.specs.Prelude.{◌≡◌, ◌<◌, ℕ, suc, length, map, take, drop, None, Some, IfSome, MatchOption, option_map};
ghost use Rattle.rx_core.specs.declared.types.Step.TheVariants.{Field};
ghost use Rattle.rx_meaning.specs.Values as plain;
ghost use Rattle.rx_machine_values.specs.Rows as rows;
ghost use Rattle.rx_machine_values.specs.Rows.{values_in, with_parts, shifted, first_value, behind_first, all_have};
ghost use Rattle.rx_machine_values.specs.PlainValues.{plain-Value, plain-Part, plain-Node, plain-Nodes};

use crate::number::Number;
use crate::value::{Lack, Node, Pointer, Value};
use rx_core::Step;

/// A part of a value: a tuple, a struct or a variant by the nodes of its parts. The parts of a variant are a tuple of
/// their own.
#[derive(Clone, Copy)]
pub enum Part<'v> {
    Number(Number),
    Truth(bool),
    Whole(&'v [Node]),
    Tagged(u32, &'v [Node]),
    Pointer(&'v Pointer),
    Lacking(Lack),
}

impl Value {
    /// The value as a part, the whole.
    #[tactic(auto, using(crate::proofs::ValueRules::value_rules, crate::proofs::ValueRules::parts_are, crate::proofs::RowLemmas::no_values))]
    pub fn as_part<'v>(&'v self) -> Part<'v>
        ensures { plain-Part result ≡ plain-Value self.now }
    {
        match self {
            Value::Number(number) => Part::Number(*number),
            Value::Truth(truth) => Part::Truth(*truth),
            Value::Unit => Part::Whole(&[]),
            Value::Whole(parts) => Part::Whole(parts.nodes.as_slice()),
            Value::Tagged(tag, parts) => Part::Tagged(*tag, parts.nodes.as_slice()),
            Value::Pointer(pointer) => Part::Pointer(pointer),
            Value::Lacking(lack) => Part::Lacking(*lack),
        }
    }
}

/// The first nodes, so many, or all where there are no more.
pub fn first_of<'v>(nodes: &'v [Node], count: usize) -> &'v [Node]
    ensures { plain-Nodes result.now ≡ take count (plain-Nodes nodes.now) }
{
    if count < nodes.len() {
        &nodes[..count]
    } else {
        nodes
    }
}

/// The nodes behind the first, so many.
fn past<'v>(nodes: &'v [Node], count: usize) -> &'v [Node]
    ensures { plain-Nodes result.now ≡ drop count (plain-Nodes nodes.now) }
{
    if count < nodes.len() {
        &nodes[count..]
    } else {
        &nodes[nodes.len()..]
    }
}

/// How many nodes the parts of a node take.
fn extent(node: &Node) -> usize
    ensures { result ≡ rows.extent (plain-Node node.now) }
{
    match node {
        Node::Whole(extent) => *extent,
        Node::Tagged(_, extent) => *extent,
        Node::Number(_) => 0,
        Node::Truth(_) => 0,
        Node::Pointer(_) => 0,
        Node::Lacking(_) => 0,
    }
}

/// What a node is, with the nodes behind it.
fn part_of<'v>(node: &'v Node, rest: &'v [Node]) -> Part<'v>
    ensures { plain-Part result
        ≡ with_parts (plain-Node node.entry.now) (values_in (take (rows.extent (plain-Node node.entry.now)) (plain-Nodes rest.entry.now))) }
{
    match node {
        Node::Number(number) => Part::Number(*number),
        Node::Truth(truth) => Part::Truth(*truth),
        Node::Whole(extent) => Part::Whole(first_of(rest, *extent)),
        Node::Tagged(tag, extent) => Part::Tagged(*tag, first_of(rest, *extent)),
        Node::Pointer(pointer) => Part::Pointer(pointer),
        Node::Lacking(lack) => Part::Lacking(*lack),
    }
}

/// What begins at a node.
fn part_at<'v>(nodes: &'v [Node], at: usize) -> Part<'v>
    requires { at < length nodes.now }
    ensures { Some (plain-Part result) ≡ first_value (drop at (plain-Nodes nodes.entry.now)) }
{
    part_of(&nodes[at], past(nodes, at + 1))
}

/// The nodes behind the value that begins at a node.
pub fn behind<'v>(nodes: &'v [Node], at: usize) -> &'v [Node]
    requires { at < length nodes.now }
    ensures { plain-Nodes result.now ≡ behind_first (drop at (plain-Nodes nodes.entry.now)) }
{
    past(past(nodes, at + 1), extent(&nodes[at]))
}

/// Where the value behind one begins, where there is one.
fn next(nodes: &[Node], at: usize) -> Option<usize>
    requires { at < length nodes.now }
    ensures { MatchOption result
        ((i : ℕ) → rows.begins (suc i) (drop at (plain-Nodes nodes.now)) ≡ None)
        (λ to. (to < length nodes.now) × ((i : ℕ) → shifted at (rows.begins (suc i) (drop at (plain-Nodes nodes.now))) ≡ shifted to (rows.begins i (drop to (plain-Nodes nodes.now))))) }
{
    let extent = extent(&nodes[at]);
    let left = nodes.len() - at - 1;
    if extent < left {
        Some(at + 1 + extent)
    } else {
        None
    }
}

/// Where the value at a number begins in a row.
pub fn begins(nodes: &[Node], number: usize) -> Option<usize>
    ensures place { result ≡ rows.begins number (plain-Nodes nodes.now) }
    ensures within { IfSome result (λ at. at < length nodes.now) }
{
    if nodes.is_empty() {
        return None;
    }
    let mut at = 0;
    for turn in 0..number {
        match next(nodes, at) {
            Some(to) => at = to,
            None => return None,
        }
    }
    Some(at)
}

/// A field of a tuple or struct.
fn field<'v>(nodes: &'v [Node], number: usize) -> Option<Part<'v>>
    ensures { option_map plain-Part result ≡ plain.field (values_in (plain-Nodes nodes.entry.now)) number }
{
    match begins(nodes, number) {
        Some(at) => Some(part_at(nodes, at)),
        None => None,
    }
}

/// What a step leads to from a tuple or struct.
fn part_of_whole<'v>(nodes: &'v [Node], step: Step) -> Option<Part<'v>>
    ensures { option_map plain-Part result ≡ plain.part (plain.whole (values_in (plain-Nodes nodes.entry.now))) step }
{
    match step {
        Step::Field(at) => field(nodes, at as usize),
        Step::Variant(_) => None,
        Step::Deref(_) => None,
    }
}

/// What a step leads to from a variant.
fn part_of_variant<'v>(tag: u32, nodes: &'v [Node], step: Step) -> Option<Part<'v>>
    ensures { option_map plain-Part result ≡ plain.part (plain.tagged tag (values_in (plain-Nodes nodes.entry.now))) step }
{
    match step {
        Step::Variant(variant) => {
            if tag == variant {
                Some(Part::Whole(nodes))
            } else {
                None
            }
        }
        Step::Field(_) => None,
        Step::Deref(_) => None,
    }
}

/// What a step leads to.
pub fn step_from<'v>(at: Part<'v>, step: Step) -> Option<Part<'v>>
    ensures { option_map plain-Part result ≡ plain.part (plain-Part at.entry) step }
{
    match at {
        Part::Whole(nodes) => part_of_whole(nodes, step),
        Part::Tagged(tag, nodes) => part_of_variant(tag, nodes, step),
        Part::Number(_) => None,
        Part::Truth(_) => None,
        Part::Pointer(_) => None,
        Part::Lacking(_) => None,
    }
}

/// A field of a tuple or struct, by its number.
pub fn field_from<'v>(at: Part<'v>, number: usize) -> Option<Part<'v>>
    ensures { option_map plain-Part result ≡ plain.part (plain-Part at.entry) (Field number) }
{
    match at {
        Part::Whole(nodes) => field(nodes, number),
        Part::Tagged(_, _) => None,
        Part::Number(_) => None,
        Part::Truth(_) => None,
        Part::Pointer(_) => None,
        Part::Lacking(_) => None,
    }
}

/// What stands at a path in a part.
pub fn at_path<'v>(from: Part<'v>, path: &[Step]) -> Option<Part<'v>>
    ensures { option_map plain-Part result ≡ plain.get path.now (plain-Part from.entry) }
{
    let mut at = from;
    for i in 0..path.len() {
        match step_from(at, path[i]) {
            Some(next) => at = next,
            None => return None,
        }
    }
    Some(at)
}

fn has_value(node: &Node) -> bool
    ensures { result ≡ rows.has_value (plain-Node node.now) }
{
    match node {
        Node::Number(_) | Node::Truth(_) | Node::Whole(_) | Node::Tagged(_, _) | Node::Pointer(_) =>
            true,
        Node::Lacking(_) => false,
    }
}

/// Whether each value of a row has a value in each part.
fn all_set(nodes: &[Node]) -> bool
    ensures { result ≡ all_have (plain-Nodes nodes.now) }
{
    for node in nodes {
        if !has_value(node) {
            return false;
        }
    }
    true
}

/// Whether each part of what stands somewhere has a value.
#[tactic(auto, using(crate::proofs::RowLemmas::all_set))]
pub fn is_part_set(part: Part) -> bool
    ensures { result ≡ plain.is_set (plain-Part part.entry) }
{
    match part {
        Part::Whole(nodes) => all_set(nodes),
        Part::Tagged(_, nodes) => all_set(nodes),
        Part::Number(_) | Part::Truth(_) | Part::Pointer(_) => true,
        Part::Lacking(_) => false,
    }
}

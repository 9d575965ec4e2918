//! Writes a value as the expression that makes it.

ghost use Rattle.std.specs.Prelude.{◌≡◌, ◌++◌, ◌∷◌, [], IfOk, OnOk};
ghost use Rattle.std.specs.Fmt.{signed_decimal};
ghost use Rattle.rx_tree.specs.PlainOf.{plain-Program};
ghost use Rattle.rx_typed.specs.Elaborated.{with_sign};
ghost use Rattle.rx_cover.specs.Values.{Value as PlainValue};
ghost use Rattle.rx_cover.specs.PlainValue.{plain-Value, nodes as nodes_are};
ghost use Rattle.rx_cover_values.specs.Shown as spec;
ghost use Rattle.rx_cover_values.specs.Written as written;

use crate::names::{field_name, item_name, variant_name};
use rx_core::{LetGo, List, Text};
use rx_cover::{Node, Value};
use rx_tree::Program;
use std::alloc::{AllocError, Global};

/// A node of which parts are still to be written, and how many are begun.
#[derive(Clone, Copy)]
struct Open {
    node: Node,
    done: usize,
}

impl LetGo for Open {
    fn let_go(self) {}
}

fn push_integer(
    alloc: Global,
    text: &mut Text,
    negative: bool,
    magnitude: u64,
) -> Result<(), AllocError>
    ensures { OnOk result (text.new ≡ text.old ++ signed_decimal (with_sign negative magnitude)) }
{
    let digits = magnitude.to_string(alloc)?;
    if negative && magnitude > 0 {
        text.push("-")?;
    }
    text.push(digits.as_str())
}

fn word(truth: bool) -> &'static str
    ensures { result.now ≡ spec.word truth }
{
    if truth { "true" } else { "false" }
}

fn comma(number: usize) -> &'static str
    ensures { result.now ≡ spec.comma number }
{
    if number == 0 { "" } else { ", " }
}

fn end_of_tuple(parts: usize) -> &'static str
    ensures { result.now ≡ written.end_by parts }
{
    if parts == 1 { ",)" } else { ")" }
}

fn brace(fields: usize) -> &'static str
    ensures { result.now ≡ written.brace fields }
{
    if fields == 0 { " {}" } else { " { " }
}

fn end_brace(fields: usize) -> &'static str
    ensures { result.now ≡ written.end_brace fields }
{
    if fields == 0 { "" } else { " }" }
}

fn parenthesis(parts: usize) -> &'static str
    ensures { result.now ≡ written.parenthesis parts }
{
    if parts == 0 { "" } else { "(" }
}

fn end_parenthesis(parts: usize) -> &'static str
    ensures { result.now ≡ written.end_parenthesis parts }
{
    if parts == 0 { "" } else { ")" }
}

fn parts_of(node: Node) -> usize
    ensures { result ≡ written.parts_of node }
{
    match node {
        Node::Int { .. } | Node::Bool(_) => 0,
        Node::Tuple(parts) => parts,
        Node::Made { fields, .. } => fields,
        Node::Variant { parts, .. } => parts,
        Node::Reference => 1,
    }
}

fn closing(node: Node) -> &'static str
    ensures { result.now ≡ written.closing node }
{
    match node {
        Node::Int { .. } | Node::Bool(_) | Node::Reference => "",
        Node::Tuple(parts) => end_of_tuple(parts),
        Node::Made { fields, .. } => end_brace(fields),
        Node::Variant { parts, .. } => end_parenthesis(parts),
    }
}

#[tactic(auto, using(crate::proofs::TextLemmas::text_rules))]
fn push_variant(
    text: &mut Text,
    program: &Program,
    adt: u32,
    variant: u32,
    parts: usize,
) -> Result<(), AllocError>
    ensures { OnOk result (text.new ≡ text.old ++ written.opening (plain-Program program.now) (Node.Variant adt variant parts)) }
{
    text.push(item_name(program, adt))?;
    text.push("::")?;
    text.push(variant_name(program, adt, variant))?;
    text.push(parenthesis(parts))
}

#[tactic(auto, using(crate::proofs::TextLemmas::text_rules))]
fn push_struct(
    text: &mut Text,
    program: &Program,
    adt: u32,
    fields: usize,
) -> Result<(), AllocError>
    ensures { OnOk result (text.new ≡ text.old ++ written.opening (plain-Program program.now) (Node.Made adt fields)) }
{
    text.push(item_name(program, adt))?;
    text.push(brace(fields))
}

/// Adds what is written of a node before its parts.
fn push_opening(
    alloc: Global,
    text: &mut Text,
    program: &Program,
    node: Node,
) -> Result<(), AllocError>
    ensures { OnOk result (text.new ≡ text.old ++ written.opening (plain-Program program.now) node) }
{
    match node {
        Node::Int {
            negative,
            magnitude,
        } => push_integer(alloc, text, negative, magnitude),
        Node::Bool(truth) => text.push(word(truth)),
        Node::Tuple(_) => text.push("("),
        Node::Made { adt, fields } => push_struct(text, program, adt, fields),
        Node::Variant {
            adt,
            variant,
            parts,
        } => push_variant(text, program, adt, variant, parts),
        Node::Reference => text.push("&"),
    }
}

#[tactic(auto, using(crate::proofs::TextLemmas::text_rules))]
fn push_field(text: &mut Text, program: &Program, adt: u32, number: usize) -> Result<(), AllocError>
    ensures { OnOk result (text.new ≡ text.old ++ written.field_preface (plain-Program program.now) adt number) }
{
    text.push(comma(number))?;
    text.push(field_name(program, adt, number))?;
    text.push(": ")
}

/// Adds what is written before a part of a node: a comma behind the part before, and the name of a field.
#[tactic(auto, using(crate::proofs::TextLemmas::text_rules))]
fn push_preface(
    text: &mut Text,
    program: &Program,
    node: Node,
    number: usize,
) -> Result<(), AllocError>
    ensures { OnOk result (text.new ≡ text.old ++ written.preface (plain-Program program.now) node number) }
{
    match node {
        Node::Int { .. } | Node::Bool(_) | Node::Reference => Ok(()),
        Node::Tuple(_) | Node::Variant { .. } => text.push(comma(number)),
        Node::Made { adt, .. } => push_field(text, program, adt, number),
    }
}

/// Begins the next part of an open node.
fn begin(
    alloc: Global,
    text: &mut Text,
    program: &Program,
    top: Open,
    node: Node,
) -> Result<(), AllocError>
    ensures { OnOk result (text.new ≡ (text.old ++ written.preface (plain-Program program.now) top.node top.done)
        ++ written.opening (plain-Program program.now) node) }
{
    push_preface(text, program, top.node, top.done)?;
    push_opening(alloc, text, program, node)
}

/// Adds two open nodes.
fn push_two(opened: &mut List<Open>, outer: Open, inner: Open) -> Result<(), AllocError>
    ensures { OnOk result (opened.new ≡ (opened.old ++ outer ∷ []) ++ inner ∷ []) }
{
    opened.push(outer)?;
    opened.push(inner)
}

/// Adds the text of the value that has these nodes, with the nodes whose parts are still to be written on a list.
fn push_value(
    alloc: Global,
    text: &mut Text,
    program: &Program,
    nodes: &[Node],
) -> Result<(), AllocError>
    ensures { OnOk result ((v : PlainValue) → nodes.now ≡ nodes_are v
        → text.new ≡ text.old ++ spec.shown (plain-Program program.now) v) }
{
    let mut opened = List::new(alloc);
    opened.push(Open {
        node: Node::Reference,
        done: 0,
    })?;
    let mut at = 0;
    while let Some(top) = opened.pop() {
        if top.done >= parts_of(top.node) {
            text.push(closing(top.node))?;
            continue;
        }
        if at < nodes.len() {
            let node = nodes[at];
            begin(alloc, text, program, top, node)?;
            let outer = Open {
                node: top.node,
                done: top.done + 1,
            };
            push_two(&mut opened, outer, Open { node, done: 0 })?;
            at += 1;
        }
    }
    Ok(())
}

/// A value as the expression that makes it, with the names of the program's structs, enums, fields and variants: integers
/// without a suffix, a reference as `&` and the value that it leads to.
pub fn shown(alloc: Global, program: &Program, value: &Value) -> Result<Text, AllocError>
    ensures { IfOk result (λ it. it ≡ spec.shown (plain-Program program.now) (plain-Value value.now)) }
{
    let mut text = Text::empty(alloc);
    push_value(alloc, &mut text, program, value.nodes())?;
    Ok(text)
}

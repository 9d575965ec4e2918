//! The nodes that have the selected tokens.

ghost use Rattle.std.specs.Prelude.{◌≡◌, ◌<◌, ◌≤◌, ◌^◌, ℕ, length, map, MatchOption};
ghost use Rattle.rx_core.specs.declared.types.Span.{Span as SpanOf};
ghost use Rattle.rx_tree.specs.PlainOf.{plain-Item};
ghost use Rattle.rx_tree.specs.Positions.{children, an_item};
ghost use Rattle.rx_tree_operations.specs.NodeOf.{plain-Node};
ghost use Rattle.rx_select.specs.Search.{holds, around, node_run};
ghost use Rattle.rx_select.specs.Descent.{LongBlock, is_tail, NoChild, IsChild};

use crate::block::run_in;
use crate::places::Places;
use rx_core::Span;
use rx_tree::{Item, ItemNode};
use rx_tree_operations::{Node, child};

fn has(span: Span, places: Places) -> bool
    ensures { result ≡ holds span places }
{
    span.start <= places.start && places.end <= span.end
}

/// Whether an item is a function and has the selected tokens.
fn is_item_around(item: &Item, places: Places) -> bool
    ensures { result ≡ around places (an_item (plain-Item item.now)) }
{
    match &item.node {
        ItemNode::Func(_) => has(item.span, places),
        ItemNode::Rt(_) | ItemNode::Struct(_) | ItemNode::Enum(_) => false,
    }
}

/// Whether a node may have blocks below it and has the selected tokens.
#[tactic(auto, using(crate::proofs::Around::around_rules))]
fn is_around(node: Node<'_>, places: Places) -> bool
    ensures { result ≡ around places (plain-Node node.entry) }
{
    match node {
        Node::Item(item) => is_item_around(item, places),
        Node::Block(block) => has(block.span, places),
        Node::Stmt(stmt) => has(stmt.span, places),
        Node::Expr(expr) => has(expr.span, places),
        Node::TypeText(_) => false,
        Node::Pattern(_) => false,
    }
}

/// The function that has the selected tokens, and its number.
pub fn item_around<'t>(items: &'t [Item], places: Places) -> Option<(u32, &'t Item)>
    requires { length items.now < 2 ^ 32 }
    ensures { MatchOption result (NoChild places (map an_item (map plain-Item items.now)))
        (λ it. IsChild places (map an_item (map plain-Item items.now)) it.0 (an_item (plain-Item it.1.now))) }
{
    for number in 0..items.len() {
        let item = &items[number];
        if is_item_around(item, places) {
            return Some((number as u32, item));
        }
    }
    None
}

/// The child of a node that has the selected tokens, and its number.
pub fn child_around<'t>(node: Node<'t>, places: Places) -> Option<(u32, Node<'t>)>
    requires { length (children (plain-Node node)) < 2 ^ 32 }
    ensures { MatchOption result (NoChild places (children (plain-Node node.entry)))
        (λ it. IsChild places (children (plain-Node node.entry)) it.0 (plain-Node it.1)) }
{
    for number in 0..u32::MAX {
        match child(node, number as usize) {
            Some(next) => {
                if is_around(next, places) {
                    return Some((number, next));
                }
            }
            None => return None,
        }
    }
    None
}

/// The numbers of the first and the last statement of a block that the selected tokens make, if the node is a block and
/// they make some.
pub fn run_at(node: Node<'_>, places: Places) -> Option<(usize, usize)>
    requires { LongBlock (plain-Node node) }
    ensures { result ≡ node_run places (plain-Node node.entry) }
{
    match node {
        Node::Block(block) => run_in(block, places),
        Node::Item(_) => None,
        Node::Stmt(_) => None,
        Node::Expr(_) => None,
        Node::TypeText(_) => None,
        Node::Pattern(_) => None,
    }
}

/// Whether a number is that of a block's tail.
pub fn is_tail_of(number: usize, node: Node<'_>) -> bool
    ensures { result ≡ is_tail number (plain-Node node.entry) }
{
    match node {
        Node::Block(block) => number == block.stmts.len(),
        Node::Item(_) => false,
        Node::Stmt(_) => false,
        Node::Expr(_) => false,
        Node::TypeText(_) => false,
        Node::Pattern(_) => false,
    }
}

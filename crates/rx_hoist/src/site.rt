//! Where a run stands: its block, and the loops round it.

ghost use Rattle.std.specs.Prelude.{◌≡◌, ◌++◌, [], Some, IfOk, option_map};
ghost use Rattle.rx_tree.specs.Positions.{descend};
ghost use Rattle.rx_tree.specs.PlainOf.{plain-Block, plain-Expr};
ghost use Rattle.rx_tree_operations.specs.NodeOf.{plain-Node};
ghost use Rattle.rx_hoist_extraction.specs.Run as runs;
ghost use Rattle.rx_hoist_made.specs.PlainParts.{plain-Labels};
ghost use Rattle.rx_hoist.specs.Sites as sites;

use rx_tree::{Block, Expr, ExprNode, Ident};
use rx_tree_operations::{Node, child};
use std::alloc::{AllocError, Global};

/// The node at the end of a way of numbers of children.
fn reached<'t>(node: Node<'t>, way: &[u32]) -> Option<Node<'t>>
    ensures { option_map plain-Node result ≡ descend (Some (plain-Node node.entry)) way.now }
{
    let mut node = node;
    for number in way {
        node = match child(node, *number as usize) {
            Some(next) => next,
            None => return None,
        };
    }
    Some(node)
}

/// The block that a node is; the other one where it is none.
fn as_block<'t>(node: Node<'t>, other: &'t Block) -> &'t Block
    ensures { plain-Block result.now ≡ sites.block_or (plain-Block other.now) (Some (plain-Node node.entry)) }
{
    match node {
        Node::Block(block) => block,
        Node::Item(_) => other,
        Node::TypeText(_) => other,
        Node::Stmt(_) => other,
        Node::Expr(_) => other,
        Node::Pattern(_) => other,
    }
}

/// The block at the end of a way from a body; the other one where no block is there.
pub fn block_at<'t>(body: &'t Block, way: &[u32], other: &'t Block) -> &'t Block
    ensures { plain-Block result.now ≡ sites.block_or (plain-Block other.now) (descend (Some (sites.as_node (plain-Block body.now))) way.now) }
{
    match reached(Node::Block(body), way) {
        Some(node) => as_block(node, other),
        None => other,
    }
}

/// Whether the expression is a loop, and its label.
#[tactic(auto, using(rx_tree::proofs::Rules::expression_rules))]
fn loop_label<'t>(expr: &'t Expr) -> Option<Option<&'t Ident>>
    ensures { sites.listed_label (option_map (option_map (λ l. l.now)) result) ≡ runs.label_of (sites.as_expression (plain-Expr expr.now)) }
{
    match &expr.node {
        ExprNode::Loop(label, _) => Some(label.as_ref()),
        ExprNode::While(label, _, _) => Some(label.as_ref()),
        ExprNode::WhileLet(label, _, _, _) => Some(label.as_ref()),
        ExprNode::Int(_, _)
        | ExprNode::Bool(_)
        | ExprNode::Tuple(_)
        | ExprNode::Var(_)
        | ExprNode::Field(_, _)
        | ExprNode::Part(_, _)
        | ExprNode::Deref(_)
        | ExprNode::Neg(_)
        | ExprNode::Not(_)
        | ExprNode::Borrow(_, _)
        | ExprNode::Binary(_, _, _)
        | ExprNode::Assign(_, _)
        | ExprNode::Update(_, _, _)
        | ExprNode::Call(_, _)
        | ExprNode::NextInput
        | ExprNode::Variant(_, _, _)
        | ExprNode::Make(_, _)
        | ExprNode::Print(_)
        | ExprNode::Block(_)
        | ExprNode::If(_, _, _)
        | ExprNode::IfLet(_, _, _, _)
        | ExprNode::Match(_, _)
        | ExprNode::Break(_)
        | ExprNode::Continue(_)
        | ExprNode::Return(_) => None,
    }
}

/// Whether the node is a loop, and its label.
fn node_label<'t>(node: Node<'t>) -> Option<Option<&'t Ident>>
    ensures { sites.listed_label (option_map (option_map (λ l. l.now)) result) ≡ runs.label_of (plain-Node node.entry) }
{
    match node {
        Node::Expr(expr) => loop_label(expr),
        Node::Item(_) => None,
        Node::TypeText(_) => None,
        Node::Block(_) => None,
        Node::Stmt(_) => None,
        Node::Pattern(_) => None,
    }
}

/// These labels, and that of the node behind them if it is a loop.
fn with_label<'t>(
    labels: Vec<Option<&'t Ident>>,
    node: Node<'t>,
) -> Result<Vec<Option<&'t Ident>>, AllocError>
    ensures { IfOk result (λ it. plain-Labels it.items ≡ plain-Labels labels.entry.items ++ runs.label_of (plain-Node node.entry)) }
{
    match node_label(node) {
        Some(label) => {
            let mut labels = labels;
            labels.push(label)?;
            Ok(labels)
        }
        None => Ok(labels),
    }
}

/// The labels of the loops on a way from a node, the innermost first.
#[cycle(labels)]
fn labels_on<'t>(
    alloc: Global,
    node: Node<'t>,
    way: &[u32],
) -> Result<Vec<Option<&'t Ident>>, AllocError>
    ensures { IfOk result (λ it. plain-Labels it.items ≡ runs.labels_on (Some (plain-Node node.entry)) way.now []) }
{
    let [number, rest @ ..] = way else {
        return Ok(Vec::new(alloc));
    };
    match child(node, *number as usize) {
        Some(next) => with_label(labels_on(alloc, next, rest)?, node),
        None => with_label(Vec::new(alloc), node),
    }
}

/// The labels of the loops round the end of a way from a body, the innermost first.
pub fn labels_round<'t>(
    alloc: Global,
    body: &'t Block,
    way: &[u32],
) -> Result<Vec<Option<&'t Ident>>, AllocError>
    ensures { IfOk result (λ it. plain-Labels it.items ≡ runs.labels_on (Some (sites.as_node (plain-Block body.now))) way.now []) }
{
    labels_on(alloc, Node::Block(body), way)
}

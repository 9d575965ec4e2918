//! The lifetimes that types in the run name.

ghost use Rattle.std.specs.Prelude.{◌≡◌, ◌∷◌, [], IfOk, map};
ghost use Rattle.rx_tree.specs.PlainOf.{plain-Stmt, plain-TypeText};
ghost use Rattle.rx_tree.specs.Positions.{a_type, children};
ghost use Rattle.rx_tree.specs.Nodes.{below, within_statements};
ghost use Rattle.rx_hoist_extraction.specs.Names as names_of;
ghost use Rattle.rx_hoist_extraction.specs.OwnLifetimes.{idents};
ghost use Rattle.rx_hoist_extraction.specs.Run.{as_statements};
ghost use Rattle.rx_tree_operations.specs.NodeOf.{plain-Node};
ghost use Rattle.rx_hoist_extraction.specs.NewFunction as new_function;
ghost use Rattle.rx_hoist_made.specs.PlainParts.{plain-RunParts};
ghost use Rattle.rx_hoist_made.specs.Noting as noting;

use crate::parts::RunParts;
use rx_core::{List, Name, is_same_name, keep, pushed};
use rx_tree::{Ident, Stmt, TypeNode, TypeText};
use rx_tree_operations::{Node, child};
use std::alloc::{AllocError, Global};

/// Whether one of the lifetimes has this name.
fn has_name(name: &Name, lifetimes: &[Ident]) -> bool
    ensures { result ≡ names_of.is_among name.now (idents lifetimes.now) }
{
    for lifetime in lifetimes {
        if is_same_name(name, &lifetime.name) {
            return true;
        }
    }
    false
}

/// The lifetimes, and one more if none of them has its name.
fn with_one(alloc: Global, found: List<Ident>, lifetime: &Ident) -> Result<List<Ident>, AllocError>
    ensures { IfOk result (λ it. it ≡ noting.with_one found lifetime.now) }
{
    if has_name(&lifetime.name, found.as_slice()) {
        return Ok(found);
    }
    let (copy, found) = keep(found, lifetime.copy(alloc))?;
    pushed(found, copy)
}

/// The lifetimes, and those of a list that are new.
fn with_listed(
    alloc: Global,
    found: List<Ident>,
    lifetimes: &[Option<Ident>],
) -> Result<List<Ident>, AllocError>
    ensures { IfOk result (λ it. it ≡ noting.with_all found (new_function.lifetimes_listed lifetimes.now)) }
{
    let mut all = found;
    for lifetime in lifetimes {
        all = match lifetime {
            Some(lifetime) => with_one(alloc, all, lifetime)?,
            None => all,
        };
    }
    Ok(all)
}

/// The lifetimes, and the one that is written, where it is new.
fn with_optional(
    alloc: Global,
    found: List<Ident>,
    lifetime: &Option<Ident>,
) -> Result<List<Ident>, AllocError>
    ensures { IfOk result (λ it. it ≡ noting.with_all found (new_function.lifetimes_listed (lifetime.now ∷ []))) }
{
    match lifetime {
        Some(lifetime) => with_one(alloc, found, lifetime),
        None => Ok(found),
    }
}

/// The lifetimes, and those of the list that is written, where they are new.
fn with_written(
    alloc: Global,
    found: List<Ident>,
    lifetimes: &Option<List<Option<Ident>>>,
) -> Result<List<Ident>, AllocError>
    ensures { IfOk result (λ it. it ≡ noting.with_all found (noting.listed_if_any lifetimes.now)) }
{
    match lifetimes {
        Some(lifetimes) => with_listed(alloc, found, lifetimes.as_slice()),
        None => Ok(found),
    }
}

/// The lifetimes, and those that a type itself names.
#[tactic(auto, using(rx_tree::proofs::Rules::type_rules, crate::proofs::Noted::listed_is))]
fn with_type(alloc: Global, found: List<Ident>, typ: &TypeText) -> Result<List<Ident>, AllocError>
    ensures { IfOk result (λ it. it ≡ noting.with_all found (new_function.lifetimes_at (a_type (plain-TypeText typ.now)))) }
{
    match &typ.node {
        TypeNode::Kind(_) | TypeNode::Bool | TypeNode::Tuple(_) => Ok(found),
        TypeNode::Ref(lifetime, _, _) => with_optional(alloc, found, lifetime),
        TypeNode::Named(_, lifetimes) => with_written(alloc, found, lifetimes),
    }
}

/// The lifetimes, and those that a node itself names.
fn with_node(alloc: Global, found: List<Ident>, node: Node<'_>) -> Result<List<Ident>, AllocError>
    ensures { IfOk result (λ it. it ≡ noting.with_all found (new_function.lifetimes_at (plain-Node node.entry))) }
{
    match node {
        Node::TypeText(typ) => with_type(alloc, found, typ),
        _ => Ok(found),
    }
}

/// The children of a node, in order.
fn children_of<'t>(alloc: Global, node: Node<'t>) -> Result<Vec<Node<'t>>, AllocError>
    ensures { IfOk result (λ it. map plain-Node it.items ≡ children (plain-Node node.entry)) }
{
    let mut all = Vec::new(alloc);
    while let Some(part) = child(node, all.as_slice().len()) {
        all.push(part)?;
    }
    Ok(all)
}

/// The lifetimes, and those that a node and the nodes below it name.
#[cycle(noting)]
fn with_nodes(alloc: Global, found: List<Ident>, node: Node<'_>) -> Result<List<Ident>, AllocError>
    ensures { IfOk result (λ it. it
        ≡ noting.with_all found (new_function.lifetimes_at_all (plain-Node node.entry ∷ below (plain-Node node.entry)))) }
{
    let parts = children_of(alloc, node)?;
    let nodes = parts.as_slice();
    let mut all = with_node(alloc, found, node)?;
    for part in nodes {
        all = with_nodes(alloc, all, *part)?;
    }
    Ok(all)
}

/// The lifetimes, and those that these statements name.
fn with_statements(
    alloc: Global,
    found: List<Ident>,
    stmts: &[Stmt],
) -> Result<List<Ident>, AllocError>
    ensures { IfOk result (λ it. it
        ≡ noting.with_all found (new_function.lifetimes_at_all (within_statements (as_statements (map plain-Stmt stmts.now))))) }
{
    let mut all = found;
    for stmt in stmts {
        all = with_nodes(alloc, all, Node::Stmt(stmt))?;
    }
    Ok(all)
}

/// The lifetimes that types in the run name, each where it is found first.
#[tactic(auto, using(crate::proofs::Noted::copied_are))]
pub fn copied_lifetimes(alloc: Global, run: RunParts<'_>) -> Result<List<Ident>, AllocError>
    ensures { IfOk result (λ it. it ≡ new_function.copied_lifetimes (plain-RunParts run.entry)) }
{
    let found = with_statements(alloc, List::new(alloc), run.stmts)?;
    match run.tail {
        Some(tail) => with_nodes(alloc, found, Node::Expr(tail)),
        None => Ok(found),
    }
}

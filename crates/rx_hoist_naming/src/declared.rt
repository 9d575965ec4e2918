//! The names that a function declares.

ghost use Rattle.std.specs.Prelude.{◌≡◌, ◌++◌, ◌∷◌, [], map, slice_get, get_or, IfOk, OnOk, MatchOption};
ghost use Rattle.rx_tree.specs.PlainOf.{plain-Pattern, plain-Param, plain-Program, plain-Item};
ghost use Rattle.rx_tree.specs.Plain.{Parameter};
ghost use Rattle.rx_tree.specs.Positions.{a_pattern};
ghost use Rattle.rx_tree_operations.specs.NodeOf.{plain-Node};
ghost use Rattle.rx_hoist_naming.specs.DeclaredNames as spec;

use rx_core::Name;
use rx_tree::{Item, ItemNode, Param, Pattern, PatternNode, Program};
use rx_tree_operations::Node;
use std::alloc::{AllocError, Global};

/// The name that a pattern binds itself, not by its parts.
#[tactic(auto, using(rx_tree::proofs::Rules::pattern_rules))]
fn name_of_pattern(pattern: &Pattern) -> Option<&Name>
    ensures { MatchOption result (spec.name_bound (a_pattern (plain-Pattern pattern.now)) ≡ []) (λ x. spec.name_bound (a_pattern (plain-Pattern pattern.now)) ≡ x.now ∷ []) }
{
    match &pattern.node {
        PatternNode::Bind(ident, _) => Some(&ident.name),
        PatternNode::Wild
        | PatternNode::Int(_, _, _)
        | PatternNode::Bool(_)
        | PatternNode::Tuple(_)
        | PatternNode::Variant(_, _, _)
        | PatternNode::Make(_, _) => None,
    }
}

fn name_of_node<'t>(node: Node<'t>) -> Option<&'t Name>
    ensures { MatchOption result (spec.name_bound (plain-Node node.entry) ≡ []) (λ x. spec.name_bound (plain-Node node.entry) ≡ x.now ∷ []) }
{
    match node {
        Node::Pattern(pattern) => name_of_pattern(pattern),
        Node::Item(_) => None,
        Node::TypeText(_) => None,
        Node::Block(_) => None,
        Node::Stmt(_) => None,
        Node::Expr(_) => None,
    }
}

/// Adds the name that a node binds, if it binds one.
fn add_name<'t>(node: Node<'t>, names: &mut Vec<&'t Name>) -> Result<(), AllocError>
    ensures { OnOk result (map (λ x. x.now) names.new.items ≡ map (λ x. x.now) names.old.items ++ spec.name_bound (plain-Node node.entry)) }
{
    if let Some(name) = name_of_node(node) {
        names.push(name)?;
    }
    Ok(())
}

/// Adds the names that nodes bind.
fn add_bound<'t>(nodes: &[Node<'t>], names: &mut Vec<&'t Name>) -> Result<(), AllocError>
    ensures { OnOk result (map (λ x. x.now) names.new.items ≡ map (λ x. x.now) names.old.items ++ spec.names_bound (map plain-Node nodes.now)) }
{
    for node in nodes {
        add_name(*node, names)?;
    }
    Ok(())
}

/// Adds the names of parameters.
fn add_parameters<'t>(params: &'t [Param], names: &mut Vec<&'t Name>) -> Result<(), AllocError>
    ensures { OnOk result (map (λ x. x.now) names.new.items ≡ map (λ x. x.now) names.old.items ++ map (λ (x : Parameter). x.name.name) (map plain-Param params.now)) }
{
    for param in params {
        names.push(&param.name.name)?;
    }
    Ok(())
}

/// Adds the names of an item's parameters.
fn add_item<'t>(item: &'t Item, names: &mut Vec<&'t Name>) -> Result<(), AllocError>
    ensures { OnOk result (map (λ x. x.now) names.new.items ≡ map (λ x. x.now) names.old.items ++ spec.parameter_names (Some (plain-Item item.now))) }
{
    match &item.node {
        ItemNode::Func(func) => add_parameters(func.params.as_slice(), names),
        ItemNode::Rt(_) | ItemNode::Struct(_) | ItemNode::Enum(_) => Ok(()),
    }
}

/// The names that the function of this item declares, of whose nodes in the order of the text it is told: those of its
/// parameters, then those that its patterns bind.
pub fn declared_names<'t>(
    alloc: Global,
    program: &'t Program,
    item: usize,
    nodes: &[Node<'t>],
) -> Result<Vec<&'t Name>, AllocError>
    ensures { IfOk result (λ names. map (λ x. x.now) names.items ≡ spec.parameter_names (slice_get (plain-Program program.now) item) ++ spec.names_bound (map plain-Node nodes.now)) }
{
    let mut names = Vec::new(alloc);
    if let Some(found) = program.items.get(item) {
        add_item(found, &mut names)?;
    }
    add_bound(nodes, &mut names)?;
    Ok(names)
}

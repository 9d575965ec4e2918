//! What assignments ask.

ghost use Rattle.std.specs.Prelude.{◌≡◌, ℕ, Bool, true, false, ◌&&◌, ◌||◌, [], ◌∷◌, ◌++◌, Ok, Err, Option, Some, None, OnOk, IfOk};
ghost use Rattle.rx_tree.specs.PlainOf.{plain-Expr};
ghost use Rattle.rx_tree.specs.Plain as plain;
ghost use Rattle.rx_typed.specs.declared.nodes.Site.TheVariants as site_of;
ghost use Rattle.rx_typed.specs.Named as named;
ghost use Rattle.rx_typed.specs.Naming as naming;
ghost use Rattle.rx_typeck_typed.specs.Demands as demands;
ghost use Rattle.rx_typeck_elaborate_parts.specs.Seeing as seeing;
ghost use Rattle.rx_typeck_demand_parts.specs.Places.{through_at};
ghost use Rattle.rx_typeck_demand_parts.specs.Walks as walks;
ghost use Rattle.rx_typeck_demands.specs.Pieces as pieces;

use crate::expressions::expression;
use rx_core::{Name, Span};
use rx_tree::{Expr, ExprNode};
use rx_typeck_demand_parts::{Walk, type_of};
use rx_typeck_elaborate_parts::{Seen, either, value_seen, variable_seen};
use rx_typeck_solver::Op;
use rx_typed::{Node, Site};
use std::alloc::AllocError;

/// The left side of an assignment, and where it is a variable that waits for its type, that and the node of the
/// pattern that declares it.
#[derive(Clone, Copy)]
pub(crate) struct Left {
    pub(crate) seen: Seen,
    pub(crate) waits: Option<(u32, usize)>,
}

#[cycle(expression)]
#[tactic(auto, using(rx_tree::proofs::Rules::expression_rules, rx_typeck_elaborate_parts::proofs::Next::nothing_waits))]
pub(crate) fn left_side<'t>(walk: &mut Walk<'t>, place: &'t Expr) -> Result<Left, AllocError>
    ensures { walks.Walks (pieces.numbered_left (plain-Expr place.now)) (λ r. pieces.of_left walk.old.item r.1 r.0) pieces.left_told walk.old result walk.new }
{
    match &place.node {
        ExprNode::Var(name) => left_variable(walk, place.span, name),
        _ => {
            let seen = expression(walk, false, Site::Place, place)?;
            Ok(Left { seen, waits: None })
        }
    }
}

/// A variable as the left side; where it waits for its type nothing is asked of it.
fn left_variable(walk: &mut Walk<'_>, span: Span, _name: &Name) -> Result<Left, AllocError>
    ensures { walks.Walks (pieces.numbered_left (plain.var span _name.now)) (λ r. pieces.of_left walk.old.item r.1 r.0) pieces.left_told walk.old result walk.new }
{
    let node = walk.node(span, Site::Place)?;
    let number = walk.entry().first;
    let root = walk.cursor.use_of(number);
    let seen = variable_seen(node, root);
    match walk.cursor.waits(number) {
        Some(waits) => Ok(Left {
            seen,
            waits: Some(waits),
        }),
        None => {
            walk.named_at(node, root)?;
            Ok(Left { seen, waits: None })
        }
    }
}

/// An assignment behind its left side; and that as it is written.
#[cycle(expression)]
pub(crate) fn assign<'t>(
    walk: &mut Walk<'t>,
    node: Node,
    left: Left,
    value: &'t Expr,
    place: &Expr,
) -> Result<Seen, AllocError>
    ensures { walks.Walks (pieces.numbered_value left.waits (plain-Expr value.now)) (pieces.of_value walk.old.item node left.waits left.seen (through_at (plain-Expr place.now) left.seen.node.number)) (pieces.value_told node left.waits left.seen) walk.old result walk.new }
{
    match left.waits {
        Some(waits) => gives(walk, node, left.seen.node, waits.0, value),
        None => assigns(walk, node, left.seen, value, place),
    }
}

/// An assignment of what has a type.
#[cycle(expression)]
#[tactic(auto, using(rx_typeck_elaborate_parts::proofs::Next::next_expression))]
fn assigns<'t>(
    walk: &mut Walk<'t>,
    node: Node,
    assigned: Seen,
    value: &'t Expr,
    place: &Expr,
) -> Result<Seen, AllocError>
    ensures { walks.Walks (naming.of_expression false site_of.Expects (plain-Expr value.now)) (demands.of_assigned walk.old.item node assigned.node assigned.whole assigned.root (through_at (plain-Expr place.now) assigned.node.number)) (λ e. seeing.value_seen node false (assigned.diverges || named.diverges e)) walk.old result walk.new }
{
    let next = walk.next(value.span, Site::Expects);
    walk.expects(next, Op::Same, &[type_of(assigned.node)])?;
    let value = expression(walk, false, Site::Expects, value)?;
    walk.assignable(node, assigned, place)?;
    walk.own(node, Op::Unit, &[])?;
    let diverges = either(assigned.diverges, value.diverges);
    Ok(value_seen(node, false, diverges))
}

/// An assignment before which its variable waits for its type: it gives the type, unless one in its value did.
#[cycle(expression)]
fn gives<'t>(
    walk: &mut Walk<'t>,
    node: Node,
    place: Node,
    variable: u32,
    value: &'t Expr,
) -> Result<Seen, AllocError>
    ensures { walks.Walks (pieces.numbered_given variable (plain-Expr value.now)) (λ v. demands.of_given walk.old.item node place v.1 v.2 v.0) (λ v. seeing.value_seen node false (named.diverges v.0)) walk.old result walk.new }
{
    let value = expression(walk, false, Site::Reborrows, value)?;
    let root = walk.cursor.use_of(variable);
    let pattern = walk.cursor.gives_here(variable);
    walk.given(node, place, root, pattern, value)?;
    walk.own(node, Op::Unit, &[])?;
    Ok(value_seen(node, false, value.diverges))
}

/// An operation with assignment behind its parts; and what is changed as it is written.
pub(crate) fn update(
    walk: &mut Walk<'_>,
    node: Node,
    updated: Seen,
    value: Seen,
    place: &Expr,
) -> Result<Seen, AllocError>
    ensures { IfOk result (λ seen. (seen ≡ seeing.value_seen node false (updated.diverges || value.diverges)) × (walk.new ≡ walks.asked (pieces.update_at node updated.node updated.never value.node value.never updated.whole updated.root (through_at (plain-Expr place.now) updated.node.number)) walk.old)) }
{
    walk.updated(node, updated, value)?;
    walk.assignable(node, updated, place)?;
    walk.own(node, Op::Unit, &[])?;
    let diverges = either(updated.diverges, value.diverges);
    Ok(value_seen(node, false, diverges))
}

//! What loops and jumps ask.

ghost use Rattle.std.specs.Prelude.{◌≡◌, Bool, true, false, not, [], ◌∷◌, ◌++◌, Ok, Err, Option, Some, None, option_map, OnOk};
ghost use Rattle.rx_typeck_solver.specs.declared.facts.Op.TheVariants as op;
ghost use Rattle.rx_tree.specs.PlainOf.{plain-Expr, plain-Block, optional_of};
ghost use Rattle.rx_tree.specs.Plain as plain;
ghost use Rattle.rx_typed.specs.declared.nodes.Site.TheVariants as site_of;
ghost use Rattle.rx_typed.specs.Naming as naming;
ghost use Rattle.rx_typeck_typed.specs.Demands as demands;
ghost use Rattle.rx_typeck_elaborate_parts.specs.Seeing as seeing;
ghost use Rattle.rx_typeck_demand_parts.specs.Walks as walks;
ghost use Rattle.rx_typeck_demands.specs.Pieces as pieces;

use crate::blocks::unit_body;
use crate::expressions::expression;
use rx_core::{Boxed, Span};
use rx_tree::{Block, Expr, Ident};
use rx_typeck_demand_parts::Walk;
use rx_typeck_elaborate_parts::{Seen, value_seen};
use rx_typeck_solver::{Op, Rule, Test};
use rx_typed::{Node, Site};
use std::alloc::AllocError;

#[cycle(expression)]
pub(crate) fn endless<'t>(
    walk: &mut Walk<'t>,
    site: Site,
    span: Span,
    _label: &Option<Ident>,
    body: &'t Block,
) -> Result<Seen, AllocError>
    ensures { walks.Walks (naming.of_expression false site (plain.loop span _label.now (plain-Block body.now))) (demands.of_form walk.old.item) seeing.seen_of walk.old result walk.new }
{
    let node = walk.node(span, site)?;
    let number = walk.cursor.new_loop()?;
    unit_body(walk, body)?;
    let left = walk.cursor.is_left(number);
    loop_given(walk, node, left)?;
    Ok(value_seen(node, !left, !left))
}

/// A loop that no `break` leads to is Never.
fn loop_given(walk: &mut Walk<'_>, node: Node, left: bool) -> Result<(), AllocError>
    ensures { OnOk result (walk.new ≡ walks.asked (demands.loop_given node left) walk.old) }
{
    if left {
        walk.own(node, Op::Unit, &[])
    } else {
        walk.never_at(node)
    }
}

#[cycle(expression)]
pub(crate) fn return_jump<'t>(
    walk: &mut Walk<'t>,
    site: Site,
    span: Span,
    value: &'t Option<Boxed<Expr>>,
) -> Result<Seen, AllocError>
    ensures { walks.Walks (naming.of_expression false site (plain.return span (optional_of (option_map plain-Expr value.now)))) (demands.of_form walk.old.item) seeing.seen_of walk.old result walk.new }
{
    let node = walk.node(span, site)?;
    returned(walk, node, value)?;
    walk.never_at(node)?;
    Ok(value_seen(node, true, true))
}

/// What a node returns.
#[cycle(expression)]
fn returned<'t>(
    walk: &mut Walk<'t>,
    node: Node,
    value: &'t Option<Boxed<Expr>>,
) -> Result<(), AllocError>
    ensures { walks.Goes (naming.of_optional site_of.Expects (optional_of (option_map plain-Expr value.now))) (demands.of_return walk.old.item node) walk.old result walk.new }
{
    match value {
        Some(value) => returned_value(walk, value.get()),
        None => {
            let test = Test::GivesUnit(walk.item);
            walk.ask_passes(node, Rule::Equal, test, &[])
        }
    }
}

/// A value that is returned.
#[cycle(expression)]
#[tactic(auto, using(rx_typeck_elaborate_parts::proofs::Next::next_expression))]
fn returned_value<'t>(walk: &mut Walk<'t>, value: &'t Expr) -> Result<(), AllocError>
    ensures { walks.Goes (naming.of_expression false site_of.Expects (plain-Expr value.now)) (pieces.of_returned_value walk.old.item) walk.old result walk.new }
{
    let next = walk.next(value.span, Site::Expects);
    walk.expects(next, Op::Result(walk.item), &[])?;
    expression(walk, false, Site::Expects, value)?;
    Ok(())
}

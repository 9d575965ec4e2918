//! What blocks ask.

ghost use Rattle.std.specs.Prelude.{◌≡◌, Bool, true, false, ◌&&◌, ◌||◌, [], ◌∷◌, ◌++◌, map, Ok, Err, Option, Some, None, option_map, OnOk, IfOk};
ghost use Rattle.rx_typeck_solver.specs.declared.facts.Op.TheVariants as op;
ghost use Rattle.rx_tree.specs.PlainOf.{plain-Expr, plain-Block, optional_of};
ghost use Rattle.rx_tree.specs.Plain as plain;
ghost use Rattle.rx_typed.specs.declared.nodes.Site.TheVariants as site_of;
ghost use Rattle.rx_typed.specs.Naming as naming;
ghost use Rattle.rx_typeck_typed.specs.Demands as demands;
ghost use Rattle.rx_typeck_elaborate_parts.specs.Seeing as seeing;
ghost use Rattle.rx_typeck_demand_parts.specs.Walks as walks;
ghost use Rattle.rx_typeck_demands.specs.Pieces as pieces;

use crate::expressions::expression;
use crate::listed::Ways;
use crate::statements::statements;
use rx_core::{Boxed, Span};
use rx_tree::{Block, Expr};
use rx_typeck_demand_parts::Walk;
use rx_typeck_elaborate_parts::{Seen, either, value_seen};
use rx_typeck_solver::Op;
use rx_typed::{Node, Site};
use std::alloc::AllocError;

/// What a block, branch or arm makes of the value that it ends with.
pub(crate) fn passed_on(site: Site) -> Site
    ensures { result ≡ naming.passed_on site }
{
    match site {
        Site::Expects | Site::Initialises => Site::Expects,
        Site::Reborrows => Site::Reborrows,
        Site::Value | Site::Place | Site::Scrutinee => Site::Value,
    }
}

#[cycle(expression)]
pub(crate) fn block<'t>(
    walk: &mut Walk<'t>,
    site: Site,
    span: Span,
    inner: &'t Block,
) -> Result<Seen, AllocError>
    ensures { walks.Walks (naming.of_expression false site (plain.block span (plain-Block inner.now))) (demands.of_form walk.old.item) seeing.seen_of walk.old result walk.new }
{
    let node = walk.node(span, site)?;
    let body = body_part(walk, node, inner)?;
    walk.join(node, body.never)?;
    Ok(value_seen(node, body.never, body.diverges))
}

/// A block that is a part of what joins values.
#[cycle(expression)]
#[tactic(auto, using(rx_typeck_elaborate_parts::proofs::Next::next_body))]
pub(crate) fn body_part<'t>(
    walk: &mut Walk<'t>,
    node: Node,
    block: &'t Block,
) -> Result<Seen, AllocError>
    ensures { walks.Walks (naming.of_body (naming.passed_on node.site) (plain-Block block.now)) (demands.of_body_part walk.old.item node) pieces.body_told walk.old result walk.new }
{
    let site = passed_on(node.site);
    let next = walk.next(block.span, site);
    walk.part_before(node, next)?;
    let seen = body(walk, site, block)?;
    walk.part_after(node, seen.never, seen.node)?;
    Ok(seen)
}

/// A block that gives the unit.
#[cycle(expression)]
pub(crate) fn unit_body<'t>(walk: &mut Walk<'t>, block: &'t Block) -> Result<Seen, AllocError>
    ensures { walks.Walks (naming.of_body site_of.Value (plain-Block block.now)) (demands.of_unit_body walk.old.item) pieces.body_told walk.old result walk.new }
{
    let seen = body(walk, Site::Value, block)?;
    walk.nothing_given(seen.node, seen.never)?;
    Ok(seen)
}

#[cycle(expression)]
#[tactic(auto, using(rx_tree::proofs::Rules::block_rules))]
pub(crate) fn body<'t>(
    walk: &mut Walk<'t>,
    site: Site,
    block: &'t Block,
) -> Result<Seen, AllocError>
    ensures { walks.Walks (naming.of_body site (plain-Block block.now)) (demands.of_body walk.old.item) pieces.body_told walk.old result walk.new }
{
    let node = walk.node(block.span, site)?;
    let diverges = statements(walk, block.stmts.as_slice())?;
    let ways = tail(walk, node, diverges, &block.tail)?;
    Ok(value_seen(node, ways.never, ways.diverges))
}

/// The end of a block, whose statements diverge or not.
#[cycle(expression)]
#[tactic(auto, using(crate::proofs::Ways::or_false))]
fn tail<'t>(
    walk: &mut Walk<'t>,
    node: Node,
    diverges: bool,
    rest: &'t Option<Boxed<Expr>>,
) -> Result<Ways, AllocError>
    ensures { walks.Walks (naming.of_optional node.site (optional_of (option_map plain-Expr rest.now))) (demands.of_tail walk.old.item node diverges) (pieces.tail_told diverges) walk.old result walk.new }
{
    match rest {
        Some(rest) => {
            let seen = joined_part(walk, node, node.site, rest.get())?;
            walk.join(node, seen.never)?;
            let diverges = either(diverges, seen.diverges);
            Ok(Ways {
                never: seen.never,
                diverges,
            })
        }
        None => {
            walk.nothing_given(node, diverges)?;
            walk.join(node, diverges)?;
            Ok(Ways {
                never: diverges,
                diverges,
            })
        }
    }
}

/// An expression that is a part of what joins values.
#[cycle(expression)]
#[tactic(auto, using(rx_typeck_elaborate_parts::proofs::Next::next_expression))]
pub(crate) fn joined_part<'t>(
    walk: &mut Walk<'t>,
    node: Node,
    site: Site,
    expr: &'t Expr,
) -> Result<Seen, AllocError>
    ensures { walks.Walks (naming.of_expression false site (plain-Expr expr.now)) (demands.of_part walk.old.item node) seeing.seen_of walk.old result walk.new }
{
    let next = walk.next(expr.span, site);
    walk.part_before(node, next)?;
    let seen = expression(walk, false, site, expr)?;
    walk.part_after(node, seen.never, seen.node)?;
    Ok(seen)
}

/// What has the unit, behind its parts; whether they diverge.
pub(crate) fn unit(walk: &mut Walk<'_>, node: Node, diverges: bool) -> Result<Seen, AllocError>
    ensures { IfOk result (λ seen. (seen ≡ seeing.value_seen node false diverges) × (walk.new ≡ walks.asked (demands.own node op.Unit []) walk.old)) }
{
    walk.own(node, Op::Unit, &[])?;
    Ok(value_seen(node, false, diverges))
}

//! What branches and arms ask.

ghost use Rattle.std.specs.Prelude.{◌≡◌, Bool, true, false, ◌&&◌, ◌||◌, [], ◌∷◌, ◌++◌, map, Ok, Err, Option, Some, None, option_map, OnOk, IfOk};
ghost use Rattle.rx_tree.specs.PlainOf.{plain-Expr, plain-Block, plain-Arm, plain-Pattern, optional_of, arms_of};
ghost use Rattle.rx_typed.specs.declared.nodes.Site.TheVariants as site_of;
ghost use Rattle.rx_typed.specs.Naming as naming;
ghost use Rattle.rx_typeck_typed.specs.Demands as demands;
ghost use Rattle.rx_typeck_elaborate_parts.specs.Seeing as seeing;
ghost use Rattle.rx_typeck_demand_parts.specs.Places.{through_at};
ghost use Rattle.rx_typeck_demand_parts.specs.Matching as matching;
ghost use Rattle.rx_typeck_demand_parts.specs.Walks as walks;
ghost use Rattle.rx_typeck_demands.specs.Pieces as pieces;

use crate::blocks::{body_part, joined_part, passed_on, unit_body};
use crate::expressions::expression;
use crate::listed::Ways;
use rx_core::Boxed;
use rx_tree::{Arm, Block, Expr, Pattern};
use rx_typeck_demand_parts::{Matched, Walk, as_matched, through, type_of};
use rx_typeck_elaborate_parts::{Seen, both, either, value_seen};
use rx_typeck_solver::Op;
use rx_typed::{Node, Site};
use std::alloc::AllocError;

/// Whether an `else` follows.
pub(crate) fn is_there(rest: &Option<Boxed<Expr>>) -> bool
    ensures { result ≡ pieces.is_there (optional_of (option_map plain-Expr rest.now)) }
{
    match rest {
        Some(_) => true,
        None => false,
    }
}

/// A condition.
#[cycle(expression)]
pub(crate) fn condition<'t>(walk: &mut Walk<'t>, expr: &'t Expr) -> Result<Seen, AllocError>
    ensures { walks.Walks (naming.of_expression false site_of.Value (plain-Expr expr.now)) (pieces.of_condition walk.old.item) seeing.seen_of walk.old result walk.new }
{
    let seen = expression(walk, false, Site::Value, expr)?;
    walk.tested(seen)?;
    Ok(seen)
}

/// The body of an `if`; whether an `else` follows.
#[cycle(expression)]
pub(crate) fn branch<'t>(
    walk: &mut Walk<'t>,
    node: Node,
    joined: bool,
    block: &'t Block,
) -> Result<Seen, AllocError>
    ensures { walks.Walks (naming.of_body (pieces.branch_place node.site joined) (plain-Block block.now)) (pieces.of_branch walk.old.item node joined) pieces.body_told walk.old result walk.new }
{
    if joined {
        body_part(walk, node, block)
    } else {
        let body = unit_body(walk, block)?;
        walk.own(node, Op::Unit, &[])?;
        Ok(body)
    }
}

/// What follows the body of an `if`; whether what stands before the body diverges.
#[cycle(expression)]
#[tactic(auto, using(crate::proofs::Ways::and_false, crate::proofs::Ways::or_false))]
pub(crate) fn other<'t>(
    walk: &mut Walk<'t>,
    node: Node,
    diverges: bool,
    body: Seen,
    rest: &'t Option<Boxed<Expr>>,
) -> Result<Seen, AllocError>
    ensures { walks.Walks (naming.of_optional (naming.passed_on node.site) (optional_of (option_map plain-Expr rest.now))) (pieces.of_other walk.old.item node body.never) (pieces.other_told node diverges body) walk.old result walk.new }
{
    match rest {
        Some(rest) => {
            let rest = joined_part(walk, node, passed_on(node.site), rest.get())?;
            let seen = branched(walk, node, diverges, body, rest)?;
            Ok(seen)
        }
        None => Ok(value_seen(node, false, diverges)),
    }
}

/// An `if` of two branches, behind them; whether what stands before them diverges.
fn branched(
    walk: &mut Walk<'_>,
    node: Node,
    diverges: bool,
    body: Seen,
    rest: Seen,
) -> Result<Seen, AllocError>
    ensures { IfOk result (λ seen. (seen ≡ seeing.value_seen node (body.never && rest.never) (diverges || (body.diverges && rest.diverges))) × (walk.new ≡ walks.asked (demands.join node (body.never && rest.never)) walk.old)) }
{
    let never = both(body.never, rest.never);
    walk.join(node, never)?;
    let diverges = either(diverges, both(body.diverges, rest.diverges));
    Ok(value_seen(node, never, diverges))
}

/// What a `match` looks into.
#[cycle(expression)]
pub(crate) fn matched_value<'t>(walk: &mut Walk<'t>, expr: &'t Expr) -> Result<Seen, AllocError>
    ensures { walks.Walks (naming.of_expression false site_of.Scrutinee (plain-Expr expr.now)) (pieces.of_matched walk.old.item) seeing.seen_of walk.old result walk.new }
{
    let seen = expression(walk, false, Site::Scrutinee, expr)?;
    walk.not_never(seen)?;
    Ok(seen)
}

/// What is matched, and the pattern of an `if let` or `while let`, which stands before it.
#[cycle(expression)]
#[tactic(auto, using(rx_typeck_demand_parts::proofs::Placed::through_here, rx_typeck_demand_parts::proofs::Later::pattern_later))]
pub(crate) fn scrutinee<'t>(
    walk: &mut Walk<'t>,
    expr: &'t Expr,
    pattern: &'t Pattern,
) -> Result<Seen, AllocError>
    ensures { walks.Walks (pieces.numbered_scrutinee (plain-Pattern pattern.now) (plain-Expr expr.now)) (demands.of_scrutinee walk.old.item) (λ r. seeing.seen_of r.1) walk.old result walk.new }
{
    let mark = walk.cursor.mark();
    let from = walk.cursor.declared();
    walk.number_pattern(pattern)?;
    let to = walk.cursor.declared();
    let seen = matched_value(walk, expr)?;
    let passing = through(walk.alloc, expr, seen.node.number)?;
    let with = as_matched(seen, passing.as_slice());
    walk.pattern_at(mark, with, type_of(seen.node), pattern)?;
    walk.cursor.know(from, to);
    Ok(seen)
}

/// The arms of a `match`, behind the value that it looks into.
#[cycle(expression)]
pub(crate) fn all_arms<'t>(
    walk: &mut Walk<'t>,
    arms: &'t [Arm],
    value: &'t Expr,
    node: Node,
    seen: Seen,
) -> Result<Seen, AllocError>
    ensures { walks.Walks (naming.of_arms (naming.passed_on node.site) (arms_of (map plain-Arm arms.now))) (pieces.of_all_arms walk.old.item node (demands.matched_if seen.place seen.node seen.root.number (through_at (plain-Expr value.now) seen.node.number)) seen.node) (pieces.arms_told node seen.diverges) walk.old result walk.new }
{
    let passing = through(walk.alloc, value, seen.node.number)?;
    let with = as_matched(seen, passing.as_slice());
    let ways = each_arm(walk, node, with, seen.node, arms)?;
    walk.join(node, ways.never)?;
    let diverges = either(seen.diverges, ways.diverges);
    Ok(value_seen(node, ways.never, diverges))
}

/// The arms of a node, over what is matched and its node.
#[cycle(expression)]
#[tactic(auto, using(rx_tree::proofs::Rules::expression_rules, crate::proofs::Ways::and_assoc, crate::proofs::Ways::and_true))]
fn each_arm<'t>(
    walk: &mut Walk<'t>,
    node: Node,
    with: Matched<'_>,
    of: Node,
    arms: &'t [Arm],
) -> Result<Ways, AllocError>
    ensures { walks.Walks (naming.of_arms (naming.passed_on node.site) (arms_of (map plain-Arm arms.now))) (demands.of_arms walk.old.item node (matching.matched_as with.entry) of) pieces.ways_of walk.old result walk.new }
{
    let mut never = true;
    let mut diverges = true;
    for arm in arms {
        let seen = one_arm(walk, node, with, of, arm)?;
        never = both(never, seen.never);
        diverges = both(diverges, seen.diverges);
    }
    Ok(Ways { never, diverges })
}

#[cycle(expression)]
#[tactic(auto, using(rx_tree::proofs::Rules::expression_rules))]
fn one_arm<'t>(
    walk: &mut Walk<'t>,
    node: Node,
    with: Matched<'_>,
    of: Node,
    arm: &'t Arm,
) -> Result<Seen, AllocError>
    ensures { walks.Walks (pieces.numbered_arm (naming.passed_on node.site) (plain-Arm arm.now)) (demands.of_arm walk.old.item node (matching.matched_as with.entry) of) (λ r. seeing.seen_of r.1) walk.old result walk.new }
{
    let from = walk.cursor.declared();
    walk.whole_pattern(with, type_of(of), &arm.pattern)?;
    let to = walk.cursor.declared();
    walk.cursor.know(from, to);
    joined_part(walk, node, passed_on(node.site), &arm.body)
}

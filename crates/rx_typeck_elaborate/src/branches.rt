//! Typed branches.

ghost use Rattle.std.specs.Prelude.{◌≡◌, false, map, None, option_map, IfOk};
ghost use Rattle.rx_tree.specs.PlainOf.{plain-Expr as plain-ExprTree, plain-Pattern as plain-PatternTree, plain-Block, plain-Arm as plain-ArmTree, optional_of, arms_of};
ghost use Rattle.rx_tree.specs.Plain as plain;
ghost use Rattle.rx_typed.specs.Named as named;
ghost use Rattle.rx_typed.specs.Naming as naming;
ghost use Rattle.rx_typed.specs.Elaborated as elaborated;
ghost use Rattle.rx_typed.specs.PlainTree.{plain-Expr, plain-Matched, plain-Arm, plain-Pattern};
ghost use Rattle.rx_typeck_elaborate_parts.specs.Seeing.{seen_of};
ghost use Rattle.rx_typeck_elaborate_parts.specs.Coercing.{types_of};
ghost use Rattle.rx_typeck_elaborate_parts.specs.Listing.{arms_listed};
ghost use Rattle.rx_typeck_elaborate_parts.specs.Telling as telling;
ghost use Rattle.rx_typeck_elaborate_parts.specs.Walks as walks;

use crate::forms::expression;
use crate::statements::body_tree;
use crate::walked_places::matched;
use rx_core::{Boxed, List, Span, keep, pushed};
use rx_tree::{Arm as ArmTree, Block, Expr as ExprTree, Pattern as PatternTree};
use rx_typeck_elaborate_parts::{
    Branch, Given, Seen, Walk, Ways, both, branch_site, either, end_unit, give, looks, no_branch,
    passed_on, tests, value_seen, with_arm,
};
use rx_typed::{Arm, Expr, Matched, Node, Pattern, Site};
use std::alloc::AllocError;

/// What is matched is looked into, with the mark of a node: the pattern's way, or the other.
pub(crate) fn looked_into(
    given: &Given<'_>,
    node: Node,
    never: bool,
    test: (Pattern, Matched),
    ways: (Expr, Expr),
) -> Result<Expr, AllocError>
    ensures { IfOk result (λ it. plain-Expr it ≡ elaborated.looks (elaborated.mark_if (types_of given.now) node never) (plain-Matched test.1) (plain-Pattern test.0) (plain-Expr ways.0) (plain-Expr ways.1)) }
{
    let (mark, (test, ways)) = keep((test, ways), given.mark_if(node, never))?;
    let (pattern, matched) = test;
    looks(given.alloc, mark, matched, pattern, ways)
}

/// What follows `else`: where nothing does, the unit of the node.
#[cycle(expression)]
#[tactic(auto, using(rx_tree::proofs::Rules::expression_rules, rx_tree::proofs::Rules::block_rules, rx_tree::proofs::Rules::let_rules, rx_typed::proofs::Rules::typed_tree_rules, rx_typeck_elaborate_parts::proofs::Listed::listed_rules))]
pub(crate) fn otherwise<'t>(
    walk: &mut Walk<'t>,
    site: Site,
    node: Node,
    other: &'t Option<Boxed<ExprTree>>,
) -> Result<(Expr, Branch), AllocError>
    ensures { walks.Tells plain-Expr (naming.of_optional site (optional_of (option_map plain-ExprTree other.now))) (λ t o. elaborated.otherwise t node o) telling.branch_of walk.old result walk.new }
{
    match other {
        Some(expr) => present(walk, site, expr.get()),
        None => {
            let tree = walk.given.unit(node)?;
            Ok((tree, no_branch()))
        }
    }
}

/// A tail, or the value of a `return`: where there is none, the unit.
#[cycle(expression)]
#[tactic(auto, using(rx_tree::proofs::Rules::expression_rules, rx_tree::proofs::Rules::block_rules, rx_tree::proofs::Rules::let_rules, rx_typed::proofs::Rules::typed_tree_rules, rx_typeck_elaborate_parts::proofs::Listed::listed_rules))]
pub(crate) fn last<'t>(
    walk: &mut Walk<'t>,
    site: Site,
    node: Node,
    other: &'t Option<Boxed<ExprTree>>,
) -> Result<(Expr, Branch), AllocError>
    ensures { walks.Tells plain-Expr (naming.of_optional site (optional_of (option_map plain-ExprTree other.now))) (λ t o. elaborated.tail t node o) telling.branch_of walk.old result walk.new }
{
    match other {
        Some(expr) => present(walk, site, expr.get()),
        None => Ok((end_unit(walk.given.alloc, node), no_branch())),
    }
}

/// A part that is there.
#[cycle(expression)]
#[tactic(auto, using(rx_tree::proofs::Rules::expression_rules, rx_tree::proofs::Rules::block_rules, rx_tree::proofs::Rules::let_rules, rx_typed::proofs::Rules::typed_tree_rules, rx_typeck_elaborate_parts::proofs::Listed::listed_rules))]
pub(crate) fn present<'t>(
    walk: &mut Walk<'t>,
    site: Site,
    expr: &'t ExprTree,
) -> Result<(Expr, Branch), AllocError>
    ensures { walks.Tells plain-Expr (naming.of_expression false site (plain-ExprTree expr.now)) elaborated.value (λ e. telling.branch_of (named.present e)) walk.old result walk.new }
{
    let (tree, seen) = expression(walk, false, site, expr)?;
    let branch = Branch {
        present: true,
        never: seen.never,
        diverges: seen.diverges,
    };
    Ok((tree, branch))
}

#[cycle(expression)]
#[tactic(auto, using(rx_tree::proofs::Rules::expression_rules, rx_tree::proofs::Rules::block_rules, rx_tree::proofs::Rules::let_rules, rx_typed::proofs::Rules::typed_tree_rules, rx_typeck_elaborate_parts::proofs::Listed::listed_rules))]
pub(crate) fn block<'t>(
    walk: &mut Walk<'t>,
    span: Span,
    site: Site,
    body: &'t Block,
) -> Result<(Expr, Seen), AllocError>
    ensures { walks.Tells plain-Expr (naming.of_expression false site (plain.block span (plain-Block body.now))) elaborated.value seen_of walk.old result walk.new }
{
    let node = walk.node(span, site)?;
    let (tree, ends) = body_tree(walk, passed_on(site), body)?;
    Ok((tree, value_seen(node, ends.never, ends.diverges)))
}

#[cycle(expression)]
#[tactic(auto, using(rx_tree::proofs::Rules::expression_rules, rx_tree::proofs::Rules::block_rules, rx_tree::proofs::Rules::let_rules, rx_typed::proofs::Rules::typed_tree_rules, rx_typeck_elaborate_parts::proofs::Listed::listed_rules, crate::proofs::ToldLemmas::returned_is))]
pub(crate) fn return_at<'t>(
    walk: &mut Walk<'t>,
    span: Span,
    site: Site,
    other: &'t Option<Boxed<ExprTree>>,
) -> Result<(Expr, Seen), AllocError>
    ensures { walks.Tells plain-Expr (naming.of_expression false site (plain.return span (optional_of (option_map plain-ExprTree other.now)))) elaborated.value seen_of walk.old result walk.new }
{
    let node = walk.node(span, site)?;
    let (tree, _) = last(walk, Site::Expects, node, other)?;
    let tree = give(walk.given.alloc, node, tree)?;
    Ok((tree, value_seen(node, true, true)))
}

#[cycle(expression)]
#[tactic(auto, using(rx_tree::proofs::Rules::expression_rules, rx_tree::proofs::Rules::block_rules, rx_tree::proofs::Rules::let_rules, rx_typed::proofs::Rules::typed_tree_rules, rx_typeck_elaborate_parts::proofs::Listed::listed_rules))]
pub(crate) fn if_at<'t>(
    walk: &mut Walk<'t>,
    other: &'t Option<Boxed<ExprTree>>,
    span: Span,
    site: Site,
    condition: &'t ExprTree,
    body: &'t Block,
) -> Result<(Expr, Seen), AllocError>
    ensures { walks.Tells plain-Expr (naming.of_expression false site (plain.if span (plain-ExprTree condition.now) (plain-Block body.now) (optional_of (option_map plain-ExprTree other.now)))) elaborated.value seen_of walk.old result walk.new }
{
    let node = walk.node(span, site)?;
    let (condition, first) = expression(walk, false, Site::Value, condition)?;
    let ((ways, ends), condition) = keep(condition, ways(walk, other, site, node, body))?;
    let (mark, (condition, ways)) = keep((condition, ways), walk.given.mark_if(node, ends.never))?;
    let tree = tests(walk.given.alloc, node, condition, mark, ways)?;
    let diverges = either(first.diverges, ends.diverges);
    Ok((tree, value_seen(node, ends.never, diverges)))
}

/// The body of an `if`, and what follows it.
#[cycle(expression)]
#[tactic(auto, using(rx_tree::proofs::Rules::expression_rules, rx_tree::proofs::Rules::block_rules, rx_tree::proofs::Rules::let_rules, rx_typed::proofs::Rules::typed_tree_rules, rx_typeck_elaborate_parts::proofs::Listed::listed_rules, crate::proofs::ToldLemmas::branch_site_is))]
pub(crate) fn ways<'t>(
    walk: &mut Walk<'t>,
    other: &'t Option<Boxed<ExprTree>>,
    site: Site,
    node: Node,
    body: &'t Block,
) -> Result<((Expr, Expr), Ways), AllocError>
    ensures { walks.Tells telling.plain_ways (telling.both_ways site (plain-Block body.now) (optional_of (option_map plain-ExprTree other.now))) (λ t w. telling.ways_made t node w) telling.ways_of_both walk.old result walk.new }
{
    let (holds, first) = body_tree(walk, branch_site(site, other), body)?;
    let ((fails, second), holds) = keep(holds, otherwise(walk, passed_on(site), node, other))?;
    let ways = Ways {
        never: both(first.never, second.never),
        diverges: both(first.diverges, second.diverges),
    };
    Ok(((holds, fails), ways))
}

/// A pattern, and what is matched with it, behind which its variables are known.
#[cycle(expression)]
#[tactic(auto, using(rx_tree::proofs::Rules::expression_rules, rx_tree::proofs::Rules::block_rules, rx_tree::proofs::Rules::let_rules, rx_typed::proofs::Rules::typed_tree_rules, rx_typeck_elaborate_parts::proofs::Listed::listed_rules))]
pub(crate) fn tested<'t>(
    walk: &mut Walk<'t>,
    pattern: &'t PatternTree,
    expr: &'t ExprTree,
) -> Result<((Pattern, Matched), Seen), AllocError>
    ensures { walks.Tells telling.plain_test (telling.a_test (plain-PatternTree pattern.now) (plain-ExprTree expr.now)) telling.test_made (λ w. seen_of w.1) walk.old result walk.new }
{
    let from = walk.cursor.declared();
    let (pattern, _) = walk.pattern(None, pattern)?;
    let to = walk.cursor.declared();
    let ((matched, seen), pattern) = keep(pattern, matched(walk, Site::Scrutinee, expr))?;
    walk.cursor.know(from, to);
    Ok(((pattern, matched), seen))
}

#[cycle(expression)]
#[tactic(auto, using(rx_tree::proofs::Rules::expression_rules, rx_tree::proofs::Rules::block_rules, rx_tree::proofs::Rules::let_rules, rx_typed::proofs::Rules::typed_tree_rules, rx_typeck_elaborate_parts::proofs::Listed::listed_rules))]
pub(crate) fn if_let<'t>(
    walk: &mut Walk<'t>,
    other: &'t Option<Boxed<ExprTree>>,
    span: Span,
    site: Site,
    pattern: &'t PatternTree,
    expr: &'t ExprTree,
    body: &'t Block,
) -> Result<(Expr, Seen), AllocError>
    ensures { walks.Tells plain-Expr (naming.of_expression false site (plain.if_let span (plain-PatternTree pattern.now) (plain-ExprTree expr.now) (plain-Block body.now) (optional_of (option_map plain-ExprTree other.now)))) elaborated.value seen_of walk.old result walk.new }
{
    let node = walk.node(span, site)?;
    let (test, first) = tested(walk, pattern, expr)?;
    let ((ways, ends), test) = keep(test, ways(walk, other, site, node, body))?;
    let tree = looked_into(&walk.given, node, ends.never, test, ways)?;
    let diverges = either(first.diverges, ends.diverges);
    Ok((tree, value_seen(node, ends.never, diverges)))
}

#[cycle(expression)]
#[tactic(auto, using(rx_tree::proofs::Rules::expression_rules, rx_tree::proofs::Rules::block_rules, rx_tree::proofs::Rules::let_rules, rx_typed::proofs::Rules::typed_tree_rules, rx_typeck_elaborate_parts::proofs::Listed::listed_rules))]
pub(crate) fn match_at<'t>(
    walk: &mut Walk<'t>,
    span: Span,
    site: Site,
    expr: &'t ExprTree,
    arms: &'t [ArmTree],
) -> Result<(Expr, Seen), AllocError>
    ensures { walks.Tells plain-Expr (naming.of_expression false site (plain.match span (plain-ExprTree expr.now) (arms_of (map plain-ArmTree arms.now)))) elaborated.value seen_of walk.old result walk.new }
{
    let node = walk.node(span, site)?;
    let (matched, first) = matched(walk, Site::Scrutinee, expr)?;
    let ((arms, ways), matched) = keep(matched, arm_trees(walk, passed_on(site), arms))?;
    let tree = walk.given.choose(node, ways.never, matched, arms)?;
    let diverges = either(first.diverges, ways.diverges);
    Ok((tree, value_seen(node, ways.never, diverges)))
}

#[cycle(expression)]
#[tactic(auto, using(rx_tree::proofs::Rules::expression_rules, rx_tree::proofs::Rules::block_rules, rx_tree::proofs::Rules::let_rules, rx_typed::proofs::Rules::typed_tree_rules, rx_typeck_elaborate_parts::proofs::Listed::listed_rules))]
pub(crate) fn arm_trees<'t>(
    walk: &mut Walk<'t>,
    site: Site,
    arms: &'t [ArmTree],
) -> Result<(List<Arm>, Ways), AllocError>
    ensures { walks.Tells (map plain-Arm) (naming.of_arms site (arms_of (map plain-ArmTree arms.now))) (λ t l. arms_listed (elaborated.arms t l)) telling.ways_of walk.old result walk.new }
{
    let mut all = List::new(walk.given.alloc);
    let mut ways = Ways {
        never: true,
        diverges: true,
    };
    for arm in arms {
        let ((arm, seen), rest) = keep(all, arm_tree(walk, site, arm))?;
        all = pushed(rest, arm)?;
        ways = with_arm(ways, seen);
    }
    Ok((all, ways))
}

#[cycle(expression)]
#[tactic(auto, using(rx_tree::proofs::Rules::expression_rules, rx_tree::proofs::Rules::block_rules, rx_tree::proofs::Rules::let_rules, rx_typed::proofs::Rules::typed_tree_rules, rx_typeck_elaborate_parts::proofs::Listed::listed_rules))]
pub(crate) fn arm_tree<'t>(
    walk: &mut Walk<'t>,
    site: Site,
    arm: &'t ArmTree,
) -> Result<(Arm, Seen), AllocError>
    ensures { walks.Tells plain-Arm (telling.an_arm site (plain-ArmTree arm.now).0 (plain-ArmTree arm.now).1) (λ t w. (elaborated.pattern t None w.0, elaborated.value t w.1)) (λ w. seen_of w.1) walk.old result walk.new }
{
    let from = walk.cursor.declared();
    let (pattern, _) = walk.pattern(None, &arm.pattern)?;
    let to = walk.cursor.declared();
    walk.cursor.know(from, to);
    let ((body, seen), pattern) = keep(pattern, expression(walk, false, site, &arm.body))?;
    Ok((Arm { pattern, body }, seen))
}

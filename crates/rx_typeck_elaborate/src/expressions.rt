//! Typed expressions.

ghost use Rattle.std.specs.Prelude.{◌||◌, false, Some};
ghost use Rattle.rx_tree.specs.PlainOf.{plain-Expr as plain-ExprTree};
ghost use Rattle.rx_tree.specs.Plain as plain;
ghost use Rattle.rx_typed.specs.Named as named;
ghost use Rattle.rx_typed.specs.Naming as naming;
ghost use Rattle.rx_typed.specs.Elaborated as elaborated;
ghost use Rattle.rx_typed.specs.Tree as tree;
ghost use Rattle.rx_typed.specs.PlainTree.{plain-Expr, plain-Place};
ghost use Rattle.rx_typeck_elaborate_parts.specs.Seeing.{seen_of, value_seen};
ghost use Rattle.rx_typeck_elaborate_parts.specs.Telling as telling;
ghost use Rattle.rx_typeck_elaborate_parts.specs.Walks as walks;
ghost use Rattle.rx_typed.specs.declared.nodes.Site.{Site as SiteOf};

use crate::forms::expression;
use crate::walked_places::place;
use rx_core::{LetGo, Place, Span, keep};
use rx_tree::{BinaryOp, Expr as ExprTree, UpdateOp};
use rx_typeck_elaborate_parts::{Seen, Walk, both, either, is_strict, own, value_seen};
use rx_typed::{Expr, Making, Node, Site};
use std::alloc::AllocError;

#[cycle(expression)]
#[tactic(auto, using(rx_tree::proofs::Rules::expression_rules, rx_tree::proofs::Rules::block_rules, rx_tree::proofs::Rules::let_rules, rx_typed::proofs::Rules::typed_tree_rules, rx_typeck_elaborate_parts::proofs::Listed::listed_rules))]
pub(crate) fn negate<'t>(
    walk: &mut Walk<'t>,
    span: Span,
    site: Site,
    inner: &'t ExprTree,
) -> Result<(Expr, Seen), AllocError>
    ensures { walks.Tells plain-Expr (naming.of_expression false site (plain.negate span (plain-ExprTree inner.now))) elaborated.value seen_of walk.old result walk.new }
{
    let node = walk.node(span, site)?;
    let (tree, seen) = expression(walk, true, Site::Value, inner)?;
    let tree = walk.given.build_one(node, Making::Negation, tree)?;
    Ok((tree, value_seen(node, false, seen.diverges)))
}

#[cycle(expression)]
#[tactic(auto, using(rx_tree::proofs::Rules::expression_rules, rx_tree::proofs::Rules::block_rules, rx_tree::proofs::Rules::let_rules, rx_typed::proofs::Rules::typed_tree_rules, rx_typeck_elaborate_parts::proofs::Listed::listed_rules))]
pub(crate) fn invert<'t>(
    walk: &mut Walk<'t>,
    span: Span,
    site: Site,
    inner: &'t ExprTree,
) -> Result<(Expr, Seen), AllocError>
    ensures { walks.Tells plain-Expr (naming.of_expression false site (plain.invert span (plain-ExprTree inner.now))) elaborated.value seen_of walk.old result walk.new }
{
    let node = walk.node(span, site)?;
    let (tree, seen) = expression(walk, false, Site::Value, inner)?;
    let tree = walk.given.build_one(node, Making::Inversion, tree)?;
    Ok((tree, value_seen(node, false, seen.diverges)))
}

#[cycle(expression)]
#[tactic(auto, using(rx_tree::proofs::Rules::expression_rules, rx_tree::proofs::Rules::block_rules, rx_tree::proofs::Rules::let_rules, rx_typed::proofs::Rules::typed_tree_rules, rx_typeck_elaborate_parts::proofs::Listed::listed_rules))]
pub(crate) fn print<'t>(
    walk: &mut Walk<'t>,
    span: Span,
    site: Site,
    inner: &'t ExprTree,
) -> Result<(Expr, Seen), AllocError>
    ensures { walks.Tells plain-Expr (naming.of_expression false site (plain.print span (plain-ExprTree inner.now))) elaborated.value seen_of walk.old result walk.new }
{
    let node = walk.node(span, site)?;
    let (tree, seen) = expression(walk, false, Site::Value, inner)?;
    let tree = walk.given.print(node, tree)?;
    Ok((tree, value_seen(node, false, seen.diverges)))
}

#[cycle(expression)]
#[tactic(auto, using(rx_tree::proofs::Rules::expression_rules, rx_tree::proofs::Rules::block_rules, rx_tree::proofs::Rules::let_rules, rx_typed::proofs::Rules::typed_tree_rules, rx_typeck_elaborate_parts::proofs::Listed::listed_rules))]
pub(crate) fn borrow<'t>(
    walk: &mut Walk<'t>,
    span: Span,
    site: Site,
    mutable: bool,
    inner: &'t ExprTree,
) -> Result<(Expr, Seen), AllocError>
    ensures { walks.Tells plain-Expr (naming.of_expression false site (plain.borrow span mutable (plain-ExprTree inner.now))) elaborated.value seen_of walk.old result walk.new }
{
    let node = walk.node(span, site)?;
    let (place, seen) = place(walk, Site::Place, inner)?;
    let tree = walk.given.borrow(node, mutable, place)?;
    let tree = walk.given.value_of(node, tree)?;
    Ok((tree, value_seen(node, false, seen.diverges)))
}

#[cycle(expression)]
#[tactic(auto, using(rx_tree::proofs::Rules::expression_rules, rx_tree::proofs::Rules::block_rules, rx_tree::proofs::Rules::let_rules, rx_typed::proofs::Rules::typed_tree_rules, rx_typeck_elaborate_parts::proofs::Listed::listed_rules))]
pub(crate) fn binary<'t>(
    walk: &mut Walk<'t>,
    span: Span,
    site: Site,
    op: BinaryOp,
    left: &'t ExprTree,
    right: &'t ExprTree,
) -> Result<(Expr, Seen), AllocError>
    ensures { walks.Tells plain-Expr (naming.of_expression false site (plain.binary span op (plain-ExprTree left.now) (plain-ExprTree right.now))) elaborated.value seen_of walk.old result walk.new }
{
    let node = walk.node(span, site)?;
    let (left, first) = expression(walk, false, Site::Value, left)?;
    let ((right, second), left) = keep(left, expression(walk, false, Site::Value, right))?;
    let tree = walk.given.operated(node, op, left, right)?;
    let diverges = either(first.diverges, both(is_strict(op), second.diverges));
    Ok((tree, value_seen(node, false, diverges)))
}

#[cycle(expression)]
#[tactic(auto, using(rx_tree::proofs::Rules::expression_rules, rx_tree::proofs::Rules::block_rules, rx_tree::proofs::Rules::let_rules, rx_typed::proofs::Rules::typed_tree_rules, rx_typeck_elaborate_parts::proofs::Listed::listed_rules))]
pub(crate) fn update<'t>(
    walk: &mut Walk<'t>,
    span: Span,
    site: Site,
    op: UpdateOp,
    left: &'t ExprTree,
    right: &'t ExprTree,
) -> Result<(Expr, Seen), AllocError>
    ensures { walks.Tells plain-Expr (naming.of_expression false site (plain.update span op (plain-ExprTree left.now) (plain-ExprTree right.now))) elaborated.value seen_of walk.old result walk.new }
{
    let node = walk.node(span, site)?;
    let (place, first) = place(walk, Site::Place, left)?;
    let ((tree, second), place) = keep(place, expression(walk, false, Site::Value, right))?;
    let tree = walk.given.update(node, op, place, tree)?;
    Ok((
        tree,
        value_seen(node, false, either(first.diverges, second.diverges)),
    ))
}

#[cycle(expression)]
#[tactic(auto, using(rx_tree::proofs::Rules::expression_rules, rx_tree::proofs::Rules::block_rules, rx_tree::proofs::Rules::let_rules, rx_typed::proofs::Rules::typed_tree_rules, rx_typeck_elaborate_parts::proofs::Listed::listed_rules))]
pub(crate) fn assign<'t>(
    walk: &mut Walk<'t>,
    span: Span,
    site: Site,
    left: &'t ExprTree,
    right: &'t ExprTree,
) -> Result<(Expr, Seen), AllocError>
    ensures { walks.Tells plain-Expr (naming.of_expression false site (plain.assign span (plain-ExprTree left.now) (plain-ExprTree right.now))) elaborated.value seen_of walk.old result walk.new }
{
    let node = walk.node(span, site)?;
    let (place, first) = place(walk, Site::Place, left)?;
    match walk.cursor.waits_in(left, first.root.number) {
        Some((variable, _)) => {
            place.let_go();
            gives(walk, node, variable, right)
        }
        None => assigned(walk, node, place, first.diverges, right),
    }
}

/// An assignment before which its variable waits for its type: it gives the type, unless one in its right side did.
#[cycle(expression)]
#[tactic(auto, using(rx_tree::proofs::Rules::expression_rules, rx_tree::proofs::Rules::block_rules, rx_tree::proofs::Rules::let_rules, rx_typed::proofs::Rules::typed_tree_rules, rx_typeck_elaborate_parts::proofs::Listed::listed_rules))]
pub(crate) fn gives<'t>(
    walk: &mut Walk<'t>,
    node: Node,
    variable: u32,
    right: &'t ExprTree,
) -> Result<(Expr, Seen), AllocError>
    ensures { walks.Tells plain-Expr (telling.right_side (Some (variable, 0)) (λ t. naming.of_expression false t (plain-ExprTree right.now))) (λ t e. tree.assign (elaborated.mark t node) (tree.own variable) (elaborated.value t e)) (λ e. value_seen node false (named.diverges e)) walk.old result walk.new }
{
    let (tree, seen) = expression(walk, false, Site::Reborrows, right)?;
    walk.cursor.gives_here(variable);
    let tree = walk
        .given
        .assign(node, own(walk.given.alloc, variable), tree)?;
    Ok((tree, value_seen(node, false, seen.diverges)))
}

/// An assignment to a place; whether evaluating the place diverges.
#[cycle(expression)]
#[tactic(auto, using(rx_tree::proofs::Rules::expression_rules, rx_tree::proofs::Rules::block_rules, rx_tree::proofs::Rules::let_rules, rx_typed::proofs::Rules::typed_tree_rules, rx_typeck_elaborate_parts::proofs::Listed::listed_rules))]
pub(crate) fn assigned<'t>(
    walk: &mut Walk<'t>,
    node: Node,
    place: Place,
    diverges: bool,
    right: &'t ExprTree,
) -> Result<(Expr, Seen), AllocError>
    ensures { walks.Tells plain-Expr (naming.of_expression false SiteOf.Expects (plain-ExprTree right.now)) (λ t e. tree.assign (elaborated.mark t node) (plain-Place place) (elaborated.value t e)) (λ e. value_seen node false (diverges || named.diverges e)) walk.old result walk.new }
{
    let ((tree, seen), place) = keep(place, expression(walk, false, Site::Expects, right))?;
    let tree = walk.given.assign(node, place, tree)?;
    Ok((
        tree,
        value_seen(node, false, either(diverges, seen.diverges)),
    ))
}

//! Places, and what is matched.

ghost use Rattle.std.specs.Prelude.{◌≡◌, false};
ghost use Rattle.rx_tree.specs.PlainOf.{plain-Expr as plain-ExprTree};
ghost use Rattle.rx_tree.specs.Plain as plain;
ghost use Rattle.rx_typed.specs.Named as named;
ghost use Rattle.rx_typed.specs.Naming as naming;
ghost use Rattle.rx_typed.specs.Elaborated as elaborated;
ghost use Rattle.rx_typed.specs.Tree as tree;
ghost use Rattle.rx_typed.specs.PlainTree.{plain-Expr, plain-Place, plain-Matched};
ghost use Rattle.rx_typeck_elaborate_parts.specs.Seeing.{seen_of};
ghost use Rattle.rx_typeck_elaborate_parts.specs.Coercing as coercing;
ghost use Rattle.rx_typeck_elaborate_parts.specs.Walks as walks;
ghost use Rattle.rx_typed.specs.declared.nodes.Site.{Site as SiteOf};

use crate::forms::expression;
use rx_core::{Boxed, LetGo, Place, Span};
use rx_tree::{Expr as ExprTree, ExprNode, Ident};
use rx_typeck_elaborate_parts::{Seen, Walk, own, part_seen};
use rx_typed::{Expr, Matched, Site};
use std::alloc::AllocError;

#[cycle(expression)]
#[tactic(auto, using(rx_tree::proofs::Rules::expression_rules, rx_tree::proofs::Rules::block_rules, rx_tree::proofs::Rules::let_rules, rx_typed::proofs::Rules::typed_tree_rules, rx_typeck_elaborate_parts::proofs::Listed::listed_rules))]
pub(crate) fn field_place<'t>(
    walk: &mut Walk<'t>,
    span: Span,
    site: Site,
    inner: &'t ExprTree,
    name: &'t Ident,
) -> Result<(Place, Seen), AllocError>
    ensures { walks.Tells plain-Place (naming.of_expression false site (plain.field span (plain-ExprTree inner.now) name.now)) elaborated.place seen_of walk.old result walk.new }
{
    let node = walk.node(span, site)?;
    let (place, seen) = place(walk, Site::Place, inner)?;
    let place = walk.given.field(place, seen.node, &name.name)?;
    Ok((place, part_seen(node, seen)))
}

#[cycle(expression)]
#[tactic(auto, using(rx_tree::proofs::Rules::expression_rules, rx_tree::proofs::Rules::block_rules, rx_tree::proofs::Rules::let_rules, rx_typed::proofs::Rules::typed_tree_rules, rx_typeck_elaborate_parts::proofs::Listed::listed_rules))]
pub(crate) fn field_value<'t>(
    walk: &mut Walk<'t>,
    span: Span,
    site: Site,
    inner: &'t ExprTree,
    name: &'t Ident,
) -> Result<(Expr, Seen), AllocError>
    ensures { walks.Tells plain-Expr (naming.of_expression false site (plain.field span (plain-ExprTree inner.now) name.now)) elaborated.value seen_of walk.old result walk.new }
{
    let (place, seen) = field_place(walk, span, site, inner, name)?;
    let tree = walk.given.place_value(seen.node, place)?;
    Ok((tree, seen))
}

#[cycle(expression)]
#[tactic(auto, using(rx_tree::proofs::Rules::expression_rules, rx_tree::proofs::Rules::block_rules, rx_tree::proofs::Rules::let_rules, rx_typed::proofs::Rules::typed_tree_rules, rx_typeck_elaborate_parts::proofs::Listed::listed_rules))]
pub(crate) fn part_place<'t>(
    walk: &mut Walk<'t>,
    span: Span,
    site: Site,
    inner: &'t ExprTree,
    number: u64,
) -> Result<(Place, Seen), AllocError>
    ensures { walks.Tells plain-Place (naming.of_expression false site (plain.part span (plain-ExprTree inner.now) number)) elaborated.place seen_of walk.old result walk.new }
{
    let node = walk.node(span, site)?;
    let (place, seen) = place(walk, Site::Place, inner)?;
    let place = walk.given.part(place, seen.node, number)?;
    Ok((place, part_seen(node, seen)))
}

#[cycle(expression)]
#[tactic(auto, using(rx_tree::proofs::Rules::expression_rules, rx_tree::proofs::Rules::block_rules, rx_tree::proofs::Rules::let_rules, rx_typed::proofs::Rules::typed_tree_rules, rx_typeck_elaborate_parts::proofs::Listed::listed_rules))]
pub(crate) fn part_value<'t>(
    walk: &mut Walk<'t>,
    span: Span,
    site: Site,
    inner: &'t ExprTree,
    number: u64,
) -> Result<(Expr, Seen), AllocError>
    ensures { walks.Tells plain-Expr (naming.of_expression false site (plain.part span (plain-ExprTree inner.now) number)) elaborated.value seen_of walk.old result walk.new }
{
    let (place, seen) = part_place(walk, span, site, inner, number)?;
    let tree = walk.given.place_value(seen.node, place)?;
    Ok((tree, seen))
}

#[cycle(expression)]
#[tactic(auto, using(rx_tree::proofs::Rules::expression_rules, rx_tree::proofs::Rules::block_rules, rx_tree::proofs::Rules::let_rules, rx_typed::proofs::Rules::typed_tree_rules, rx_typeck_elaborate_parts::proofs::Listed::listed_rules))]
pub(crate) fn deref_place<'t>(
    walk: &mut Walk<'t>,
    span: Span,
    site: Site,
    inner: &'t ExprTree,
) -> Result<(Place, Seen), AllocError>
    ensures { walks.Tells plain-Place (naming.of_expression false site (plain.deref span (plain-ExprTree inner.now))) elaborated.place seen_of walk.old result walk.new }
{
    let node = walk.node(span, site)?;
    let (place, seen) = place(walk, Site::Place, inner)?;
    let place = walk.given.dereferenced(place, seen.node)?;
    Ok((place, part_seen(node, seen)))
}

#[cycle(expression)]
#[tactic(auto, using(rx_tree::proofs::Rules::expression_rules, rx_tree::proofs::Rules::block_rules, rx_tree::proofs::Rules::let_rules, rx_typed::proofs::Rules::typed_tree_rules, rx_typeck_elaborate_parts::proofs::Listed::listed_rules))]
pub(crate) fn deref_value<'t>(
    walk: &mut Walk<'t>,
    span: Span,
    site: Site,
    inner: &'t ExprTree,
) -> Result<(Expr, Seen), AllocError>
    ensures { walks.Tells plain-Expr (naming.of_expression false site (plain.deref span (plain-ExprTree inner.now))) elaborated.value seen_of walk.old result walk.new }
{
    let (place, seen) = deref_place(walk, span, site, inner)?;
    let tree = walk.given.place_value(seen.node, place)?;
    Ok((tree, seen))
}

/// A place where it stands; what is none is gone over.
#[cycle(expression)]
#[tactic(auto, using(rx_tree::proofs::Rules::expression_rules, rx_tree::proofs::Rules::block_rules, rx_tree::proofs::Rules::let_rules, rx_typed::proofs::Rules::typed_tree_rules, rx_typeck_elaborate_parts::proofs::Listed::listed_rules))]
pub(crate) fn place<'t>(
    walk: &mut Walk<'t>,
    site: Site,
    expr: &'t ExprTree,
) -> Result<(Place, Seen), AllocError>
    ensures { walks.Tells plain-Place (naming.of_expression false site (plain-ExprTree expr.now)) elaborated.place seen_of walk.old result walk.new }
{
    let span = expr.span;
    match &expr.node {
        ExprNode::Var(name) => walk.variable(span, site, name),
        ExprNode::Field(inner, name) => field_place(walk, span, site, inner.get(), name),
        ExprNode::Part(inner, number) => part_place(walk, span, site, inner.get(), *number),
        ExprNode::Deref(inner) => deref_place(walk, span, site, inner.get()),
        _ => no_place(walk, site, expr),
    }
}

/// What is no place, where one is wanted: the rules of types refuse it.
#[cycle(expression)]
#[tactic(auto, using(rx_tree::proofs::Rules::expression_rules, rx_tree::proofs::Rules::block_rules, rx_tree::proofs::Rules::let_rules, rx_typed::proofs::Rules::typed_tree_rules, rx_typeck_elaborate_parts::proofs::Listed::listed_rules))]
pub(crate) fn no_place<'t>(
    walk: &mut Walk<'t>,
    site: Site,
    expr: &'t ExprTree,
) -> Result<(Place, Seen), AllocError>
    ensures { walks.Tells plain-Place (naming.of_expression false site (plain-ExprTree expr.now)) (λ _ _. tree.own 0) seen_of walk.old result walk.new }
{
    let (tree, seen) = expression(walk, false, site, expr)?;
    tree.let_go();
    Ok((own(walk.given.alloc, 0), seen))
}

/// Whether an expression is a place.
#[tactic(auto, using(rx_tree::proofs::Rules::expression_rules, crate::proofs::ToldLemmas::no_place))]
fn is_place(expr: &ExprTree) -> bool
    ensures { (t : SiteOf) (c : naming.Cursor) → named.is_place (naming.of_expression false t (plain-ExprTree expr.now) c).0 ≡ result }
{
    match &expr.node {
        ExprNode::Var(_) => true,
        ExprNode::Field(_, _) => true,
        ExprNode::Part(_, _) => true,
        ExprNode::Deref(_) => true,
        _ => false,
    }
}

/// What is matched.
#[cycle(expression)]
#[tactic(auto, using(rx_tree::proofs::Rules::expression_rules, rx_tree::proofs::Rules::block_rules, rx_tree::proofs::Rules::let_rules, rx_typed::proofs::Rules::typed_tree_rules, rx_typeck_elaborate_parts::proofs::Listed::listed_rules))]
pub(crate) fn matched<'t>(
    walk: &mut Walk<'t>,
    site: Site,
    expr: &'t ExprTree,
) -> Result<(Matched, Seen), AllocError>
    ensures { walks.Tells plain-Matched (naming.of_expression false site (plain-ExprTree expr.now)) (λ t e. elaborated.matched t e (elaborated.value t e)) seen_of walk.old result walk.new }
{
    if is_place(expr) {
        matched_place(walk, site, expr)
    } else {
        matched_value(walk, site, expr)
    }
}

#[cycle(expression)]
#[tactic(auto, using(rx_tree::proofs::Rules::expression_rules, rx_tree::proofs::Rules::block_rules, rx_tree::proofs::Rules::let_rules, rx_typed::proofs::Rules::typed_tree_rules, rx_typeck_elaborate_parts::proofs::Listed::listed_rules))]
pub(crate) fn matched_place<'t>(
    walk: &mut Walk<'t>,
    site: Site,
    expr: &'t ExprTree,
) -> Result<(Matched, Seen), AllocError>
    ensures { walks.Tells plain-Matched (naming.of_expression false site (plain-ExprTree expr.now)) (λ t e. coercing.place_matched t (named.node_of e) (elaborated.place t e)) seen_of walk.old result walk.new }
{
    let (place, seen) = place(walk, site, expr)?;
    let matched = walk.given.place_matched(seen.node, place)?;
    Ok((matched, seen))
}

#[cycle(expression)]
#[tactic(auto, using(rx_tree::proofs::Rules::expression_rules, rx_tree::proofs::Rules::block_rules, rx_tree::proofs::Rules::let_rules, rx_typed::proofs::Rules::typed_tree_rules, rx_typeck_elaborate_parts::proofs::Listed::listed_rules))]
pub(crate) fn matched_value<'t>(
    walk: &mut Walk<'t>,
    site: Site,
    expr: &'t ExprTree,
) -> Result<(Matched, Seen), AllocError>
    ensures { walks.Tells plain-Matched (naming.of_expression false site (plain-ExprTree expr.now)) (λ t e. tree.of_value (elaborated.value t e)) seen_of walk.old result walk.new }
{
    let (tree, seen) = expression(walk, false, site, expr)?;
    let tree = Boxed::new(walk.given.alloc, tree)?;
    Ok((Matched::Value(tree), seen))
}

//! What lists of values ask: tuples, calls, variants and structs.

ghost use Rattle.std.specs.Prelude.{◌≡◌, ℕ, Bool, true, false, ◌&&◌, ◌||◌, [], ◌∷◌, ◌++◌, length, map, Ok, Err, Option, Some, None, OnOk, IfOk};
ghost use Rattle.rx_tree.specs.PlainOf.{plain-Expr, plain-FieldExpr, expressions_of, field_expressions_of};
ghost use Rattle.rx_tree.specs.Plain as plain;
ghost use Rattle.rx_typed.specs.declared.nodes.Site.TheVariants as site_of;
ghost use Rattle.rx_typed.specs.Named as named;
ghost use Rattle.rx_typed.specs.Naming as naming;
ghost use Rattle.rx_typeck_typed.specs.Demands as demands;
ghost use Rattle.rx_typeck_elaborate_parts.specs.Seeing as seeing;
ghost use Rattle.rx_typeck_demand_parts.specs.Walks as walks;
ghost use Rattle.rx_typeck_demands.specs.Pieces as pieces;

use crate::expressions::expression;
use crate::listed::{Each, Members};
use rx_core::{List, Name, Span};
use rx_tree::{Expr, FieldExpr, Ident};
use rx_typeck_demand_parts::{Walk, type_of};
use rx_typeck_elaborate_parts::{Entry, Seen, either, value_seen};
use rx_typeck_solver::{Op, Rule, Test};
use rx_typed::{Node, Site};
use std::alloc::{AllocError, Global};

#[cycle(expression)]
pub(crate) fn tuple<'t>(
    walk: &mut Walk<'t>,
    site: Site,
    span: Span,
    parts: &'t [Expr],
) -> Result<Seen, AllocError>
    ensures { walks.Walks (naming.of_expression false site (plain.tuple span (expressions_of (map plain-Expr parts.now)))) (demands.of_form walk.old.item) seeing.seen_of walk.old result walk.new }
{
    let node = walk.node(span, site)?;
    let listed = members(walk, parts)?;
    walk.own(node, Op::Tuple, listed.nodes.as_slice())?;
    walk.limits(node)?;
    Ok(value_seen(node, false, listed.diverges))
}

/// The members of a tuple.
#[cycle(expression)]
#[tactic(auto, using(std::proofs::lemmas::Grind::common_steps, crate::proofs::Ways::or_assoc, crate::proofs::Ways::or_false))]
fn members<'t>(walk: &mut Walk<'t>, parts: &'t [Expr]) -> Result<Members, AllocError>
    ensures { walks.Walks (naming.of_expressions site_of.Value (expressions_of (map plain-Expr parts.now))) (demands.of_each walk.old.item demands.members 0) pieces.members_of walk.old result walk.new }
{
    let mut nodes = List::new(walk.alloc);
    let mut diverges = false;
    for part in parts {
        let seen = member(walk, part)?;
        nodes.push(type_of(seen.node))?;
        diverges = either(diverges, seen.diverges);
    }
    Ok(Members { nodes, diverges })
}

#[cycle(expression)]
fn member<'t>(walk: &mut Walk<'t>, part: &'t Expr) -> Result<Seen, AllocError>
    ensures { walks.Walks (naming.of_expression false site_of.Value (plain-Expr part.now)) (demands.of_element walk.old.item demands.members 0) seeing.seen_of walk.old result walk.new }
{
    let seen = expression(walk, false, Site::Value, part)?;
    walk.not_never(seen)?;
    Ok(seen)
}

#[cycle(expression)]
pub(crate) fn call<'t>(
    walk: &mut Walk<'t>,
    site: Site,
    span: Span,
    _callee: &Ident,
    arguments: &'t [Expr],
) -> Result<Seen, AllocError>
    ensures { walks.Walks (naming.of_expression false site (plain.call span _callee.now (expressions_of (map plain-Expr arguments.now)))) (demands.of_form walk.old.item) seeing.seen_of walk.old result walk.new }
{
    let node = walk.node(span, site)?;
    let names = walk.entry();
    if names.hidden {
        hidden_call(walk, node, arguments)
    } else {
        function_call(walk, node, names.first, arguments)
    }
}

/// A call whose callee names a variable.
#[cycle(expression)]
fn hidden_call<'t>(
    walk: &mut Walk<'t>,
    node: Node,
    arguments: &'t [Expr],
) -> Result<Seen, AllocError>
    ensures { walks.Walks (naming.of_expressions site_of.Value (expressions_of (map plain-Expr arguments.now))) (demands.of_hidden_call walk.old.item node) (pieces.parts_seen node) walk.old result walk.new }
{
    walk.refuse(node, Rule::NotFunction)?;
    let diverges = each(walk, Each::Values, Site::Value, arguments)?;
    Ok(value_seen(node, false, diverges))
}

#[cycle(expression)]
#[tactic(auto, using(crate::proofs::Counts::arguments_counted))]
fn function_call<'t>(
    walk: &mut Walk<'t>,
    node: Node,
    function: u32,
    arguments: &'t [Expr],
) -> Result<Seen, AllocError>
    ensures { walks.Walks (naming.of_expressions site_of.Expects (expressions_of (map plain-Expr arguments.now))) (demands.of_call walk.old.item node function) (pieces.parts_seen node) walk.old result walk.new }
{
    let test = Test::Takes(function, arguments.len());
    walk.ask_passes(node, Rule::Count, test, &[])?;
    let diverges = each(walk, Each::Parameters(function), Site::Expects, arguments)?;
    walk.own(node, Op::Result(function), &[])?;
    Ok(value_seen(node, false, diverges))
}

#[cycle(expression)]
pub(crate) fn variant<'t>(
    walk: &mut Walk<'t>,
    site: Site,
    span: Span,
    _name: &Ident,
    _case: &Ident,
    arguments: &'t [Expr],
) -> Result<Seen, AllocError>
    ensures { walks.Walks (naming.of_expression false site (plain.variant span _name.now _case.now (plain.a_list (expressions_of (map plain-Expr arguments.now))))) (demands.of_form walk.old.item) seeing.seen_of walk.old result walk.new }
{
    let node = walk.node(span, site)?;
    let names = walk.entry();
    variant_of(walk, node, names, arguments)
}

#[cycle(expression)]
#[tactic(auto, using(crate::proofs::Counts::arguments_counted))]
fn variant_of<'t>(
    walk: &mut Walk<'t>,
    node: Node,
    names: Entry,
    arguments: &'t [Expr],
) -> Result<Seen, AllocError>
    ensures { walks.Walks (naming.of_expressions site_of.Expects (expressions_of (map plain-Expr arguments.now))) (demands.of_variant walk.old.item node names.first names.second) (pieces.parts_seen node) walk.old result walk.new }
{
    let test = Test::Holds(names.first, names.second, arguments.len());
    walk.ask_passes(node, Rule::Count, test, &[])?;
    let parts = Each::Parts(names.first, names.second);
    let diverges = each(walk, parts, Site::Expects, arguments)?;
    walk.own(node, Op::Item(names.first), &[])?;
    Ok(value_seen(node, false, diverges))
}

/// A list of values; whether some of them diverges.
#[cycle(expression)]
#[tactic(auto, using(crate::proofs::Ways::or_assoc, crate::proofs::Ways::or_false))]
fn each<'t>(
    walk: &mut Walk<'t>,
    listed: Each,
    site: Site,
    exprs: &'t [Expr],
) -> Result<bool, AllocError>
    ensures { walks.Walks (naming.of_expressions site (expressions_of (map plain-Expr exprs.now))) (demands.of_each walk.old.item (pieces.each_as listed) 0) named.any_diverges walk.old result walk.new }
{
    let mut diverges = false;
    for place in 0..exprs.len() {
        let seen = element(walk, listed, site, place, &exprs[place])?;
        diverges = diverges || seen.diverges;
    }
    Ok(diverges)
}

/// An element of a list of values.
#[cycle(expression)]
#[tactic(auto, using(rx_typeck_elaborate_parts::proofs::Next::next_expression, crate::proofs::Ways::each_nothing))]
fn element<'t>(
    walk: &mut Walk<'t>,
    listed: Each,
    site: Site,
    place: usize,
    expr: &'t Expr,
) -> Result<Seen, AllocError>
    ensures { walks.Walks (naming.of_expression false site (plain-Expr expr.now)) (demands.of_element walk.old.item (pieces.each_as listed) place) seeing.seen_of walk.old result walk.new }
{
    let next = walk.next(expr.span, site);
    each_before(walk, listed, place, next)?;
    let seen = expression(walk, false, site, expr)?;
    Ok(seen)
}

fn each_before(
    walk: &mut Walk<'_>,
    listed: Each,
    place: usize,
    node: Node,
) -> Result<(), AllocError>
    ensures { OnOk result (walk.new ≡ walks.asked (demands.each_before (pieces.each_as listed) place node) walk.old) }
{
    match listed {
        Each::Values => Ok(()),
        Each::Parameters(function) => walk.expects(node, Op::Parameter(function, place), &[]),
        Each::Parts(item, variant) => { walk.expects(node, Op::PartOf(item, variant, place), &[]) }
    }
}

#[cycle(expression)]
pub(crate) fn make<'t>(
    walk: &mut Walk<'t>,
    site: Site,
    span: Span,
    _name: &Ident,
    fields: &'t [FieldExpr],
) -> Result<Seen, AllocError>
    ensures { walks.Walks (naming.of_expression false site (plain.make span _name.now (field_expressions_of (map plain-FieldExpr fields.now)))) (demands.of_form walk.old.item) seeing.seen_of walk.old result walk.new }
{
    let node = walk.node(span, site)?;
    let item = walk.entry().first;
    let diverges = made(walk, node, item, fields)?;
    Ok(value_seen(node, false, diverges))
}

/// A struct that is made at a node.
#[cycle(expression)]
#[tactic(auto, using(crate::proofs::Counts::field_values_named))]
fn made<'t>(
    walk: &mut Walk<'t>,
    node: Node,
    item: u32,
    fields: &'t [FieldExpr],
) -> Result<bool, AllocError>
    ensures { walks.Walks (naming.of_fields (field_expressions_of (map plain-FieldExpr fields.now))) (demands.of_make walk.old.item node item) named.any_field_diverges walk.old result walk.new }
{
    let names = field_names(walk.alloc, fields)?;
    walk.ask_passes(node, Rule::Fields, Test::HasFields(item, names), &[])?;
    let diverges = values_of_fields(walk, item, fields)?;
    walk.own(node, Op::Item(item), &[])?;
    Ok(diverges)
}

/// The names of the fields of a struct that is made.
fn field_names(alloc: Global, fields: &[FieldExpr]) -> Result<List<Name>, AllocError>
    ensures { IfOk result (λ ns. ns ≡ pieces.fields_named fields.now) }
{
    let mut names = List::new(alloc);
    for field in fields {
        let name = field.field.name.copy(alloc)?;
        names.push(name)?;
    }
    Ok(names)
}

#[cycle(expression)]
#[tactic(auto, using(crate::proofs::Ways::or_assoc, crate::proofs::Ways::or_false))]
fn values_of_fields<'t>(
    walk: &mut Walk<'t>,
    item: u32,
    fields: &'t [FieldExpr],
) -> Result<bool, AllocError>
    ensures { walks.Walks (naming.of_fields (field_expressions_of (map plain-FieldExpr fields.now))) (demands.of_fields walk.old.item item) named.any_field_diverges walk.old result walk.new }
{
    let mut diverges = false;
    for field in fields {
        let seen = value_of_field(walk, item, field)?;
        diverges = either(diverges, seen.diverges);
    }
    Ok(diverges)
}

#[cycle(expression)]
#[tactic(auto, using(rx_typeck_elaborate_parts::proofs::Next::next_expression, rx_tree::proofs::Rules::expression_rules))]
fn value_of_field<'t>(
    walk: &mut Walk<'t>,
    item: u32,
    field: &'t FieldExpr,
) -> Result<Seen, AllocError>
    ensures { walks.Walks (naming.of_expression false site_of.Expects (plain-FieldExpr field.now).1) (demands.of_field walk.old.item item (plain-FieldExpr field.now).0.name) seeing.seen_of walk.old result walk.new }
{
    let made = Op::FieldOf(item, field.field.name.copy(walk.alloc)?);
    let next = walk.next(field.value.span, Site::Expects);
    walk.expects(next, made, &[])?;
    let seen = expression(walk, false, Site::Expects, &field.value)?;
    Ok(seen)
}

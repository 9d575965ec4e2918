//! Operands, and what is made of lists of them.

ghost use Rattle.std.specs.Prelude.{true, false, [], ◌∷◌, map, option_map};
ghost use Rattle.rx_tree.specs.PlainOf.{plain-Expr as plain-ExprTree, plain-FieldExpr, expressions_of, optional_list_of, field_expressions_of};
ghost use Rattle.rx_tree.specs.Plain as plain;
ghost use Rattle.rx_typed.specs.Named as named;
ghost use Rattle.rx_typed.specs.Naming as naming;
ghost use Rattle.rx_typed.specs.Types as types;
ghost use Rattle.rx_typed.specs.Elaborated as elaborated;
ghost use Rattle.rx_typed.specs.PlainTree.{plain-Expr, plain-Operand};
ghost use Rattle.rx_typeck_elaborate_parts.specs.Seeing.{seen_of};
ghost use Rattle.rx_typeck_elaborate_parts.specs.Listing.{operands_listed};
ghost use Rattle.rx_typeck_elaborate_parts.specs.Walks as walks;
ghost use Rattle.rx_typed.specs.declared.nodes.Site.{Site as SiteOf};

use crate::forms::expression;
use rx_core::{LetGo, List, Span, keep, pushed};
use rx_tree::{Expr as ExprTree, FieldExpr, Ident};
use rx_typeck_elaborate_parts::{Seen, Walk, either, field_of, nothing, value_seen};
use rx_typed::{Expr, Making, Node, Operand, Site};
use std::alloc::AllocError;

/// Operands in order, from field 0 on, and whether some diverges.
#[cycle(expression)]
#[tactic(auto, using(rx_tree::proofs::Rules::expression_rules, rx_tree::proofs::Rules::block_rules, rx_tree::proofs::Rules::let_rules, rx_typed::proofs::Rules::typed_tree_rules, rx_typeck_elaborate_parts::proofs::Listed::listed_rules))]
pub(crate) fn operands<'t>(
    walk: &mut Walk<'t>,
    site: Site,
    exprs: &'t [ExprTree],
) -> Result<(List<Operand>, bool), AllocError>
    ensures { walks.Tells (map plain-Operand) (naming.of_expressions site (expressions_of (map plain-ExprTree exprs.now))) (λ t es. operands_listed (elaborated.operands t 0 es)) named.any_diverges walk.old result walk.new }
{
    let mut all = List::new(walk.given.alloc);
    let mut diverges = false;
    for field in 0..exprs.len() {
        let ((operand, ends), rest) = keep(all, operand(walk, site, field, &exprs[field]))?;
        all = pushed(rest, operand)?;
        diverges = either(diverges, ends);
    }
    Ok((all, diverges))
}

#[cycle(expression)]
#[tactic(auto, using(rx_tree::proofs::Rules::expression_rules, rx_tree::proofs::Rules::block_rules, rx_tree::proofs::Rules::let_rules, rx_typed::proofs::Rules::typed_tree_rules, rx_typeck_elaborate_parts::proofs::Listed::listed_rules))]
pub(crate) fn operand<'t>(
    walk: &mut Walk<'t>,
    site: Site,
    field: usize,
    expr: &'t ExprTree,
) -> Result<(Operand, bool), AllocError>
    ensures { walks.Tells plain-Operand (naming.of_expression false site (plain-ExprTree expr.now)) (λ t e. (field, elaborated.value t e)) named.diverges walk.old result walk.new }
{
    let (value, seen) = expression(walk, false, site, expr)?;
    Ok((Operand { field, value }, seen.diverges))
}

/// Arguments of a variant, where parentheses are written.
#[cycle(expression)]
#[tactic(auto, using(rx_tree::proofs::Rules::expression_rules, rx_tree::proofs::Rules::block_rules, rx_tree::proofs::Rules::let_rules, rx_typed::proofs::Rules::typed_tree_rules, rx_typeck_elaborate_parts::proofs::Listed::listed_rules))]
pub(crate) fn argument_trees<'t>(
    walk: &mut Walk<'t>,
    exprs: &'t Option<List<ExprTree>>,
) -> Result<(List<Operand>, bool), AllocError>
    ensures { walks.Tells (map plain-Operand) (naming.of_arguments (optional_list_of (option_map (map plain-ExprTree) exprs.now))) (λ t es. operands_listed (elaborated.operands t 0 es)) named.any_diverges walk.old result walk.new }
{
    match exprs {
        Some(exprs) => operands(walk, Site::Expects, exprs.as_slice()),
        None => Ok((List::new(walk.given.alloc), false)),
    }
}

/// Values of the fields of a struct's item.
#[cycle(expression)]
#[tactic(auto, using(rx_tree::proofs::Rules::expression_rules, rx_tree::proofs::Rules::block_rules, rx_tree::proofs::Rules::let_rules, rx_typed::proofs::Rules::typed_tree_rules, rx_typeck_elaborate_parts::proofs::Listed::listed_rules))]
pub(crate) fn field_trees<'t>(
    walk: &mut Walk<'t>,
    item: u32,
    fields: &'t [FieldExpr],
) -> Result<(List<Operand>, bool), AllocError>
    ensures { walks.Tells (map plain-Operand) (naming.of_fields (field_expressions_of (map plain-FieldExpr fields.now))) (λ t fs. operands_listed (elaborated.fields t item fs)) named.any_field_diverges walk.old result walk.new }
{
    let mut all = List::new(walk.given.alloc);
    let mut diverges = false;
    for field in fields {
        let ((operand, ends), rest) = keep(all, field_operand(walk, item, field))?;
        all = pushed(rest, operand)?;
        diverges = either(diverges, ends);
    }
    Ok((all, diverges))
}

#[cycle(expression)]
#[tactic(auto, using(rx_tree::proofs::Rules::expression_rules, rx_tree::proofs::Rules::block_rules, rx_tree::proofs::Rules::let_rules, rx_typed::proofs::Rules::typed_tree_rules, rx_typeck_elaborate_parts::proofs::Listed::listed_rules, rx_typeck_elaborate_parts::proofs::References::assigned_rules))]
pub(crate) fn field_operand<'t>(
    walk: &mut Walk<'t>,
    item: u32,
    field: &'t FieldExpr,
) -> Result<(Operand, bool), AllocError>
    ensures { walks.Tells plain-Operand (naming.of_expression false SiteOf.Expects (plain-FieldExpr field.now).1) (λ t e. (elaborated.field_in t.items (types.named item) (plain-FieldExpr field.now).0.name, elaborated.value t e)) named.diverges walk.old result walk.new }
{
    let number = field_of(&walk.given.decls.items, item, &field.field.name);
    let (value, seen) = expression(walk, false, Site::Expects, &field.value)?;
    let field = number;
    Ok((Operand { field, value }, seen.diverges))
}

#[cycle(expression)]
#[tactic(auto, using(rx_tree::proofs::Rules::expression_rules, rx_tree::proofs::Rules::block_rules, rx_tree::proofs::Rules::let_rules, rx_typed::proofs::Rules::typed_tree_rules, rx_typeck_elaborate_parts::proofs::Listed::listed_rules))]
pub(crate) fn tuple_tree<'t>(
    walk: &mut Walk<'t>,
    span: Span,
    site: Site,
    parts: &'t [ExprTree],
) -> Result<(Expr, Seen), AllocError>
    ensures { walks.Tells plain-Expr (naming.of_expression false site (plain.tuple span (expressions_of (map plain-ExprTree parts.now)))) elaborated.value seen_of walk.old result walk.new }
{
    let node = walk.node(span, site)?;
    let (operands, diverges) = operands(walk, Site::Value, parts)?;
    let tree = walk.given.tuple_of(node, operands)?;
    Ok((tree, value_seen(node, false, diverges)))
}

#[cycle(expression)]
#[tactic(auto, using(rx_tree::proofs::Rules::expression_rules, rx_tree::proofs::Rules::block_rules, rx_tree::proofs::Rules::let_rules, rx_typed::proofs::Rules::typed_tree_rules, rx_typeck_elaborate_parts::proofs::Listed::listed_rules, crate::proofs::ToldLemmas::call_rules))]
pub(crate) fn call_tree<'t>(
    walk: &mut Walk<'t>,
    span: Span,
    site: Site,
    _callee: &'t Ident,
    arguments: &'t [ExprTree],
) -> Result<(Expr, Seen), AllocError>
    ensures { walks.Tells plain-Expr (naming.of_expression false site (plain.call span _callee.now (expressions_of (map plain-ExprTree arguments.now)))) elaborated.value seen_of walk.old result walk.new }
{
    let node = walk.node(span, site)?;
    let names = walk.entry();
    if names.hidden {
        hidden_call(walk, node, arguments)
    } else {
        open_call(walk, node, names.first, arguments)
    }
}

/// A call of a variable, which the rules of types refuse.
#[cycle(expression)]
#[tactic(auto, using(rx_tree::proofs::Rules::expression_rules, rx_tree::proofs::Rules::block_rules, rx_tree::proofs::Rules::let_rules, rx_typed::proofs::Rules::typed_tree_rules, rx_typeck_elaborate_parts::proofs::Listed::listed_rules))]
pub(crate) fn hidden_call<'t>(
    walk: &mut Walk<'t>,
    node: Node,
    arguments: &'t [ExprTree],
) -> Result<(Expr, Seen), AllocError>
    ensures { walks.Tells plain-Expr (naming.called node ([], true) (λ t. naming.of_expressions t (expressions_of (map plain-ExprTree arguments.now)))) elaborated.value seen_of walk.old result walk.new }
{
    let (operands, diverges) = operands(walk, Site::Value, arguments)?;
    operands.let_go();
    Ok((nothing(node), value_seen(node, false, diverges)))
}

/// A call of a function's item.
#[cycle(expression)]
#[tactic(auto, using(rx_tree::proofs::Rules::expression_rules, rx_tree::proofs::Rules::block_rules, rx_tree::proofs::Rules::let_rules, rx_typed::proofs::Rules::typed_tree_rules, rx_typeck_elaborate_parts::proofs::Listed::listed_rules))]
pub(crate) fn open_call<'t>(
    walk: &mut Walk<'t>,
    node: Node,
    item: u32,
    arguments: &'t [ExprTree],
) -> Result<(Expr, Seen), AllocError>
    ensures { walks.Tells plain-Expr (naming.called node (item ∷ [], false) (λ t. naming.of_expressions t (expressions_of (map plain-ExprTree arguments.now)))) elaborated.value seen_of walk.old result walk.new }
{
    let (operands, diverges) = operands(walk, Site::Expects, arguments)?;
    let tree = walk.given.call(node, item, operands)?;
    Ok((tree, value_seen(node, false, diverges)))
}

#[cycle(expression)]
#[tactic(auto, using(rx_tree::proofs::Rules::expression_rules, rx_tree::proofs::Rules::block_rules, rx_tree::proofs::Rules::let_rules, rx_typed::proofs::Rules::typed_tree_rules, rx_typeck_elaborate_parts::proofs::Listed::listed_rules))]
pub(crate) fn variant_tree<'t>(
    walk: &mut Walk<'t>,
    span: Span,
    site: Site,
    _name: &'t Ident,
    _variant: &'t Ident,
    arguments: &'t Option<List<ExprTree>>,
) -> Result<(Expr, Seen), AllocError>
    ensures { walks.Tells plain-Expr (naming.of_expression false site (plain.variant span _name.now _variant.now (optional_list_of (option_map (map plain-ExprTree) arguments.now)))) elaborated.value seen_of walk.old result walk.new }
{
    let node = walk.node(span, site)?;
    let names = walk.entry();
    let (operands, diverges) = argument_trees(walk, arguments)?;
    let making = Making::Variant(names.first, names.second);
    let tree = walk.given.build(node, making, operands)?;
    Ok((tree, value_seen(node, false, diverges)))
}

#[cycle(expression)]
#[tactic(auto, using(rx_tree::proofs::Rules::expression_rules, rx_tree::proofs::Rules::block_rules, rx_tree::proofs::Rules::let_rules, rx_typed::proofs::Rules::typed_tree_rules, rx_typeck_elaborate_parts::proofs::Listed::listed_rules))]
pub(crate) fn make_tree<'t>(
    walk: &mut Walk<'t>,
    span: Span,
    site: Site,
    _name: &'t Ident,
    fields: &'t [FieldExpr],
) -> Result<(Expr, Seen), AllocError>
    ensures { walks.Tells plain-Expr (naming.of_expression false site (plain.make span _name.now (field_expressions_of (map plain-FieldExpr fields.now)))) elaborated.value seen_of walk.old result walk.new }
{
    let node = walk.node(span, site)?;
    let item = walk.entry().first;
    let (operands, diverges) = field_trees(walk, item, fields)?;
    let tree = walk.given.build(node, Making::Struct(item), operands)?;
    Ok((tree, value_seen(node, false, diverges)))
}

//! Typed loops, bodies and statements.

ghost use Rattle.std.specs.Prelude.{false, map, option_map};
ghost use Rattle.rx_tree.specs.PlainOf.{plain-Expr as plain-ExprTree, plain-Pattern as plain-PatternTree, plain-TypeText, plain-Block, plain-Stmt as plain-StmtTree, statements_of};
ghost use Rattle.rx_tree.specs.Plain as plain;
ghost use Rattle.rx_typed.specs.Named as named;
ghost use Rattle.rx_typed.specs.Naming as naming;
ghost use Rattle.rx_typed.specs.Elaborated as elaborated;
ghost use Rattle.rx_typed.specs.PlainTree.{plain-Expr, plain-Matched, plain-Stmt};
ghost use Rattle.rx_typeck_elaborate_parts.specs.Seeing.{seen_of};
ghost use Rattle.rx_typeck_elaborate_parts.specs.Telling as telling;
ghost use Rattle.rx_typeck_elaborate_parts.specs.Walks as walks;
ghost use Rattle.rx_typeck_elaborate.specs.Letting as letting;

use crate::branches::{last, looked_into, tested};
use crate::forms::expression;
use crate::walked_places::matched;
use rx_core::{List, Span, keep, pushed};
use rx_tree::{
    Block, Expr as ExprTree, Ident, Pattern as PatternTree, Stmt as StmtTree, StmtNode, TypeText,
};
use rx_typeck_elaborate_parts::{
    Declares, Ends, Seen, Walk, body_never, both, either, has_no_type, initialiser_site, jump,
    tests, value_seen,
};
use rx_typed::{Expr, Matched, Pattern, Site, Stmt};
use std::alloc::AllocError;

#[cycle(expression)]
#[tactic(auto, using(rx_tree::proofs::Rules::expression_rules, rx_tree::proofs::Rules::block_rules, rx_tree::proofs::Rules::let_rules, rx_typed::proofs::Rules::typed_tree_rules, rx_typeck_elaborate_parts::proofs::Listed::listed_rules))]
pub(crate) fn loop_at<'t>(
    walk: &mut Walk<'t>,
    span: Span,
    site: Site,
    _label: &'t Option<Ident>,
    body: &'t Block,
) -> Result<(Expr, Seen), AllocError>
    ensures { walks.Tells plain-Expr (naming.of_expression false site (plain.loop span _label.now (plain-Block body.now))) elaborated.value seen_of walk.old result walk.new }
{
    let node = walk.node(span, site)?;
    let number = walk.new_loop()?;
    let (tree, _) = body_tree(walk, Site::Value, body)?;
    let never = !walk.cursor.is_left(number as usize);
    let tree = walk.given.repeated(node, never, number, tree)?;
    Ok((tree, value_seen(node, never, never)))
}

#[cycle(expression)]
#[tactic(auto, using(rx_tree::proofs::Rules::expression_rules, rx_tree::proofs::Rules::block_rules, rx_tree::proofs::Rules::let_rules, rx_typed::proofs::Rules::typed_tree_rules, rx_typeck_elaborate_parts::proofs::Listed::listed_rules))]
pub(crate) fn while_at<'t>(
    walk: &mut Walk<'t>,
    span: Span,
    site: Site,
    _label: &'t Option<Ident>,
    condition: &'t ExprTree,
    body: &'t Block,
) -> Result<(Expr, Seen), AllocError>
    ensures { walks.Tells plain-Expr (naming.of_expression false site (plain.while span _label.now (plain-ExprTree condition.now) (plain-Block body.now))) elaborated.value seen_of walk.old result walk.new }
{
    let node = walk.node(span, site)?;
    let number = walk.new_loop()?;
    let (condition, seen) = expression(walk, false, Site::Value, condition)?;
    let ((holds, ends), condition) = keep(condition, body_tree(walk, Site::Value, body))?;
    let marked = walk.given.mark_if(ends.node, ends.never);
    let (mark, (condition, holds)) = keep((condition, holds), marked)?;
    let ways = (holds, jump(node, number, false));
    let tree = tests(walk.given.alloc, node, condition, mark, ways)?;
    let tree = walk.given.repeated(node, false, number, tree)?;
    Ok((tree, value_seen(node, false, seen.diverges)))
}

#[cycle(expression)]
#[tactic(auto, using(rx_tree::proofs::Rules::expression_rules, rx_tree::proofs::Rules::block_rules, rx_tree::proofs::Rules::let_rules, rx_typed::proofs::Rules::typed_tree_rules, rx_typeck_elaborate_parts::proofs::Listed::listed_rules))]
pub(crate) fn while_let<'t>(
    walk: &mut Walk<'t>,
    span: Span,
    site: Site,
    _label: &'t Option<Ident>,
    pattern: &'t PatternTree,
    expr: &'t ExprTree,
    body: &'t Block,
) -> Result<(Expr, Seen), AllocError>
    ensures { walks.Tells plain-Expr (naming.of_expression false site (plain.while_let span _label.now (plain-PatternTree pattern.now) (plain-ExprTree expr.now) (plain-Block body.now))) elaborated.value seen_of walk.old result walk.new }
{
    let node = walk.node(span, site)?;
    let number = walk.new_loop()?;
    let (test, seen) = tested(walk, pattern, expr)?;
    let ((holds, ends), test) = keep(test, body_tree(walk, Site::Value, body))?;
    let ways = (holds, jump(node, number, false));
    let tree = looked_into(&walk.given, ends.node, ends.never, test, ways)?;
    let tree = walk.given.repeated(node, false, number, tree)?;
    Ok((tree, value_seen(node, false, seen.diverges)))
}

/// A body, as a block.
#[cycle(expression)]
#[tactic(auto, using(rx_tree::proofs::Rules::expression_rules, rx_tree::proofs::Rules::block_rules, rx_tree::proofs::Rules::let_rules, rx_typed::proofs::Rules::typed_tree_rules, rx_typeck_elaborate_parts::proofs::Listed::listed_rules, crate::proofs::ToldLemmas::body_is))]
pub(crate) fn body_tree<'t>(
    walk: &mut Walk<'t>,
    site: Site,
    body: &'t Block,
) -> Result<(Expr, Ends), AllocError>
    ensures { walks.Tells plain-Expr (naming.of_body site (plain-Block body.now)) elaborated.body telling.ends_of walk.old result walk.new }
{
    let ((statements, last), ends) = body_parts(walk, site, body)?;
    let tree = walk.given.block(ends.node, ends.never, statements, last)?;
    Ok((tree, ends))
}

/// The statements and the tail of a body.
#[cycle(expression)]
#[tactic(auto, using(rx_tree::proofs::Rules::expression_rules, rx_tree::proofs::Rules::block_rules, rx_tree::proofs::Rules::let_rules, rx_typed::proofs::Rules::typed_tree_rules, rx_typeck_elaborate_parts::proofs::Listed::listed_rules, crate::proofs::ToldLemmas::body_never_is))]
pub(crate) fn body_parts<'t>(
    walk: &mut Walk<'t>,
    site: Site,
    body: &'t Block,
) -> Result<((List<Stmt>, Expr), Ends), AllocError>
    ensures { walks.Tells (λ b. (map plain-Stmt b.0, plain-Expr b.1)) (naming.of_body site (plain-Block body.now)) telling.body_parts telling.ends_of walk.old result walk.new }
{
    let node = walk.node(body.span, site)?;
    let (statements, first) = statement_trees(walk, body.stmts.as_slice())?;
    let ((last, tail), statements) = keep(statements, last(walk, site, node, &body.tail))?;
    let ends = Ends {
        node,
        never: body_never(tail, first),
        diverges: either(first, tail.diverges),
    };
    Ok(((statements, last), ends))
}

/// Statements, and whether some diverges.
#[cycle(expression)]
#[tactic(auto, using(rx_tree::proofs::Rules::expression_rules, rx_tree::proofs::Rules::block_rules, rx_tree::proofs::Rules::let_rules, rx_typed::proofs::Rules::typed_tree_rules, rx_typeck_elaborate_parts::proofs::Listed::listed_rules))]
pub(crate) fn statement_trees<'t>(
    walk: &mut Walk<'t>,
    statements: &'t [StmtTree],
) -> Result<(List<Stmt>, bool), AllocError>
    ensures { walks.Tells (map plain-Stmt) (naming.of_statements (statements_of (map plain-StmtTree statements.now))) telling.statements_listed named.some_diverges walk.old result walk.new }
{
    let mut all = List::new(walk.given.alloc);
    let mut diverges = false;
    for statement in statements {
        let ((statement, ends), rest) = keep(all, statement_tree(walk, statement))?;
        all = pushed(rest, statement)?;
        diverges = either(diverges, ends);
    }
    Ok((all, diverges))
}

/// A statement, and whether it diverges.
#[cycle(expression)]
#[tactic(auto, using(rx_tree::proofs::Rules::expression_rules, rx_tree::proofs::Rules::block_rules, rx_tree::proofs::Rules::statement_rules, rx_typed::proofs::Rules::typed_tree_rules, rx_typeck_elaborate_parts::proofs::Listed::listed_rules))]
pub(crate) fn statement_tree<'t>(
    walk: &mut Walk<'t>,
    statement: &'t StmtTree,
) -> Result<(Stmt, bool), AllocError>
    ensures { walks.Tells plain-Stmt (naming.of_statement (plain-StmtTree statement.now)) elaborated.statement named.statement_diverges walk.old result walk.new }
{
    let span = statement.span;
    match &statement.node {
        StmtNode::Let(pattern, typ, initialiser) => match initialiser {
            Some(expr) => lets(walk, span, pattern, typ, expr),
            None => walk.declares(span, pattern, typ),
        },
        StmtNode::Eval(expr, ends) => evaluates(walk, span, expr, *ends),
    }
}

#[cycle(expression)]
#[tactic(auto, using(rx_tree::proofs::Rules::expression_rules, rx_tree::proofs::Rules::block_rules, rx_tree::proofs::Rules::let_rules, rx_typed::proofs::Rules::typed_tree_rules, rx_typeck_elaborate_parts::proofs::Listed::listed_rules, rx_typeck_elaborate_parts::proofs::Stating::statement_rules))]
pub(crate) fn evaluates<'t>(
    walk: &mut Walk<'t>,
    span: Span,
    expr: &'t ExprTree,
    _ends: bool,
) -> Result<(Stmt, bool), AllocError>
    ensures { walks.Tells plain-Stmt (naming.of_statement (plain.expression_statement span (plain-ExprTree expr.now) _ends)) elaborated.statement named.statement_diverges walk.old result walk.new }
{
    walk.node(span, Site::Value)?;
    let (tree, seen) = expression(walk, false, Site::Value, expr)?;
    Ok((Stmt::Runs(tree), seen.diverges))
}

#[cycle(expression)]
#[tactic(auto, using(rx_tree::proofs::Rules::expression_rules, rx_tree::proofs::Rules::block_rules, rx_tree::proofs::Rules::let_rules, rx_typed::proofs::Rules::typed_tree_rules, rx_typeck_elaborate_parts::proofs::Listed::listed_rules, rx_typeck_elaborate_parts::proofs::Stating::statement_rules))]
pub(crate) fn lets<'t>(
    walk: &mut Walk<'t>,
    span: Span,
    pattern: &'t PatternTree,
    typ: &'t Option<TypeText>,
    expr: &'t ExprTree,
) -> Result<(Stmt, bool), AllocError>
    ensures { walks.Tells plain-Stmt (naming.of_statement (plain.let_statement span (plain-PatternTree pattern.now) (option_map plain-TypeText typ.now) (plain.present (plain-ExprTree expr.now)))) elaborated.statement named.statement_diverges walk.old result walk.new }
{
    let node = walk.node(span, Site::Value)?;
    walk.annotate(pattern, typ)?;
    let ((pattern, matched), (seen, declares)) = let_parts(walk, pattern, typ, expr)?;
    walk.wait_if(both(has_no_type(typ), seen.never), declares);
    Ok((Stmt::Lets(node.number, pattern, matched), seen.diverges))
}

/// The pattern of a `let` and its initialiser, behind which the variables of the pattern are known.
#[cycle(expression)]
#[tactic(auto, using(rx_tree::proofs::Rules::expression_rules, rx_tree::proofs::Rules::block_rules, rx_tree::proofs::Rules::let_rules, rx_typed::proofs::Rules::typed_tree_rules, rx_typeck_elaborate_parts::proofs::Listed::listed_rules, rx_typeck_elaborate_parts::proofs::Stating::statement_rules))]
pub(crate) fn let_parts<'t>(
    walk: &mut Walk<'t>,
    pattern: &'t PatternTree,
    typ: &'t Option<TypeText>,
    expr: &'t ExprTree,
) -> Result<((Pattern, Matched), (Seen, Declares)), AllocError>
    ensures { walks.Tells telling.plain_test (letting.a_let (plain-PatternTree pattern.now) (option_map plain-TypeText typ.now) (plain-ExprTree expr.now)) telling.test_made letting.told_of_let walk.old result walk.new }
{
    let from = walk.cursor.declared();
    let (pattern, declares) = walk.pattern(None, pattern)?;
    let to = walk.cursor.declared();
    let initialised = initialised(walk, typ, expr);
    let ((matched, seen), pattern) = keep(pattern, initialised)?;
    walk.cursor.know(from, to);
    Ok(((pattern, matched), (seen, declares)))
}

/// The type of a `let`, where it is written, and its initialiser.
#[cycle(expression)]
#[tactic(auto, using(rx_tree::proofs::Rules::expression_rules, rx_tree::proofs::Rules::block_rules, rx_tree::proofs::Rules::let_rules, rx_typed::proofs::Rules::typed_tree_rules, rx_typeck_elaborate_parts::proofs::Listed::listed_rules, rx_typeck_elaborate_parts::proofs::Stating::statement_rules))]
pub(crate) fn initialised<'t>(
    walk: &mut Walk<'t>,
    typ: &'t Option<TypeText>,
    expr: &'t ExprTree,
) -> Result<(Matched, Seen), AllocError>
    ensures { walks.Tells plain-Matched (telling.an_initialiser (option_map plain-TypeText typ.now) (plain-ExprTree expr.now)) (λ t e. elaborated.matched t e (elaborated.value t e)) seen_of walk.old result walk.new }
{
    walk.optional_type(typ)?;
    matched(walk, initialiser_site(typ), expr)
}

//! What statements ask.

ghost use Rattle.std.specs.Prelude.{◌≡◌, Bool, true, false, ◌&&◌, ◌||◌, [], ◌∷◌, ◌++◌, map, Ok, Err, Option, Some, None, option_map, OnOk};
ghost use Rattle.rx_tree.specs.PlainOf.{plain-Expr, plain-Stmt, plain-Pattern, plain-TypeText, optional_of, statements_of};
ghost use Rattle.rx_tree.specs.Plain as plain;
ghost use Rattle.rx_typed.specs.declared.nodes.Site.TheVariants as site_of;
ghost use Rattle.rx_typed.specs.Named as named;
ghost use Rattle.rx_typed.specs.Naming as naming;
ghost use Rattle.rx_typeck_typed.specs.Demands as demands;
ghost use Rattle.rx_typeck_elaborate_parts.specs.Entries.{marked};
ghost use Rattle.rx_typeck_elaborate_parts.specs.Seeing as seeing;
ghost use Rattle.rx_typeck_demand_parts.specs.Places.{through_at};
ghost use Rattle.rx_typeck_demand_parts.specs.Walks as walks;

use crate::expressions::expression;
use rx_core::Span;
use rx_tree::{Expr, Pattern, Stmt, StmtNode, TypeText};
use rx_typeck_demand_parts::{Declares, Matched, Walk, as_matched, through, type_of};
use rx_typeck_elaborate_parts::{Mark, Seen, either};
use rx_typeck_solver::{Op, Rule, Subject};
use rx_typed::{Site, Stage};
use std::alloc::AllocError;

/// Statements; whether some of them diverges.
#[cycle(expression)]
#[tactic(auto, using(crate::proofs::Ways::or_assoc, crate::proofs::Ways::or_false))]
pub(crate) fn statements<'t>(walk: &mut Walk<'t>, stmts: &'t [Stmt]) -> Result<bool, AllocError>
    ensures { walks.Walks (naming.of_statements (statements_of (map plain-Stmt stmts.now))) (demands.of_statements walk.old.item) named.some_diverges walk.old result walk.new }
{
    let mut diverges = false;
    for stmt in stmts {
        let one = statement(walk, stmt)?;
        diverges = either(diverges, one);
    }
    Ok(diverges)
}

#[cycle(expression)]
#[tactic(auto, using(rx_tree::proofs::Rules::statement_rules))]
fn statement<'t>(walk: &mut Walk<'t>, stmt: &'t Stmt) -> Result<bool, AllocError>
    ensures { walks.Walks (naming.of_statement (plain-Stmt stmt.now)) (demands.of_statement walk.old.item) named.statement_diverges walk.old result walk.new }
{
    let span = stmt.span;
    match &stmt.node {
        StmtNode::Let(pattern, typ, value) => let_statement(walk, value, span, pattern, typ),
        StmtNode::Eval(expr, semicolon) => evaluates(walk, span, expr, *semicolon),
    }
}

#[cycle(expression)]
fn let_statement<'t>(
    walk: &mut Walk<'t>,
    value: &'t Option<Expr>,
    span: Span,
    pattern: &'t Pattern,
    typ: &'t Option<TypeText>,
) -> Result<bool, AllocError>
    ensures { walks.Walks (naming.of_statement (plain.let_statement span (plain-Pattern pattern.now) (option_map plain-TypeText typ.now) (optional_of (option_map plain-Expr value.now)))) (demands.of_statement walk.old.item) named.statement_diverges walk.old result walk.new }
{
    match value {
        Some(value) => let_with_value(walk, value, span, pattern, typ),
        None => let_without_value(walk, span, pattern, typ),
    }
}

#[cycle(expression)]
fn let_with_value<'t>(
    walk: &mut Walk<'t>,
    value: &'t Expr,
    span: Span,
    pattern: &'t Pattern,
    typ: &'t Option<TypeText>,
) -> Result<bool, AllocError>
    ensures { walks.Walks (naming.of_statement (plain.let_statement span (plain-Pattern pattern.now) (option_map plain-TypeText typ.now) (plain.present (plain-Expr value.now)))) (demands.of_statement walk.old.item) named.statement_diverges walk.old result walk.new }
{
    match typ {
        Some(typ) => lets_typed(walk, value, span, pattern, typ),
        None => lets(walk, value, span, pattern),
    }
}

fn let_without_value<'t>(
    walk: &mut Walk<'t>,
    span: Span,
    pattern: &'t Pattern,
    typ: &'t Option<TypeText>,
) -> Result<bool, AllocError>
    ensures { walks.Walks (naming.of_statement (plain.let_statement span (plain-Pattern pattern.now) (option_map plain-TypeText typ.now) plain.absent)) (demands.of_statement walk.old.item) named.statement_diverges walk.old result walk.new }
{
    match typ {
        Some(typ) => declares_typed(walk, span, pattern, typ),
        None => declares(walk, span, pattern),
    }
}

/// Without a type and a value one variable is declared.
fn one_variable(walk: &mut Walk<'_>, declares: Declares) -> Result<(), AllocError>
    ensures { OnOk result (walk.new ≡ walks.asked (demands.one_variable_at declares.node declares.variable) walk.old) }
{
    match declares.variable {
        Some(_) => Ok(()),
        None => walk.refuse(declares.node, Rule::Unclear),
    }
}

/// A variable that is declared without a type and without a value waits for one.
fn waits(walk: &mut Walk<'_>, declares: Declares)
    ensures { walk.new ≡ walks.moved (naming.waits_at declares.node declares.variable walk.old.cursor).1 walk.old }
{
    match declares.variable {
        Some(variable) => {
            let stage = Stage::Waits(declares.node.number, declares.node.span);
            walk.cursor.set_stage(variable, stage);
        }
        None => (),
    }
}

/// A declaration without a type and without a value.
fn declares<'t>(walk: &mut Walk<'t>, span: Span, pattern: &'t Pattern) -> Result<bool, AllocError>
    ensures { walks.Walks (naming.of_statement (plain.let_statement span (plain-Pattern pattern.now) None plain.absent)) (demands.of_statement walk.old.item) named.statement_diverges walk.old result walk.new }
{
    walk.node(span, Site::Value)?;
    let from = walk.cursor.declared();
    let declared = walk.number_pattern(pattern)?;
    let to = walk.cursor.declared();
    declares_one(walk, declared, from, to)?;
    Ok(false)
}

/// A variable that is declared, one of those between two numbers; or a pattern, which may not be.
fn declares_one(
    walk: &mut Walk<'_>,
    declared: Declares,
    from: u32,
    to: u32,
) -> Result<(), AllocError>
    ensures { walks.Goes (naming.and_then (naming.known_between from to) (λ _. naming.waits_at declared.node declared.variable)) (λ _. demands.one_variable_at declared.node declared.variable) walk.old result walk.new }
{
    one_variable(walk, declared)?;
    walk.cursor.know(from, to);
    waits(walk, declared);
    Ok(())
}

/// A declaration with a type and without a value.
#[tactic(auto, using(rx_typeck_demand_parts::proofs::Later::pattern_later))]
fn declares_typed<'t>(
    walk: &mut Walk<'t>,
    span: Span,
    pattern: &'t Pattern,
    typ: &'t TypeText,
) -> Result<bool, AllocError>
    ensures { walks.Walks (naming.of_statement (plain.let_statement span (plain-Pattern pattern.now) (Some (plain-TypeText typ.now)) plain.absent)) (demands.of_statement walk.old.item) named.statement_diverges walk.old result walk.new }
{
    walk.node(span, Site::Value)?;
    walk.cursor.annotate(pattern, typ)?;
    let from = walk.cursor.declared();
    let mark = walk.cursor.mark();
    walk.number_pattern(pattern)?;
    let to = walk.cursor.declared();
    let typ = walk.whole_type(typ)?;
    walk.pattern_at(mark, Matched::Value, type_of(typ), pattern)?;
    walk.cursor.know(from, to);
    Ok(false)
}

/// Asks what a pattern at a place asks, matched with a value, where something has the type of both.
fn initialised<'t>(
    walk: &mut Walk<'t>,
    mark: Mark<'t>,
    pattern: &'t Pattern,
    subject: Subject,
    seen: Seen,
    value: &'t Expr,
) -> Result<(), AllocError>
    ensures { OnOk result (walk.new ≡ walks.asked (demands.whole_pattern (demands.matched_if seen.place seen.node seen.root.number (through_at (plain-Expr value.now) seen.node.number)) subject (naming.of_pattern (plain-Pattern pattern.now) (marked mark.entry)).0) walk.old) }
{
    let passing = through(walk.alloc, value, seen.node.number)?;
    let with = as_matched(seen, passing.as_slice());
    walk.pattern_at(mark, with, subject, pattern)
}

/// A `let` without a type.
#[cycle(expression)]
#[tactic(auto, using(rx_typeck_demand_parts::proofs::Later::pattern_later, rx_typeck_demand_parts::proofs::Placed::through_here))]
fn lets<'t>(
    walk: &mut Walk<'t>,
    value: &'t Expr,
    span: Span,
    pattern: &'t Pattern,
) -> Result<bool, AllocError>
    ensures { walks.Walks (naming.of_statement (plain.let_statement span (plain-Pattern pattern.now) None (plain.present (plain-Expr value.now)))) (demands.of_statement walk.old.item) named.statement_diverges walk.old result walk.new }
{
    walk.node(span, Site::Value)?;
    let from = walk.cursor.declared();
    let mark = walk.cursor.mark();
    let declared = walk.number_pattern(pattern)?;
    let to = walk.cursor.declared();
    let seen = expression(walk, false, Site::Scrutinee, value)?;
    if seen.never {
        declares_one(walk, declared, from, to)?;
        Ok(seen.diverges)
    } else {
        initialised(walk, mark, pattern, type_of(seen.node), seen, value)?;
        walk.cursor.know(from, to);
        Ok(seen.diverges)
    }
}

/// A `let` with a type.
#[cycle(expression)]
#[tactic(auto, using(rx_typeck_demand_parts::proofs::Later::pattern_later, rx_typeck_demand_parts::proofs::Placed::through_here))]
fn lets_typed<'t>(
    walk: &mut Walk<'t>,
    value: &'t Expr,
    span: Span,
    pattern: &'t Pattern,
    typ: &'t TypeText,
) -> Result<bool, AllocError>
    ensures { walks.Walks (naming.of_statement (plain.let_statement span (plain-Pattern pattern.now) (Some (plain-TypeText typ.now)) (plain.present (plain-Expr value.now)))) (demands.of_statement walk.old.item) named.statement_diverges walk.old result walk.new }
{
    walk.node(span, Site::Value)?;
    walk.cursor.annotate(pattern, typ)?;
    let from = walk.cursor.declared();
    let mark = walk.cursor.mark();
    walk.number_pattern(pattern)?;
    let to = walk.cursor.declared();
    let typ = walk.whole_type(typ)?;
    let seen = expected_value(walk, type_of(typ), value)?;
    initialised(walk, mark, pattern, type_of(typ), seen, value)?;
    walk.cursor.know(from, to);
    Ok(seen.diverges)
}

/// A value that is expected to have the type of something.
#[cycle(expression)]
#[tactic(auto, using(rx_typeck_elaborate_parts::proofs::Next::next_expression))]
fn expected_value<'t>(
    walk: &mut Walk<'t>,
    subject: Subject,
    value: &'t Expr,
) -> Result<Seen, AllocError>
    ensures { walks.Walks (naming.of_expression false site_of.Initialises (plain-Expr value.now)) (demands.of_initialiser walk.old.item subject) seeing.seen_of walk.old result walk.new }
{
    let next = walk.next(value.span, Site::Initialises);
    walk.expects(next, Op::Same, &[subject])?;
    let seen = expression(walk, false, Site::Initialises, value)?;
    Ok(seen)
}

/// An expression as a statement; whether a `;` follows.
#[cycle(expression)]
fn evaluates<'t>(
    walk: &mut Walk<'t>,
    span: Span,
    expr: &'t Expr,
    semicolon: bool,
) -> Result<bool, AllocError>
    ensures { walks.Walks (naming.of_statement (plain.expression_statement span (plain-Expr expr.now) semicolon)) (demands.of_statement walk.old.item) named.statement_diverges walk.old result walk.new }
{
    walk.node(span, Site::Value)?;
    let seen = expression(walk, false, Site::Value, expr)?;
    evaluated(walk, semicolon, seen)?;
    Ok(seen.diverges)
}

/// A statement without `;` is unit or Never.
fn evaluated(walk: &mut Walk<'_>, semicolon: bool, seen: Seen) -> Result<(), AllocError>
    ensures { OnOk result (walk.new ≡ walks.asked (demands.evaluated semicolon seen.node seen.never) walk.old) }
{
    if semicolon {
        Ok(())
    } else {
        walk.nothing_given(seen.node, seen.never)
    }
}

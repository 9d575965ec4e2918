//! The canonical text of blocks, statements and matches.

ghost use Rattle.std.specs.Prelude.{◌≡◌, ◌++◌, suc, OnOk, map, option_map};
ghost use Rattle.rx_tree.specs.PlainOf.{plain-Expr, plain-Arm, plain-Block, plain-Stmt, plain-Pattern, plain-TypeText, arms_of, statements_of};
ghost use Rattle.rx_print_spelling.specs.Pieces.{flat};
ghost use Rattle.rx_print_spelling.specs.Expressions.{semicolon, arm_comma, arms, block, statement, statements};
ghost use Rattle.rx_print.specs.ExpressionParts.{arm_pieces, match_pieces, value_pieces, bare_pieces, valued_pieces, declared_pieces, line_pieces};

use crate::expressions::push_between;
use rx_core::Text;
use rx_print_parts::{Margin, push_annotation, push_pattern};
use rx_print_places::{DISJUNCTION, goes_on, is_block, unfit};
use rx_tree::{Arm, Block, Expr, Pattern, Stmt, StmtNode, TypeText};
use std::alloc::{AllocError, Global};

/// What follows an expression that is a statement.
fn semicolon_text(follows: bool) -> &'static str
    ensures { result.now ≡ flat (semicolon follows) }
{
    if follows {
        return ";";
    }
    ""
}

/// What follows the body of an arm, which may be a block.
fn arm_comma_text(block: bool) -> &'static str
    ensures { result.now ≡ flat (arm_comma block) }
{
    if block {
        return "";
    }
    ","
}

/// Adds an arm on a line of its own.
#[cycle(expressions)]
#[tactic(auto, using(rx_tree::proofs::Rules::arm_by_parts, rx_print_parts::proofs::Rules::text_rules))]
fn push_arm(alloc: Global, out: &mut Text, margin: &Margin, arm: &Arm) -> Result<(), AllocError>
    ensures { OnOk result (out.new ≡ out.old ++ flat (arm_pieces margin.now (plain-Arm arm.now))) }
{
    margin.push_line(out)?;
    push_pattern(alloc, out, &arm.pattern)?;
    let after = arm_comma_text(is_block(&arm.body));
    push_between(
        alloc,
        out,
        margin,
        " => ",
        goes_on(&arm.body),
        &arm.body,
        after,
    )
}

/// Adds arms, each on a line of its own.
#[cycle(expressions)]
fn push_arms(alloc: Global, out: &mut Text, margin: &Margin, list: &[Arm]) -> Result<(), AllocError>
    ensures { OnOk result (out.new ≡ out.old ++ flat (arms margin.now (arms_of (map plain-Arm list.now)))) }
{
    for arm in list {
        push_arm(alloc, out, margin, arm)?;
    }
    Ok(())
}

/// Adds a `match`.
#[cycle(expressions)]
pub fn push_match(
    alloc: Global,
    out: &mut Text,
    margin: &Margin,
    e: &Expr,
    list: &[Arm],
) -> Result<(), AllocError>
    ensures { OnOk result (out.new ≡ out.old ++ flat (match_pieces margin.now (plain-Expr e.now) (arms_of (map plain-Arm list.now)))) }
{
    let inner = margin.deeper(alloc)?;
    push_between(alloc, out, margin, "match ", unfit(DISJUNCTION, e), e, " {")?;
    push_arms(alloc, out, &inner, list)?;
    margin.push_line(out)?;
    out.push("}")
}

/// Adds a `let` as far as its initialiser.
#[tactic(auto, using(rx_print_parts::proofs::Rules::text_rules))]
fn push_declared(
    alloc: Global,
    out: &mut Text,
    pattern: &Pattern,
    typ: &Option<TypeText>,
) -> Result<(), AllocError>
    ensures { OnOk result (out.new ≡ out.old ++ flat (declared_pieces (plain-Pattern pattern.now) (option_map plain-TypeText typ.now))) }
{
    out.push("let ")?;
    push_pattern(alloc, out, pattern)?;
    push_annotation(out, typ)
}

/// Adds a statement.
#[cycle(expressions)]
#[tactic(auto, using(rx_tree::proofs::Rules::statement_rules, rx_print_parts::proofs::Rules::text_rules))]
pub fn push_statement(
    alloc: Global,
    out: &mut Text,
    margin: &Margin,
    stmt: &Stmt,
) -> Result<(), AllocError>
    ensures { OnOk result (out.new ≡ out.old ++ flat (statement margin.now (plain-Stmt stmt.now))) }
{
    match &stmt.node {
        StmtNode::Let(pattern, typ, initial) => match initial {
            None => {
                push_declared(alloc, out, pattern, typ)?;
                out.push(";")
            }
            Some(e) => {
                push_declared(alloc, out, pattern, typ)?;
                push_between(alloc, out, margin, " = ", false, e, ";")
            }
        },
        StmtNode::Eval(e, semi) => {
            push_between(alloc, out, margin, "", goes_on(e), e, semicolon_text(*semi))
        }
    }
}

/// Adds a statement on a line of its own.
#[cycle(expressions)]
#[tactic(auto, using(rx_print_parts::proofs::Rules::text_rules))]
fn push_next_statement(
    alloc: Global,
    out: &mut Text,
    margin: &Margin,
    stmt: &Stmt,
) -> Result<(), AllocError>
    ensures { OnOk result (out.new ≡ out.old ++ flat (line_pieces margin.now (plain-Stmt stmt.now))) }
{
    margin.push_line(out)?;
    push_statement(alloc, out, margin, stmt)
}

/// Adds statements, each on a line of its own.
#[cycle(expressions)]
pub fn push_statements(
    alloc: Global,
    out: &mut Text,
    margin: &Margin,
    list: &[Stmt],
) -> Result<(), AllocError>
    ensures { OnOk result (out.new ≡ out.old ++ flat (statements margin.now (statements_of (map plain-Stmt list.now)))) }
{
    for stmt in list {
        push_next_statement(alloc, out, margin, stmt)?;
    }
    Ok(())
}

/// Adds a block without a value.
#[cycle(expressions)]
fn push_bare(
    alloc: Global,
    out: &mut Text,
    margin: &Margin,
    list: &[Stmt],
) -> Result<(), AllocError>
    ensures { OnOk result (out.new ≡ out.old ++ flat (bare_pieces margin.now (statements_of (map plain-Stmt list.now)))) }
{
    if list.is_empty() {
        return out.push("{}");
    }
    let inner = margin.deeper(alloc)?;
    out.push("{")?;
    push_statements(alloc, out, &inner, list)?;
    margin.push_line(out)?;
    out.push("}")
}

/// Adds the value of a block on a line of its own.
#[cycle(expressions)]
#[tactic(auto, using(rx_print_parts::proofs::Rules::text_rules))]
pub fn push_value(
    alloc: Global,
    out: &mut Text,
    margin: &Margin,
    e: &Expr,
) -> Result<(), AllocError>
    ensures { OnOk result (out.new ≡ out.old ++ flat (value_pieces margin.now (plain-Expr e.now))) }
{
    margin.push_line(out)?;
    push_between(alloc, out, margin, "", goes_on(e), e, "")
}

/// Adds a block with a value.
#[cycle(expressions)]
fn push_valued(
    alloc: Global,
    out: &mut Text,
    margin: &Margin,
    list: &[Stmt],
    e: &Expr,
) -> Result<(), AllocError>
    ensures { OnOk result (out.new ≡ out.old ++ flat (valued_pieces margin.now (statements_of (map plain-Stmt list.now)) (plain-Expr e.now))) }
{
    let inner = margin.deeper(alloc)?;
    out.push("{")?;
    push_statements(alloc, out, &inner, list)?;
    push_value(alloc, out, &inner, e)?;
    margin.push_line(out)?;
    out.push("}")
}

/// Adds a block, whose first brace stands on a line at this margin.
#[cycle(expressions)]
#[tactic(auto, using(rx_tree::proofs::Rules::block_rules, rx_print_parts::proofs::Rules::end_rules))]
pub fn push_block(
    alloc: Global,
    out: &mut Text,
    margin: &Margin,
    body: &Block,
) -> Result<(), AllocError>
    ensures { OnOk result (out.new ≡ out.old ++ flat (block margin.now (plain-Block body.now))) }
{
    match &body.tail {
        None => push_bare(alloc, out, margin, body.stmts.as_slice()),
        Some(e) => push_valued(alloc, out, margin, body.stmts.as_slice(), e.get()),
    }
}

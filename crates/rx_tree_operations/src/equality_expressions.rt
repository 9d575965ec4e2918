//! Equality of expressions, statements and blocks apart from spans.

ghost use Rattle.std.specs.Prelude.{◌≡◌, ◌↔◌, IsTrue, map, option_map};
ghost use Rattle.rx_tree.specs.PlainOf.{plain-Pattern, plain-Expr, expressions_of, optional_of, plain-FieldExpr, field_expressions_of, plain-Arm, arms_of, plain-Block, plain-Stmt, statements_of};
ghost use Rattle.rx_tree.specs.Erase.{erase_pattern, erase, erase_all, erase_optional, erase_fields, erase_arms, erase_body, erase_statement, erase_statements};
ghost use Rattle.rx_tree.specs.Plain.{field_and, no_field, arm_and, no_arm};
ghost use Rattle.rx_tree_operations.specs.Parts.{erase_parts, SameTrees, SameLists};
ghost use Rattle.rx_tree_operations.specs.PlainParts.{plain-Head, plain-Parts};

use crate::equality::{same_name, same_optional_type, same_pattern};
use crate::parts::{Head, Parts, parts_of};
use rx_core::Name;
use rx_tree::{Arm, Block, Expr, FieldExpr, Pattern, Stmt, StmtNode};

fn same_word(a: Option<&Name>, b: Option<&Name>) -> bool
    ensures { IsTrue result ↔ (option_map (λ n. n.now) a.entry ≡ option_map (λ n. n.now) b.entry) }
{
    match a {
        None => b.is_none(),
        Some(x) => match b {
            Some(y) => x.is(y),
            None => false,
        },
    }
}

fn same_values(a: &Head<'_>, b: &Head<'_>) -> bool
    ensures { IsTrue result
        ↔ ((a.now.number ≡ b.now.number) × (a.now.truth ≡ b.now.truth) × (a.now.kind ≡ b.now.kind)) }
{
    a.number == b.number && a.truth == b.truth && a.kind == b.kind
}

fn same_operators(a: &Head<'_>, b: &Head<'_>) -> bool
    ensures { IsTrue result ↔ ((a.now.operator ≡ b.now.operator) × (a.now.update ≡ b.now.update)) }
{
    a.operator == b.operator && a.update == b.update
}

fn same_head(a: &Head<'_>, b: &Head<'_>) -> bool
    ensures { IsTrue result ↔ (plain-Head a.now ≡ plain-Head b.now) }
{
    a.form == b.form
        && same_values(a, b)
        && same_operators(a, b)
        && same_word(a.name, b.name)
        && same_word(a.second, b.second)
}

fn same_optional_pattern(a: Option<&Pattern>, b: Option<&Pattern>) -> bool
    ensures { IsTrue result
        ↔ (option_map erase_pattern (option_map (λ p. plain-Pattern p.now) a.entry)
        ≡ option_map erase_pattern (option_map (λ p. plain-Pattern p.now) b.entry)) }
{
    match a {
        None => b.is_none(),
        Some(x) => match b {
            Some(y) => same_pattern(x, y),
            None => false,
        },
    }
}

/// Whether both expressions are equal apart from spans.
#[cycle(same_expressions)]
pub fn same_expression(a: &Expr, b: &Expr) -> bool
    ensures { IsTrue result ↔ (erase (plain-Expr a.now) ≡ erase (plain-Expr b.now)) }
{
    let one = parts_of(a);
    let other = parts_of(b);
    same_parts(&one, &other)
}

/// Whether both heads are equal, and the parts apart from spans.
#[cycle(same_expressions)]
fn same_parts(a: &Parts<'_>, b: &Parts<'_>) -> bool
    ensures { IsTrue result ↔ (erase_parts (plain-Parts a.now) ≡ erase_parts (plain-Parts b.now)) }
{
    same_head(&a.head, &b.head) && same_trees(a, b) && same_lists(a, b)
}

#[cycle(same_expressions)]
fn same_trees(a: &Parts<'_>, b: &Parts<'_>) -> bool
    ensures { IsTrue result ↔ SameTrees (plain-Parts a.now) (plain-Parts b.now) }
{
    same_optional_pattern(a.pattern, b.pattern)
        && same_optional(a.first, b.first)
        && same_optional_block(a.block, b.block)
        && same_optional(a.second, b.second)
}

#[cycle(same_expressions)]
fn same_lists(a: &Parts<'_>, b: &Parts<'_>) -> bool
    ensures { IsTrue result ↔ SameLists (plain-Parts a.now) (plain-Parts b.now) }
{
    same_expressions(a.list, b.list) && same_fields(a.fields, b.fields) && same_arms(a.arms, b.arms)
}

#[cycle(same_expressions)]
fn same_optional(a: Option<&Expr>, b: Option<&Expr>) -> bool
    ensures { IsTrue result
        ↔ (erase_optional (optional_of (option_map (λ e. plain-Expr e.now) a.entry))
        ≡ erase_optional (optional_of (option_map (λ e. plain-Expr e.now) b.entry))) }
{
    match a {
        None => b.is_none(),
        Some(x) => match b {
            Some(y) => same_expression(x, y),
            None => false,
        },
    }
}

#[cycle(same_expressions)]
fn same_optional_block(a: Option<&Block>, b: Option<&Block>) -> bool
    ensures { IsTrue result
        ↔ (option_map erase_body (option_map (λ x. plain-Block x.now) a.entry)
        ≡ option_map erase_body (option_map (λ x. plain-Block x.now) b.entry)) }
{
    match a {
        None => b.is_none(),
        Some(x) => match b {
            Some(y) => same_block(x, y),
            None => false,
        },
    }
}

#[cycle(same_expressions)]
fn same_expressions(a: &[Expr], b: &[Expr]) -> bool
    ensures { IsTrue result
        ↔ (erase_all (expressions_of (map plain-Expr a.now)) ≡ erase_all (expressions_of (map plain-Expr b.now))) }
{
    if a.len() != b.len() {
        return false;
    }
    for i in 0..a.len() {
        if !same_expression(&a[i], &b[i]) {
            return false;
        }
    }
    true
}

#[cycle(same_expressions)]
#[tactic(auto, using(rx_tree::proofs::Rules::field_expression_by_parts))]
fn same_field(a: &FieldExpr, b: &FieldExpr) -> bool
    ensures { IsTrue result
        ↔ (erase_fields (field_and (plain-FieldExpr a.now).0 (plain-FieldExpr a.now).1 no_field)
        ≡ erase_fields (field_and (plain-FieldExpr b.now).0 (plain-FieldExpr b.now).1 no_field)) }
{
    same_name(&a.field, &b.field) && same_expression(&a.value, &b.value)
}

#[cycle(same_expressions)]
fn same_fields(a: &[FieldExpr], b: &[FieldExpr]) -> bool
    ensures { IsTrue result
        ↔ (erase_fields (field_expressions_of (map plain-FieldExpr a.now))
        ≡ erase_fields (field_expressions_of (map plain-FieldExpr b.now))) }
{
    if a.len() != b.len() {
        return false;
    }
    for i in 0..a.len() {
        if !same_field(&a[i], &b[i]) {
            return false;
        }
    }
    true
}

#[cycle(same_expressions)]
#[tactic(auto, using(rx_tree::proofs::Rules::arm_by_parts))]
fn same_arm(a: &Arm, b: &Arm) -> bool
    ensures { IsTrue result
        ↔ (erase_arms (arm_and (plain-Arm a.now).0 (plain-Arm a.now).1 no_arm)
        ≡ erase_arms (arm_and (plain-Arm b.now).0 (plain-Arm b.now).1 no_arm)) }
{
    same_pattern(&a.pattern, &b.pattern) && same_expression(&a.body, &b.body)
}

#[cycle(same_expressions)]
fn same_arms(a: &[Arm], b: &[Arm]) -> bool
    ensures { IsTrue result
        ↔ (erase_arms (arms_of (map plain-Arm a.now)) ≡ erase_arms (arms_of (map plain-Arm b.now))) }
{
    if a.len() != b.len() {
        return false;
    }
    for i in 0..a.len() {
        if !same_arm(&a[i], &b[i]) {
            return false;
        }
    }
    true
}

/// Whether both blocks are equal apart from spans.
#[cycle(same_expressions)]
#[tactic(auto, using(rx_tree::proofs::Rules::block_rules))]
pub fn same_block(a: &Block, b: &Block) -> bool
    ensures { IsTrue result ↔ (erase_body (plain-Block a.now) ≡ erase_body (plain-Block b.now)) }
{
    match &a.tail {
        None => b.tail.is_none() && same_statements(a.stmts.as_slice(), b.stmts.as_slice()),
        Some(e) => match &b.tail {
            Some(f) => {
                same_statements(a.stmts.as_slice(), b.stmts.as_slice())
                    && same_expression(e.get(), f.get())
            }
            None => false,
        },
    }
}

#[cycle(same_expressions)]
#[tactic(auto, using(rx_tree::proofs::Rules::statement_rules))]
fn same_statement(a: &Stmt, b: &Stmt) -> bool
    ensures { IsTrue result ↔ (erase_statement (plain-Stmt a.now) ≡ erase_statement (plain-Stmt b.now)) }
{
    match &a.node {
        StmtNode::Let(p, t, o) => match &b.node {
            StmtNode::Let(q, u, i) => match o {
                None => i.is_none() && same_pattern(p, q) && same_optional_type(t, u),
                Some(e) => match i {
                    Some(f) => {
                        same_pattern(p, q) && same_optional_type(t, u) && same_expression(e, f)
                    }
                    None => false,
                },
            },
            _ => false,
        },
        StmtNode::Eval(e, s) => match &b.node {
            StmtNode::Eval(f, t) => *s == *t && same_expression(e, f),
            _ => false,
        },
    }
}

#[cycle(same_expressions)]
fn same_statements(a: &[Stmt], b: &[Stmt]) -> bool
    ensures { IsTrue result
        ↔ (erase_statements (statements_of (map plain-Stmt a.now)) ≡ erase_statements (statements_of (map plain-Stmt b.now))) }
{
    if a.len() != b.len() {
        return false;
    }
    for i in 0..a.len() {
        if !same_statement(&a[i], &b[i]) {
            return false;
        }
    }
    true
}

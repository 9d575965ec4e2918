//! Whether patterns and statements bind a name.

ghost use Rattle.std.specs.Prelude.{◌≡◌, map};
ghost use Rattle.rx_tree.specs.PlainOf.{plain-FieldPattern, plain-Pattern, plain-Stmt, field_patterns_of, patterns_of};
ghost use Rattle.rx_hoist_extraction.specs.Names as names;

use rx_core::{Name, is_same_name};
use rx_tree::{FieldPattern, Pattern, PatternNode, Stmt, StmtNode};

/// Whether the pattern binds the name.
#[cycle(binds)]
#[tactic(auto, using(rx_tree::proofs::Rules::pattern_rules, crate::proofs::Among::same_is_among))]
pub fn binds(pattern: &Pattern, name: &Name) -> bool
    ensures { result ≡ names.is_among name.now (names.bound (plain-Pattern pattern.now)) }
{
    match &pattern.node {
        PatternNode::Wild | PatternNode::Int(..) | PatternNode::Bool(_) => false,
        PatternNode::Bind(bound, _) => is_same_name(name, &bound.name),
        PatternNode::Tuple(parts) => one_binds(parts.as_slice(), name),
        PatternNode::Variant(_, _, parts) => one_binds(parts.as_slice(), name),
        PatternNode::Make(_, fields) => one_field_binds(fields.as_slice(), name),
    }
}

/// Whether one of the patterns binds the name.
#[cycle(binds)]
fn one_binds(patterns: &[Pattern], name: &Name) -> bool
    ensures { result ≡ names.is_among name.now (names.all_bound (patterns_of (map plain-Pattern patterns.now))) }
{
    for pattern in patterns {
        if binds(pattern, name) {
            return true;
        }
    }
    false
}

/// Whether the pattern of one of the fields binds the name.
#[cycle(binds)]
fn one_field_binds(fields: &[FieldPattern], name: &Name) -> bool
    ensures { result ≡ names.is_among name.now (names.fields_bound (field_patterns_of (map plain-FieldPattern fields.now))) }
{
    for field in fields {
        if binds(&field.pattern, name) {
            return true;
        }
    }
    false
}

/// Whether the statement itself binds the name.
#[tactic(auto, using(rx_tree::proofs::Rules::statement_rules))]
fn declares(stmt: &Stmt, name: &Name) -> bool
    ensures { result ≡ names.is_among name.now (names.bound_by (plain-Stmt stmt.now)) }
{
    match &stmt.node {
        StmtNode::Let(pattern, _, _) => binds(pattern, name),
        StmtNode::Eval(_, _) => false,
    }
}

/// Whether one of the statements itself binds the name.
pub fn is_declared(stmts: &[Stmt], name: &Name) -> bool
    ensures { result ≡ names.is_among name.now (names.declared_by (map plain-Stmt stmts.now)) }
{
    for stmt in stmts {
        if declares(stmt, name) {
            return true;
        }
    }
    false
}

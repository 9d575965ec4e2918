//! What is left of a block, from one of its statements on.

ghost use Rattle.std.specs.Prelude.{◌≡◌, MatchOption, option_map};
ghost use Rattle.rx_typed.specs.Tree.{ends};
ghost use Rattle.rx_typed.specs.PlainTree.{plain-Expr, plain-Matched, plain-Pattern, plain-Stmt};
ghost use Rattle.rx_engine_extracted.specs.Handing.{as_assigned};
ghost use Rattle.rx_engine_alike.specs.PlainParts.{plain-Part};
ghost use Rattle.rx_engine_alike.specs.Read.{as_ends};
ghost use Rattle.rx_engine_extracted.specs.Block.{block_of as body_of};
ghost use Rattle.rx_engine_extracted.specs.Reading as spec;
ghost use Rattle.rx_engine_extracted.specs.PlainTails.{lets_first as lets_first_of};

use rx_engine_alike::{Part, assign_of, block_of};
use rx_typed::{Expr, Matched, Pattern, Stmt};

/// The first statement, and what is left behind it.
pub(crate) fn first<'t>(body: Part<'t>) -> Option<(&'t Stmt, Part<'t>)>
    ensures { MatchOption result (plain-Part body.entry ≡ ends (plain-Expr body.entry.tail.now)) (λ r. plain-Part body.entry ≡ plain-Stmt r.0.now (plain-Part r.1)) }
{
    match body.stmts.split_first() {
        Some((first, rest)) => Some((
            first,
            Part {
                stmts: rest,
                tail: body.tail,
            },
        )),
        None => None,
    }
}

/// The variable that the first statement declares without a value, where it declares one.
#[tactic(auto, using(rx_typed::proofs::Rules::typed_tree_rules))]
pub(crate) fn declares_one<'t>(body: Part<'t>) -> Option<(u32, Part<'t>)>
    ensures { option_map (λ r. (r.0, plain-Part r.1)) result ≡ spec.declares_one (plain-Part body.entry) }
{
    let Some((statement, rest)) = first(body) else {
        return None;
    };
    match statement {
        Stmt::Declares(_, variables) => match variables.as_slice() {
            [variable] => Some((*variable, rest)),
            [] | [_, _, ..] => None,
        },
        Stmt::Runs(_) | Stmt::Lets(_, _, _) => None,
    }
}

/// The variable that an expression assigns, and its value.
#[tactic(auto, using(crate::proofs::ReadLemmas::read_rules))]
pub(crate) fn assigned<'t>(expr: &'t Expr) -> Option<(u32, &'t Expr)>
    ensures { option_map (λ r. (r.0, plain-Expr r.1.now)) result ≡ as_assigned (plain-Expr expr.entry.now) }
{
    match assign_of(expr) {
        Some((place, value)) => match place.steps.as_slice() {
            [] => Some((place.var, value)),
            [_, ..] => None,
        },
        None => None,
    }
}

/// The expression that the first statement is.
#[tactic(auto, using(rx_typed::proofs::Rules::typed_tree_rules))]
pub(crate) fn runs_first<'t>(body: Part<'t>) -> Option<(&'t Expr, Part<'t>)>
    ensures { option_map (λ r. (plain-Expr r.0.now, plain-Part r.1)) result ≡ spec.runs_first (plain-Part body.entry) }
{
    let Some((statement, rest)) = first(body) else {
        return None;
    };
    match statement {
        Stmt::Runs(expr) => Some((expr, rest)),
        Stmt::Declares(_, _) | Stmt::Lets(_, _, _) => None,
    }
}

/// The variable that the first statement assigns, and its value.
#[tactic(auto, using(crate::proofs::Firsts::assigned_rules))]
pub(crate) fn assigns_first<'t>(body: Part<'t>) -> Option<(u32, &'t Expr, Part<'t>)>
    ensures { option_map (λ r. (r.0, plain-Expr r.1.now, plain-Part r.2)) result ≡ spec.assigns_first (plain-Part body.entry) }
{
    let Some((expr, rest)) = runs_first(body) else {
        return None;
    };
    let Some((variable, value)) = assigned(expr) else {
        return None;
    };
    Some((variable, value, rest))
}

/// The pattern and the value of the first statement, where it is a `let` with a value.
#[tactic(auto, using(rx_typed::proofs::Rules::typed_tree_rules))]
pub(crate) fn binds_first<'t>(body: Part<'t>) -> Option<(&'t Pattern, &'t Expr, Part<'t>)>
    ensures { option_map (λ r. (plain-Pattern r.0.now, plain-Expr r.1.now, plain-Part r.2)) result ≡ spec.binds_first (plain-Part body.entry) }
{
    let Some((statement, rest)) = first(body) else {
        return None;
    };
    match statement {
        Stmt::Lets(_, pattern, Matched::Value(value)) => Some((pattern, value.get(), rest)),
        Stmt::Lets(_, _, Matched::Place(_, _)) => None,
        Stmt::Runs(_) | Stmt::Declares(_, _) => None,
    }
}

/// The pattern of the first statement and what it matches, where it is a `let` with that.
#[tactic(auto, using(rx_typed::proofs::Rules::typed_tree_rules))]
pub(crate) fn lets_first<'t>(body: Part<'t>) -> Option<(&'t Pattern, &'t Matched, Part<'t>)>
    ensures { option_map (λ r. (plain-Pattern r.0.now, plain-Matched r.1.now, plain-Part r.2)) result ≡ lets_first_of (plain-Part body.entry) }
{
    let Some((statement, rest)) = first(body) else {
        return None;
    };
    match statement {
        Stmt::Lets(_, pattern, matched) => Some((pattern, matched, rest)),
        Stmt::Runs(_) | Stmt::Declares(_, _) => None,
    }
}

/// The tail, where no statement is left.
#[tactic(auto, using(rx_typed::proofs::Rules::typed_tree_rules))]
pub(crate) fn ended<'t>(body: Part<'t>) -> Option<&'t Expr>
    ensures { option_map (λ e. plain-Expr e.now) result ≡ as_ends (plain-Part body.entry) }
{
    let Some((statement, _)) = first(body) else {
        return Some(body.tail);
    };
    match statement {
        Stmt::Runs(_) | Stmt::Declares(_, _) | Stmt::Lets(_, _, _) => None,
    }
}

/// The statements and the tail of a block.
#[tactic(auto, using(crate::proofs::ReadLemmas::read_rules))]
pub(crate) fn block_in<'t>(expr: &'t Expr) -> Option<Part<'t>>
    ensures { option_map plain-Part result ≡ body_of (plain-Expr expr.entry.now) }
{
    match block_of(expr) {
        Some(block) => Some(block),
        None => None,
    }
}

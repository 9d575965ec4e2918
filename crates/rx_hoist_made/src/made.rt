//! Nodes that are made, each with the span of the run.

ghost use Rattle.std.specs.Prelude.{◌≡◌, ◌++◌, ◌∷◌, Some, IfOk, map, option_map};
ghost use Rattle.rx_tree.specs.Plain as plain;
ghost use Rattle.rx_tree.specs.PlainOf.{plain-Expr, plain-Pattern, optional_of, optional_list_of};
ghost use Rattle.rx_hoist_plan.specs.PlainPlan.{plain-Exit, plain-Plan, plain-Variable};
ghost use Rattle.rx_hoist_extraction.specs.Plan as planned;
ghost use Rattle.rx_hoist_extraction.specs.Made as made;

use crate::exits::{enum_name, exit_name};
use crate::parts::last_of;
use rx_core::{Boxed, LetGo, List, Name, Span, keep, pushed};
use rx_hoist_plan::{Exit, NamedPlan, Variable};
use rx_tree::{Expr, ExprNode, Ident, Pattern, PatternNode};
use std::alloc::{AllocError, Global};

/// A name where it is written.
pub fn written(alloc: Global, span: Span, name: &Name) -> Result<Ident, AllocError>
    ensures { IfOk result (λ it. it ≡ made.ident span name.now) }
{
    Ok(Ident {
        span,
        name: name.copy(alloc)?,
    })
}

/// Names where they are written.
pub fn all_written(alloc: Global, span: Span, names: &[Name]) -> Result<List<Ident>, AllocError>
    ensures { IfOk result (λ it. it ≡ map (made.ident span) names.now) }
{
    let mut all = List::new(alloc);
    for name in names {
        let (next, held) = keep(all, written(alloc, span, name))?;
        all = pushed(held, next)?;
    }
    Ok(all)
}

/// A variable.
#[tactic(auto, using(rx_tree::proofs::Rules::expression_rules))]
pub fn variable(alloc: Global, span: Span, name: &Name) -> Result<Expr, AllocError>
    ensures { IfOk result (λ it. plain-Expr it ≡ plain.var span name.now) }
{
    Ok(Expr {
        span,
        node: ExprNode::Var(name.copy(alloc)?),
    })
}

/// Variables by their names.
pub fn all_variables(alloc: Global, span: Span, names: &[Name]) -> Result<List<Expr>, AllocError>
    ensures { IfOk result (λ it. map plain-Expr it ≡ map (plain.var span) names.now) }
{
    let mut all = List::new(alloc);
    for name in names {
        let (next, held) = keep(all, variable(alloc, span, name))?;
        all = pushed(held, next)?;
    }
    Ok(all)
}

/// The expressions, and these variables behind them.
pub fn with_variables(
    alloc: Global,
    span: Span,
    exprs: List<Expr>,
    variables: &[Variable],
) -> Result<List<Expr>, AllocError>
    ensures { IfOk result (λ it. map plain-Expr it
        ≡ map plain-Expr exprs ++ map (plain.var span) (planned.names_of (map plain-Variable variables.now))) }
{
    let mut all = exprs;
    for out in variables {
        let (next, held) = keep(all, variable(alloc, span, &out.name))?;
        all = pushed(held, next)?;
    }
    Ok(all)
}

/// The variables.
pub fn variables(
    alloc: Global,
    span: Span,
    variables: &[Variable],
) -> Result<List<Expr>, AllocError>
    ensures { IfOk result (λ it. map plain-Expr it ≡ map (plain.var span) (planned.names_of (map plain-Variable variables.now))) }
{
    with_variables(alloc, span, List::new(alloc), variables)
}

/// An expression, and the variables behind it.
pub fn followed_by_variables(
    alloc: Global,
    span: Span,
    first: Expr,
    variables: &[Variable],
) -> Result<List<Expr>, AllocError>
    ensures { IfOk result (λ it. map plain-Expr it
        ≡ plain-Expr first ∷ map (plain.var span) (planned.names_of (map plain-Variable variables.now))) }
{
    let exprs = pushed(List::new(alloc), first)?;
    with_variables(alloc, span, exprs, variables)
}

/// A pattern that binds a name.
#[tactic(auto, using(rx_tree::proofs::Rules::pattern_rules))]
pub fn binding(alloc: Global, span: Span, name: &Name, mutable: bool) -> Result<Pattern, AllocError>
    ensures { IfOk result (λ it. plain-Pattern it ≡ made.binding span name.now mutable) }
{
    Ok(Pattern {
        span,
        node: PatternNode::Bind(written(alloc, span, name)?, mutable),
    })
}

/// An expression on the heap, where one is wanted.
pub fn present(alloc: Global, expr: Expr) -> Result<Option<Boxed<Expr>>, AllocError>
    ensures { IfOk result (λ it. it ≡ Some expr) }
{
    Ok(Some(Boxed::new(alloc, expr)?))
}

#[tactic(auto, using(rx_tree::proofs::Rules::expression_rules))]
fn tuple(span: Span, parts: List<Expr>) -> Expr
    ensures { plain-Expr result ≡ plain.tuple span (made.as_expressions (map plain-Expr parts)) }
{
    Expr {
        span,
        node: ExprNode::Tuple(parts),
    }
}

/// Nothing, the one itself, the tuple of more.
#[tactic(auto, using(crate::proofs::Dropped::joined_rules))]
pub fn joined(
    alloc: Global,
    span: Span,
    parts: List<Expr>,
) -> Result<Option<Boxed<Expr>>, AllocError>
    ensures { IfOk result (λ it. optional_of (option_map plain-Expr it) ≡ made.joined span (map plain-Expr parts)) }
{
    if parts.len() > 1 {
        return present(alloc, tuple(span, parts));
    }
    match last_of(parts) {
        Some(only) => present(alloc, only),
        None => Ok(None),
    }
}

/// The arguments of a variant. Without any it has no parentheses.
fn given(values: List<Expr>) -> Option<List<Expr>>
    ensures { optional_list_of (option_map (map plain-Expr) result) ≡ made.given (map plain-Expr values) }
{
    if values.is_empty() {
        values.let_go();
        return None;
    }
    Some(values)
}

/// The variant of an exit, in front of its values.
fn path(
    alloc: Global,
    plan: &NamedPlan,
    span: Span,
    exit: Exit,
) -> Result<(Ident, Ident), AllocError>
    ensures { IfOk result (λ it. (it.0 ≡ made.ident span (planned.enum_name (plain-Plan plan.now)))
        × (it.1 ≡ made.ident span (planned.exit_name (plain-Exit exit)))) }
{
    let adt = Ident {
        span,
        name: enum_name(alloc, plan)?,
    };
    let (name, adt) = keep(adt, exit_name(alloc, exit))?;
    Ok((adt, Ident { span, name }))
}

/// The variant of an exit with these values.
#[tactic(auto, using(rx_tree::proofs::Rules::expression_rules))]
pub fn variant(
    alloc: Global,
    plan: &NamedPlan,
    span: Span,
    exit: Exit,
    values: List<Expr>,
) -> Result<Expr, AllocError>
    ensures { IfOk result (λ it. plain-Expr it
        ≡ made.variant span (planned.enum_name (plain-Plan plan.now)) (planned.exit_name (plain-Exit exit)) (map plain-Expr values)) }
{
    let (path, values) = keep(values, path(alloc, plan, span, exit))?;
    Ok(Expr {
        span,
        node: ExprNode::Variant(path.0, path.1, given(values)),
    })
}

/// The pattern of an exit's variant with these fields.
#[tactic(auto, using(rx_tree::proofs::Rules::pattern_rules))]
pub fn variant_pattern(
    alloc: Global,
    plan: &NamedPlan,
    span: Span,
    exit: Exit,
    fields: List<Pattern>,
) -> Result<Pattern, AllocError>
    ensures { IfOk result (λ it. plain-Pattern it
        ≡ made.variant_pattern span (planned.enum_name (plain-Plan plan.now)) (planned.exit_name (plain-Exit exit)) (map plain-Pattern fields)) }
{
    let (path, fields) = keep(fields, path(alloc, plan, span, exit))?;
    Ok(Pattern {
        span,
        node: PatternNode::Variant(path.0, path.1, fields),
    })
}

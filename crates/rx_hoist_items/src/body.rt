//! The body of the new function: the locals, the run as it is moved, and its end.

ghost use Rattle.std.specs.Prelude.{◌≡◌, ◌++◌, ◌∷◌, [], true, false, Some, IfOk, map, option_map};
ghost use Rattle.rx_tree.specs.Plain as plain;
ghost use Rattle.rx_tree.specs.PlainOf.{plain-Block, plain-Expr, plain-Program, plain-Stmt, optional_of};
ghost use Rattle.rx_typed.specs.PlainTypes.{plain-Ty};
ghost use Rattle.rx_hoist_plan.specs.PlainPlan.{plain-Plan, plain-Variable};
ghost use Rattle.rx_hoist_extraction.specs.Plan as planned;
ghost use Rattle.rx_hoist_extraction.specs.Run.{block_of as block_of_parts};
ghost use Rattle.rx_hoist_extraction.specs.Fresh.{fresh_variable as fresh_variable_of};
ghost use Rattle.rx_hoist_extraction.specs.WrittenTypes.{elided as elided_type};
ghost use Rattle.rx_hoist_extraction.specs.Made as made;
ghost use Rattle.rx_hoist_extraction.specs.NewBody as body;
ghost use Rattle.rx_hoist_made.specs.Lasts as lasts;
ghost use Rattle.rx_hoist_made.specs.PlainParts.{plain-Parts};

use rx_core::{Boxed, LetGo, List, Name, Span, Ty, keep, pushed};
use rx_hoist_made::{
    Parts, block_of, declared, done, elided, followed_by_variables, fresh_variable, has_enum,
    has_exit, joined, let_typed, outs_of, present, together, variable, variables, variant,
};
use rx_hoist_plan::{Exit, NamedPlan, Variable};
use rx_tree::{Block, Expr, Program, Stmt, StmtNode};
use std::alloc::{AllocError, Global};

/// What is handed on at the end: the variant Next, or without an enum nothing, the value, the tuple of the values.
pub fn handing_on(
    alloc: Global,
    plan: &NamedPlan,
    span: Span,
    values: List<Expr>,
) -> Result<Option<Boxed<Expr>>, AllocError>
    ensures { IfOk result (λ it. optional_of (option_map plain-Expr it)
        ≡ body.handing_on (plain-Plan plan.now) span (map plain-Expr values)) }
{
    if has_enum(plan.exits.as_slice()) {
        return present(alloc, variant(alloc, plan, span, Exit::Next, values)?);
    }
    joined(alloc, span, values)
}

/// The statements, and the tail behind them as one more.
fn tail_done(span: Span, parts: Parts) -> Result<List<Stmt>, AllocError>
    ensures { IfOk result (λ it. map plain-Stmt it
        ≡ (plain-Parts parts).statements ++ body.tail_done span (plain-Parts parts).tail) }
{
    let Parts { stmts, tail } = parts;
    match tail {
        Some(expr) => pushed(stmts, done(span, expr.into_inner())),
        None => Ok(stmts),
    }
}

/// The end where something follows the run.
fn followed(
    alloc: Global,
    plan: &NamedPlan,
    span: Span,
    parts: Parts,
    outs: List<Expr>,
) -> Result<Parts, AllocError>
    ensures { IfOk result (λ it. plain-Parts it
        ≡ body.followed (plain-Plan plan.now) span (plain-Parts parts) (map plain-Expr outs)) }
{
    let (stmts, outs) = keep(outs, tail_done(span, parts))?;
    let (tail, stmts) = keep(stmts, handing_on(alloc, plan, span, outs))?;
    Ok(Parts { stmts, tail })
}

/// Whether a last statement without `;` gets one: where the run's end is not reached and a value comes of it all the same.
pub fn stays_last(plan: &NamedPlan) -> bool
    ensures { result ≡ body.stays_last (plain-Plan plan.now) }
{
    !has_exit(Exit::Next, plan.exits.as_slice()) && !plan.never
}

/// Whether a statement is an expression without `;`.
#[tactic(auto, using(rx_tree::proofs::Rules::statement_rules))]
pub fn is_open(stmt: &Stmt) -> bool
    ensures { result ≡ lasts.is_open (plain-Stmt stmt.now) }
{
    matches!(&stmt.node, StmtNode::Eval(_, false))
}

/// The expression that a statement without `;` is.
#[tactic(auto, using(rx_tree::proofs::Rules::statement_rules))]
fn expression_of(stmt: Stmt) -> Expr
    requires { lasts.is_open (plain-Stmt stmt) ≡ true }
    ensures { plain-Stmt stmt ≡ plain.expression_statement stmt.span (plain-Expr result) false }
{
    match stmt.node {
        StmtNode::Eval(expr, _) => expr,
        StmtNode::Let(..) => unreachable!(),
    }
}

/// The statements with one more, without a tail.
fn closed(stmts: List<Stmt>, last: Stmt) -> Result<Parts, AllocError>
    ensures { IfOk result (λ it. plain-Parts it
        ≡ body.behind_locals (map plain-Stmt stmts) (record { statements = plain-Stmt last ∷ []; tail = plain.absent })) }
{
    Ok(Parts {
        stmts: pushed(stmts, last)?,
        tail: None,
    })
}

/// The statements, with this tail.
fn opened(alloc: Global, stmts: List<Stmt>, tail: Expr) -> Result<Parts, AllocError>
    ensures { IfOk result (λ it. plain-Parts it
        ≡ body.behind_locals (map plain-Stmt stmts) (record { statements = []; tail = plain.present (plain-Expr tail) })) }
{
    let (tail, stmts) = keep(stmts, present(alloc, tail))?;
    Ok(Parts { stmts, tail })
}

/// The statements and the last one, which is the tail if it has no `;`, unless it stays a statement.
fn with_last(alloc: Global, stays: bool, stmts: List<Stmt>, last: Stmt) -> Result<Parts, AllocError>
    ensures { IfOk result (λ it. plain-Parts it
        ≡ body.behind_locals (map plain-Stmt stmts) (body.last_part stays (plain-Stmt last))) }
{
    if !is_open(&last) {
        return closed(stmts, last);
    }
    let span = last.span;
    let expr = expression_of(last);
    if stays {
        return closed(stmts, done(span, expr));
    }
    opened(alloc, stmts, expr)
}

/// Statements, of which the last is the tail if it has no `;`, unless it stays a statement.
#[tactic(auto, using(crate::proofs::Ends::last_of_more))]
fn with_last_open(alloc: Global, stays: bool, stmts: List<Stmt>) -> Result<Parts, AllocError>
    ensures { IfOk result (λ it. plain-Parts it ≡ body.last_of stays (map plain-Stmt stmts)) }
{
    let mut stmts = stmts;
    match stmts.pop() {
        Some(last) => with_last(alloc, stays, stmts, last),
        None => Ok(Parts { stmts, tail: None }),
    }
}

/// The end where nothing follows the run.
fn unfollowed(alloc: Global, plan: &NamedPlan, parts: Parts) -> Result<Parts, AllocError>
    ensures { IfOk result (λ it. plain-Parts it ≡ body.unfollowed (plain-Plan plan.now) (plain-Parts parts)) }
{
    let Parts { stmts, tail } = parts;
    if tail.is_some() {
        return Ok(Parts { stmts, tail });
    }
    tail.let_go();
    with_last_open(alloc, stays_last(plan), stmts)
}

/// The value and variables in a tuple, for which the value has a `let` in front.
fn tupled(
    alloc: Global,
    program: &Program,
    plan: &NamedPlan,
    span: Span,
    ty: &Ty,
    value: Expr,
    outs: &[Variable],
) -> Result<Parts, AllocError>
    ensures { IfOk result (λ it. plain-Parts it ≡ record {
      statements = made.let_typed span (fresh_variable_of (plain-Plan plan.now).identifiers 0) (elided_type (plain-Program program.now) span (plain-Ty ty.now)) (plain-Expr value) ∷ [];
      tail = made.joined span (plain.var span (fresh_variable_of (plain-Plan plan.now).identifiers 0) ∷ map (plain.var span) (planned.names_of (map plain-Variable outs.now)));
    }) }
{
    let (name, value) = keep(value, fresh_variable(alloc, plan))?;
    let (typ, value) = keep(value, elided(alloc, program, span, ty))?;
    let first = let_typed(alloc, span, &name, typ, value)?;
    let (stmts, name) = keep(name, pushed(List::new(alloc), first))?;
    let (tail, stmts) = keep(stmts, tuple_of(alloc, span, &name, outs))?;
    Ok(Parts { stmts, tail })
}

/// The value, and variables behind it.
fn in_tuple(
    alloc: Global,
    program: &Program,
    plan: &NamedPlan,
    span: Span,
    ty: &Ty,
    value: Expr,
    outs: &[Variable],
) -> Result<Parts, AllocError>
    ensures { IfOk result (λ it. plain-Parts it ≡ body.in_tuple (plain-Program program.now) (plain-Plan plan.now) span
        (plain-Ty ty.now) [] (plain-Expr value) (map (plain.var span) (planned.names_of (map plain-Variable outs.now)))) }
{
    if outs.is_empty() {
        return opened(alloc, List::new(alloc), value);
    }
    tupled(alloc, program, plan, span, ty, value, outs)
}

/// The tuple of a variable and others.
pub fn tuple_of(
    alloc: Global,
    span: Span,
    name: &Name,
    outs: &[Variable],
) -> Result<Option<Boxed<Expr>>, AllocError>
    ensures { IfOk result (λ it. optional_of (option_map plain-Expr it)
        ≡ made.joined span (plain.var span name.now ∷ map (plain.var span) (planned.names_of (map plain-Variable outs.now)))) }
{
    let first = variable(alloc, span, name)?;
    let exprs = followed_by_variables(alloc, span, first, outs)?;
    joined(alloc, span, exprs)
}

/// The variant Next with the value and the outs, as the tail.
fn in_variant(
    alloc: Global,
    plan: &NamedPlan,
    span: Span,
    value: Expr,
    outs: &[Variable],
) -> Result<Parts, AllocError>
    ensures { IfOk result (λ it. plain-Parts it ≡ record {
      statements = [];
      tail = body.handing_on (plain-Plan plan.now) span
          (plain-Expr value ∷ map (plain.var span) (planned.names_of (map plain-Variable outs.now)));
    }) }
{
    let values = followed_by_variables(alloc, span, value, outs)?;
    let tail = handing_on(alloc, plan, span, values)?;
    Ok(Parts {
        stmts: List::new(alloc),
        tail,
    })
}

/// The end of a run with a value of this type.
fn with_value(
    alloc: Global,
    program: &Program,
    plan: &NamedPlan,
    span: Span,
    ty: &Ty,
    value: Expr,
) -> Result<Parts, AllocError>
    ensures { IfOk result (λ it. plain-Parts it ≡ body.with_value (plain-Program program.now) (plain-Plan plan.now) span
        (plain-Ty ty.now) [] (plain-Expr value) (body.next_outs (plain-Plan plan.now) span)) }
{
    let outs = outs_of(Exit::Next, plan.exits.as_slice());
    if has_enum(plan.exits.as_slice()) {
        return in_variant(alloc, plan, span, value, outs);
    }
    in_tuple(alloc, program, plan, span, ty, value, outs)
}

/// Whether something follows the run: it hands on these.
pub fn is_followed(plan: &NamedPlan, outs: &[Expr]) -> bool
    ensures { result ≡ body.is_followed (plain-Plan plan.now) (map plain-Expr outs.now) }
{
    let exits = plan.exits.as_slice();
    has_exit(Exit::Next, exits) && (has_enum(exits) || !outs.is_empty())
}

/// The end of a run whose value is not handed on.
fn without_value(
    alloc: Global,
    plan: &NamedPlan,
    span: Span,
    parts: Parts,
) -> Result<Parts, AllocError>
    ensures { IfOk result (λ it. plain-Parts it ≡ body.without_value (plain-Plan plan.now) span (plain-Parts parts)
        (body.next_outs (plain-Plan plan.now) span)) }
{
    let outs = outs_of(Exit::Next, plan.exits.as_slice());
    let (outs, parts) = keep(parts, variables(alloc, span, outs))?;
    if is_followed(plan, outs.as_slice()) {
        return followed(alloc, plan, span, parts, outs);
    }
    outs.let_go();
    unfollowed(alloc, plan, parts)
}

/// Statements, and parts behind them. Where memory runs out both are let go.
fn behind(stmts: List<Stmt>, parts: Parts) -> Result<Parts, AllocError>
    ensures { IfOk result (λ it. plain-Parts it ≡ body.behind_locals (map plain-Stmt stmts) (plain-Parts parts)) }
{
    let Parts { stmts: more, tail } = parts;
    let (stmts, tail) = keep(tail, together(stmts, more))?;
    Ok(Parts { stmts, tail })
}

/// Statements, and the end of a run with a value of this type behind them.
#[tactic(auto, using(crate::proofs::Ends::valued_behind))]
fn valued(
    alloc: Global,
    program: &Program,
    plan: &NamedPlan,
    span: Span,
    ty: &Ty,
    stmts: List<Stmt>,
    value: Expr,
) -> Result<Parts, AllocError>
    ensures { IfOk result (λ it. plain-Parts it ≡ body.with_value (plain-Program program.now) (plain-Plan plan.now) span
        (plain-Ty ty.now) (map plain-Stmt stmts) (plain-Expr value) (body.next_outs (plain-Plan plan.now) span)) }
{
    let end = with_value(alloc, program, plan, span, ty, value);
    let (end, stmts) = keep(stmts, end)?;
    behind(stmts, end)
}

/// The run as it is moved, and its end, where it has a value of this type.
fn ended_with(
    alloc: Global,
    program: &Program,
    plan: &NamedPlan,
    span: Span,
    ty: &Ty,
    parts: Parts,
) -> Result<Parts, AllocError>
    ensures { IfOk result (λ it. plain-Parts it ≡ body.ended (plain-Program program.now) (plain-Plan plan.now) span
        (Some (plain-Ty ty.now)) (plain-Parts parts).statements (plain-Parts parts).tail (body.next_outs (plain-Plan plan.now) span)) }
{
    let Parts { stmts, tail } = parts;
    match tail {
        Some(value) => valued(alloc, program, plan, span, ty, stmts, value.into_inner()),
        None => without_value(alloc, plan, span, Parts { stmts, tail: None }),
    }
}

/// The run as it is moved, and its end.
fn ended(
    alloc: Global,
    program: &Program,
    plan: &NamedPlan,
    span: Span,
    parts: Parts,
) -> Result<Parts, AllocError>
    ensures { IfOk result (λ it. plain-Parts it ≡ body.ended (plain-Program program.now) (plain-Plan plan.now) span
        (plain-Plan plan.now).value (plain-Parts parts).statements (plain-Parts parts).tail (body.next_outs (plain-Plan plan.now) span)) }
{
    match &plan.value {
        Some(ty) => ended_with(alloc, program, plan, span, ty, parts),
        None => without_value(alloc, plan, span, parts),
    }
}

/// The body of the new function, from the run as it is moved.
pub fn new_body(
    alloc: Global,
    program: &Program,
    plan: &NamedPlan,
    span: Span,
    moved: Parts,
) -> Result<Block, AllocError>
    ensures { IfOk result (λ it. plain-Block it
        ≡ block_of_parts span (body.new_parts (plain-Program program.now) (plain-Plan plan.now) span (plain-Parts moved))) }
{
    let moved = ended(alloc, program, plan, span, moved)?;
    let locals = declared(alloc, program, span, plan.locals.as_slice());
    let (locals, moved) = keep(moved, locals)?;
    Ok(block_of(span, behind(locals, moved)?))
}

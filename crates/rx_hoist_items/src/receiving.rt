//! What is done with what the call hands out. A variable that the run itself declares is declared by it, another is assigned.

ghost use Rattle.std.specs.Prelude.{◌≡◌, ◌++◌, ◌∷◌, [], IfOk, OnOk, drop, map, option_map};
ghost use Rattle.rx_tree.specs.Plain as plain;
ghost use Rattle.rx_tree.specs.PlainOf.{plain-Expr, plain-Pattern, plain-Stmt, optional_of};
ghost use Rattle.rx_hoist_plan.specs.PlainPlan.{plain-Plan, plain-Variable};
ghost use Rattle.rx_hoist_extraction.specs.Names.{declared_by};
ghost use Rattle.rx_hoist_extraction.specs.Values.{variables_held};
ghost use Rattle.rx_hoist_extraction.specs.Made as made;
ghost use Rattle.rx_hoist_extraction.specs.Call as calls;
ghost use Rattle.rx_hoist_items.specs.Calling as calling;
ghost use Rattle.rx_hoist_made.specs.PlainHanded.{plain-Handed};
ghost use Rattle.rx_hoist_made.specs.PlainParts.{plain-Parts};
ghost use Rattle.rx_hoist_made.specs.Rows.{nth_name};

use crate::arms::put;
use rx_core::{Boxed, List, Name, Span, keep, pushed};
use rx_hoist_made::{
    Handed, Parts, Row, assignment, binding, count, done, fresh_names, is_declared, let_value,
    present, variable,
};
use rx_hoist_plan::{NamedPlan, Variable};
use rx_tree::{Expr, Pattern, PatternNode, Stmt};
use std::alloc::{AllocError, Global};

/// What is bound to the value of a variable, under this name if it is not declared.
fn received(
    alloc: Global,
    span: Span,
    run: &[Stmt],
    row: &mut Row<'_>,
    out: &Variable,
) -> Result<Pattern, AllocError>
    ensures made { IfOk result (λ it. plain-Pattern it
        ≡ calling.received span (declared_by (map plain-Stmt run.now)) (nth_name row.old) 0 (calling.held_value (plain-Variable out.now))) }
    ensures rest { OnOk result (row.new ≡ drop 1 row.old) }
{
    let name = row.next_name(alloc)?;
    if is_declared(run, &out.name) {
        return binding(alloc, span, &out.name, out.mutable);
    }
    binding(alloc, span, &name, false)
}

/// The patterns, and what is bound to the values of these variables.
fn with_received(
    alloc: Global,
    span: Span,
    run: &[Stmt],
    row: &mut Row<'_>,
    patterns: List<Pattern>,
    outs: &[Variable],
) -> Result<List<Pattern>, AllocError>
    ensures { IfOk result (λ it. map plain-Pattern it ≡ map plain-Pattern patterns
        ++ calling.all_received span (declared_by (map plain-Stmt run.now)) (nth_name row.old) 0 (variables_held (map plain-Variable outs.now))) }
{
    let mut all = patterns;
    for out in outs {
        let (next, held) = keep(all, received(alloc, span, run, row, out))?;
        all = pushed(held, next)?;
    }
    Ok(all)
}

/// What is bound to each value that is handed out.
fn all_received(
    alloc: Global,
    span: Span,
    run: &[Stmt],
    names: &[Name],
    handed: Handed<'_>,
) -> Result<List<Pattern>, AllocError>
    ensures { IfOk result (λ it. map plain-Pattern it
        ≡ calling.all_received span (declared_by (map plain-Stmt run.now)) (nth_name names.now) 0 (plain-Handed handed.entry)) }
{
    let mut row = Row::new(names);
    match handed.result {
        Some(_) => {
            let name = row.next_name(alloc)?;
            let first = binding(alloc, span, &name, false)?;
            let patterns = pushed(List::new(alloc), first)?;
            with_received(alloc, span, run, &mut row, patterns, handed.outs)
        }
        None => with_received(alloc, span, run, &mut row, List::new(alloc), handed.outs),
    }
}

/// The statements, and the assignment of the next name to a variable unless it is declared.
fn with_put(
    alloc: Global,
    span: Span,
    run: &[Stmt],
    row: &mut Row<'_>,
    stmts: List<Stmt>,
    out: &Variable,
) -> Result<List<Stmt>, AllocError>
    ensures made { IfOk result (λ it. map plain-Stmt it ≡ map plain-Stmt stmts
        ++ calling.put_back span (declared_by (map plain-Stmt run.now)) (nth_name row.old) 0 (calling.held_value (plain-Variable out.now))) }
    ensures rest { OnOk result (row.new ≡ drop 1 row.old) }
{
    let (name, stmts) = keep(stmts, row.next_name(alloc))?;
    if is_declared(run, &out.name) {
        return Ok(stmts);
    }
    let (next, stmts) = keep(stmts, put(alloc, span, out, &name))?;
    pushed(stmts, next)
}

/// The statements, and the assignments to these variables.
fn with_all_put(
    alloc: Global,
    span: Span,
    run: &[Stmt],
    row: &mut Row<'_>,
    stmts: List<Stmt>,
    outs: &[Variable],
) -> Result<List<Stmt>, AllocError>
    ensures { IfOk result (λ it. map plain-Stmt it ≡ map plain-Stmt stmts
        ++ calling.all_put_back span (declared_by (map plain-Stmt run.now)) (nth_name row.old) 0 (variables_held (map plain-Variable outs.now))) }
{
    let mut all = stmts;
    for out in outs {
        all = with_put(alloc, span, run, row, all, out)?;
    }
    Ok(all)
}

/// The statements, and what is done with each value that is handed out.
fn all_put_back(
    alloc: Global,
    span: Span,
    run: &[Stmt],
    names: &[Name],
    stmts: List<Stmt>,
    handed: Handed<'_>,
) -> Result<List<Stmt>, AllocError>
    ensures { IfOk result (λ it. map plain-Stmt it ≡ map plain-Stmt stmts
        ++ calling.all_put_back span (declared_by (map plain-Stmt run.now)) (nth_name names.now) 0 (plain-Handed handed.entry)) }
{
    let mut row = Row::new(names);
    match handed.result {
        Some(_) => {
            row.skip();
            with_all_put(alloc, span, run, &mut row, stmts, handed.outs)
        }
        None => with_all_put(alloc, span, run, &mut row, stmts, handed.outs),
    }
}

/// The run's value, which is the first, as the tail.
#[tactic(auto, using(crate::proofs::CallLemmas::no_first))]
fn first_as_tail(
    alloc: Global,
    span: Span,
    names: &[Name],
    handed: Handed<'_>,
) -> Result<Option<Boxed<Expr>>, AllocError>
    ensures { IfOk result (λ it. optional_of (option_map plain-Expr it)
        ≡ calling.first_as_tail span (nth_name names.now) (plain-Handed handed.entry)) }
{
    match handed.result {
        Some(_) => {
            let mut row = Row::new(names);
            let name = row.next_name(alloc)?;
            let first = variable(alloc, span, &name)?;
            present(alloc, first)
        }
        None => Ok(None),
    }
}

/// `let (..) = call;`
#[tactic(auto, using(rx_tree::proofs::Rules::pattern_rules))]
fn let_parts(span: Span, parts: List<Pattern>, call: Expr) -> Stmt
    ensures { plain-Stmt result
        ≡ made.let_value span (plain.tuple_pattern span (made.as_patterns (map plain-Pattern parts))) (plain-Expr call) }
{
    let pattern = Pattern {
        span,
        node: PatternNode::Tuple(parts),
    };
    let_value(span, pattern, call)
}

/// What is done with several values, under these names.
fn more_handed(
    alloc: Global,
    span: Span,
    run: &[Stmt],
    names: &[Name],
    call: Expr,
    handed: Handed<'_>,
) -> Result<Parts, AllocError>
    ensures { IfOk result (λ it. plain-Parts it ≡ calling.more_handed span (declared_by (map plain-Stmt run.now)) names.now
        (plain-Expr call) (plain-Handed handed.entry)) }
{
    let (patterns, call) = keep(call, all_received(alloc, span, run, names, handed))?;
    let stmts = pushed(List::new(alloc), let_parts(span, patterns, call))?;
    let stmts = all_put_back(alloc, span, run, names, stmts, handed)?;
    let (tail, stmts) = keep(stmts, first_as_tail(alloc, span, names, handed))?;
    Ok(Parts { stmts, tail })
}

/// What is done with the value of one variable.
fn one_received(
    alloc: Global,
    span: Span,
    run: &[Stmt],
    call: Expr,
    out: &Variable,
) -> Result<Stmt, AllocError>
    ensures { IfOk result (λ it. plain-Stmt it ≡ calling.one_received span (declared_by (map plain-Stmt run.now)) (plain-Expr call)
        (plain-Variable out.now)) }
{
    if !is_declared(run, &out.name) {
        return assignment(alloc, span, &out.name, call);
    }
    let (pattern, call) = keep(call, binding(alloc, span, &out.name, out.mutable))?;
    Ok(let_value(span, pattern, call))
}

/// A statement alone.
fn alone(alloc: Global, stmt: Stmt) -> Result<Parts, AllocError>
    ensures { IfOk result (λ it. plain-Parts it ≡ record { statements = plain-Stmt stmt ∷ []; tail = plain.absent }) }
{
    Ok(Parts {
        stmts: pushed(List::new(alloc), stmt)?,
        tail: None,
    })
}

/// An expression alone, as the tail.
fn tail_alone(alloc: Global, tail: Expr) -> Result<Parts, AllocError>
    ensures { IfOk result (λ it. plain-Parts it ≡ record { statements = []; tail = plain.present (plain-Expr tail) }) }
{
    let tail = present(alloc, tail)?;
    Ok(Parts {
        stmts: List::new(alloc),
        tail,
    })
}

/// What is done with the value of the first of these variables.
fn first_handed(
    alloc: Global,
    span: Span,
    run: &[Stmt],
    call: Expr,
    outs: &[Variable],
) -> Result<Parts, AllocError>
    ensures { IfOk result (λ it. plain-Parts it ≡ calling.few_handed span (declared_by (map plain-Stmt run.now)) (plain-Expr call)
        (variables_held (map plain-Variable outs.now))) }
{
    match outs {
        [out, ..] => {
            let stmt = one_received(alloc, span, run, call, out)?;
            alone(alloc, stmt)
        }
        [] => alone(alloc, done(span, call)),
    }
}

/// What is done with at most one value.
fn few_handed(
    alloc: Global,
    span: Span,
    run: &[Stmt],
    call: Expr,
    handed: Handed<'_>,
) -> Result<Parts, AllocError>
    ensures { IfOk result (λ it. plain-Parts it ≡ calling.few_handed span (declared_by (map plain-Stmt run.now)) (plain-Expr call)
        (plain-Handed handed.entry)) }
{
    match handed.result {
        Some(_) => tail_alone(alloc, call),
        None => first_handed(alloc, span, run, call, handed.outs),
    }
}

/// What is done with what the call hands out.
#[tactic(auto, using(crate::proofs::CallLemmas::handed_rules))]
pub(crate) fn put_in_place(
    alloc: Global,
    plan: &NamedPlan,
    span: Span,
    run: &[Stmt],
    call: Expr,
    handed: Handed<'_>,
) -> Result<Parts, AllocError>
    ensures { IfOk result (λ it. plain-Parts it ≡ calls.handed (plain-Plan plan.now) span (declared_by (map plain-Stmt run.now))
        (plain-Expr call) (plain-Handed handed.entry)) }
{
    let many = count(handed);
    if many < 2 {
        return few_handed(alloc, span, run, call, handed);
    }
    let names = fresh_names(alloc, "out_", plan.identifiers.as_slice(), many);
    let (names, call) = keep(call, names)?;
    more_handed(alloc, span, run, names.as_slice(), call, handed)
}

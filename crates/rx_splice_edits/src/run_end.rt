//! What becomes of the end of a run in the text of the new function.

ghost use Rattle.std.specs.Prelude.{◌≡◌, ◌++◌, Some, map, option_map, IfOk, OnOk};
ghost use Rattle.rx_tree.specs.Plain as plain;
ghost use Rattle.rx_tree.specs.PlainOf.{plain-Expr, plain-Program, plain-Stmt, optional_of};
ghost use Rattle.rx_typed.specs.PlainTypes.{plain-Ty};
ghost use Rattle.rx_print_spelling.specs.Pieces.{flat};
ghost use Rattle.rx_hoist_plan.specs.PlainPlan.{plain-Plan, plain-Variable};
ghost use Rattle.rx_hoist_extraction.specs.Plan as planned;
ghost use Rattle.rx_hoist_made.specs.PlainParts.{plain-RunParts};
ghost use Rattle.rx_splice_laws.specs.RunEnd as ends;
ghost use Rattle.rx_splice_edits.specs.Ending.{IsEnd, next_names, let_pieces, out_tuple, let_end, followed_by};

use crate::moving::{push_next, push_variant};
use crate::pinning::annotation;
use rx_core::{Boxed, LetGo, Span, Text, Ty, keep};
use rx_hoist_items::{handing_on, is_followed, is_open, stays_last, tuple_of};
use rx_hoist_made::{RunParts, fresh_variable, has_enum, outs_of, variables};
use rx_hoist_plan::{Exit, NamedPlan, Variable};
use rx_tree::{Expr, Program, Stmt};
use std::alloc::{AllocError, Global};

/// What comes round a run's tail, and the tail of the new function.
pub(crate) struct RunEnd {
    /// Directly in front of the tail's first token.
    pub before: Option<Text>,
    /// Directly behind the run's last token.
    pub behind: Option<Text>,
    pub tail: Option<Boxed<Expr>>,
}

impl LetGo for RunEnd {
    fn let_go(self) {
        let RunEnd {
            before,
            behind,
            tail,
        } = self;
        before.let_go();
        behind.let_go();
        tail.let_go();
    }
}

/// It stays as it is.
fn as_it_is() -> RunEnd
    ensures { IsEnd result ends.as_it_is }
{
    RunEnd {
        before: None,
        behind: None,
        tail: None,
    }
}

/// A semicolon behind it, with this tail.
fn closed(alloc: Global, tail: Option<Boxed<Expr>>) -> Result<RunEnd, AllocError>
    ensures { IfOk result (λ e. IsEnd e (ends.with_semicolon (optional_of (option_map plain-Expr tail)))) }
{
    let (behind, tail) = keep(tail, Text::new(alloc, ";"))?;
    Ok(RunEnd {
        before: None,
        behind: Some(behind),
        tail,
    })
}

/// Adds the names of variables, each behind a comma.
fn push_more(out: &mut Text, variables: &[Variable]) -> Result<(), AllocError>
    ensures { OnOk result (out.new
        ≡ out.old ++ flat (ends.more_outs (planned.names_of (map plain-Variable variables.now)))) }
{
    for variable in variables {
        push_next(out, true, &variable.name)?;
    }
    Ok(())
}

/// `Exit_NAME::Next(`
fn variant_opening(alloc: Global, plan: &NamedPlan) -> Result<Text, AllocError>
    ensures { IfOk result (λ t. t ≡ flat (ends.in_variant (plain-Plan plan.now)).before) }
{
    let mut text = Text::empty(alloc);
    push_variant(alloc, &mut text, plan, Exit::Next)?;
    text.push("(")?;
    Ok(text)
}

/// `, outs)`
fn variant_closing(alloc: Global, plan: &NamedPlan) -> Result<Text, AllocError>
    ensures { IfOk result (λ t. t ≡ flat (ends.in_variant (plain-Plan plan.now)).behind) }
{
    let mut text = Text::empty(alloc);
    push_more(&mut text, outs_of(Exit::Next, plan.exits.as_slice()))?;
    text.push(")")?;
    Ok(text)
}

/// `Exit_NAME::Next(e, outs)`
fn in_variant(alloc: Global, plan: &NamedPlan) -> Result<RunEnd, AllocError>
    ensures { IfOk result (λ e. IsEnd e (ends.in_variant (plain-Plan plan.now))) }
{
    let before = variant_opening(alloc, plan)?;
    let behind = variant_closing(alloc, plan)?;
    Ok(RunEnd {
        before: Some(before),
        behind: Some(behind),
        tail: None,
    })
}

/// `let out_0: T = `
fn let_out(
    alloc: Global,
    program: &Program,
    plan: &NamedPlan,
    span: Span,
    ty: &Ty,
) -> Result<Text, AllocError>
    ensures { IfOk result (λ t. t
        ≡ flat (let_pieces (plain-Program program.now) (plain-Plan plan.now) span (plain-Ty ty.now))) }
{
    let name = fresh_variable(alloc, plan)?;
    let typ = annotation(alloc, program, span, ty)?;
    let mut text = Text::new(alloc, "let ")?;
    text.push(name.as_str())?;
    text.push(typ.as_str())?;
    text.push(" = ")?;
    Ok(text)
}

/// The tuple of the first fresh variable and these.
fn tuple_with(
    alloc: Global,
    plan: &NamedPlan,
    span: Span,
    outs: &[Variable],
) -> Result<Option<Boxed<Expr>>, AllocError>
    ensures { IfOk result (λ it. optional_of (option_map plain-Expr it)
        ≡ out_tuple (plain-Plan plan.now) span (planned.names_of (map plain-Variable outs.now))) }
{
    let name = fresh_variable(alloc, plan)?;
    tuple_of(alloc, span, &name, outs)
}

/// `let out_0: T = e;`, and the tuple of it and the outs.
fn in_let(
    alloc: Global,
    program: &Program,
    plan: &NamedPlan,
    span: Span,
    ty: &Ty,
    outs: &[Variable],
) -> Result<RunEnd, AllocError>
    ensures { IfOk result (λ e. IsEnd e
        (let_end (plain-Program program.now) (plain-Plan plan.now) span (plain-Ty ty.now)
        (planned.names_of (map plain-Variable outs.now)))) }
{
    let before = let_out(alloc, program, plan, span, ty)?;
    let behind = Text::new(alloc, ";")?;
    let tail = tuple_with(alloc, plan, span, outs)?;
    Ok(RunEnd {
        before: Some(before),
        behind: Some(behind),
        tail,
    })
}

/// `let out_0: T = e;`, and the tuple of it and the outs, where there are some.
fn in_tuple(
    alloc: Global,
    program: &Program,
    plan: &NamedPlan,
    span: Span,
    ty: &Ty,
) -> Result<RunEnd, AllocError>
    ensures { IfOk result (λ e. IsEnd e
        (ends.in_tuple (plain-Program program.now) (plain-Plan plan.now) span (plain-Ty ty.now)
        (next_names (plain-Plan plan.now)))) }
{
    let outs = outs_of(Exit::Next, plan.exits.as_slice());
    if outs.is_empty() {
        return Ok(as_it_is());
    }
    in_let(alloc, program, plan, span, ty, outs)
}

/// The end of a run with a value of this type.
fn with_value(
    alloc: Global,
    program: &Program,
    plan: &NamedPlan,
    span: Span,
    ty: &Ty,
) -> Result<RunEnd, AllocError>
    ensures { IfOk result (λ e. IsEnd e
        (ends.with_value (plain-Program program.now) (plain-Plan plan.now) span (plain-Ty ty.now))) }
{
    if has_enum(plan.exits.as_slice()) {
        return in_variant(alloc, plan);
    }
    in_tuple(alloc, program, plan, span, ty)
}

/// Whether the last of some statements has no `;`.
fn last_is_open(stmts: &[Stmt]) -> bool
    ensures { result ≡ ends.is_open (map plain-Stmt stmts.now) }
{
    match stmts {
        [.., last] => is_open(last),
        [] => false,
    }
}

/// The end of statements without a tail, where nothing follows the run.
fn without_tail(alloc: Global, plan: &NamedPlan, stmts: &[Stmt]) -> Result<RunEnd, AllocError>
    ensures { IfOk result (λ e. IsEnd e
        (ends.unfollowed (plain-Plan plan.now) (map plain-Stmt stmts.now) plain.absent)) }
{
    if !stays_last(plan) {
        return Ok(as_it_is());
    }
    if last_is_open(stmts) {
        return closed(alloc, None);
    }
    Ok(as_it_is())
}

/// The end where nothing follows the run.
fn unfollowed(alloc: Global, plan: &NamedPlan, run: RunParts<'_>) -> Result<RunEnd, AllocError>
    ensures { IfOk result (λ e. IsEnd e
        (ends.unfollowed (plain-Plan plan.now) (plain-RunParts run.entry).statements
        (plain-RunParts run.entry).tail)) }
{
    match run.tail {
        Some(_) => Ok(as_it_is()),
        None => without_tail(alloc, plan, run.stmts),
    }
}

/// The end where something follows the run, which hands on this.
fn followed(
    alloc: Global,
    run: RunParts<'_>,
    tail: Option<Boxed<Expr>>,
) -> Result<RunEnd, AllocError>
    ensures { IfOk result (λ e. IsEnd e
        (followed_by (plain-RunParts run.entry).tail (optional_of (option_map plain-Expr tail)))) }
{
    match run.tail {
        Some(_) => closed(alloc, tail),
        None => Ok(RunEnd {
            before: None,
            behind: None,
            tail,
        }),
    }
}

/// The end of a run whose value is not handed on.
fn without_value(
    alloc: Global,
    plan: &NamedPlan,
    span: Span,
    run: RunParts<'_>,
) -> Result<RunEnd, AllocError>
    ensures { IfOk result (λ e. IsEnd e
        (ends.without_value (plain-Plan plan.now) span (plain-RunParts run.entry).statements
        (plain-RunParts run.entry).tail)) }
{
    let outs = variables(alloc, span, outs_of(Exit::Next, plan.exits.as_slice()))?;
    if is_followed(plan, outs.as_slice()) {
        let tail = handing_on(alloc, plan, span, outs)?;
        return followed(alloc, run, tail);
    }
    outs.let_go();
    unfollowed(alloc, plan, run)
}

/// The end of a run whose tail, where it has one, is a value of this type.
fn valued(
    alloc: Global,
    program: &Program,
    plan: &NamedPlan,
    span: Span,
    ty: &Ty,
    run: RunParts<'_>,
) -> Result<RunEnd, AllocError>
    ensures { IfOk result (λ e. IsEnd e
        (ends.end_by (plain-Program program.now) (plain-Plan plan.now) span (Some (plain-Ty ty.now))
        (plain-RunParts run.entry).statements (plain-RunParts run.entry).tail)) }
{
    match run.tail {
        Some(_) => with_value(alloc, program, plan, span, ty),
        None => without_value(alloc, plan, span, run),
    }
}

/// What becomes of the end of a run.
pub(crate) fn end_of(
    alloc: Global,
    program: &Program,
    plan: &NamedPlan,
    span: Span,
    run: RunParts<'_>,
) -> Result<RunEnd, AllocError>
    ensures { IfOk result (λ e. IsEnd e
        (ends.end_of (plain-Program program.now) (plain-Plan plan.now) span (plain-RunParts run.entry))) }
{
    match &plan.value {
        Some(ty) => valued(alloc, program, plan, span, ty, run),
        None => without_value(alloc, plan, span, run),
    }
}

//! The function round the run, with the call, and the new function.

ghost use Rattle.std.specs.Prelude.{◌≡◌, ◌<◌, ◌^◌, [], IfOk};
ghost use Rattle.rx_tree.specs.PlainOf.{plain-Block, plain-Func, plain-Program};
ghost use Rattle.rx_hoist_plan.specs.PlainPlan.{plain-Plan};
ghost use Rattle.rx_hoist_extraction.specs.Run as runs;
ghost use Rattle.rx_hoist_extraction.specs.Pinned as pinning;
ghost use Rattle.rx_hoist_extraction.specs.NewFunction as new_functions;
ghost use Rattle.rx_hoist_extraction.specs.NewBody.{new_body as new_body_of};
ghost use Rattle.rx_hoist_made.specs.PlainParts.{plain-Labels, plain-RunParts};

use rx_core::{LetGo, Span, keep};
use rx_hoist_changes::{moved_run, pinned};
use rx_hoist_items::{new_body, new_function};
use rx_hoist_made::{Parts, RunParts};
use rx_hoist_plan::NamedPlan;
use rx_tree::{Block, Func, Ident, Program};
use rx_tree_operations::CopyTree;
use std::alloc::{AllocError, Global};

/// A copy of a function's body with kinds and types written out, where a variable is loose.
pub(crate) fn pinned_body(
    alloc: Global,
    program: &Program,
    plan: &NamedPlan,
    span: Span,
    body: &Block,
) -> Result<Block, AllocError>
    ensures { IfOk result (λ it. plain-Block it
        ≡ pinning.pinned (plain-Program program.now) span (plain-Plan plan.now).pins (plain-Block body.now)) }
{
    match &plan.pins {
        Some(pins) => pinned(alloc, program, span, pins, body),
        None => body.copy(alloc),
    }
}

/// A copy of the function with another body.
pub(crate) fn with_body(alloc: Global, function: &Func, body: Block) -> Result<Func, AllocError>
    ensures { IfOk result (λ it. plain-Func it ≡ record (plain-Func function.now) { body = plain-Block body }) }
{
    let (copy, body) = keep(body, function.copy(alloc))?;
    let Func {
        name,
        lifetimes,
        params,
        result,
        body: old,
    } = copy;
    old.let_go();
    Ok(Func {
        name,
        lifetimes,
        params,
        result,
        body,
    })
}

/// The body of the new function.
fn moved_body<'t>(
    alloc: Global,
    program: &Program,
    plan: &NamedPlan,
    span: Span,
    labels: &[Option<&'t Ident>],
    run: RunParts<'t>,
) -> Result<Block, AllocError>
    ensures { IfOk result (λ it. plain-Block it ≡ new_body_of (plain-Program program.now) (plain-Plan plan.now) span
        (runs.numbered 1 (plain-Labels labels.now)) (plain-RunParts run.entry)) }
{
    let (stmts, tail) = moved_run(alloc, plan, span, labels, run.stmts, run.tail)?;
    new_body(alloc, program, plan, span, Parts { stmts, tail })
}

/// The new function, by the lifetimes that the run names; its signature has so many lifetime positions.
pub(crate) fn made_function<'t>(
    alloc: Global,
    program: &Program,
    plan: &NamedPlan,
    span: Span,
    labels: &[Option<&'t Ident>],
    run: RunParts<'t>,
    copied: &[Ident],
    positions: usize,
) -> Result<Func, AllocError>
    requires copied { copied.now ≡ new_functions.copied_lifetimes (plain-RunParts run) }
    requires counted { positions ≡ new_functions.signature_positions (plain-Program program.now) (plain-Plan plan.now) }
    requires few { positions < 2 ^ 63 }
    ensures { IfOk result (λ it. plain-Func it ≡ new_functions.new_function (plain-Program program.now) (plain-Plan plan.now) [] span
        (runs.numbered 1 (plain-Labels labels.now)) (plain-RunParts run.entry)) }
{
    let body = moved_body(alloc, program, plan, span, labels, run)?;
    new_function(alloc, program, plan, span, copied, positions, body)
}

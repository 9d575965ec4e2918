//! The run in its block, and other parts in its place.

ghost use Rattle.std.specs.Prelude.{◌≡◌, ◌+◌, ◌-◌, ◌++◌, IfOk, drop, map, option_map, take};
ghost use Rattle.std.specs.Option.{option_copied};
ghost use Rattle.rx_tree.specs.PlainOf.{plain-Block, plain-Expr, plain-Stmt, optional_of};
ghost use Rattle.rx_tree.specs.Lists.{statements, tail};
ghost use Rattle.rx_hoist_extraction.specs.Run as runs;
ghost use Rattle.rx_hoist_made.specs.PlainParts.{plain-Parts, plain-RunParts};
ghost use Rattle.rx_hoist.specs.Runs.{run_of};

use rx_core::{Boxed, LetGo, List, keep, pushed};
use rx_hoist_made::{Parts, RunParts, together};
use rx_tree::{Block, Expr, Stmt};
use rx_tree_operations::CopyTree;
use rx_typed_runs::RunPos;
use std::alloc::{AllocError, Global};

/// What is in front of a place.
pub(crate) fn in_front<T>(items: &[T], at: usize) -> &[T]
    ensures { result.now ≡ take at items.now }
{
    if at < items.len() {
        &items[..at]
    } else {
        items
    }
}

/// What is from a place on.
pub fn from_on<T>(items: &[T], at: usize) -> &[T]
    ensures { result.now ≡ drop at items.now }
{
    let from = if at < items.len() { at } else { items.len() };
    &items[from..]
}

/// The statements from the first to the last.
fn chosen(stmts: &[Stmt], first: u32, last: u32) -> &[Stmt]
    ensures { result.now ≡ take (last + 1 - first) (drop first stmts.now) }
{
    let many = (last as usize + 1).saturating_sub(first as usize);
    in_front(from_on(stmts, first as usize), many)
}

/// Whether the run goes on past a block's statements.
fn goes_past(run: &RunPos, stmts: &[Stmt]) -> bool
    ensures { result ≡ runs.goes_past (run_of run.now) (map plain-Stmt stmts.now) }
{
    stmts.len() <= run.last as usize
}

/// The tail of a block, where it has one.
#[tactic(auto, using(rx_tree::proofs::Rules::body_rules))]
fn tail_of(block: &Block) -> Option<&Expr>
    ensures { optional_of (option_map plain-Expr (option_copied result)) ≡ tail (plain-Block block.now) }
{
    match &block.tail {
        Some(tail) => Some(tail.get()),
        None => None,
    }
}

/// The tail of a block, where the run goes on past the block's statements.
fn chosen_tail<'t>(block: &'t Block, run: &RunPos) -> Option<&'t Expr>
    ensures { optional_of (option_map plain-Expr (option_copied result))
        ≡ runs.tail_if (runs.goes_past (run_of run.now) (statements (plain-Block block.now))) (tail (plain-Block block.now)) }
{
    if goes_past(run, block.stmts.as_slice()) {
        tail_of(block)
    } else {
        None
    }
}

/// The run in its block.
pub fn run_parts<'t>(block: &'t Block, run: &RunPos) -> RunParts<'t>
    ensures { plain-RunParts result ≡ runs.chosen_parts (run_of run.now) (plain-Block block.now) }
{
    RunParts {
        stmts: chosen(block.stmts.as_slice(), run.first, run.last),
        tail: chosen_tail(block, run),
    }
}

/// Copies of statements.
fn copied(alloc: Global, stmts: &[Stmt]) -> Result<List<Stmt>, AllocError>
    ensures { IfOk result (λ it. it ≡ stmts.now) }
{
    let mut all = List::new(alloc);
    for stmt in stmts {
        let (next, held) = keep(all, stmt.copy(alloc))?;
        all = pushed(held, next)?;
    }
    Ok(all)
}

/// A copy of a tail.
fn copied_tail(alloc: Global, tail: Option<&Expr>) -> Result<Option<Boxed<Expr>>, AllocError>
    ensures { IfOk result (λ it. it ≡ option_copied tail.entry) }
{
    match tail {
        Some(tail) => Ok(Some(Boxed::new(alloc, tail.copy(alloc)?)?)),
        None => Ok(None),
    }
}

/// The statements of a block with others in place of the run.
fn statements_with(
    alloc: Global,
    block: &Block,
    run: &RunPos,
    stmts: List<Stmt>,
) -> Result<List<Stmt>, AllocError>
    ensures { IfOk result (λ it. map plain-Stmt it ≡ runs.in_front (run_of run.now) (statements (plain-Block block.now))
        ++ (map plain-Stmt stmts ++ runs.behind (run_of run.now) (statements (plain-Block block.now)))) }
{
    let all = block.stmts.as_slice();
    let (rest, stmts) = keep(stmts, copied(alloc, from_on(all, run.last as usize + 1)))?;
    let stmts = together(stmts, rest)?;
    let (front, stmts) = keep(stmts, copied(alloc, in_front(all, run.first as usize)))?;
    together(front, stmts)
}

/// The tail of a block, or the other where the run goes on past the block's statements.
fn tail_with(
    alloc: Global,
    block: &Block,
    run: &RunPos,
    other: Option<Boxed<Expr>>,
) -> Result<Option<Boxed<Expr>>, AllocError>
    ensures { IfOk result (λ it. optional_of (option_map plain-Expr it)
        ≡ runs.rest_tail (runs.goes_past (run_of run.now) (statements (plain-Block block.now))) (tail (plain-Block block.now))
        (optional_of (option_map plain-Expr other))) }
{
    if goes_past(run, block.stmts.as_slice()) {
        return Ok(other);
    }
    other.let_go();
    copied_tail(alloc, tail_of(block))
}

/// A copy of a block with other parts in place of the run.
pub(crate) fn with_parts(
    alloc: Global,
    block: &Block,
    run: &RunPos,
    parts: Parts,
) -> Result<Block, AllocError>
    ensures { IfOk result (λ it. plain-Block it ≡ runs.with_parts (run_of run.now) (plain-Parts parts) (plain-Block block.now)) }
{
    let Parts { stmts, tail } = parts;
    let (stmts, tail) = keep(tail, statements_with(alloc, block, run, stmts))?;
    let (tail, stmts) = keep(stmts, tail_with(alloc, block, run, tail))?;
    Ok(Block {
        span: block.span,
        stmts,
        tail,
    })
}

//! Copies of matches, statements and blocks.

ghost use Rattle.std.specs.Prelude.{◌≡◌, ◌++◌, if◌then◌else◌, IfOk, map};
ghost use Rattle.rx_typed.specs.Tree as tree;
ghost use Rattle.rx_typed.specs.PlainTree.{plain-Arm, plain-Expr, plain-Mark, plain-Matched, plain-Pattern, arms_of};
ghost use Rattle.rx_exits_plan.specs.PlainPlan.{plain-Run};
ghost use Rattle.rx_exits_plan.specs.Blocks as blocks;
ghost use Rattle.rx_exits_plan.specs.Blocks.{written_tail};
ghost use Rattle.rx_exits_plan.specs.Changed.{changed, changed_matched, changed_arms, changed_statement};
ghost use Rattle.rx_exits_plan.specs.Marked as marks;
ghost use Rattle.rx_exits_tree.specs.Changing.{changes_of, marked_list, cut_list, statements_at, tail_at};
ghost use Rattle.rx_exits_tree.specs.Shapes.{plain-Statement};

use crate::blocks::{behind, given_again, in_front, inside};
use crate::changes::{AtBlock, Change};
use crate::copying::{mark_copied, pattern_copied, place_copied};
use crate::expressions::unit;
use crate::forms::{boxed, expression};
use crate::marks::{Point, block_of, ended, entering, then_mark};
use rx_core::{Boxed, List, keep, pushed};
use rx_exits_plan::{Exit, Run};
use rx_typed::{Arm, Expr, Form, Mark, Matched, Pattern, Stmt};
use std::alloc::{AllocError, Global};

/// What is matched.
#[cycle(expression)]
#[tactic(auto, using(rx_typed::proofs::Rules::typed_tree_rules))]
pub(crate) fn matched(
    alloc: Global,
    matched: &Matched,
    change: Change<'_>,
) -> Result<Matched, AllocError>
    ensures { IfOk result (λ it. plain-Matched it ≡ changed_matched (changes_of change.entry) (plain-Matched matched.now)) }
{
    match matched {
        Matched::Place(mark, place) => {
            let mark = mark_copied(alloc, mark)?;
            let (place, mark) = keep(mark, place_copied(alloc, place))?;
            Ok(Matched::Place(mark, place))
        }
        Matched::Value(expr) => Ok(Matched::Value(boxed(alloc, expr, change)?)),
    }
}

#[cycle(expression)]
#[tactic(auto, using(rx_typed::proofs::Rules::typed_tree_rules))]
fn arm(alloc: Global, arm: &Arm, change: Change<'_>) -> Result<Arm, AllocError>
    ensures { IfOk result (λ it. plain-Arm it ≡ ((plain-Arm arm.now).0, changed (changes_of change.entry) (plain-Arm arm.now).1)) }
{
    let pattern = pattern_copied(alloc, &arm.pattern)?;
    let (body, pattern) = keep(pattern, expression(alloc, &arm.body, change))?;
    Ok(Arm { pattern, body })
}

#[cycle(expression)]
fn arms(alloc: Global, arms: &[Arm], change: Change<'_>) -> Result<List<Arm>, AllocError>
    ensures { IfOk result (λ it. arms_of (map plain-Arm it) ≡ changed_arms (changes_of change.entry) (arms_of (map plain-Arm arms.now))) }
{
    let mut copies = List::new(alloc);
    for each in arms {
        let (copy, held) = keep(copies, arm(alloc, each, change))?;
        copies = pushed(held, copy)?;
    }
    Ok(copies)
}

/// `match`, `if`, `if let`: the arms, behind a copy of what is matched.
#[cycle(expression)]
#[tactic(auto, using(rx_typed::proofs::Rules::typed_tree_rules))]
pub(crate) fn choose(
    alloc: Global,
    all: &List<Arm>,
    scrutinee: Matched,
    mark: &Mark,
    change: Change<'_>,
) -> Result<Expr, AllocError>
    ensures { IfOk result (λ it. plain-Expr it ≡ tree.choose (plain-Mark mark.now) (plain-Matched scrutinee) (changed_arms (changes_of change.entry) (arms_of (map plain-Arm all.now)))) }
{
    let (mark, scrutinee) = keep(scrutinee, mark_copied(alloc, mark))?;
    let (all, held) = keep((mark, scrutinee), arms(alloc, all.as_slice(), change))?;
    let (mark, scrutinee) = held;
    Ok(Expr {
        mark,
        form: Form::Choose(scrutinee, all),
    })
}

#[cycle(expression)]
#[tactic(auto, using(crate::proofs::Shapes::shape_rules))]
fn statement(alloc: Global, statement: &Stmt, change: Change<'_>) -> Result<Stmt, AllocError>
    ensures { IfOk result (λ it. plain-Statement it ≡ changed_statement (changes_of change.entry) (plain-Statement statement.now)) }
{
    match statement {
        Stmt::Runs(expr) => Ok(Stmt::Runs(expression(alloc, expr, change)?)),
        Stmt::Declares(node, variables) => Ok(Stmt::Declares(
            *node,
            List::from_slice(alloc, variables.as_slice())?,
        )),
        Stmt::Lets(node, pattern, init) => {
            let init = matched(alloc, init, change)?;
            lets(alloc, pattern, init, *node)
        }
    }
}

#[tactic(auto, using(crate::proofs::Shapes::shape_rules))]
fn lets(alloc: Global, pattern: &Pattern, init: Matched, node: usize) -> Result<Stmt, AllocError>
    ensures { IfOk result (λ it. plain-Statement it ≡ blocks.binds node (plain-Pattern pattern.now) (plain-Matched init)) }
{
    let (pattern, init) = keep(init, pattern_copied(alloc, pattern))?;
    Ok(Stmt::Lets(node, pattern, init))
}

/// Statements, behind others.
#[cycle(expression)]
pub(crate) fn statements(
    alloc: Global,
    statements: &[Stmt],
    held: List<Stmt>,
    change: Change<'_>,
) -> Result<List<Stmt>, AllocError>
    ensures { IfOk result (λ it. map plain-Statement it ≡ map plain-Statement held ++ map (changed_statement (changes_of change.entry)) (map plain-Statement statements.now)) }
{
    let mut copies = held;
    for each in statements {
        let (copy, before) = keep(copies, statement(alloc, each, change))?;
        copies = pushed(before, copy)?;
    }
    Ok(copies)
}

/// A block of copies.
fn with_mark(alloc: Global, mark: &Mark, copies: List<Stmt>, last: Expr) -> Result<Expr, AllocError>
    ensures { IfOk result (λ it. plain-Expr it ≡ tree.block (plain-Mark mark.now) (blocks.before (map plain-Statement copies) (tree.ends (plain-Expr last)))) }
{
    let (mark, held) = keep((copies, last), mark_copied(alloc, mark))?;
    let (copies, last) = held;
    block_of(alloc, mark, copies, last)
}

/// The statements of the run's block, with marks.
#[cycle(expression)]
fn marked_statements(
    alloc: Global,
    all: &[Stmt],
    run: Run,
    loops: &[u32],
    used: &[u32],
) -> Result<List<Stmt>, AllocError>
    ensures { IfOk result (λ it. map plain-Statement it ≡ marked_list (plain-Run run) loops.now used.now (map plain-Statement all.now)) }
{
    let copies = statements(alloc, in_front(all, run), List::new(alloc), Change::Keep)?;
    let copies = entering(alloc, copies, used)?;
    let copies = statements(alloc, inside(all, run), copies, Change::Mark(loops))?;
    let copies = ended(alloc, copies, run.tail)?;
    statements(alloc, behind(all, run), copies, Change::Keep)
}

/// The statements of the run's block, without those of the run.
#[cycle(expression)]
fn cut_statements(alloc: Global, all: &[Stmt], run: Run) -> Result<List<Stmt>, AllocError>
    ensures { IfOk result (λ it. map plain-Statement it ≡ cut_list (plain-Run run) (map plain-Statement all.now)) }
{
    let copies = statements(alloc, in_front(all, run), List::new(alloc), Change::Keep)?;
    statements(alloc, behind(all, run), copies, Change::Keep)
}

/// The statements of a block, by what becomes of the block.
#[cycle(expression)]
pub(crate) fn block_statements(
    alloc: Global,
    all: &List<Stmt>,
    at: AtBlock<'_>,
    change: Change<'_>,
) -> Result<List<Stmt>, AllocError>
    ensures { IfOk result (λ it. map plain-Statement it ≡ statements_at at.entry (changes_of change.entry) (map plain-Statement all.now)) }
{
    match at {
        AtBlock::Inside => statements(alloc, all.as_slice(), List::new(alloc), change),
        AtBlock::Marked(run, loops, used) => {
            marked_statements(alloc, all.as_slice(), run, loops, used)
        }
        AtBlock::Cut(run) => cut_statements(alloc, all.as_slice(), run),
    }
}

/// The tail of a block, by what becomes of the block.
#[cycle(expression)]
fn tail(alloc: Global, last: &Expr, at: AtBlock<'_>, change: Change<'_>) -> Result<Expr, AllocError>
    ensures { IfOk result (λ it. plain-Expr it ≡ tail_at at.entry (changes_of change.entry) (plain-Expr last.now)) }
{
    match at {
        AtBlock::Inside => expression(alloc, last, change),
        AtBlock::Marked(run, loops, _) => marked_tail(alloc, last, run, loops),
        AtBlock::Cut(run) => cut_tail(alloc, last, run),
    }
}

/// The tail of a block, behind copies of its statements.
#[cycle(expression)]
pub(crate) fn block_last(
    alloc: Global,
    last: &Boxed<Expr>,
    copies: List<Stmt>,
    mark: &Mark,
    at: AtBlock<'_>,
    change: Change<'_>,
) -> Result<Expr, AllocError>
    ensures { IfOk result (λ it. plain-Expr it ≡ tree.block (plain-Mark mark.now) (blocks.before (map plain-Statement copies) (tree.ends (tail_at at.entry (changes_of change.entry) (plain-Expr last.now))))) }
{
    let (last, copies) = keep(copies, tail(alloc, last.get(), at, change))?;
    with_mark(alloc, mark, copies, last)
}

/// The tail of the run's block.
#[cycle(expression)]
fn marked_tail(alloc: Global, last: &Expr, run: Run, loops: &[u32]) -> Result<Expr, AllocError>
    ensures { IfOk result (λ it. plain-Expr it ≡ marks.ended_tail run.tail run.block loops.now (plain-Expr last.now)) }
{
    if run.tail {
        let value = value_of(alloc, last, run.block, Change::Mark(loops))?;
        let marked = then_mark(alloc, Point::Leaves(Exit::Next), value)?;
        given_again(alloc, last, run.block, marked)
    } else {
        expression(alloc, last, Change::Keep)
    }
}

/// The run's last value: of a function's body, the operand of the `give` that the body's block has.
#[cycle(expression)]
pub(crate) fn value_of(
    alloc: Global,
    last: &Expr,
    node: usize,
    change: Change<'_>,
) -> Result<Expr, AllocError>
    ensures { IfOk result (λ it. plain-Expr it ≡ changed (changes_of change.entry) (written_tail node (plain-Expr last.now))) }
{
    match &last.form {
        Form::Give(value) => {
            if last.mark.node == node {
                expression(alloc, value.get(), change)
            } else {
                expression(alloc, last, change)
            }
        }
        _ => expression(alloc, last, change),
    }
}

/// The tail of the run's block, or the unit where it is of the run.
#[cycle(expression)]
fn cut_tail(alloc: Global, last: &Expr, run: Run) -> Result<Expr, AllocError>
    ensures { IfOk result (λ it. plain-Expr it ≡ (if run.tail then tree.unit (tree.mark_of (plain-Expr last.now)) else plain-Expr last.now)) }
{
    if run.tail {
        unit(alloc, &last.mark)
    } else {
        expression(alloc, last, Change::Keep)
    }
}

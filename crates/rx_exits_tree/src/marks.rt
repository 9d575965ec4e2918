//! Marks: expressions and statements that a marked tree has more than its tree.

ghost use Rattle.std.specs.Prelude.{◌≡◌, ◌++◌, ◌∷◌, [], Bool, if◌then◌else◌, IfOk, map};
ghost use Rattle.rx_typed.specs.Tree as tree;
ghost use Rattle.rx_typed.specs.PlainTree.{plain-Expr, plain-Mark};
ghost use Rattle.rx_exits_plan.specs.PlainPlan.{plain-Exit};
ghost use Rattle.rx_exits_plan.specs.Blocks as blocks;
ghost use Rattle.rx_exits_plan.specs.Points as points;
ghost use Rattle.rx_exits_plan.specs.Marked as marks;
ghost use Rattle.rx_exits_tree.specs.Changing.{plain-Point, changes_of};
ghost use Rattle.rx_exits_tree.specs.Shapes.{plain-Statement, mark_at};

use crate::changes::Change;
use crate::copying::mark_copied;
use rx_core::{Boxed, List, Place, keep, pushed};
use rx_exits_plan::Exit;
use rx_typed::{Expr, Form, Making, Mark, Stmt};
use std::alloc::{AllocError, Global};

/// Where the run is entered, or an exit of it.
#[derive(Clone, Copy)]
pub(crate) enum Point {
    Enters,
    Leaves(Exit),
}

/// The point's number.
fn number(point: Point) -> usize
    ensures { result ≡ points.number (plain-Point point) }
{
    match point {
        Point::Enters => 0,
        Point::Leaves(Exit::Next) => 1,
        Point::Leaves(Exit::Return) => 2,
        Point::Leaves(Exit::Break(number)) => 3 + 2 * (number as usize),
        Point::Leaves(Exit::Continue(number)) => 4 + 2 * (number as usize),
    }
}

/// The mark of a node where no value is.
pub(crate) fn at_node(node: usize) -> Mark
    ensures { plain-Mark result ≡ mark_at node }
{
    Mark { node, ty: None }
}

/// The mark of a point.
#[tactic(auto, using(rx_typed::proofs::Rules::typed_tree_rules))]
fn mark(alloc: Global, point: Point) -> Expr
    ensures { plain-Expr result ≡ marks.mark (plain-Point point) }
{
    Expr {
        mark: at_node(number(point)),
        form: Form::Build(Making::Tuple, List::new(alloc)),
    }
}

/// An expression as a statement behind others.
#[tactic(auto, using(crate::proofs::Shapes::shape_rules))]
pub(crate) fn runs_behind(held: List<Stmt>, expr: Expr) -> Result<List<Stmt>, AllocError>
    ensures { IfOk result (λ it. map plain-Statement it ≡ map plain-Statement held ++ blocks.does (plain-Expr expr) ∷ []) }
{
    pushed(held, Stmt::Runs(expr))
}

/// The mark of a point as a statement behind others.
fn mark_behind(alloc: Global, held: List<Stmt>, point: Point) -> Result<List<Stmt>, AllocError>
    ensures { IfOk result (λ it. map plain-Statement it ≡ map plain-Statement held ++ blocks.does (marks.mark (plain-Point point)) ∷ []) }
{
    runs_behind(held, mark(alloc, point))
}

/// A use of a variable where the run is entered.
#[tactic(auto, using(rx_typed::proofs::Rules::typed_tree_rules))]
fn use_of(alloc: Global, variable: u32) -> Expr
    ensures { blocks.does (plain-Expr result) ≡ marks.using variable }
{
    let place = Place {
        var: variable,
        steps: List::new(alloc),
    };
    Expr {
        mark: at_node(number(Point::Enters)),
        form: Form::Read(false, place),
    }
}

/// The mark of where the run is entered, and a use of each of these variables, behind other statements.
pub(crate) fn entering(
    alloc: Global,
    held: List<Stmt>,
    used: &[u32],
) -> Result<List<Stmt>, AllocError>
    ensures { IfOk result (λ it. map plain-Statement it ≡ map plain-Statement held ++ marks.entering used.now) }
{
    let mut all = mark_behind(alloc, held, Point::Enters)?;
    for variable in used {
        all = runs_behind(all, use_of(alloc, *variable))?;
    }
    Ok(all)
}

/// The mark of the run's end, behind other statements, where the run has not the block's tail.
pub(crate) fn ended(alloc: Global, held: List<Stmt>, tail: bool) -> Result<List<Stmt>, AllocError>
    ensures { IfOk result (λ it. map plain-Statement it ≡ map plain-Statement held ++ marks.ended tail) }
{
    if tail {
        Ok(held)
    } else {
        mark_behind(alloc, held, Point::Leaves(Exit::Next))
    }
}

/// A block of these statements and this tail.
#[tactic(auto, using(crate::proofs::Shapes::block_rules))]
pub(crate) fn block_of(
    alloc: Global,
    mark: Mark,
    statements: List<Stmt>,
    last: Expr,
) -> Result<Expr, AllocError>
    ensures { IfOk result (λ it. plain-Expr it ≡ tree.block (plain-Mark mark) (blocks.before (map plain-Statement statements) (tree.ends (plain-Expr last)))) }
{
    let (last, held) = keep((mark, statements), Boxed::new(alloc, last))?;
    let (mark, statements) = held;
    Ok(Expr {
        mark,
        form: Form::Block(statements, last),
    })
}

/// The unit.
#[tactic(auto, using(rx_typed::proofs::Rules::typed_tree_rules))]
pub(crate) fn unit_of(mark: Mark) -> Expr
    ensures { plain-Expr result ≡ tree.unit (plain-Mark mark) }
{
    Expr {
        mark,
        form: Form::Unit,
    }
}

fn two_marks(alloc: Global, mark: &Mark) -> Result<(Mark, Mark), AllocError>
    ensures { IfOk result (λ it. (it.0 ≡ mark.now) × (it.1 ≡ mark.now)) }
{
    let first = mark_copied(alloc, mark)?;
    let (second, first) = keep(first, mark_copied(alloc, mark))?;
    Ok((first, second))
}

/// The mark of a point, and an expression behind it.
#[tactic(auto, using(crate::proofs::Shapes::mark_rules))]
fn mark_then(alloc: Global, point: Point, expr: Expr) -> Result<Expr, AllocError>
    ensures { IfOk result (λ it. plain-Expr it ≡ marks.mark_then (plain-Point point) (plain-Expr expr)) }
{
    let copied = mark_copied(alloc, &expr.mark);
    let (outer, expr) = keep(expr, copied)?;
    let first = mark_behind(alloc, List::new(alloc), point);
    let (first, held) = keep((outer, expr), first)?;
    let (outer, expr) = held;
    block_of(alloc, outer, first, expr)
}

/// An expression, and the mark of a point behind it: its value is dropped.
#[tactic(auto, using(crate::proofs::Shapes::mark_rules))]
pub(crate) fn then_mark(alloc: Global, point: Point, expr: Expr) -> Result<Expr, AllocError>
    ensures { IfOk result (λ it. plain-Expr it ≡ marks.then_mark (plain-Point point) (plain-Expr expr)) }
{
    let copied = two_marks(alloc, &expr.mark);
    let (copied, expr) = keep(expr, copied)?;
    let (first, copied) = keep(copied, runs_behind(List::new(alloc), expr))?;
    let (first, copied) = keep(copied, mark_behind(alloc, first, point))?;
    let (outer, inner) = copied;
    block_of(alloc, outer, first, unit_of(inner))
}

/// Whether the loop is one of these.
fn is_loop_of(number: u32, loops: &[u32]) -> bool
    ensures { result ≡ marks.is_among number loops.now }
{
    for other in loops {
        if number == *other {
            return true;
        }
    }
    false
}

/// How a jump leaves.
fn exit_of(number: u32, again: bool) -> Exit
    ensures { plain-Exit result ≡ points.jump_exit number again }
{
    if again {
        Exit::Continue(number)
    } else {
        Exit::Break(number)
    }
}

/// Whether a jump out of this loop has a mark.
fn has_mark(change: Change<'_>, number: u32) -> bool
    ensures { (m : tree.Mark) (again : Bool) → (changes_of change.entry).at_jump m number again
        ≡ (if result then marks.mark_then (points.leaves (points.jump_exit number again)) (tree.jump m number again) else tree.jump m number again) }
{
    match change {
        Change::Keep => false,
        Change::Mark(loops) => is_loop_of(number, loops),
        Change::MarkAt(_, _, _) => false,
        Change::CutAt(_) => false,
    }
}

#[tactic(auto, using(rx_typed::proofs::Rules::typed_tree_rules))]
fn jump_copied(alloc: Global, mark: &Mark, number: u32, again: bool) -> Result<Expr, AllocError>
    ensures { IfOk result (λ it. plain-Expr it ≡ tree.jump (plain-Mark mark.now) number again) }
{
    let mark = mark_copied(alloc, mark)?;
    Ok(Expr {
        mark,
        form: Form::Jump(number, again),
    })
}

/// A `break` or `continue`.
pub(crate) fn jump(
    alloc: Global,
    mark: &Mark,
    number: u32,
    again: bool,
    change: Change<'_>,
) -> Result<Expr, AllocError>
    ensures { IfOk result (λ it. plain-Expr it ≡ (changes_of change.entry).at_jump (plain-Mark mark.now) number again) }
{
    let jump = jump_copied(alloc, mark, number, again)?;
    if has_mark(change, number) {
        mark_then(alloc, Point::Leaves(exit_of(number, again)), jump)
    } else {
        Ok(jump)
    }
}

/// The operand of a `return`.
pub(crate) fn returned(alloc: Global, value: Expr, change: Change<'_>) -> Result<Expr, AllocError>
    ensures { IfOk result (λ it. plain-Expr it ≡ (changes_of change.entry).at_return (plain-Expr value)) }
{
    match change {
        Change::Keep => Ok(value),
        Change::Mark(_) => then_mark(alloc, Point::Leaves(Exit::Return), value),
        Change::MarkAt(_, _, _) => Ok(value),
        Change::CutAt(_) => Ok(value),
    }
}

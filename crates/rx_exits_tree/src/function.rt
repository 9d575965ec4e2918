//! Copies of functions for a run.

ghost use Rattle.std.specs.Prelude.{◌≡◌, IfOk};
ghost use Rattle.rx_typed.specs.PlainTree.{plain-TypedTree};
ghost use Rattle.rx_exits_plan.specs.PlainPlan.{plain-Run};
ghost use Rattle.rx_exits_plan.specs.Changed.{changed_function};
ghost use Rattle.rx_exits_plan.specs.Marked as marks;
ghost use Rattle.rx_modes_uses.specs.Outside.{cutting};
ghost use Rattle.rx_exits_tree.specs.Changing.{changes_of};

use crate::changes::Change;
use crate::copying::params_copied;
use crate::forms::expression;
use rx_core::keep;
use rx_exits_plan::Run;
use rx_typed::TypedTree;
use std::alloc::{AllocError, Global};

fn function(alloc: Global, tree: &TypedTree, change: Change<'_>) -> Result<TypedTree, AllocError>
    ensures { IfOk result (λ it. plain-TypedTree it ≡ changed_function (changes_of change.entry) (plain-TypedTree tree.now)) }
{
    let params = params_copied(alloc, &tree.params)?;
    let (body, params) = keep(params, expression(alloc, &tree.body, change))?;
    Ok(TypedTree { params, body })
}

/// The function with marks at the points of the run, by the loops around the run; a walk that enters the run uses each of
/// these variables there.
pub fn marked(
    alloc: Global,
    tree: &TypedTree,
    run: Run,
    loops: &[u32],
    used: &[u32],
) -> Result<TypedTree, AllocError>
    ensures { IfOk result (λ it. plain-TypedTree it ≡ marks.marked (plain-Run run) loops.now used.now (plain-TypedTree tree.now)) }
{
    function(alloc, tree, Change::MarkAt(run, loops, used))
}

/// The function without the run: where the run has its block's tail, the unit stands there.
pub fn without_run(alloc: Global, tree: &TypedTree, run: Run) -> Result<TypedTree, AllocError>
    ensures { IfOk result (λ it. plain-TypedTree it ≡ changed_function (cutting (plain-Run run)) (plain-TypedTree tree.now)) }
{
    function(alloc, tree, Change::CutAt(run))
}

//! What a run, the rest of its function and the whole function do to each variable.

ghost use Rattle.std.specs.Prelude.{◌≡◌, ℕ, IfOk};
ghost use Rattle.rx_typed.specs.PlainTree.{plain-TypedTree};
ghost use Rattle.rx_lower_walks.specs.Orders.{order_function};
ghost use Rattle.rx_lower_walks.specs.Walks.{actions_in};
ghost use Rattle.rx_exits_plan.specs.Changed.{changed_function};
ghost use Rattle.rx_exits_plan.specs.Plan.{run_actions};
ghost use Rattle.rx_exits_plan.specs.PlainPlan.{plain-Run};
ghost use Rattle.rx_exits_plan.specs.PlainSyntax.{plain-Home};
ghost use Rattle.rx_modes_uses.specs.Outside.{cutting};
ghost use Rattle.rx_modes_deeds.specs.Doings.{AreDeeds, deeds_at};

use rx_core::LetGo;
use rx_exits_plan::{Home, Run};
use rx_exits_tree::{alone_has_the_actions_of_the_run, run_alone, without_run};
use rx_lower_order::flow_of;
use rx_modes_deeds::{Deeds, deeds_in};
use rx_typed::TypedTree;
use std::alloc::{AllocError, Global};

/// What a function does, by variable.
pub(crate) fn function_deeds(alloc: Global, tree: &TypedTree) -> Result<Vec<Deeds>, AllocError>
    ensures { IfOk result (λ it. (x : ℕ) → AreDeeds (actions_in (order_function (plain-TypedTree tree.now))) x (deeds_at it.items x)) }
{
    match flow_of(alloc, tree) {
        Ok(flow) => {
            let deeds = deeds_in(alloc, &flow);
            flow.let_go();
            deeds
        }
        Err(_) => Err(AllocError),
    }
}

/// What a run does, by variable.
pub(crate) fn run_deeds(alloc: Global, home: &Home<'_>, run: Run) -> Result<Vec<Deeds>, AllocError>
    ensures { IfOk result (λ it. (x : ℕ) → AreDeeds (run_actions (plain-Run run) (plain-Home home.now).body) x (deeds_at it.items x)) }
{
    alone_has_the_actions_of_the_run();
    match run_alone(alloc, home.stmts, home.tail, run) {
        Ok(tree) => {
            let deeds = function_deeds(alloc, &tree);
            tree.let_go();
            deeds
        }
        Err(_) => Err(AllocError),
    }
}

/// What a function without the run does, by variable.
pub(crate) fn outside_deeds(
    alloc: Global,
    tree: &TypedTree,
    run: Run,
) -> Result<Vec<Deeds>, AllocError>
    ensures { IfOk result (λ it. (x : ℕ) → AreDeeds (actions_in (order_function (changed_function (cutting (plain-Run run)) (plain-TypedTree tree.now)))) x (deeds_at it.items x)) }
{
    match without_run(alloc, tree, run) {
        Ok(rest) => {
            let deeds = function_deeds(alloc, &rest);
            rest.let_go();
            deeds
        }
        Err(_) => Err(AllocError),
    }
}

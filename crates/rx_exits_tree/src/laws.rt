//! Laws, each the contract of a function that does nothing.

ghost use Rattle.std.specs.Prelude.{◌≡◌};
ghost use Rattle.rx_typed.specs.Tree.{Body};
ghost use Rattle.rx_lower_walks.specs.Orders.{order_function};
ghost use Rattle.rx_lower_walks.specs.Walks.{actions_in};
ghost use Rattle.rx_exits_plan.specs.Runs.{Run};
ghost use Rattle.rx_exits_plan.specs.Plan.{run_actions};
ghost use Rattle.rx_exits_tree.specs.Alone.{alone};

/// The run alone has the actions of the run, in their order.
pub fn alone_has_the_actions_of_the_run()
    ensures { (r : Run) (b : Body) → actions_in (order_function (alone r b)) ≡ run_actions r b }
{}

//! Laws of walks, each the contract of a function that does nothing.

ghost use Rattle.std.specs.Prelude.{◌++◌, ◌⊎◌, List as ListOf};
ghost use Rattle.rx_lower_walks.specs.Actions.{Action};
ghost use Rattle.rx_lower_walks.specs.Orders.{Order};
ghost use Rattle.rx_lower_walks.specs.Walks.{Out, stopped, Walk, actions_in, Among, EndsVariable};

/// A part may stop anywhere: each front of a walk is a walk.
pub fn fronts_are_walks()
    ensures { (s : Order) (us vs : ListOf Action) (o : Out) → Walk s (us ++ vs) o → Walk s us stopped }
{}

/// What a walk of a part holds is an action of the part, or ends a variable.
pub fn walks_hold_their_actions()
    ensures { (s : Order) (w : ListOf Action) (o : Out) → Walk s w o → (a : Action) → Among a w → Among a (actions_in s) ⊎ EndsVariable a.act }
{}

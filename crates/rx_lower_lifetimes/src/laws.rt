//! Laws of types, each the contract of a function that does nothing.

ghost use Rattle.std.specs.Prelude.{◌≡◌, true, Some};
ghost use Rattle.rx_typed.specs.Tree.{Temporary};
ghost use Rattle.rx_lower_walks.specs.Actions.{Action, filled};
ghost use Rattle.rx_lower_walks.specs.Walks.{Among};
ghost use Rattle.rx_lower_lifetimes.specs.Values.{is_held};
ghost use Rattle.rx_lower_lifetimes.specs.Lowered.{Function, actions, temporaries};

/// Each temporary that a site of a function fills is among its temporaries, and so has a type.
pub fn filled_temporaries_have_types()
    ensures { (F : Function) (a : Action) (d : Temporary) → Among a (actions F) → filled a.act ≡ Some d → is_held (temporaries F) d ≡ true }
{}

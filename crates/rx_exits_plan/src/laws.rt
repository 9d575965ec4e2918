//! Laws of plans, each the contract of a function that does nothing.

ghost use Rattle.std.specs.Prelude.{◌≡◌, ◌⊎◌, ℕ};
ghost use Rattle.rx_lower_walks.specs.Walks.{Among};
ghost use Rattle.rx_exits_plan.specs.Points.{Exit};
ghost use Rattle.rx_exits_plan.specs.Asked.{Asked};
ghost use Rattle.rx_exits_plan.specs.Plan.{Plan, IsPlan, foreign_of};
ghost use Rattle.rx_exits_plan.specs.Unreachable.{At, Unreachable, SameCase};
ghost use Rattle.rx_exits_plan.specs.MixedInit.{MixedInit};
ghost use Rattle.rx_exits_plan.specs.PartlyMoved.{PartlyMoved};

/// A run has one plan.
pub fn plans_are_one()
    ensures exits { (A : Asked) (k m : Plan) → IsPlan A k → IsPlan A m → k.exits ≡ m.exits }
    ensures params { (A : Asked) (k m : Plan) → IsPlan A k → IsPlan A m → k.params ≡ m.params }
    ensures locals { (A : Asked) (k m : Plan) → IsPlan A k → IsPlan A m → k.locals ≡ m.locals }
    ensures outs { (A : Asked) (k m : Plan) → IsPlan A k → IsPlan A m → (e : Exit) → Among e k.exits → k.outs e ≡ m.outs e }
    ensures value { (A : Asked) (k m : Plan) → IsPlan A k → IsPlan A m → k.value ≡ m.value }
    ensures redeclared { (A : Asked) (k m : Plan) → IsPlan A k → IsPlan A m → k.redeclared ≡ m.redeclared }
    ensures loose { (A : Asked) (k m : Plan) → IsPlan A k → IsPlan A m → k.loose ≡ m.loose }
{}

/// Each variable from outside that a run names is a param or a local, unless it is neither set nor unset for sure, or there in part.
pub fn variables_are_params_or_locals()
    ensures { (A : Asked) (k : Plan) (x : ℕ) → IsPlan A k → Among x (foreign_of A) → ¬ (MixedInit A x) → ¬ (PartlyMoved A k x) → Among x k.params ⊎ Among x k.locals }
{}

/// Of the three cases in which a run is not reached one holds at most.
pub fn cases_are_one()
    ensures { (A : Asked) (a b : At) → Unreachable A a → Unreachable A b → SameCase a b }
{}

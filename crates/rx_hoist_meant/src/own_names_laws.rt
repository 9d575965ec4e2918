//! Laws, each the contract of a function that does nothing.

ghost use Rattle.std.specs.Prelude.{◌≡◌, ◌⊎◌, ℕ, List, [], get_or, Some};
ghost use Rattle.rx_lower_walks.specs.Walks.{Among};
ghost use Rattle.rx_exits_plan.specs.Points.{Exit, next};
ghost use Rattle.rx_exits_plan.specs.Asked.{Asked};
ghost use Rattle.rx_exits_plan.specs.Runs.{Sits};
ghost use Rattle.rx_exits_plan.specs.Exits.{Jump, jumps, at_start, at_end};
ghost use Rattle.rx_exits_plan.specs.Plan.{Plan, IsPlan};
ghost use Rattle.rx_exits_plan.specs.Shadowed.{meant};
ghost use Rattle.rx_exits.specs.Refusing.{NoneShadowed, same_name};
ghost use Rattle.rx_hoist_meant.specs.NamesMeant.{NamesMeant};

/// Where no name of an out means another variable at its exit, the name of an out means that out there: at each jump of the exit, and
/// at the run's end. So two outs of one exit have different names.
pub fn outs_have_their_own_names()
    ensures at_jumps { (A : Asked) (k : Plan) (names : List (List ℕ)) → NoneShadowed A k (same_name names)
        → (j : Jump) → Among j (jumps A.run A.home) → (x : ℕ) → Among x (k.outs j.exit) → meant (same_name names) x j.scope ≡ Some x }
    ensures at_the_end { (A : Asked) (k : Plan) (names : List (List ℕ)) → NoneShadowed A k (same_name names)
        → Among next k.exits → (x : ℕ) → Among x (k.outs next) → meant (same_name names) x (at_end A.run A.home).scope ≡ Some x }
    ensures apart { (A : Asked) (k : Plan) (names : List (List ℕ)) → IsPlan A k → NoneShadowed A k (same_name names)
        → (e : Exit) → Among e k.exits → (x y : ℕ) → Among x (k.outs e) → Among y (k.outs e) → get_or names x [] ≡ get_or names y [] → x ≡ y }
{}

/// In a function in which each name means what it names, the name of a param or of a local means that variable where the run is
/// entered. So two of them have different names.
pub fn params_and_locals_have_their_own_names()
    ensures meant { (A : Asked) (k : Plan) (names : List (List ℕ)) → Sits A.function A.run A.home → NamesMeant (same_name names) A.function → IsPlan A k
        → (x : ℕ) → Among x k.params ⊎ Among x k.locals → meant (same_name names) x (at_start A.run A.home).scope ≡ Some x }
    ensures apart { (A : Asked) (k : Plan) (names : List (List ℕ)) → Sits A.function A.run A.home → NamesMeant (same_name names) A.function → IsPlan A k
        → (x y : ℕ) → Among x k.params ⊎ Among x k.locals → Among y k.params ⊎ Among y k.locals → get_or names x [] ≡ get_or names y [] → x ≡ y }
{}

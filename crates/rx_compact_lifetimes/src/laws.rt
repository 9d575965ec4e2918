//! Laws, each the contract of a function that does nothing.

ghost use Rattle.std.specs.Prelude.{◌≡◌, ℕ, true, Bool, [], map, get_or};
ghost use Rattle.rx_tree.specs.Plain.{Function};
ghost use Rattle.rx_compact_lifetimes.specs.Bare.{bare_function};
ghost use Rattle.rx_compact_lifetimes.specs.Merged.{are_equal, merged, first_numbers, IsPreorder};
ghost use Rattle.rx_graph_cycles.specs.Reaches.{IsIn};
ghost use Rattle.rx_hoist_extraction.specs.Names.{Distinct};
ghost use Rattle.rx_hoist_extraction.specs.OwnLifetimes.{declared_lifetimes};
ghost use Rattle.rx_compact_lifetimes.specs.Elided.{elided};

/// A function whose lifetimes are made one, or left out, is the same apart from lifetimes.
pub fn all_but_lifetimes_stays()
    ensures merged { (outlives : ℕ → ℕ → Bool) (f : Function) → bare_function (merged outlives f) ≡ bare_function f }
    ensures elided { (single : Bool) (f : Function) → bare_function (elided single f) ≡ bare_function f }
{}

/// The lifetimes that are left where those that are equal are one: the declared ones to which none before is equal, in order. No two of
/// them are equal.
pub fn first_lifetimes_stay()
    ensures names { (outlives : ℕ → ℕ → Bool) → IsPreorder outlives → (f : Function) → Distinct (declared_lifetimes f)
        → declared_lifetimes (merged outlives f) ≡ map (λ l. get_or (declared_lifetimes f) l []) (first_numbers outlives 0 f.lifetimes) }
    ensures apart { (outlives : ℕ → ℕ → Bool) (f : Function) (l k : ℕ) → IsIn (first_numbers outlives 0 f.lifetimes) l → IsIn (first_numbers outlives 0 f.lifetimes) k
        → are_equal outlives l k ≡ true → l ≡ k }
{}

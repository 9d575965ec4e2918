//! Laws of solutions, each the contract of a function that does nothing.

ghost use Rattle.std.specs.Prelude.{◌≡◌, ℕ, List as ListOf, true};
ghost use Rattle.rx_lower_walks.specs.Graph.{Site};
ghost use Rattle.rx_region.specs.Constraints.{Context};
ghost use Rattle.rx_region.specs.Solutions.{Point, Sets, Solution, both, Least, AreLeast};

/// Solutions are closed under intersection.
pub fn solutions_meet()
    ensures { (C : Context) (g : ListOf Site) (R S : Sets) → Solution C g R → Solution C g S → Solution C g (both R S) }
{}

/// Sets that have exactly the points of the least are a solution, and each solution has these.
pub fn least_are_a_solution()
    ensures serves { (C : Context) (g : ListOf Site) (R : Sets) → AreLeast C g R → Solution C g R }
    ensures least { (C : Context) (g : ListOf Site) (R : Sets) → Solution C g R → (l : ℕ) (x : Point) → Least C g l x → R l x ≡ true }
{}

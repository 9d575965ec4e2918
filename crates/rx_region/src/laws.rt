//! Laws of constraints, each the contract of a function that does nothing.

ghost use Rattle.std.specs.Prelude.{◌↔◌, ℕ, List as ListOf};
ghost use Rattle.rx_lower_walks.specs.Graph.{Site};
ghost use Rattle.rx_region.specs.Constraints.{Context};
ghost use Rattle.rx_region.specs.Known.{Missing};
ghost use Rattle.rx_region.specs.Solutions.{Sets, Solution};
ghost use Rattle.rx_region.specs.Tables.{Asks, MeetsConstraints, Keeps};
ghost use Rattle.rx_region.specs.declared.outlives.Outlives.{Outlives as OutlivesOf};

/// Sets are a solution exactly where they meet the constraints.
pub fn solutions_meet_constraints()
    ensures { (C : Context) (g : ListOf Site) (o : OutlivesOf) (R : Sets) → Asks C g o → Solution C g R ↔ MeetsConstraints o R }
{}

/// Where a pair is missing, no solution keeps to what is known.
pub fn missing_pairs_are_needed()
    ensures { (C : Context) (g : ListOf Site) (R : Sets) (l k : ℕ) → Solution C g R → Keeps C R → Missing C g l k → ⊥ }
{}

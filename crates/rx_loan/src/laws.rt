//! Laws of acceptance, each the contract of a function that does nothing.

ghost use Rattle.std.specs.Prelude.{ℕ, List};
ghost use Rattle.rx_lower_walks.specs.Graph.{Site};
ghost use Rattle.rx_region.specs.Constraints.{Context};
ghost use Rattle.rx_region.specs.Solutions.{Sets, AreLeast};
ghost use Rattle.rx_region.specs.Known.{Missing};
ghost use Rattle.rx_loan.specs.Answer.{IsForbidden};
ghost use Rattle.rx_loan.specs.Accepted.{AcceptedBy, IsAccepted};

/// Where some sets accept a function's lifetimes and loans, the least do.
pub fn fewest_are_accepted()
    ensures { (C : Context) (g : List Site) (R S : Sets) → AcceptedBy C g R → AreLeast C g S → AcceptedBy C g S }
{}

/// A function of which a pair is missing, or some access meets a conflicting loan in scope under the least sets, is not accepted.
pub fn accepted_or_refused()
    ensures missing { (C : Context) (g : List Site) (l k : ℕ) → Missing C g l k → IsAccepted C g → ⊥ }
    ensures forbidden { (C : Context) (g : List Site) (b p : ℕ) → IsForbidden C g b p → IsAccepted C g → ⊥ }
{}

//! Laws of loans, each the contract of a function that does nothing.

ghost use Rattle.std.specs.Prelude.{◌≡◌, ◌<◌, ℕ, Bool, true, List, length};
ghost use Rattle.rx_lower_walks.specs.Actions.{Action};
ghost use Rattle.rx_lower_walks.specs.Graph.{Site};
ghost use Rattle.rx_facts_tables.specs.Along.{Arrives};
ghost use Rattle.rx_loan.specs.Accesses.{Loan};
ghost use Rattle.rx_loan.specs.Loans.{InScope, IsLegal};

/// Some way leads from a loan's borrow to each site at which it is in scope, and such a site is in its region.
pub fn loans_lie_behind_their_borrows()
    ensures way { (g : List Site) (R : ℕ → ℕ → Bool) (l : Loan) (p : ℕ) → InScope g R l p → (us : List Action) × Arrives g l.site us p }
    ensures inside { (g : List Site) (R : ℕ → ℕ → Bool) (l : Loan) (p : ℕ) → InScope g R l p → R l.region p ≡ true }
{}

/// What is legal where lifetimes have more sites is legal where they have fewer: so if some sets that serve are legal, the least
/// are.
pub fn fewer_sites_are_legal()
    ensures { (g : List Site) (R S : ℕ → ℕ → Bool) (ls : List Loan) → ((r p : ℕ) → p < length g → R r p ≡ true → S r p ≡ true) → IsLegal g S ls → IsLegal g R ls }
{}

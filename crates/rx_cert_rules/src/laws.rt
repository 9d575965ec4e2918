//! Laws of the rules, each the contract of a function that does nothing.

ghost use Rattle.std.specs.Prelude.{◌≡◌, ℕ, Bool, List, Option};
ghost use Rattle.rx_core.specs.declared.types.Bound.{Bound};
ghost use Rattle.rx_core.specs.declared.types.Ty.{Ty};
ghost use Rattle.rx_typed.specs.declared.declarations.Decl.{Decl};
ghost use Rattle.rx_typed.specs.Tree.{Function};
ghost use Rattle.rx_lower_lifetimes.specs.Lowered.{lifetimes, function_of};
ghost use Rattle.rx_lower_lifetimes.specs.Variables.{Written};
ghost use Rattle.rx_lower_walks.specs.Graph.{Site};
ghost use Rattle.rx_region.specs.Constraints.{Context};
ghost use Rattle.rx_region.specs.Solutions.{Sets, AreLeast};
ghost use Rattle.rx_loan.specs.Accepted.{AcceptedBy, IsAccepted};
ghost use Rattle.rx_cert_rules.specs.Rules.{Good};
ghost use Rattle.rx_cert_rules.specs.Verdicts.{FirstBroken, AreScopes};
ghost use Rattle.rx_cert_rules.specs.Written.{Numbered};

/// Sets that keep the four rules accept the function, whoever wrote them.
pub fn good_is_accepted()
    ensures { (C : Context) (g : List Site) (R : Sets) (W : ℕ → ℕ → Bool) → Good C g R W → AcceptedBy C g R }
{}

/// The least sets of an accepted function, and the sites at which its loans are in scope under them, keep the four rules.
pub fn least_is_good()
    ensures { (C : Context) (g : List Site) (R : Sets) (W : ℕ → ℕ → Bool) → IsAccepted C g → AreLeast C g R → AreScopes C g R W → Good C g R W }
{}

/// A function's written sets keep the rules or break one first, and no two.
pub fn one_verdict()
    ensures broken { (C : Context) (g : List Site) (R : Sets) (W : ℕ → ℕ → Bool) (n : ℕ) → Good C g R W → FirstBroken C g R W n → ⊥ }
    ensures one { (C : Context) (g : List Site) (R : Sets) (W : ℕ → ℕ → Bool) (m n : ℕ) → FirstBroken C g R W m → FirstBroken C g R W n → m ≡ n }
{}

/// The lifetimes of a function's types, and its own, are among those that are counted.
pub fn lifetimes_are_numbered()
    ensures { (D : List Decl) (P : ℕ → List Bound) (f : ℕ) (b : Function) (raws : List (Option Ty)) (ws : List Written)
        → Numbered (record { items = D; implied = P; lifetimes = lifetimes (function_of D f b raws ws) }) }
{}

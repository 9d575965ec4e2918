//! Laws of loans and walks, each the contract of a function that does nothing.

ghost use Rattle.std.specs.Prelude.{◌↔◌, ℕ, Bool, List as ListOf};
ghost use Rattle.rx_core.specs.declared.types.Span.{Span};
ghost use Rattle.rx_tree.specs.Plain.{Function as FunctionTree};
ghost use Rattle.rx_resolve_names.specs.declared.resolved.NodeNames.{NodeNames};
ghost use Rattle.rx_typed.specs.Tree.{Function};
ghost use Rattle.rx_typed.specs.Naming.{function_named};
ghost use Rattle.rx_typed.specs.Elaborated.{Assigned, elaborated};
ghost use Rattle.rx_lower_walks.specs.Walks.{Among};
ghost use Rattle.rx_lower_walks.specs.Graph.{Site, EachOnce};
ghost use Rattle.rx_lower_walks.specs.Pieces.{graph};
ghost use Rattle.rx_lower_walks.specs.Text.{actions_of};
ghost use Rattle.rx_lower_lifetimes.specs.Numbered.{Own};
ghost use Rattle.rx_loan.specs.Accesses.{Loan};
ghost use Rattle.rx_loan.specs.Loans.{loans_of, InScope, IsLegal};
ghost use Rattle.rx_loan_laws.specs.ScopesOnWalks.{InScopeOnSomeWalk, LegalOnWalks};
ghost use Rattle.rx_loan_laws.specs.Borrows.{IsBorrowed};

use rx_lower_walks::actions_are_distinct;

/// A loan is in scope at a site exactly where some walk holds the action of its borrow and later that of the site, each site behind
/// the borrow up to there is in the loan's region, and nothing in between writes a prefix of its place. Clause `typed` is of the
/// functions of typed programs, clause `once` of any function no two of whose sites have the same action.
pub fn scopes_are_told_by_walks()
    ensures once { (f : Function) → EachOnce (actions_of (graph f)) → (R : ℕ → ℕ → Bool) (l : Loan) (p : ℕ) → InScope (graph f) R l p ↔ InScopeOnSomeWalk f R l p }
    ensures typed { (A : Assigned) (i : ℕ) (at : Span) (f : FunctionTree) (ns : ListOf NodeNames) (R : ℕ → ℕ → Bool) (l : Loan) (p : ℕ)
        → InScope (graph (elaborated A (function_named i at f ns))) R l p ↔ InScopeOnSomeWalk (elaborated A (function_named i at f ns)) R l p }
{
    actions_are_distinct();
}

/// No access meets a conflicting loan in scope, told over sites, exactly where none does on any walk.
pub fn legality_is_told_by_walks()
    ensures once { (f : Function) → EachOnce (actions_of (graph f)) → (R : ℕ → ℕ → Bool) (ls : ListOf Loan) → IsLegal (graph f) R ls ↔ LegalOnWalks f R ls }
    ensures typed { (A : Assigned) (i : ℕ) (at : Span) (f : FunctionTree) (ns : ListOf NodeNames) (R : ℕ → ℕ → Bool) (ls : ListOf Loan)
        → IsLegal (graph (elaborated A (function_named i at f ns))) R ls ↔ LegalOnWalks (elaborated A (function_named i at f ns)) R ls }
{
    actions_are_distinct();
}

/// The loans of sites are those of their borrows: of the place that is borrowed, mutable where the borrow is, and with the lifetime
/// that is the site's own for a region.
pub fn loans_are_borrows()
    ensures { (g : ListOf Site) (os : ListOf Own) (l : Loan) → Among l (loans_of g os) ↔ IsBorrowed g os l }
{}

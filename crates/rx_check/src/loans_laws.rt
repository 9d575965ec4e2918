//! Laws of the passes over lifetimes and loans, each the contract of a function that does nothing.

ghost use Rattle.std.specs.Prelude.{ℕ, List};
ghost use Rattle.rx_core.specs.declared.types.Bound.{Bound};
ghost use Rattle.rx_tree.specs.Plain.{ProgramTree};
ghost use Rattle.rx_resolve_names.specs.declared.resolved.ItemNames.{ItemNames};
ghost use Rattle.rx_typed.specs.declared.declarations.Decl.{Decl};
ghost use Rattle.rx_typeck_typed.specs.declared.typed.Typed.{Typed};
ghost use Rattle.rx_typeck_typed.specs.declared.typed.TypedFn.{TypedFn};
ghost use Rattle.rx_typeck_typed.specs.Typing.{IsTyped};
ghost use Rattle.rx_region.specs.Solutions.{Sets, AreLeast};
ghost use Rattle.rx_facts.specs.Functions.{sites_of};
ghost use Rattle.rx_check.specs.Contexts.{AreAsked, context_of};
ghost use Rattle.rx_check.specs.Answers.{AllBorrow, FirstLacks, FirstMeets};
ghost use Rattle.rx_check.specs.declared.regions.RegionFault.{RegionFault};
ghost use Rattle.rx_check.specs.declared.loans.LoanFault.{LoanFault};

use rx_facts::one_typing;

/// The least sets of a function are the same by any lists of the pairs that fields ask.
pub fn any_pairs_serve()
    ensures { (D : List Decl) (P Q : ℕ → List Bound) → AreAsked D P → AreAsked D Q → (f : TypedFn) (R : Sets)
        → AreLeast (context_of D P f) (sites_of f) R → AreLeast (context_of D Q f) (sites_of f) R }
{}

/// What is said of lifetimes and loans by one typed program of a text is said by any other.
pub fn one_judgement()
    ensures accepted { (p : ProgramTree) (names : List ItemNames) (t u : Typed) → IsTyped p names t → IsTyped p names u → AllBorrow t → AllBorrow u }
    ensures lacks { (p : ProgramTree) (names : List ItemNames) (t u : Typed) (e : RegionFault) → IsTyped p names t → IsTyped p names u → FirstLacks t e → FirstLacks u e }
    ensures meets { (p : ProgramTree) (names : List ItemNames) (t u : Typed) (e : LoanFault) → IsTyped p names t → IsTyped p names u → FirstMeets t e → FirstMeets u e }
{
    one_typing();
}

//! Laws, each the contract of a function that does nothing.

ghost use Rattle.std.specs.Prelude.{◌≡◌, ◌↔◌, ℕ, List, map, Some, slice_get};
ghost use Rattle.rx_core.specs.declared.types.Bound.{Bound};
ghost use Rattle.rx_core.specs.declared.types.Ty.{Ty};
ghost use Rattle.rx_tree.specs.Plain.{ProgramTree};
ghost use Rattle.rx_tree.specs.Size.{IsNumbered};
ghost use Rattle.rx_typed.specs.declared.declarations.Decl.TheVariants as decl;
ghost use Rattle.rx_typeck_typed.specs.Typing.{IsTyped};
ghost use Rattle.rx_typeck_typed.specs.declared.typed.Typed.{Typed};
ghost use Rattle.rx_facts.specs.Passing.{Each};
ghost use Rattle.rx_check.specs.Contexts.{AreAsked};
ghost use Rattle.rx_compact.specs.Compacted.{IsCompacted};
ghost use Rattle.rx_compact_types.specs.ShortTyped.{ShortProgram};
ghost use Rattle.rx_compact_accepted.specs.Alike.{OthersAlike, KnowTheSame, LetsStayAt, AcceptedAlike};
ghost use Rattle.rx_lower_walks.specs.Graph.{Site};
ghost use Rattle.rx_lower_walks.specs.Text.{actions_of};
ghost use Rattle.rx_region.specs.Constraints.{Context};
ghost use Rattle.rx_loan.specs.Loans.{loans_of};
ghost use Rattle.rx_loan.specs.Accepted.{IsAccepted};
ghost use Rattle.rx_repair.specs.Renaming.{loan_renamed};
ghost use Rattle.rx_compact_laws.specs.MergedLifetimes.{AreMerged};

use rx_compact_passes::short_signatures_pass_alike;
use rx_repair::{items_get_their_types, typed_functions_fit};
use rx_typeck_typed::{all_have_types, declared_are_finite, signatures_are_well_formed};
use rx_typed_declarations::one_size_each;

/// A function of which lifetimes become one that are asked, or known, to outlive each other, and whose loans go on for as long by the new
/// numbers, is accepted exactly where it was.
pub fn merged_functions_are_accepted_alike()
    ensures { (f : ℕ → ℕ) (old new : Context) (g : List Site) → AreMerged f old new (actions_of g)
        → loans_of g new.lifetimes.owned ≡ map (loan_renamed f) (loans_of g old.lifetimes.owned) → IsAccepted old g ↔ IsAccepted new g }
{}

/// Where a function has a short signature, all other functions are accepted exactly where they were: a call asks its bounds of the
/// lifetimes that it has in their places, and those that became one were asked to outlive each other.
pub fn callers_of_short_signatures_are_accepted_alike()
    ensures { (p : ProgramTree) (i : ℕ) (q : ProgramTree) (c : IsCompacted p i q) → IsNumbered p → (s : ShortProgram p i q c.names c.declared)
        → (n : ℕ) (ps : List Ty) (answer : Ty) (bs : List Bound) → slice_get c.declared i ≡ Some (decl.Func n ps answer bs) → (t u : Typed) → IsTyped p c.names t → IsTyped q s.news u
        → (P : ℕ → List Bound) → AreAsked t.decls.items P → Each (OthersAlike t.decls.items u.decls.items P i) t.functions u.functions }
{
    declared_are_finite();
    one_size_each();
    signatures_are_well_formed();
    typed_functions_fit();
    items_get_their_types();
}

/// As much is known of the lifetimes of a short signature as of those that they were.
pub fn short_signatures_know_the_same()
    ensures { (p : ProgramTree) (i : ℕ) (q : ProgramTree) (c : IsCompacted p i q) → IsNumbered p → (s : ShortProgram p i q c.names c.declared)
        → (n : ℕ) (ps : List Ty) (answer : Ty) (bs : List Bound) (at : slice_get c.declared i ≡ Some (decl.Func n ps answer bs)) (t u : Typed) → IsTyped p c.names t → IsTyped q s.news u
        → KnowTheSame t.decls.items u.decls.items i (s.declares.function n ps answer bs at).0 }
{
    declared_are_finite();
    one_size_each();
    signatures_are_well_formed();
    typed_functions_fit();
    items_get_their_types();
}

/// The `let`s of the function write the types of before by the new numbers of its lifetimes.
pub fn lets_of_short_signatures_stay()
    ensures { (p : ProgramTree) (i : ℕ) (q : ProgramTree) (c : IsCompacted p i q) → IsNumbered p → (s : ShortProgram p i q c.names c.declared)
        → (n : ℕ) (ps : List Ty) (answer : Ty) (bs : List Bound) (at : slice_get c.declared i ≡ Some (decl.Func n ps answer bs)) (t u : Typed) → IsTyped p c.names t → IsTyped q s.news u
        → Each (LetsStayAt t.decls.items u.decls.items i (s.declares.function n ps answer bs at).0) t.functions u.functions }
{
    declared_are_finite();
    one_size_each();
    signatures_are_well_formed();
    typed_functions_fit();
    items_get_their_types();
}

/// A program with a short signature is accepted where the given one is; and back, where the passes up to initialisation accept the given
/// one: it may pass the limit of lifetime positions, of which the other has fewer.
pub fn short_signatures_are_accepted_alike()
    ensures { (p : ProgramTree) (i : ℕ) (q : ProgramTree) (c : IsCompacted p i q) → IsNumbered p → (s : ShortProgram p i q c.names c.declared)
        → (n : ℕ) (ps : List Ty) (answer : Ty) (bs : List Bound) → slice_get c.declared i ≡ Some (decl.Func n ps answer bs) → (t u : Typed) → IsTyped p c.names t → IsTyped q s.news u
        → AcceptedAlike p q t u }
{
    declared_are_finite();
    one_size_each();
    signatures_are_well_formed();
    all_have_types();
    typed_functions_fit();
    items_get_their_types();
    short_signatures_pass_alike();
}

/// A program with a short signature can be numbered in 32 bits where the given one can.
pub fn short_programs_are_numbered()
    ensures { (p : ProgramTree) (i : ℕ) (q : ProgramTree) → IsCompacted p i q → IsNumbered p → IsNumbered q }
{}

//! Laws of bounds, each the contract of a function that does nothing.

ghost use Rattle.std.specs.Prelude.{◌≡◌, ◌≢◌, ◌↔◌, ◌<◌, ◌++◌, ℕ, Bool, true, List, [], length, slice_get};
ghost use Rattle.rx_core.specs.declared.types.Bound.{Bound};
ghost use Rattle.rx_typed.specs.declared.declarations.Decl.{Decl};
ghost use Rattle.rx_tree.specs.Plain.{ProgramTree};
ghost use Rattle.rx_tree.specs.Size.{IsNumbered};
ghost use Rattle.rx_resolve_names.specs.declared.resolved.ItemNames.{ItemNames};
ghost use Rattle.rx_resolve_names.specs.Causes.{Meant};
ghost use Rattle.rx_typed_declarations.specs.WellFormed.{bounds_fit};
ghost use Rattle.rx_lower_walks.specs.Walks.{Among};
ghost use Rattle.rx_lower_lifetimes.specs.Values.{lifetimes_of};
ghost use Rattle.rx_typeck_typed.specs.Typing.{IsTyped};
ghost use Rattle.rx_typeck_typed.specs.declared.typed.Typed.{Typed};
ghost use Rattle.rx_typeck_typed.specs.declared.typed.TypedFn.{TypedFn};
ghost use Rattle.rx_lower_walks.specs.Graph.{Site};
ghost use Rattle.rx_lower_walks.specs.Text.{actions_of};
ghost use Rattle.rx_graph_closure.specs.Listing.{pairs_below};
ghost use Rattle.rx_region_outlives.specs.Implied.{HasPair};
ghost use Rattle.rx_region.specs.Constraints.{Context};
ghost use Rattle.rx_region.specs.Solutions.{Point, Sets, Solution, Least, AreLeast};
ghost use Rattle.rx_region.specs.Known.{Missing};
ghost use Rattle.rx_region.specs.Tables.{Follows};
ghost use Rattle.rx_loan.specs.Accesses.{Loan};
ghost use Rattle.rx_loan.specs.Loans.{loans_of, InScope, MeetsLoan, IsLegal};
ghost use Rattle.rx_loan.specs.Accepted.{at_sites};
ghost use Rattle.rx_facts.specs.Functions.{sites_of};
ghost use Rattle.rx_check.specs.Contexts.{AreAsked, context_of};
ghost use Rattle.rx_check.specs.Functions.{Borrows};
ghost use Rattle.rx_check.specs.Answers.{AllBorrow};
ghost use Rattle.rx_repair.specs.Asking.{AsksNoMore};
ghost use Rattle.rx_repair.specs.Bounded.{with_bounds, IsFunction, IsBounded};
ghost use Rattle.rx_repair.specs.Calls.{CallsNotItself};
ghost use Rattle.rx_repair.specs.Signatures.{signature_says};
ghost use Rattle.rx_repair.specs.LeastBounds.{by_types, IsLeastBound, InOrder, AreLeastBounds};

use rx_typeck_typed::signatures_are_well_formed;

/// There are least sets.
pub fn least_sets_exist()
    ensures { (C : Context) (g : List Site) → (R : Sets) × AreLeast C g R }
{}

/// Where less is asked more sets serve, the least have fewer points, loans are in scope at fewer sites, and more is legal.
pub fn fewer_pairs_ask_less()
    ensures solutions { (C K : Context) (g : List Site) (R : Sets) → AsksNoMore C K (actions_of g) → Solution K g R → Solution C g R }
    ensures least { (C K : Context) (g : List Site) → AsksNoMore C K (actions_of g) → (l : ℕ) (x : Point) → Least C g l x → Least K g l x }
    ensures scopes { (C K : Context) (g : List Site) (R S : Sets) → AsksNoMore C K (actions_of g) → AreLeast C g R → AreLeast K g S
        → (l : Loan) (p : ℕ) → p < length g → InScope g (at_sites R) l p → InScope g (at_sites S) l p }
    ensures legal { (C K : Context) (g : List Site) (R S : Sets) → AsksNoMore C K (actions_of g) → AreLeast C g R → AreLeast K g S
        → (ls : List Loan) → IsLegal g (at_sites S) ls → IsLegal g (at_sites R) ls }
{}

/// A function that isn't called in its own body has the same solutions under all bounds of its own, so the same least sets, and the
/// same least bounds.
pub fn own_bounds_ask_nothing()
    ensures solutions { (D : List Decl) (P : ℕ → List Bound) (f : TypedFn) (bs : List Bound) → CallsNotItself f → (R : Sets)
        → Solution (context_of D P f) (sites_of f) R ↔ Solution (context_of (with_bounds D f.item bs) P f) (sites_of f) R }
    ensures least { (D : List Decl) (P : ℕ → List Bound) (f : TypedFn) (bs : List Bound) → CallsNotItself f → (l : ℕ) (x : Point)
        → Least (context_of D P f) (sites_of f) l x ↔ Least (context_of (with_bounds D f.item bs) P f) (sites_of f) l x }
    ensures needed { (D : List Decl) (P : ℕ → List Bound) (f : TypedFn) (bs : List Bound) → CallsNotItself f → (l k : ℕ)
        → IsLeastBound (context_of D P f) (sites_of f) l k ↔ IsLeastBound (context_of (with_bounds D f.item bs) P f) (sites_of f) l k }
{}

/// A function has one list of least bounds. Where it declares no bounds, they are the pairs that are missing. Pairs below a number are
/// listed in the order of least bounds.
pub fn least_bounds_are_missing()
    ensures exist { (C : Context) (g : List Site) → (bs : List Bound) × AreLeastBounds C g bs }
    ensures one { (C : Context) (g : List Site) (bs cs : List Bound) → AreLeastBounds C g bs → AreLeastBounds C g cs → bs ≡ cs }
    ensures missing { (C : Context) (g : List Site) → C.lifetimes.bounds ≡ [] → (l k : ℕ) → IsLeastBound C g l k ↔ Missing C g l k }
    ensures in_order { (f : ℕ → ℕ → Bool) (n : ℕ) → InOrder (pairs_below f n) }
{}

/// A function that isn't called in its own body, and in which no access meets a conflicting loan in scope under the least sets, is
/// accepted under bounds exactly where each least bound follows from these and from what its types make known: so it is accepted under
/// the least. Where some access meets one, it is accepted under no bounds.
pub fn accepted_where_least_bounds_follow()
    ensures exactly { (D : List Decl) (P : ℕ → List Bound) (f : TypedFn) (bs : List Bound) (R : Sets) → CallsNotItself f → IsFunction (slice_get D f.item)
        → AreLeast (context_of D P f) (sites_of f) R → IsLegal (sites_of f) (at_sites R) (loans_of (sites_of f) (context_of D P f).lifetimes.owned)
        → Borrows (with_bounds D f.item bs) P f ↔ ((l k : ℕ) → IsLeastBound (context_of D P f) (sites_of f) l k → Follows (bs ++ by_types (context_of D P f)) l k) }
    ensures refused { (D : List Decl) (P : ℕ → List Bound) (f : TypedFn) (bs : List Bound) (R : Sets) → CallsNotItself f
        → AreLeast (context_of D P f) (sites_of f) R → (l : Loan) (p : ℕ) → MeetsLoan (sites_of f) (at_sites R) (loans_of (sites_of f) (context_of D P f).lifetimes.owned) l p
        → Borrows (with_bounds D f.item bs) P f → ⊥ }
    ensures fewest { (D : List Decl) (P : ℕ → List Bound) (f : TypedFn) (bs least : List Bound) → CallsNotItself f → IsFunction (slice_get D f.item)
        → AreLeastBounds (context_of D P f) (sites_of f) least → Borrows (with_bounds D f.item bs) P f → Borrows (with_bounds D f.item least) P f }
{}

/// Where the new bounds of a function follow from what its signature says, each other function that is accepted is so still: a call asks
/// no more than it did.
pub fn callers_are_accepted()
    ensures { (D : List Decl) (P : ℕ → List Bound) (i : ℕ) (bs : List Bound) → ((l k : ℕ) → HasPair bs l k → Follows (signature_says P (slice_get D i)) l k)
        → (f : TypedFn) → f.item ≢ i → Borrows D P f → Borrows (with_bounds D i bs) P f }
{}

/// In a typed program, with a function that isn't called in its own body: where the program is accepted with any bounds of this
/// function's lifetimes in the place of its own, it is accepted with the least.
pub fn least_bounds_serve()
    ensures { (p : ProgramTree) (names : List ItemNames) (q : Typed) → IsNumbered p → Meant p names → IsTyped p names q
        → (f : TypedFn) → Among f q.functions → CallsNotItself f
        → (P : ℕ → List Bound) → AreAsked q.decls.items P → (least : List Bound) → AreLeastBounds (context_of q.decls.items P f) (sites_of f) least
        → (bs : List Bound) → bounds_fit (lifetimes_of (slice_get q.decls.items f.item)) bs ≡ true
        → (t u : Typed) → IsBounded q f.item bs t → IsBounded q f.item least u → AllBorrow t → AllBorrow u }
{
    signatures_are_well_formed();
}

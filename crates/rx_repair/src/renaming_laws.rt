//! Laws, each the contract of a function that does nothing.

ghost use Rattle.std.specs.Prelude.{◌≡◌, ◌↔◌, ℕ, List, map};
ghost use Rattle.rx_typed.specs.Renaming.{bound_renamed};
ghost use Rattle.rx_lower_walks.specs.Graph.{Site};
ghost use Rattle.rx_lower_walks.specs.Text.{actions_of};
ghost use Rattle.rx_region.specs.Constraints.{Context, imposed};
ghost use Rattle.rx_region.specs.Solutions.{Point, Sets, Solution, Least};
ghost use Rattle.rx_region.specs.Known.{Missing};
ghost use Rattle.rx_loan.specs.Accesses.{Loan};
ghost use Rattle.rx_loan.specs.Loans.{loans_of, InScope, IsLegal};
ghost use Rattle.rx_loan.specs.Accepted.{at_sites, IsAccepted};
ghost use Rattle.rx_repair.specs.LeastBounds.{IsLeastBound};
ghost use Rattle.rx_repair.specs.Renaming.{Renaming, context_renamed, own_renamed, point_renamed, sets_renamed, loan_renamed};
ghost use Rattle.rx_repair.specs.Fitting.{Fits};
ghost use Rattle.rx_repair.specs.Making.{AreOfItems, ValuesAre, ItemsAre};
ghost use Rattle.std.specs.Prelude.{Some as SomeOf};
ghost use Rattle.rx_typed.specs.declared.declarations.Decl.{Decl};
ghost use Rattle.rx_typed.specs.Regions.{erased};
ghost use Rattle.rx_typed.specs.Types.{Typ};
ghost use Rattle.rx_typed.specs.Tree.{Temporary};
ghost use Rattle.rx_lower_walks.specs.Actions.{Action, filled};
ghost use Rattle.rx_lower_lifetimes.specs.Lowered.{known};
ghost use Rattle.rx_lower.specs.Functions.{function};
ghost use Rattle.rx_region.specs.Constraints.{held as held_by_type};
ghost use Rattle.rx_core.specs.declared.types.Bound.{Bound};
ghost use Rattle.rx_tree.specs.Plain.{ProgramTree};
ghost use Rattle.rx_tree.specs.Size.{IsNumbered};
ghost use Rattle.rx_resolve_names.specs.declared.resolved.ItemNames.{ItemNames};
ghost use Rattle.rx_resolve_names.specs.Causes.{Meant};
ghost use Rattle.rx_lower_walks.specs.Walks.{Among};
ghost use Rattle.rx_typeck_typed.specs.Typing.{IsTyped};
ghost use Rattle.rx_typeck_typed.specs.declared.typed.Typed.{Typed};
ghost use Rattle.rx_typeck_typed.specs.declared.typed.TypedFn.{TypedFn};
ghost use Rattle.rx_facts.specs.Functions.{sites_of};
ghost use Rattle.rx_check.specs.Contexts.{context_of};
ghost use Rattle.rx_check.specs.Functions.{Borrows};

use rx_lower_lifetimes::filled_temporaries_have_types;
use rx_lower_walks::sites_stand_in_order;
use rx_typeck_typed::{declared_are_well_formed, signatures_are_well_formed, sizes_are_sized};

/// A function whose lifetimes have other numbers is accepted exactly where it is: the same is asked of these, so it has the same
/// solutions, the same least sets, the same pairs that are missing, the same least bounds, and the same loans, in scope at the same
/// sites, each by the new numbers.
pub fn renamings_change_no_verdict()
    ensures asked { (C : Context) (g : List Site) → Fits C (actions_of g) → (r : Renaming C.lifetimes.own)
        → imposed (context_renamed r.to C) (actions_of g) ≡ map (bound_renamed r.to) (imposed C (actions_of g)) }
    ensures solutions { (C : Context) (g : List Site) → Fits C (actions_of g) → (r : Renaming C.lifetimes.own) → (R : Sets)
        → Solution C g R ↔ Solution (context_renamed r.to C) g (sets_renamed r.from R) }
    ensures least { (C : Context) (g : List Site) → Fits C (actions_of g) → (r : Renaming C.lifetimes.own) → (l : ℕ) (x : Point)
        → Least C g l x ↔ Least (context_renamed r.to C) g (r.to l) (point_renamed r.to x) }
    ensures missing { (C : Context) (g : List Site) → Fits C (actions_of g) → (r : Renaming C.lifetimes.own) → (l k : ℕ)
        → Missing C g l k ↔ Missing (context_renamed r.to C) g (r.to l) (r.to k) }
    ensures bounds { (C : Context) (g : List Site) → Fits C (actions_of g) → (r : Renaming C.lifetimes.own) → (l k : ℕ)
        → IsLeastBound C g l k ↔ IsLeastBound (context_renamed r.to C) g (r.to l) (r.to k) }
    ensures loans { (C : Context) (g : List Site) (r : Renaming C.lifetimes.own)
        → loans_of g (context_renamed r.to C).lifetimes.owned ≡ map (loan_renamed r.to) (loans_of g C.lifetimes.owned) }
    ensures scopes { (C : Context) (g : List Site) (r : Renaming C.lifetimes.own) (R : Sets) (l : Loan) (p : ℕ)
        → InScope g (at_sites R) l p ↔ InScope g (at_sites (sets_renamed r.from R)) (loan_renamed r.to l) p }
    ensures legal { (C : Context) (g : List Site) (r : Renaming C.lifetimes.own) (R : Sets)
        → IsLegal g (at_sites R) (loans_of g C.lifetimes.owned) ↔ IsLegal g (at_sites (sets_renamed r.from R)) (loans_of g (context_renamed r.to C).lifetimes.owned) }
    ensures accepted { (C : Context) (g : List Site) → Fits C (actions_of g) → (r : Renaming C.lifetimes.own)
        → IsAccepted C g ↔ IsAccepted (context_renamed r.to C) g }
{}

/// A temporary has the type of what fills it: where each site of a function makes a value of the type of the temporary that it fills, and
/// those that were filled before have theirs, all have. So each struct or enum that it makes goes to a temporary of its type, where this
/// is so by the types that are told.
pub fn values_have_the_types_of_temporaries()
    ensures held { (D : List Decl) (P : ℕ → List Bound) (f : TypedFn) (T : Temporary → Typ) → ValuesAre (known (function D f)) T (actions_of (sites_of f))
        → (a : Action) (d : Temporary) → Among a (actions_of (sites_of f)) → filled a.act ≡ SomeOf d → erased (held_by_type (context_of D P f) d) ≡ T d }
    ensures items { (D : List Decl) (P : ℕ → List Bound) (f : TypedFn) (T : Temporary → Typ) → ValuesAre (known (function D f)) T (actions_of (sites_of f))
        → ItemsAre T (actions_of (sites_of f)) → AreOfItems (context_of D P f) (actions_of (sites_of f)) }
{
    filled_temporaries_have_types();
}

/// Each function of a typed program whose names have a meaning fits, where each struct or enum that it makes goes to a temporary of its type.
pub fn typed_functions_fit()
    ensures { (p : ProgramTree) (names : List ItemNames) (t : Typed) → IsNumbered p → Meant p names → IsTyped p names t → (f : TypedFn) → Among f t.functions → (P : ℕ → List Bound)
        → AreOfItems (context_of t.decls.items P f) (actions_of (sites_of f)) → Fits (context_of t.decls.items P f) (actions_of (sites_of f)) }
{
    declared_are_well_formed();
    signatures_are_well_formed();
    sizes_are_sized();
    sites_stand_in_order();
}

/// So a renaming of its lifetimes changes no verdict: the same pairs are missing, the same bounds are the least, and it is accepted
/// exactly where it was.
pub fn typed_verdicts_are_kept()
    ensures missing { (p : ProgramTree) (names : List ItemNames) (t : Typed) → IsNumbered p → Meant p names → IsTyped p names t → (f : TypedFn) → Among f t.functions → (P : ℕ → List Bound)
        → AreOfItems (context_of t.decls.items P f) (actions_of (sites_of f)) → (r : Renaming (context_of t.decls.items P f).lifetimes.own) → (l k : ℕ)
        → Missing (context_of t.decls.items P f) (sites_of f) l k ↔ Missing (context_renamed r.to (context_of t.decls.items P f)) (sites_of f) (r.to l) (r.to k) }
    ensures bounds { (p : ProgramTree) (names : List ItemNames) (t : Typed) → IsNumbered p → Meant p names → IsTyped p names t → (f : TypedFn) → Among f t.functions → (P : ℕ → List Bound)
        → AreOfItems (context_of t.decls.items P f) (actions_of (sites_of f)) → (r : Renaming (context_of t.decls.items P f).lifetimes.own) → (l k : ℕ)
        → IsLeastBound (context_of t.decls.items P f) (sites_of f) l k ↔ IsLeastBound (context_renamed r.to (context_of t.decls.items P f)) (sites_of f) (r.to l) (r.to k) }
    ensures accepted { (p : ProgramTree) (names : List ItemNames) (t : Typed) → IsNumbered p → Meant p names → IsTyped p names t → (f : TypedFn) → Among f t.functions → (P : ℕ → List Bound)
        → AreOfItems (context_of t.decls.items P f) (actions_of (sites_of f)) → (r : Renaming (context_of t.decls.items P f).lifetimes.own)
        → Borrows t.decls.items P f ↔ IsAccepted (context_renamed r.to (context_of t.decls.items P f)) (sites_of f) }
{
    renamings_change_no_verdict();
    typed_functions_fit();
}

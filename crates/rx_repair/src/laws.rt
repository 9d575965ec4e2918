//! Laws, each the contract of a function that does nothing.

ghost use Rattle.std.specs.Prelude.{◌↔◌, ℕ, List};
ghost use Rattle.rx_core.specs.declared.types.Bound.{Bound};
ghost use Rattle.rx_tree.specs.Plain.{ProgramTree};
ghost use Rattle.rx_tree.specs.Size.{IsNumbered};
ghost use Rattle.rx_resolve_names.specs.declared.resolved.ItemNames.{ItemNames};
ghost use Rattle.rx_resolve_names.specs.Causes.{Meant};
ghost use Rattle.rx_lower_walks.specs.Walks.{Among};
ghost use Rattle.rx_lower_walks.specs.Text.{actions_of};
ghost use Rattle.rx_typeck_typed.specs.Typing.{IsTyped};
ghost use Rattle.rx_typeck_typed.specs.declared.typed.Typed.{Typed};
ghost use Rattle.rx_typeck_typed.specs.declared.typed.TypedFn.{TypedFn};
ghost use Rattle.rx_region.specs.Known.{Missing};
ghost use Rattle.rx_loan.specs.Accepted.{IsAccepted};
ghost use Rattle.rx_facts.specs.Functions.{sites_of};
ghost use Rattle.rx_check.specs.Contexts.{context_of};
ghost use Rattle.rx_check.specs.Functions.{Borrows};
ghost use Rattle.rx_repair.specs.LeastBounds.{IsLeastBound};
ghost use Rattle.rx_repair.specs.Renaming.{Renaming, context_renamed};
ghost use Rattle.rx_repair.specs.Making.{AreOfItems};

use crate::typed_verdicts_are_kept;
use rx_lower_lifetimes::filled_temporaries_have_types;
use rx_lower_walks::sites_stand_in_order;
use rx_typed::numbers_stand_in_order;

/// Each struct or enum that a function of a typed program makes goes to a temporary of its type: the branches of an `if` or a `match`,
/// and whatever else fills it, are of one type.
pub fn items_get_their_types()
    ensures { (p : ProgramTree) (names : List ItemNames) (t : Typed) → IsTyped p names t → (f : TypedFn) → Among f t.functions → (P : ℕ → List Bound)
        → AreOfItems (context_of t.decls.items P f) (actions_of (sites_of f)) }
{
    numbers_stand_in_order();
    sites_stand_in_order();
    filled_temporaries_have_types();
}

/// So a renaming of the lifetimes of such a function, where names have a meaning, changes no verdict: the same pairs are missing, the
/// same bounds are the least, and it is accepted exactly where it was.
pub fn verdicts_are_kept()
    ensures missing { (p : ProgramTree) (names : List ItemNames) (t : Typed) → IsNumbered p → Meant p names → IsTyped p names t → (f : TypedFn) → Among f t.functions → (P : ℕ → List Bound)
        → (r : Renaming (context_of t.decls.items P f).lifetimes.own) → (l k : ℕ)
        → Missing (context_of t.decls.items P f) (sites_of f) l k ↔ Missing (context_renamed r.to (context_of t.decls.items P f)) (sites_of f) (r.to l) (r.to k) }
    ensures bounds { (p : ProgramTree) (names : List ItemNames) (t : Typed) → IsNumbered p → Meant p names → IsTyped p names t → (f : TypedFn) → Among f t.functions → (P : ℕ → List Bound)
        → (r : Renaming (context_of t.decls.items P f).lifetimes.own) → (l k : ℕ)
        → IsLeastBound (context_of t.decls.items P f) (sites_of f) l k ↔ IsLeastBound (context_renamed r.to (context_of t.decls.items P f)) (sites_of f) (r.to l) (r.to k) }
    ensures accepted { (p : ProgramTree) (names : List ItemNames) (t : Typed) → IsNumbered p → Meant p names → IsTyped p names t → (f : TypedFn) → Among f t.functions → (P : ℕ → List Bound)
        → (r : Renaming (context_of t.decls.items P f).lifetimes.own)
        → Borrows t.decls.items P f ↔ IsAccepted (context_renamed r.to (context_of t.decls.items P f)) (sites_of f) }
{
    typed_verdicts_are_kept();
    items_get_their_types();
}

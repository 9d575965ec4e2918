//! Laws of facts at sites, each the contract of a function that does nothing.

ghost use Rattle.std.specs.Prelude.{◌≡◌, ◌↔◌, ℕ, Bool, List as ListOf, ◌∷◌, [], ◌++◌, Some};
ghost use Rattle.rx_core.specs.declared.types.Span.{Span};
ghost use Rattle.rx_tree.specs.Plain.{Function as FunctionTree, ProgramTree};
ghost use Rattle.rx_resolve_names.specs.declared.resolved.ItemNames.{ItemNames};
ghost use Rattle.rx_resolve_names.specs.declared.resolved.NodeNames.{NodeNames};
ghost use Rattle.rx_typed.specs.Tree.{Function, Place, Root};
ghost use Rattle.rx_typed.specs.Naming.{function_named};
ghost use Rattle.rx_typed.specs.Elaborated.{Assigned, elaborated};
ghost use Rattle.rx_lower_walks.specs.Actions.{Action};
ghost use Rattle.rx_typed.specs.PlainTree.{plain-TypedTree};
ghost use Rattle.rx_typed.specs.PlainTypes.{declarations};
ghost use Rattle.rx_typeck_typed.specs.Typing.{IsTyped};
ghost use Rattle.rx_typeck_typed.specs.declared.typed.Typed.{Typed};
ghost use Rattle.rx_typeck_typed.specs.declared.typed.TypedFn.{TypedFn};
ghost use Rattle.rx_lower_walks.specs.Walks.{IsWalk, Among};
ghost use Rattle.rx_lower_walks.specs.Graph.{Site, site_at, EachOnce};
ghost use Rattle.rx_lower_walks.specs.Pieces.{graph};
ghost use Rattle.rx_lower_walks.specs.Text.{actions_of};
ghost use Rattle.rx_facts_tables.specs.Along.{Arrives};
ghost use Rattle.rx_facts_tables.specs.Places.{Frame};
ghost use Rattle.rx_facts_tables.specs.Live.{IsLive};
ghost use Rattle.rx_facts_tables.specs.Initialised.{Initialised, IsUnset, IsAgain, MayBeSet, MayBeUnset};
ghost use Rattle.rx_facts_laws.specs.LiveOnWalks.{LiveOnSomeWalk};
ghost use Rattle.rx_facts_laws.specs.SetOnWalks.{SetOnSomeWalk, UnsetOnSomeWalk};
ghost use Rattle.rx_facts_laws.specs.SameTables.{HaveSameTables};
ghost use Rattle.rx_facts_laws.specs.TreesOfTables.{IsOfTables};

use rx_lower_walks::actions_are_distinct;
use rx_typeck_typed::declared_are_finite;
use rx_typed_declarations::one_size_each;

/// Two typed programs of one text have the same tables, to the last entry, and the same polarities recorded.
pub fn one_table()
    ensures { (p : ProgramTree) (names : ListOf ItemNames) (t u : Typed) → IsTyped p names t → IsTyped p names u → HaveSameTables t u }
{
    declared_are_finite();
    one_size_each();
}

/// The typed tree of a function is the one that its tables of types make: so the coercions of its sites are those that
/// are read of the tables.
pub fn trees_are_of_tables()
    ensures { (p : ProgramTree) (names : ListOf ItemNames) (t : Typed) → IsTyped p names t → (f : TypedFn) → Among f t.functions → IsOfTables p names (declarations t.decls.items) f }
{}

/// No two sites of a function of a typed program have the same action. So clause `once` of the laws below is true of it.
pub fn typed_actions_are_distinct()
    ensures { (p : ProgramTree) (names : ListOf ItemNames) (t : Typed) → IsTyped p names t → (f : TypedFn) → Among f t.functions
        → EachOnce (actions_of (graph (plain-TypedTree f.tree))) }
{
    actions_are_distinct();
}

/// A function that has a fault of initialisation is not initialised.
pub fn faults_exclude_initialised()
    ensures unset { (F : Frame) (muts : ListOf Bool) (f : Function) (n : ℕ) (p : Place) → IsUnset F f n p → Initialised F muts f → ⊥ }
    ensures again { (F : Frame) (muts : ListOf Bool) (f : Function) (n x : ℕ) → IsAgain muts f n x → Initialised F muts f → ⊥ }
{}

/// The ways to a site, with the actions that they take before, are the walks that hold the site's action last. Clause `typed` is
/// of the functions of typed programs, clause `once` of any function no two of whose sites have the same action.
pub fn arrivals_are_walks()
    ensures once { (f : Function) → EachOnce (actions_of (graph f)) → (p : ℕ) (s : Site) → site_at (graph f) p ≡ Some s → (w : ListOf Action)
        → Arrives (graph f) 0 w p ↔ IsWalk f (w ++ s.action ∷ []) }
    ensures typed { (A : Assigned) (i : ℕ) (at : Span) (f : FunctionTree) (ns : ListOf NodeNames) (p : ℕ) (s : Site)
        → site_at (graph (elaborated A (function_named i at f ns))) p ≡ Some s → (w : ListOf Action)
        → Arrives (graph (elaborated A (function_named i at f ns))) 0 w p ↔ IsWalk (elaborated A (function_named i at f ns)) (w ++ s.action ∷ []) }
{
    actions_are_distinct();
}

/// A variable or a temporary is live at a site exactly where some walk holds the site's action, and there or later an action
/// that uses it, and none from the site up to that use writes the whole of it.
pub fn live_is_told_by_walks()
    ensures once { (f : Function) → EachOnce (actions_of (graph f)) → (r : Root) (p : ℕ) → IsLive (graph f) r p ↔ LiveOnSomeWalk f r p }
    ensures typed { (A : Assigned) (i : ℕ) (at : Span) (f : FunctionTree) (ns : ListOf NodeNames) (r : Root) (p : ℕ)
        → IsLive (graph (elaborated A (function_named i at f ns))) r p ↔ LiveOnSomeWalk (elaborated A (function_named i at f ns)) r p }
{
    actions_are_distinct();
}

/// Some part of a place may be set, or unset, at a site exactly where it is in front of the site's action on some walk.
pub fn may_be_is_told_by_walks()
    ensures set { (F : Frame) (A : Assigned) (i : ℕ) (at : Span) (f : FunctionTree) (ns : ListOf NodeNames) (q : Place) (p : ℕ) (s : Site)
        → site_at (graph (elaborated A (function_named i at f ns))) p ≡ Some s
        → MayBeSet F (graph (elaborated A (function_named i at f ns))) q p ↔ SetOnSomeWalk F (elaborated A (function_named i at f ns)) q s.action }
    ensures unset { (F : Frame) (A : Assigned) (i : ℕ) (at : Span) (f : FunctionTree) (ns : ListOf NodeNames) (q : Place) (p : ℕ) (s : Site)
        → site_at (graph (elaborated A (function_named i at f ns))) p ≡ Some s
        → MayBeUnset F (graph (elaborated A (function_named i at f ns))) q p ↔ UnsetOnSomeWalk F (elaborated A (function_named i at f ns)) q s.action }
{
    actions_are_distinct();
}

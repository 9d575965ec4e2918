//! Laws of graphs, each the contract of a function that does nothing.

ghost use Rattle.std.specs.Prelude.{◌≡◌, ℕ, List as ListOf, [], ◌∷◌, Some, ◌<◌, ◌↔◌, length};
ghost use Rattle.rx_core.specs.declared.types.Span.{Span};
ghost use Rattle.rx_tree.specs.Plain.{Function as FunctionTree};
ghost use Rattle.rx_resolve_names.specs.declared.resolved.NodeNames.{NodeNames};
ghost use Rattle.rx_typed.specs.Tree.{Function};
ghost use Rattle.rx_typed.specs.Naming.{function_named};
ghost use Rattle.rx_typed.specs.Elaborated.{Assigned, elaborated};
ghost use Rattle.rx_lower_walks.specs.Actions.{Action};
ghost use Rattle.rx_lower_walks.specs.Orders.{order_function};
ghost use Rattle.rx_lower_walks.specs.Walks.{IsWalk, IsSite, Follows, Among};
ghost use Rattle.rx_lower_walks.specs.Graph.{Site, site_at, Path, Comes, HasSite, Joins, EachOnce};
ghost use Rattle.rx_lower_walks.specs.Pieces.{part, graph};
ghost use Rattle.rx_lower_walks.specs.Text.{text, actions_of, Sublist};

use rx_typed::numbers_stand_in_order;

/// The paths of a function's graph from its site 0 are its walks.
pub fn paths_are_walks()
    ensures { (f : Function) (w : ListOf Action) → Path (graph f) (0 ∷ []) w ↔ IsWalk f w }
{}

/// Its sites are the actions that walks hold: some path comes to each. Their number is the size of the function's piece.
pub fn sites_are_held()
    ensures held { (f : Function) (a : Action) → HasSite (graph f) a ↔ IsSite f a }
    ensures reached { (f : Function) (i : ℕ) → i < length (graph f) → Comes (graph f) (0 ∷ []) i }
    ensures counted { (f : Function) → length (graph f) ≡ (part [] (order_function f)).size }
{}

/// One action may follow another in its graph exactly where it does in some walk.
pub fn neighbours_follow()
    ensures { (f : Function) (a b : Action) → Joins (graph f) a b ↔ Follows f a b }
{}

/// What may follow a site is a site, and stands there once.
pub fn next_are_sites()
    ensures below { (f : Function) (i : ℕ) (s : Site) → site_at (graph f) i ≡ Some s → (j : ℕ) → Among j s.next → j < length (graph f) }
    ensures once { (f : Function) (i : ℕ) (s : Site) → site_at (graph f) i ≡ Some s → EachOnce s.next }
{}

/// The sites stand in the order of the text.
pub fn sites_stand_in_order()
    ensures { (f : Function) → Sublist (actions_of (graph f)) (text f) }
{}

/// No two sites of a function have the same action: an action is told by its node and by what it does there.
pub fn actions_are_distinct()
    ensures once { (A : Assigned) (i : ℕ) (s : Span) (f : FunctionTree) (ns : ListOf NodeNames) → EachOnce (actions_of (graph (elaborated A (function_named i s f ns)))) }
    ensures told { (A : Assigned) (i : ℕ) (s : Span) (f : FunctionTree) (ns : ListOf NodeNames) (p q : ℕ) (v w : Site)
        → site_at (graph (elaborated A (function_named i s f ns))) p ≡ Some v → site_at (graph (elaborated A (function_named i s f ns))) q ≡ Some w
        → v.action ≡ w.action → p ≡ q }
{
    numbers_stand_in_order();
}

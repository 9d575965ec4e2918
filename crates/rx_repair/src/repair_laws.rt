//! Laws of the repair, each the contract of a function that does nothing.

ghost use Rattle.std.specs.Prelude.{◌≡◌, ◌≢◌, ℕ, List, [], Some, Ok};
ghost use Rattle.rx_core.specs.declared.types.Bound.{Bound};
ghost use Rattle.rx_core.specs.declared.types.Span.{Span};
ghost use Rattle.rx_tree.specs.Plain as plain;
ghost use Rattle.rx_tree.specs.Plain.{Function, ProgramTree};
ghost use Rattle.rx_tree.specs.declared.tree.BoundLifetime.{BoundLifetime};
ghost use Rattle.rx_tree.specs.Lists.{nth, Every};
ghost use Rattle.rx_tree.specs.Size.{IsNumbered};
ghost use Rattle.rx_resolve_names.specs.Items.{in_program};
ghost use Rattle.rx_resolve_names.specs.declared.resolved.ItemNames.{ItemNames};
ghost use Rattle.rx_typeck_typed.specs.declared.typed.Typed.{Typed};
ghost use Rattle.rx_typeck_typed.specs.declared.typed.TypedFn.{TypedFn};
ghost use Rattle.rx_typeck_typed.specs.Typing.{IsTyped};
ghost use Rattle.rx_lower.specs.Functions.{function_at};
ghost use Rattle.rx_check.specs.Contexts.{context_of};
ghost use Rattle.rx_hoist_extraction.specs.Names.{Distinct};
ghost use Rattle.rx_hoist_extraction.specs.Run.{Run};
ghost use Rattle.rx_hoist_extraction.specs.Plan.{Plan};
ghost use Rattle.rx_hoist_extraction.specs.Extraction.{extraction, new_number};
ghost use Rattle.rx_repair.specs.Named.{lifetimes_of, named_at};
ghost use Rattle.rx_repair.specs.Repaired.{repaired};

/// An extraction without bounds, repaired, is the extraction with these bounds, by the names of the new function's lifetimes: where these
/// have names and no two of them are the same.
pub fn repaired_is_extraction()
    ensures { (p : ProgramTree) (r : Run) (plan : Plan) (s : Span) (f : Function) (bounds : List Bound) → nth p r.item ≡ Some (plain.function_item s f)
        → Distinct (lifetimes_of (nth (extraction p r plan []) (new_number r plan)))
        → Every (λ (x : List ℕ). x ≢ []) (lifetimes_of (nth (extraction p r plan []) (new_number r plan)))
        → repaired (extraction p r plan []) (new_number r plan) bounds ≡ extraction p r plan (named_at (extraction p r plan []) (new_number r plan) bounds) }
{}

/// A program with bounds can be numbered in 32 bits where it can without them.
pub fn repaired_programs_are_numbered()
    ensures { (p : ProgramTree) (n : ℕ) (bounds : List Bound) → IsNumbered p → IsNumbered (repaired p n bounds) }
{}

/// A function item of a typed program has a typed function, by the item's number. Where its lifetimes have no bounds it declares none.
pub fn functions_without_bounds_declare_none()
    ensures found { (p : ProgramTree) (names : List ItemNames) (t : Typed) → IsTyped p names t → (n : ℕ) (s : Span) (f : Function) → nth p n ≡ Some (plain.function_item s f)
        → (g : TypedFn) × (function_at t.functions n ≡ Some g) }
    ensures none { (p : ProgramTree) (names : List ItemNames) (t : Typed) → IsTyped p names t → (n : ℕ) (s : Span) (f : Function) → nth p n ≡ Some (plain.function_item s f)
        → Every (λ (l : BoundLifetime). l.bounds ≡ []) f.lifetimes → (g : TypedFn) → function_at t.functions n ≡ Some g
        → (P : ℕ → List Bound) → (context_of t.decls.items P g).lifetimes.bounds ≡ [] }
{}

/// The lifetimes of a function of a program whose names have a meaning are no two the same.
pub fn lifetimes_are_distinct()
    ensures { (p : ProgramTree) (names : List ItemNames) → in_program p ≡ Ok names → (n : ℕ) → Distinct (lifetimes_of (nth p n)) }
{}

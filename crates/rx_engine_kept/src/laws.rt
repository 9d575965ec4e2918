//! Laws, each as the contract of a function that does nothing.

ghost use Rattle.std.specs.Prelude.{◌≡◌, ◌<◌, ◌≤◌, false, true, ℕ, length, List as ListOf, None, Ok, Some};
ghost use Rattle.rx_core.specs.declared.types.Span.{Span};
ghost use Rattle.rx_tree.specs.Lists.{nth, Every};
ghost use Rattle.rx_tree.specs.Plain as plain;
ghost use Rattle.rx_tree.specs.Plain.{Function, ItemTree, ProgramTree};
ghost use Rattle.rx_graph_cycles.specs.Reaches.{NoCycle};
ghost use Rattle.rx_resolve_names.specs.declared.resolved.ItemNames.{ItemNames};
ghost use Rattle.rx_resolve_names.specs.Causes.{Meant};
ghost use Rattle.rx_resolve_names.specs.Items.{in_item, in_program};
ghost use Rattle.rx_typed.specs.PlainTypes.{declarations};
ghost use Rattle.rx_typed.specs.Types.{keeps_limits, Declarations, Typ};
ghost use Rattle.rx_typed.specs.declared.declarations.Decl.{Decl};
ghost use Rattle.rx_typed_declarations.specs.Held.{held_by_each};
ghost use Rattle.rx_typed_declarations.specs.Sizes.{Sized};
ghost use Rattle.rx_typeck_typed.specs.Items.{declared_item};
ghost use Rattle.rx_typeck_typed.specs.Programs.{Declares};
ghost use Rattle.rx_hoist_extraction.specs.Run.{Run};
ghost use Rattle.rx_hoist_extraction.specs.Plan.{has_enum, Bounds, Plan};
ghost use Rattle.rx_hoist_extraction.specs.NewFunction.{passed_types};
ghost use Rattle.rx_hoist_extraction.specs.Extraction.{extraction};
ghost use Rattle.rx_hoist_extraction.specs.Limits.{end_types, first_past, made_levels, made_parts};
ghost use Rattle.rx_typeck_solver.specs.Facts.{KnownItems};
ghost use Rattle.rx_engine_blocks.specs.Renumbering.{shape_at, Renumbering};
ghost use Rattle.rx_engine_blocks.specs.Knows.{Knows};
ghost use Rattle.rx_engine_names.specs.Insertion.{Inserted};
ghost use Rattle.rx_engine_names.specs.NewNames.{AreFree};
ghost use Rattle.rx_engine_names.specs.NewPlan.{TypesNamed};
ghost use Rattle.rx_engine_kept.specs.EnumFits.{EnumFits};

use rx_typeck_typed::declared_are_finite;
use rx_typed_declarations::one_size_each;

/// An item whose types are read in a program has them read where new items stand behind a function, whatever its numbers.
pub fn items_that_stay_are_declared()
    ensures { (p q : ProgramTree) → Inserted p q → (n m : ℕ) (i : ItemTree) (t u : ItemNames) (d : Decl) → in_item p n i ≡ Ok t → in_item q m i ≡ Ok u → declared_item p t.names i ≡ Ok d
        → (e : Decl) × (declared_item q u.names i ≡ Ok e) }
{}

/// No declaration of an extraction is wrong where none of the program is and the names of both have meanings: its items have as many lifetimes as
/// they are to have, none is left out where none may be, each that the enum of exits declares occurs there, what is derived is right, the
/// main function is bare, and limits are kept. Asked: that its items can be numbered in 32 bits, and that the enum of exits keeps the limits.
pub fn extractions_declare()
    ensures { (p : ProgramTree) (r : Run) (plan : Plan) (bounds : Bounds) (s : Span) (f : Function) → nth p r.item ≡ Some (plain.function_item s f) → AreFree p plan → TypesNamed p plan
        → (ns ms : ListOf ItemNames) → in_program p ≡ Ok ns → Meant (extraction p r plan bounds) ms → (ds : ListOf Decl) → Declares p ns ds
        → length (extraction p r plan bounds) < 4294967296 → EnumFits (declarations ds) plan → (es : ListOf Decl) × Declares (extraction p r plan bounds) ms es }
{
    declared_are_finite();
}

/// Where no type that an extraction makes has too many levels, and none too many parts, its enum of exits keeps the limits of a declaration.
pub fn enums_of_exits_keep_the_limits()
    ensures { (D : Declarations) (plan : Plan) (parts : ℕ → ℕ) → NoCycle (held_by_each D) → Sized D parts → first_past 128 (made_levels plan) ≡ None → first_past 4096 (made_parts parts plan) ≡ None → EnumFits D plan }
{
    one_size_each();
}

/// Nor do the types of its new function pass the limits of types there: those of its parameters, and where there is no enum of exits
/// that of its result.
pub fn types_of_new_functions_keep_the_limits()
    ensures { (r : Renumbering) (D E : KnownItems) → Knows r D E → (plan : Plan) (parts : ℕ → ℕ) → ((i : ℕ) → D.sizes i ≤ parts i) → first_past 128 (made_levels plan) ≡ None → first_past 4096 (made_parts parts plan) ≡ None
        → Every (λ (t : Typ). keeps_limits E.sizes (shape_at r t) ≡ true) (passed_types plan.params) × (has_enum plan.exits ≡ false → Every (λ (t : Typ). keeps_limits E.sizes (shape_at r t) ≡ true) (end_types plan)) }
{}

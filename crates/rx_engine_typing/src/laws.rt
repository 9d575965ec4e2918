//! Laws of types, each as the contract of a function that does nothing.

ghost use Rattle.std.specs.Prelude.{◌≡◌, false, slice_get, Some, Ok, ℕ};
ghost use Rattle.rx_core.specs.declared.types.Span.{Span};
ghost use Rattle.rx_tree.specs.Plain as plain;
ghost use Rattle.rx_tree.specs.Plain.{ProgramTree};
ghost use Rattle.rx_tree.specs.Size.{IsNumbered};
ghost use Rattle.rx_resolve_names.specs.declared.resolved.ItemNames.{ItemNames};
ghost use Rattle.rx_resolve_names.specs.Items.{in_item};
ghost use Rattle.rx_typed.specs.Naming.{function_named};
ghost use Rattle.rx_typed.specs.Elaborated.{elaborated, Assigned};
ghost use Rattle.rx_typed.specs.Named.{Function};
ghost use Rattle.rx_typeck_solver.specs.Facts.{KnownItems, MeetsEach, Assignment};
ghost use Rattle.rx_typeck_solver.specs.Ordered.{Orderly};
ghost use Rattle.rx_typeck_solver.specs.Valid.{Valid};
ghost use Rattle.rx_typeck_typed.specs.Demands.{demands, task};
ghost use Rattle.rx_engine_blocks.specs.Renumbering.{Renumbering};
ghost use Rattle.rx_engine_blocks.specs.DemandsLike.{DemandsLike, NoSpecial};
ghost use Rattle.rx_engine_blocks.specs.Knows.{Knows};
ghost use Rattle.rx_engine_blocks.specs.Along.{renumbered_types, Inverse};
ghost use Rattle.rx_engine_simulation.specs.Openings.{no_openings};
ghost use Rattle.rx_engine_simulation.specs.Programs.{LikeFunction};
ghost use Rattle.rx_engine_typing.specs.Corresponding.{given_types, Corresponding, FieldsApart, StayApart};
ghost use Rattle.rx_engine_typing.specs.Scoped.{ScopedFunction};
ghost use Rattle.rx_engine_typing.specs.Renumbered.{known_before, no_holes, RenumberedFunction};

/// Of functions that are one by other numbers the rules ask the same, by these numbers.
pub fn renumbered_functions_ask_alike()
    ensures { (r : Renumbering) (loops : ℕ → ℕ) (f g : Function) → RenumberedFunction r loops no_holes f g → DemandsLike r NoSpecial (demands f) (demands g) }
{}

/// A function that is another by other numbers has the valid assignment by these numbers.
pub fn renumbered_functions_are_typed_alike()
    ensures { (r : Renumbering) (loops : ℕ → ℕ) (D E : KnownItems) → Knows r D E → (i : Inverse r) (f g : Function) → RenumberedFunction r loops no_holes f g → Orderly (task g)
        → (A : Assignment) → Valid D (task f) A → Valid E (task g) (renumbered_types r i A) }
{}

/// The typed trees of such functions are alike, where the types correspond, names of the first stand where they mean something, and its
/// types meet what the rules ask.
pub fn renumbered_functions_have_like_trees()
    ensures { (r : Renumbering) (loops : ℕ → ℕ) → StayApart r.variables → StayApart loops → (D : KnownItems) (A : Assignment) (T : Assigned) → Corresponding r (given_types D A) T → FieldsApart D.items
        → (f g : Function) → RenumberedFunction r loops no_holes f g → ScopedFunction f → MeetsEach D A (demands f) → LikeFunction r.items no_openings (record { turns = 0; strays = false }) (elaborated (given_types D A) f) (elaborated T g) }
{}

/// The same where variables may be `mut` in one of both alone or known in the second alone, and an assignment that gives a variable its type in the first may give none in
/// the second, since the type is known before and expected of the value.
pub fn functions_with_types_known_before_have_like_trees()
    ensures { (r : Renumbering) (loops : ℕ → ℕ) → StayApart r.variables → StayApart loops → (D : KnownItems) (A : Assignment) (T : Assigned) → Corresponding r (given_types D A) T → FieldsApart D.items
        → (f g : Function) → RenumberedFunction r loops known_before f g → ScopedFunction f → MeetsEach D A (demands f) → LikeFunction r.items no_openings (record { turns = 0; strays = false }) (elaborated (given_types D A) f) (elaborated T g) }
{}

/// In the tree with numbers of a function whose names have a meaning each variable stands in the scope of its pattern, each jump in its
/// loop, and each part of a place where a place is wanted, where the program can be numbered.
pub fn named_functions_are_scoped()
    ensures { (p : ProgramTree) → IsNumbered p → (j n i : ℕ) (s : Span) (f : plain.Function) → slice_get p j ≡ Some (plain.function_item s f) → (t : ItemNames) → in_item p n (plain.function_item s f) ≡ Ok t
        → ScopedFunction (function_named i s f t.names) }
{}

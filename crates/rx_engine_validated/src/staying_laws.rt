//! Laws of functions that stay, each as the contract of a function that does nothing.

ghost use Rattle.std.specs.Prelude.{◌≡◌, Bool, false, length, slice_get, Some, Ok, ℕ, List as ListOf};
ghost use Rattle.rx_core.specs.declared.types.Span.{Span};
ghost use Rattle.rx_tree.specs.Plain as plain;
ghost use Rattle.rx_tree.specs.Plain.{Function, ProgramTree};
ghost use Rattle.rx_tree.specs.Size.{IsNumbered};
ghost use Rattle.rx_resolve_names.specs.declared.resolved.ItemNames.{ItemNames};
ghost use Rattle.rx_resolve_names.specs.declared.resolved.NodeNames.{NodeNames};
ghost use Rattle.rx_resolve_names.specs.Causes.{Meant};
ghost use Rattle.rx_resolve_names.specs.Items.{in_item};
ghost use Rattle.rx_typed.specs.Naming.{function_named};
ghost use Rattle.rx_typed.specs.PlainTree.{plain-TypedTree};
ghost use Rattle.rx_typeck_typed.specs.declared.typed.Typed.{Typed};
ghost use Rattle.rx_typeck_typed.specs.declared.typed.TypedFn.{TypedFn};
ghost use Rattle.rx_typeck_typed.specs.Typing.{known_in, FunctionTyped, Given, IsTyped};
ghost use Rattle.rx_machine.specs.Functions.{program_of};
ghost use Rattle.rx_meaning.specs.Values.{element};
ghost use Rattle.rx_engine_names.specs.Alike.{same_numbers};
ghost use Rattle.rx_engine_names.specs.Insertion.{number_there, Inserted};
ghost use Rattle.rx_engine_names.specs.LikeNamed as alike;
ghost use Rattle.rx_engine_blocks.specs.Knows.{Knows};
ghost use Rattle.rx_engine_simulation.specs.Called.{a_turn, calls_of};
ghost use Rattle.rx_engine_simulation.specs.Openings.{no_openings};
ghost use Rattle.rx_engine_simulation.specs.Passing.{New};
ghost use Rattle.rx_engine_simulation.specs.Programs.{LikeEntry, LikeFunction, LikePrograms};
ghost use Rattle.rx_engine_typing.specs.Corresponding.{FieldsApart};
ghost use Rattle.rx_engine_typing.specs.Renumbered.{no_holes, RenumberedFunction};
ghost use Rattle.rx_engine_validated.specs.Changed.{ChangedAlike};
ghost use Rattle.rx_engine_validated.specs.Kept.{kept, same};
ghost use Rattle.rx_engine_validated.specs.Typed.{given_by};

use rx_typeck_typed::demands_are_orderly;

/// One text by two tables of names that name the same variables and loops is one tree by other numbers of items: each form stands where
/// it stood.
pub fn functions_that_stay_are_renumbered()
    ensures { (items : ℕ → ℕ) (n m : ℕ) (s : Span) (f : Function) (ns ms : ListOf NodeNames) → items n ≡ m → alike.LikeFunction alike.no_holes (same_numbers items) (function_named n s f ns) (function_named m s f ms)
        → RenumberedFunction (kept items) same no_holes (function_named n s f ns) (function_named m s f ms) }
{}

/// A function that stays where new items stand behind another has a like typed tree in both programs, where what is declared is, but for
/// the numbers of items; with calls of a new function in other functions, or without.
pub fn functions_that_stay_are_alike()
    ensures renamed { (p q : ProgramTree) (c : Inserted p q) → IsNumbered p → (n : ℕ) (s : Span) (f : Function) → slice_get p n ≡ Some (plain.function_item s f) → (t u : ItemNames) → in_item p n (plain.function_item s f) ≡ Ok t → in_item q (number_there c n) (plain.function_item s f) ≡ Ok u
        → (G H : Given) → Knows (kept (number_there c)) (known_in G) (known_in H) → FieldsApart (known_in G).items
        → (vars ws : ListOf Span) (g h : TypedFn) → FunctionTyped G n s f t.names vars g → FunctionTyped H (number_there c n) s f u.names ws h
        → LikeFunction (number_there c) no_openings (record { turns = 0; strays = false }) (plain-TypedTree g.tree) (plain-TypedTree h.tree) }
    ensures called { (p q : ProgramTree) (c : Inserted p q) → IsNumbered p → (n : ℕ) (s : Span) (f : Function) → slice_get p n ≡ Some (plain.function_item s f) → (t u : ItemNames) → in_item p n (plain.function_item s f) ≡ Ok t → in_item q (number_there c n) (plain.function_item s f) ≡ Ok u
        → (G H : Given) → Knows (kept (number_there c)) (known_in G) (known_in H) → FieldsApart (known_in G).items
        → (vars ws : ListOf Span) (g h : TypedFn) → FunctionTyped G n s f t.names vars g → FunctionTyped H (number_there c n) s f u.names ws h
        → (strays : Bool) (units : ListOf ℕ) (N : New) → LikeFunction (number_there c) (calls_of (number_there c) (a_turn strays) units N) (a_turn strays) (plain-TypedTree g.tree) (plain-TypedTree h.tree) }
{
    demands_are_orderly();
}

/// In the typed programs each item but the one that is extracted from is a like function, or none in both.
pub fn items_that_stay_are_alike()
    ensures renamed { (p q : ProgramTree) (ns ms : ListOf ItemNames) (t u : Typed) → IsNumbered p → Meant p ns → Meant q ms → (a : IsTyped p ns t) (b : IsTyped q ms u) (c : Inserted p q)
        → Knows (kept (number_there c)) (known_in (given_by p ns t a)) (known_in (given_by q ms u b))
        → (k l j : ℕ) → (j ≡ length c.before → ⊥) → LikeEntry (number_there c) no_openings (record { turns = 0; strays = false }) (element (program_of t k).functions j) (element (program_of u l).functions (number_there c j)) }
    ensures called { (p q : ProgramTree) (ns ms : ListOf ItemNames) (t u : Typed) → IsNumbered p → Meant p ns → Meant q ms → (a : IsTyped p ns t) (b : IsTyped q ms u) (c : Inserted p q)
        → Knows (kept (number_there c)) (known_in (given_by p ns t a)) (known_in (given_by q ms u b))
        → (k l j : ℕ) → (j ≡ length c.before → ⊥) → (strays : Bool) (units : ListOf ℕ) (N : New) → LikeEntry (number_there c) (calls_of (number_there c) (a_turn strays) units N) (a_turn strays) (element (program_of t k).functions j) (element (program_of u l).functions (number_there c j)) }
{
    demands_are_orderly();
}

/// So the typed programs are alike where the typed functions of the one that is changed are.
pub fn programs_with_a_changed_function_are_alike()
    ensures renamed { (p q : ProgramTree) (ns ms : ListOf ItemNames) (t u : Typed) → IsNumbered p → Meant p ns → Meant q ms → (a : IsTyped p ns t) (b : IsTyped q ms u) (c : Inserted p q)
        → Knows (kept (number_there c)) (known_in (given_by p ns t a)) (known_in (given_by q ms u b))
        → ChangedAlike p q c (given_by p ns t a) (given_by q ms u b) no_openings (record { turns = 0; strays = false })
        → (k : ℕ) → LikePrograms (number_there c) no_openings (record { turns = 0; strays = false }) (program_of t k) (program_of u (number_there c k)) }
    ensures called { (p q : ProgramTree) (ns ms : ListOf ItemNames) (t u : Typed) → IsNumbered p → Meant p ns → Meant q ms → (a : IsTyped p ns t) (b : IsTyped q ms u) (c : Inserted p q)
        → Knows (kept (number_there c)) (known_in (given_by p ns t a)) (known_in (given_by q ms u b))
        → (strays : Bool) (units : ListOf ℕ) (N : New) → ChangedAlike p q c (given_by p ns t a) (given_by q ms u b) (calls_of (number_there c) (a_turn strays) units N) (a_turn strays)
        → (k : ℕ) → LikePrograms (number_there c) (calls_of (number_there c) (a_turn strays) units N) (a_turn strays) (program_of t k) (program_of u (number_there c k)) }
{
    demands_are_orderly();
}

//! Laws, each the contract of a function that does nothing.

ghost use Rattle.std.specs.Prelude.{◌≡◌, ◌<◌, ℕ, ℤ, suc, List as ListOf, [], ◌∷◌, ◌++◌, length, true, false, Some, slice_get};
ghost use Rattle.rx_core.specs.declared.types.Step.{Step};
ghost use Rattle.rx_tree.specs.Plain.{ProgramTree};
ghost use Rattle.rx_tree.specs.Size.{IsNumbered};
ghost use Rattle.rx_resolve_names.specs.declared.resolved.ItemNames.{ItemNames};
ghost use Rattle.rx_resolve_names.specs.Causes.{Meant};
ghost use Rattle.rx_typed.specs.Tree.{Place, variable, Temporary, lazy, Function};
ghost use Rattle.rx_typed.specs.PlainTypes.{declarations};
ghost use Rattle.rx_typed.specs.PlainTree.{plain-TypedTree};
ghost use Rattle.rx_typed_declarations.specs.Sizes.{Sized};
ghost use Rattle.rx_typeck_typed.specs.declared.typed.Typed.{Typed};
ghost use Rattle.rx_typeck_typed.specs.declared.typed.TypedFn.{TypedFn};
ghost use Rattle.rx_typeck_typed.specs.Typing.{IsTyped};
ghost use Rattle.rx_lower_walks.specs.Actions.{Call, Build, Write, Action, does};
ghost use Rattle.rx_lower_walks.specs.Walks.{actions_in, Among, IsWalk};
ghost use Rattle.rx_lower_walks.specs.Orders.{order_function};
ghost use Rattle.rx_facts_tables.specs.Setting.{is_behind, looked_at};
ghost use Rattle.rx_facts_tables.specs.Wholes.{is_all, placed};
ghost use Rattle.rx_facts.specs.Functions.{frame_of};
ghost use Rattle.rx_exits_plan.specs.Coming.{HasNoMark};
ghost use Rattle.rx_check.specs.Passes.{IsFront};
ghost use Rattle.rx_meaning.specs.Endings.{wrong, lacks, missing_function};
ghost use Rattle.rx_meaning.specs.Results.{stops};
ghost use Rattle.rx_meaning.specs.Acting.{plainly};
ghost use Rattle.rx_meaning.specs.Programs.{run_by};
ghost use Rattle.rx_machine.specs.Functions.{program_of};
ghost use Rattle.rx_meaning_keeping.specs.Keeping.{IsFunction};
ghost use Rattle.rx_meaning_keeping.specs.Reaching.{starting};
ghost use Rattle.rx_meaning_keeping.specs.Strict.{strictly};
ghost use Rattle.rx_meaning_keeping.specs.Ready.{HasPart, Ready, IsInitial};
ghost use Rattle.rx_meaning_keeping.specs.Behind.{LacksBehind, NeverBehind, SameRun};
ghost use Rattle.rx_meaning_accepted.specs.Frames.{frames, mutables};

use rx_meaning_keeping::{
    elaborated_trees_are_formed, lacks_are_behind_references, runs_are_traced,
    strict_runs_are_plain,
};
use rx_typeck_typed::{all_have_types, signatures_are_well_formed, sizes_are_sized};

/// The functions of a typed program whose names have a meaning are ready: on their walks each variable that begins or ends, and each
/// place that is looked at and is behind no reference, has a part, and what is made of set values is set.
pub fn typed_functions_are_ready()
    ensures { (p : ProgramTree) (names : ListOf ItemNames) (t : Typed) → IsNumbered p → Meant p names → IsTyped p names t → (P : ℕ → ℕ) → Sized (declarations t.decls.items) P
        → (f : TypedFn) → Among f t.functions → Ready (frame_of (declarations t.decls.items) P f) (plain-TypedTree f.tree) }
{
    all_have_types();
    signatures_are_well_formed();
    sizes_are_sized();
}

/// Also a place that is behind a reference has a part, that of the reference; so has each variable; no action of their orders is a mark,
/// since no tuple of nothing is made; what `&&` and `||` give is built of no field; and where they write a part of a variable's own
/// storage, the variable is declared `mut`.
pub fn typed_functions_stand()
    ensures places { (p : ProgramTree) (names : ListOf ItemNames) (t : Typed) → IsNumbered p → Meant p names → IsTyped p names t → (P : ℕ → ℕ) → Sized (declarations t.decls.items) P
        → (f : TypedFn) → Among f t.functions → (w : ListOf Action) (a : Action) (x : ℕ) (ss : ListOf Step) → IsWalk (plain-TypedTree f.tree) (w ++ a ∷ [])
        → looked_at a.act ≡ Some (placed x ss) → HasPart (frame_of (declarations t.decls.items) P f) x ss }
    ensures variables { (p : ProgramTree) (names : ListOf ItemNames) (t : Typed) → IsNumbered p → Meant p names → IsTyped p names t → (P : ℕ → ℕ) → Sized (declarations t.decls.items) P
        → (f : TypedFn) → Among f t.functions → (x : ℕ) → x < length f.mutable → HasPart (frame_of (declarations t.decls.items) P f) x [] }
    ensures unmarked { (p : ProgramTree) (names : ListOf ItemNames) (t : Typed) → IsNumbered p → Meant p names → IsTyped p names t → (f : TypedFn) → Among f t.functions
        → HasNoMark (order_function (plain-TypedTree f.tree)) }
    ensures lazies { (p : ProgramTree) (names : ListOf ItemNames) (t : Typed) → IsNumbered p → Meant p names → IsTyped p names t → (f : TypedFn) → Among f t.functions
        → (a : Action) (js : ListOf ℕ) (us : ListOf Temporary) (d : Temporary) → Among a (actions_in (order_function (plain-TypedTree f.tree))) → a.act ≡ Build lazy js us d → js ≡ [] }
    ensures writes { (p : ProgramTree) (names : ListOf ItemNames) (t : Typed) → IsNumbered p → Meant p names → IsTyped p names t → (f : TypedFn) → Among f t.functions
        → (a : Action) (q : Place) (u : Temporary) (us : ListOf Step) → Among a (actions_in (order_function (plain-TypedTree f.tree))) → a.act ≡ Write q u us
        → (x : ℕ) → q.root ≡ variable x → is_behind q.steps ≡ false → is_all q.steps ≡ false → slice_get f.mutable x ≡ Some true }
{
    all_have_types();
    signatures_are_well_formed();
    sizes_are_sized();
}

/// What a function of such a program calls on a walk is a function of the program, and each of its parameters has an argument.
pub fn typed_calls_fit()
    ensures { (p : ProgramTree) (names : ListOf ItemNames) (t : Typed) → IsNumbered p → Meant p names → IsTyped p names t → (m f : ℕ) (F : Function) → IsFunction (program_of t m).functions f F
        → (w : ListOf Action) (n g : ℕ) (ts : ListOf Temporary) (d : Temporary) → IsWalk F (w ++ does n (Call g ts d) ∷ [])
        → (G : Function) × IsFunction (program_of t m).functions g G × (length ts ≡ length G.params) }
{
    all_have_types();
    signatures_are_well_formed();
    sizes_are_sized();
}

/// So no run of it ends because what was called is no function.
pub fn typed_runs_find_functions()
    ensures { (p : ProgramTree) (names : ListOf ItemNames) (t : Typed) → IsNumbered p → Meant p names → IsTyped p names t → (m : ℕ) (F : Function) → IsFunction (program_of t m).functions m F
        → (given : ListOf ℤ) (n : ℕ) (told : ListOf ℕ) → run_by plainly (program_of t m) given (suc n) ≡ stops told (wrong missing_function) → ⊥ }
{
    typed_calls_fit();
    runs_are_traced();
    elaborated_trees_are_formed();
    all_have_types();
    signatures_are_well_formed();
    sizes_are_sized();
}

/// A program that the passes up to initialisation accept is as the laws of strict runs ask, by the types of its variables.
pub fn accepted_programs_are_initial()
    ensures { (p : ProgramTree) (t : Typed) → IsNumbered p → (front : IsFront p t) → (m : ℕ) → IsInitial (program_of t m).functions (frames t front.parts) (mutables t) }
{
    typed_functions_are_ready();
    elaborated_trees_are_formed();
    signatures_are_well_formed();
    sizes_are_sized();
    all_have_types();
}

/// A strict run of such a program ends for a lack at an action that goes through a dereference, and at no other.
pub fn accepted_lacks_are_behind_references()
    ensures { (p : ProgramTree) (t : Typed) → IsNumbered p → IsFront p t → (m : ℕ) (F : Function) → IsFunction (program_of t m).functions m F
        → (given : ListOf ℤ) (n : ℕ) (told : ListOf ℕ) → run_by strictly (program_of t m) given (suc n) ≡ stops told (wrong lacks)
        → LacksBehind strictly (program_of t m).functions m [] (starting (program_of t m) given n) }
{
    accepted_programs_are_initial();
    lacks_are_behind_references();
}

/// So it is the plain run (bytes, value, end and cause) where no action goes through a dereference.
pub fn accepted_strict_runs_are_plain()
    ensures { (p : ProgramTree) (t : Typed) → IsNumbered p → IsFront p t → (m : ℕ) (F : Function) → IsFunction (program_of t m).functions m F → NeverBehind (program_of t m).functions
        → (given : ListOf ℤ) (n : ℕ) → SameRun (run_by strictly (program_of t m) given (suc n)) (run_by plainly (program_of t m) given (suc n)) }
{
    accepted_programs_are_initial();
    strict_runs_are_plain();
}

//! Laws, each the contract of a function that does nothing.

ghost use Rattle.std.specs.Prelude.{◌≡◌, ℕ, ℤ, Bool, suc, List as ListOf, []};
ghost use Rattle.rx_tree.specs.Plain.{ProgramTree};
ghost use Rattle.rx_tree.specs.Size.{IsNumbered};
ghost use Rattle.rx_resolve_names.specs.declared.resolved.ItemNames.{ItemNames};
ghost use Rattle.rx_resolve_names.specs.Causes.{Meant};
ghost use Rattle.rx_typed.specs.PlainTypes.{declarations};
ghost use Rattle.rx_typed.specs.PlainTree.{plain-TypedTree};
ghost use Rattle.rx_typed.specs.Tree.{Temporary, Function};
ghost use Rattle.rx_lower_walks.specs.Walks.{Among};
ghost use Rattle.rx_typeck_typed.specs.declared.typed.Typed.{Typed};
ghost use Rattle.rx_typeck_typed.specs.declared.typed.TypedFn.{TypedFn};
ghost use Rattle.rx_typeck_typed.specs.Typing.{IsTyped};
ghost use Rattle.rx_check.specs.Passes.{IsFront};
ghost use Rattle.rx_meaning.specs.Endings.{Cause, wrong, missing_value};
ghost use Rattle.rx_meaning.specs.Results.{stops};
ghost use Rattle.rx_meaning.specs.Acting.{plainly};
ghost use Rattle.rx_meaning.specs.Programs.{ending_of, run_by};
ghost use Rattle.rx_machine.specs.Functions.{program_of};
ghost use Rattle.rx_meaning_keeping.specs.Keeping.{IsFunction};
ghost use Rattle.rx_meaning_keeping.specs.Strict.{strictly};
ghost use Rattle.rx_meaning_keeping.specs.Behind.{SameRun};
ghost use Rattle.rx_meaning_typed.specs.TypedActs.{Typing};
ghost use Rattle.rx_meaning_typed.specs.TypedFunctions.{ProgramTyped};
ghost use Rattle.rx_meaning_typed.specs.NoReferences.{NoReferences};
ghost use Rattle.rx_meaning_covered.specs.Ranged.{InputRanged};
ghost use Rattle.rx_meaning_covered.specs.Begun.{UsesBegun};
ghost use Rattle.rx_meaning_covered.specs.Covered.{Answers, ProgramCovered};
ghost use Rattle.rx_meaning_sound.specs.Fresh.{StandsFresh};
ghost use Rattle.rx_meaning_sound.specs.Plain.{WithoutReferences};

use rx_engine_typing::named_functions_are_scoped;
use rx_meaning_accepted::{
    accepted_programs_are_initial, typed_calls_fit, typed_functions_are_ready,
};
use rx_meaning_covered::{covered_runs_are_never_wrong, scoped_functions_answer};
use rx_meaning_keeping::{elaborated_trees_are_formed, runs_are_traced};
use rx_typeck_typed::{
    all_have_types, signatures_are_well_formed, sizes_are_sized, typed_declarations_are_finite,
};
use rx_typed::numbers_stand_in_order;

/// In the functions of a typed program whose names have a meaning, each variable is in scope, each jump in its loop, what is matched is
/// a place of a variable through no variant, or a value, what a pattern binds are other variables, and the body ends by giving; so on
/// their walks the variables of places have begun, and no walk leaves a function without a value.
pub fn typed_functions_stand_fresh()
    ensures stands { (p : ProgramTree) (names : ListOf ItemNames) (t : Typed) → IsNumbered p → Meant p names → IsTyped p names t → (f : TypedFn) → Among f t.functions → StandsFresh (plain-TypedTree f.tree) }
    ensures begun { (p : ProgramTree) (names : ListOf ItemNames) (t : Typed) → IsNumbered p → Meant p names → IsTyped p names t → (f : TypedFn) → Among f t.functions → UsesBegun (plain-TypedTree f.tree) }
    ensures answers { (p : ProgramTree) (names : ListOf ItemNames) (t : Typed) → IsNumbered p → Meant p names → IsTyped p names t → (f : TypedFn) → Among f t.functions → Answers (plain-TypedTree f.tree) }
{
    named_functions_are_scoped();
    scoped_functions_answer();
    signatures_are_well_formed();
    sizes_are_sized();
}

/// No run of a typed program whose names have a meaning ends because a function gave no value, whether it has references or not.
pub fn typed_runs_give_values()
    ensures { (p : ProgramTree) (names : ListOf ItemNames) (t : Typed) → IsNumbered p → Meant p names → IsTyped p names t → (m : ℕ) (F : Function) → IsFunction (program_of t m).functions m F
        → (given : ListOf ℤ) (n : ℕ) (told : ListOf ℕ) → run_by plainly (program_of t m) given (suc n) ≡ stops told (wrong missing_value) → ⊥ }
{
    typed_functions_stand_fresh();
    runs_are_traced();
    elaborated_trees_are_formed();
    all_have_types();
    signatures_are_well_formed();
    sizes_are_sized();
}

/// A program that the passes up to initialisation accept, without references, acts by types that have none and is covered.
pub fn accepted_programs_are_covered()
    ensures { (p : ProgramTree) (t : Typed) → IsNumbered p → IsFront p t → WithoutReferences t → (m : ℕ)
        → (N : ℕ → Temporary → Bool) × (Ts : ℕ → Typing) × ProgramTyped (declarations t.decls.items) Ts (program_of t m).functions × NoReferences Ts × ProgramCovered N Ts (program_of t m).functions }
{
    typed_calls_fit();
    typed_functions_are_ready();
    typed_functions_stand_fresh();
    numbers_stand_in_order();
    sizes_are_sized();
    typed_declarations_are_finite();
}

/// So it is never Wrong: no strict run of it is, nor a plain run, which is the same, on numbers of 64 bits.
pub fn accepted_runs_are_never_wrong()
    ensures strict { (p : ProgramTree) (t : Typed) → IsNumbered p → IsFront p t → WithoutReferences t → (m : ℕ) (F : Function) → IsFunction (program_of t m).functions m F → F.params ≡ []
        → (given : ListOf ℤ) → InputRanged given → (n : ℕ) (c : Cause) → ending_of (run_by strictly (program_of t m) given (suc n)) ≡ wrong c → ⊥ }
    ensures plain { (p : ProgramTree) (t : Typed) → IsNumbered p → IsFront p t → WithoutReferences t → (m : ℕ) (F : Function) → IsFunction (program_of t m).functions m F → F.params ≡ []
        → (given : ListOf ℤ) → InputRanged given → (n : ℕ) (c : Cause) → ending_of (run_by plainly (program_of t m) given (suc n)) ≡ wrong c → ⊥ }
    ensures same { (p : ProgramTree) (t : Typed) → IsNumbered p → IsFront p t → WithoutReferences t → (m : ℕ) (F : Function) → IsFunction (program_of t m).functions m F
        → (given : ListOf ℤ) (n : ℕ) → SameRun (run_by strictly (program_of t m) given (suc n)) (run_by plainly (program_of t m) given (suc n)) }
{
    accepted_programs_are_covered();
    accepted_programs_are_initial();
    covered_runs_are_never_wrong();
}

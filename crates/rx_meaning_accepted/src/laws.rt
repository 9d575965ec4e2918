//! Laws, each the contract of a function that does nothing.

ghost use Rattle.std.specs.Prelude.{◌≡◌, ℕ, ℤ, Bool, suc, List as ListOf, [], ◌∷◌, false};
ghost use Rattle.rx_tree.specs.Plain.{ProgramTree};
ghost use Rattle.rx_tree.specs.Size.{IsNumbered};
ghost use Rattle.rx_resolve_names.specs.declared.resolved.ItemNames.{ItemNames};
ghost use Rattle.rx_resolve_names.specs.Causes.{Meant};
ghost use Rattle.rx_typed.specs.PlainTypes.{declarations};
ghost use Rattle.rx_typed.specs.Tree.{Function};
ghost use Rattle.rx_lower_walks.specs.Actions.{Action};
ghost use Rattle.rx_typeck_typed.specs.declared.typed.Typed.{Typed};
ghost use Rattle.rx_typeck_typed.specs.Typing.{IsTyped};
ghost use Rattle.rx_check.specs.Passes.{IsFront};
ghost use Rattle.rx_machine.specs.Functions.{program_of};
ghost use Rattle.rx_meaning.specs.Endings.{Cause, wrong, mistyped, missing_reference};
ghost use Rattle.rx_meaning.specs.Values.{Value, State};
ghost use Rattle.rx_meaning.specs.Results.{stops};
ghost use Rattle.rx_meaning.specs.Acting.{plainly};
ghost use Rattle.rx_meaning.specs.Programs.{run_by};
ghost use Rattle.rx_meaning_keeping.specs.Pending.{Pending};
ghost use Rattle.rx_meaning_keeping.specs.Keeping.{IsFunction};
ghost use Rattle.rx_meaning_keeping.specs.Reaching.{Reached, Active, starting};
ghost use Rattle.rx_meaning_keeping.specs.Strict.{strictly};
ghost use Rattle.rx_meaning_keeping.specs.Behind.{SameRun};
ghost use Rattle.rx_meaning_typed.specs.TypedActs.{Typing};
ghost use Rattle.rx_meaning_typed.specs.TypedFunctions.{ProgramTyped};
ghost use Rattle.rx_meaning_typed.specs.ValueTypes.{Store};
ghost use Rattle.rx_meaning_typed.specs.TypedStates.{StateTyped};
ghost use Rattle.rx_meaning_typed.specs.NoReferences.{NoReferences, RemainsWithoutReferences};

use crate::{accepted_programs_are_initial, typed_functions_are_ready};
use rx_meaning_typed::{
    runs_without_references, typed_runs_are_not_mistyped, typed_runs_follow_references,
    typed_values_stay_typed,
};
use rx_typeck_typed::sizes_are_sized;
use rx_typed::numbers_stand_in_order;

/// The functions of a typed program whose names have a meaning act by types of their variables and temporaries.
pub fn typed_functions_act_by_their_types()
    ensures { (p : ProgramTree) (names : ListOf ItemNames) (t : Typed) → IsNumbered p → Meant p names → IsTyped p names t → (m : ℕ)
        → (Ts : ℕ → Typing) × ProgramTyped (declarations t.decls.items) Ts (program_of t m).functions }
{
    typed_functions_are_ready();
    numbers_stand_in_order();
    sizes_are_sized();
}

/// So do those of a program that the passes up to initialisation accept.
pub fn accepted_programs_act_by_their_types()
    ensures { (p : ProgramTree) (t : Typed) → IsNumbered p → IsFront p t → (m : ℕ) → (Ts : ℕ → Typing) × ProgramTyped (declarations t.decls.items) Ts (program_of t m).functions }
{
    typed_functions_act_by_their_types();
}

/// Wherever a plain or a strict run of an accepted program comes, each value is of the type of its slot, the slot of a variable is of the
/// variable's type, and what is held is of its temporary's type, with a value in each part.
pub fn accepted_values_stay_typed()
    ensures plain { (p : ProgramTree) (t : Typed) → IsNumbered p → IsFront p t → (m : ℕ) → (Ts : ℕ → Typing) × ((given : ListOf ℤ) (n f : ℕ) (vs : ListOf Value) (s1 : State) (w : ListOf Action) (s : State) (K : Pending)
        → Active plainly (program_of t m).functions m [] (starting (program_of t m) given n) f vs s1 → Reached plainly (program_of t m).functions f vs s1 w s K → (S : Store) × StateTyped false (Ts f) S s K) }
    ensures strict { (p : ProgramTree) (t : Typed) → IsNumbered p → IsFront p t → (m : ℕ) → (Ts : ℕ → Typing) × ((given : ListOf ℤ) (n f : ℕ) (vs : ListOf Value) (s1 : State) (w : ListOf Action) (s : State) (K : Pending)
        → Active strictly (program_of t m).functions m [] (starting (program_of t m) given n) f vs s1 → Reached strictly (program_of t m).functions f vs s1 w s K → (S : Store) × StateTyped false (Ts f) S s K) }
{
    accepted_programs_act_by_their_types();
    typed_values_stay_typed();
}

/// No run of an accepted program ends because operands, of an operator, a test, a print, a condition or a call, are of other types or
/// another number than it takes.
pub fn accepted_runs_are_not_mistyped()
    ensures plain { (p : ProgramTree) (t : Typed) → IsNumbered p → IsFront p t → (m : ℕ) (F : Function) → IsFunction (program_of t m).functions m F → F.params ≡ []
        → (given : ListOf ℤ) (n : ℕ) (told : ListOf ℕ) → run_by plainly (program_of t m) given n ≡ stops told (wrong mistyped) → ⊥ }
    ensures strict { (p : ProgramTree) (t : Typed) → IsNumbered p → IsFront p t → (m : ℕ) (F : Function) → IsFunction (program_of t m).functions m F → F.params ≡ []
        → (given : ListOf ℤ) (n : ℕ) (told : ListOf ℕ) → run_by strictly (program_of t m) given n ≡ stops told (wrong mistyped) → ⊥ }
{
    accepted_programs_act_by_their_types();
    accepted_programs_are_initial();
    typed_runs_are_not_mistyped();
}

/// What a run of such a program follows as a reference is one: none ends for the cause that it is not.
pub fn accepted_runs_follow_references()
    ensures plain { (p : ProgramTree) (t : Typed) → IsNumbered p → IsFront p t → (m : ℕ) (F : Function) → IsFunction (program_of t m).functions m F → F.params ≡ []
        → (given : ListOf ℤ) (n : ℕ) (told : ListOf ℕ) → run_by plainly (program_of t m) given n ≡ stops told (wrong missing_reference) → ⊥ }
    ensures strict { (p : ProgramTree) (t : Typed) → IsNumbered p → IsFront p t → (m : ℕ) (F : Function) → IsFunction (program_of t m).functions m F → F.params ≡ []
        → (given : ListOf ℤ) (n : ℕ) (told : ListOf ℕ) → run_by strictly (program_of t m) given n ≡ stops told (wrong missing_reference) → ⊥ }
{
    accepted_programs_act_by_their_types();
    accepted_programs_are_initial();
    typed_runs_follow_references();
}

/// Where no type of a variable or temporary of an accepted program has a reference, a strict run of it is the plain run, and doesn't end
/// because a value is lacking, because something can't be written, or because operands are of other types.
pub fn accepted_runs_without_references()
    ensures { (p : ProgramTree) (t : Typed) → IsNumbered p → IsFront p t → (m : ℕ) → (Ts : ℕ → Typing) × ProgramTyped (declarations t.decls.items) Ts (program_of t m).functions
        × (NoReferences Ts → (F : Function) → IsFunction (program_of t m).functions m F → (given : ListOf ℤ) (n : ℕ)
        → SameRun (run_by strictly (program_of t m) given (suc n)) (run_by plainly (program_of t m) given (suc n))
        × (F.params ≡ [] → (told : ListOf ℕ) (c : Cause) → run_by strictly (program_of t m) given (suc n) ≡ stops told (wrong c) → RemainsWithoutReferences c)) }
{
    accepted_programs_act_by_their_types();
    accepted_programs_are_initial();
    runs_without_references();
}

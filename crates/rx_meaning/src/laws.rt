//! Laws of runs, each the contract of a function that does nothing.

ghost use Rattle.std.specs.Prelude.{◌≡◌, ◌≤◌, ℕ, ℤ, Bool, true, false, List as ListOf, [], ◌∷◌, length, Some};
ghost use Rattle.rx_core.specs.declared.types.Step.{Step};
ghost use Rattle.rx_core.specs.declared.types.Step.TheVariants as StepTo;
ghost use Rattle.rx_tree.specs.Plain.{ProgramTree};
ghost use Rattle.rx_tree.specs.Erase.{SameProgram};
ghost use Rattle.rx_resolve_names.specs.declared.resolved.NodeNames.{NodeNames as NodeNamesOf};
ghost use Rattle.rx_typed.specs.Tree.{Function, Temporary, own, under};
ghost use Rattle.rx_typed.specs.Elaborated.{Assigned};
ghost use Rattle.rx_lower_walks.specs.Actions.{Borrow};
ghost use Rattle.rx_lower_walks.specs.Orders.{order_function};
ghost use Rattle.rx_lower_walks.specs.Walks.{Walk};
ghost use Rattle.rx_meaning.specs.declared.outcome.Outcome.{Outcome as OutcomeOf};
ghost use Rattle.rx_meaning.specs.Endings.{end_of};
ghost use Rattle.rx_meaning.specs.Values.{Value, pointer, element, slot_of, State};
ghost use Rattle.rx_meaning.specs.Results.{Leaves, gives};
ghost use Rattle.rx_meaning.specs.Acting.{Acting, does_plainly, plainly};
ghost use Rattle.rx_meaning.specs.Expressions.{Functions, activation, below_level, called};
ghost use Rattle.rx_meaning.specs.Programs.{Program, run, run_by, ending, UpTo, typed_program};
ghost use Rattle.rx_meaning.specs.Telling.{telling, fully, acted, told_by, out_of, Alike, Anything, SameSaid, SameActions};

/// Whichever way an activation acts, the actions that it performs are those of a walk of its function, which ends as the
/// activation does; where they are told alone, and where they are told beside what it tells.
pub fn runs_follow_walks()
    ensures alone { (A : Acting ℕ) (P : Functions) (n : ℕ) (f : Function) (vs : ListOf Value) (s : State)
        → Walk (order_function f) (told_by (activation (telling A) (below_level (telling A) P n) f vs s))
        (out_of (activation (telling A) (below_level (telling A) P n) f vs s)) }
    ensures beside { (A : Acting ℕ) (P : Functions) (n : ℕ) (f : Function) (vs : ListOf Value) (s : State)
        → Walk (order_function f) (acted (told_by (activation (fully A) (below_level (fully A) P n) f vs s)))
        (out_of (activation (fully A) (below_level (fully A) P n) f vs s)) }
{}

/// Whichever way an activation acts, telling its actions changes no value, no state and no end: `alone`, where they are told in
/// place of what it tells. Where both are told, `beside` and in whole `runs`, what it tells is told, and the `actions` are those
/// that are told alone.
pub fn telling_changes_nothing()
    ensures alone { (A : Acting ℕ) (P : Functions) (n : ℕ) (f : Function) (vs : ListOf Value) (s : State)
        → Alike Anything (activation A (below_level A P n) f vs s) (activation (telling A) (below_level (telling A) P n) f vs s) }
    ensures beside { (A : Acting ℕ) (P : Functions) (n : ℕ) (f : Function) (vs : ListOf Value) (s : State)
        → Alike SameSaid (activation A (below_level A P n) f vs s) (activation (fully A) (below_level (fully A) P n) f vs s) }
    ensures actions { (A : Acting ℕ) (P : Functions) (n : ℕ) (f : Function) (vs : ListOf Value) (s : State)
        → Alike SameActions (activation (telling A) (below_level (telling A) P n) f vs s) (activation (fully A) (below_level (fully A) P n) f vs s) }
    ensures runs { (A : Acting ℕ) (P : Program) (given : ListOf ℤ) (n : ℕ) → Alike SameSaid (run_by A P given n) (run_by (fully A) P given n) }
{}

/// A run with more turns is the same, or it goes on where the one with fewer was cut off.
pub fn more_turns_go_on()
    ensures { (P : Program) (given : ListOf ℤ) (n k : ℕ) → n ≤ k → UpTo (run P given n) (run P given k) }
{}

/// How many turns may be nested says nothing, where it is as many as are left.
pub fn level_is_free()
    ensures { (P : Functions) (m n f : ℕ) (vs : ListOf Value) (s : State) → s.turns ≤ m → s.turns ≤ n
        → called plainly P m f vs s ≡ called plainly P n f vs s }
{}

/// An outcome ends as its run does: what is Wrong has a cause, which an outcome doesn't tell.
pub fn outcomes_forget_causes()
    ensures { (P : Program) (given : ListOf ℤ) (n : ℕ) → (run P given n).end ≡ end_of (ending P given n) }
{}

/// `UpTo` is reflexive and transitive.
pub fn up_to_is_an_order()
    ensures same { (a : OutcomeOf) → UpTo a a }
    ensures chain { (a b c : OutcomeOf) → UpTo a b → UpTo b c → UpTo a c }
{}

/// An activation leaves no fewer slots than there were.
pub fn memory_only_grows()
    ensures { (P : Functions) (n : ℕ) (f : Function) (vs : ListOf Value) (s : State)
        → Leaves (λ s1. length s.memory ≤ length s1.memory) (activation plainly (below_level plainly P n) f vs s) }
{}

/// A reference that is asked for to where the reference in a variable leads, whatever stands there: a mutable one is that reference,
/// which may be shared, and a shared one is that one, shared.
pub fn reborrows_are_the_reference()
    ensures mutable { (x i j : ℕ) (q : ListOf Step) (b m : Bool) (d : Temporary) (s : State)
        → slot_of s.frame.slots x ≡ Some i → element s.memory i ≡ Some (pointer j q m)
        → does_plainly (Borrow true (under (own x) (StepTo.Deref b ∷ [])) d) [] s ≡ gives [] (pointer j q m) s }
    ensures shared { (x i j : ℕ) (q : ListOf Step) (b m : Bool) (d : Temporary) (s : State)
        → slot_of s.frame.slots x ≡ Some i → element s.memory i ≡ Some (pointer j q m)
        → does_plainly (Borrow false (under (own x) (StepTo.Deref b ∷ [])) d) [] s ≡ gives [] (pointer j q false) s }
{}

/// Programs that are equal apart from spans have the same runs, with the same names and types.
pub fn runs_ignore_spans()
    ensures { (P Q : ProgramTree) → SameProgram P Q → (N : ℕ → ListOf NodeNamesOf) (T : ℕ → Assigned) (given : ListOf ℤ) (n : ℕ)
        → run (typed_program P N T) given n ≡ run (typed_program Q N T) given n }
{}

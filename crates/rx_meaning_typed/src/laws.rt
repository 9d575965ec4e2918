//! Laws, each the contract of a function that does nothing.

ghost use Rattle.std.specs.Prelude.{◌≡◌, ℕ, ℤ, Bool, suc, List as ListOf, [], ◌∷◌, true, Some};
ghost use Rattle.rx_typed.specs.Types.{Typ, Declarations};
ghost use Rattle.rx_typed.specs.Tree.{Temporary, Function};
ghost use Rattle.rx_lower_walks.specs.Actions.{Action};
ghost use Rattle.rx_lower_walks.specs.Walks.{Among};
ghost use Rattle.rx_facts_tables.specs.Places.{Frame};
ghost use Rattle.rx_meaning.specs.Endings.{Cause, wrong, immutable, mistyped, missing_reference};
ghost use Rattle.rx_meaning.specs.Values.{Value, is_set, slot_of, element, State};
ghost use Rattle.rx_meaning.specs.Results.{stops};
ghost use Rattle.rx_meaning.specs.Acting.{plainly};
ghost use Rattle.rx_meaning.specs.Programs.{Program, run_by};
ghost use Rattle.rx_meaning_keeping.specs.Pending.{Pending};
ghost use Rattle.rx_meaning_keeping.specs.Formed.{Any, AllFormed};
ghost use Rattle.rx_meaning_keeping.specs.Keeping.{IsFunction};
ghost use Rattle.rx_meaning_keeping.specs.Reaching.{Reached, Active, starting};
ghost use Rattle.rx_meaning_keeping.specs.Strict.{strictly};
ghost use Rattle.rx_meaning_keeping.specs.Ready.{IsInitial};
ghost use Rattle.rx_meaning_keeping.specs.Behind.{NeverBehind, SameRun};
ghost use Rattle.rx_meaning_typed.specs.TypedActs.{Typing};
ghost use Rattle.rx_meaning_typed.specs.TypedFunctions.{ProgramTyped};
ghost use Rattle.rx_meaning_typed.specs.MutableActs.{FunctionsLend};
ghost use Rattle.rx_meaning_typed.specs.ValueTypes.{Store};
ghost use Rattle.rx_meaning_typed.specs.TypedStates.{StateTyped};
ghost use Rattle.rx_meaning_typed.specs.Shapes.{HasShape};
ghost use Rattle.rx_meaning_typed.specs.NoReferences.{NoReferences, RemainsWithoutReferences};

/// Wherever a plain or a strict run of a program comes whose functions act by their types, the slots of memory have types by which
/// each value there is of its slot's type, the slot of a variable is of the variable's type, and what is held is of its temporary's
/// type, with a value in each part. Where they write and lend mutably through mutable references alone (`L` is true), what is of a mutable
/// reference's type may be written through.
pub fn typed_values_stay_typed()
    ensures plain { (D : Declarations) (Ts : ℕ → Typing) (P : Program) → ProgramTyped D Ts P.functions → (L : Bool) → FunctionsLend L Ts P.functions → (given : ListOf ℤ) (n f : ℕ) (vs : ListOf Value) (s1 : State) (w : ListOf Action) (s : State) (K : Pending)
        → Active plainly P.functions P.main [] (starting P given n) f vs s1 → Reached plainly P.functions f vs s1 w s K → (S : Store) × StateTyped L (Ts f) S s K }
    ensures strict { (D : Declarations) (Ts : ℕ → Typing) (P : Program) → ProgramTyped D Ts P.functions → (L : Bool) → FunctionsLend L Ts P.functions → (given : ListOf ℤ) (n f : ℕ) (vs : ListOf Value) (s1 : State) (w : ListOf Action) (s : State) (K : Pending)
        → Active strictly P.functions P.main [] (starting P given n) f vs s1 → Reached strictly P.functions f vs s1 w s K → (S : Store) × StateTyped L (Ts f) S s K }
{}

/// So what is held has the shape of its temporary's type, and what stands in the slot of a variable and has a value in each part that
/// of the variable's type: a unit is the unit, and what is of a reference's type is a reference.
pub fn typed_values_have_shapes()
    ensures held { (L : Bool) (T : Typing) (S : Store) (s : State) (K : Pending) → StateTyped L T S s K → (t : Temporary) (v : Value) → Among (Some t, v) K → HasShape (T.temporaries t) v }
    ensures stored { (L : Bool) (T : Typing) (S : Store) (s : State) (K : Pending) → StateTyped L T S s K → (x i : ℕ) (v : Value) → slot_of s.frame.slots x ≡ Some i → element s.memory i ≡ Some v → is_set v ≡ true
        → HasShape (T.variables x) v }
{}

/// And no such run ends because operands, of an operator, a test, a print, a condition or a call, are of other types or another number
/// than it takes.
pub fn typed_runs_are_not_mistyped()
    ensures plain { (D : Declarations) (Ts : ℕ → Typing) (P : Program) → ProgramTyped D Ts P.functions → AllFormed P.functions (λ f. Any) → (F : Function) → IsFunction P.functions P.main F → F.params ≡ []
        → (given : ListOf ℤ) (n : ℕ) (t : ListOf ℕ) → run_by plainly P given n ≡ stops t (wrong mistyped) → ⊥ }
    ensures strict { (D : Declarations) (Ts : ℕ → Typing) (P : Program) → ProgramTyped D Ts P.functions → AllFormed P.functions (λ f. Any) → (F : Function) → IsFunction P.functions P.main F → F.params ≡ []
        → (given : ListOf ℤ) (n : ℕ) (t : ListOf ℕ) → run_by strictly P given n ≡ stops t (wrong mistyped) → ⊥ }
{}

/// What a run of such a program follows as a reference is one: none ends for the cause that it is not.
pub fn typed_runs_follow_references()
    ensures plain { (D : Declarations) (Ts : ℕ → Typing) (P : Program) → ProgramTyped D Ts P.functions → AllFormed P.functions (λ f. Any) → (F : Function) → IsFunction P.functions P.main F → F.params ≡ []
        → (given : ListOf ℤ) (n : ℕ) (t : ListOf ℕ) → run_by plainly P given n ≡ stops t (wrong missing_reference) → ⊥ }
    ensures strict { (D : Declarations) (Ts : ℕ → Typing) (P : Program) → ProgramTyped D Ts P.functions → AllFormed P.functions (λ f. Any) → (F : Function) → IsFunction P.functions P.main F → F.params ≡ []
        → (given : ListOf ℤ) (n : ℕ) (t : ListOf ℕ) → run_by strictly P given n ≡ stops t (wrong missing_reference) → ⊥ }
{}

/// Nor does one end because something can't be written, where they write and lend mutably through mutable references alone.
pub fn typed_runs_write_what_is_mutable()
    ensures plain { (D : Declarations) (Ts : ℕ → Typing) (P : Program) → ProgramTyped D Ts P.functions → FunctionsLend true Ts P.functions → AllFormed P.functions (λ f. Any) → (F : Function)
        → IsFunction P.functions P.main F → F.params ≡ [] → (given : ListOf ℤ) (n : ℕ) (t : ListOf ℕ) → run_by plainly P given n ≡ stops t (wrong immutable) → ⊥ }
    ensures strict { (D : Declarations) (Ts : ℕ → Typing) (P : Program) → ProgramTyped D Ts P.functions → FunctionsLend true Ts P.functions → AllFormed P.functions (λ f. Any) → (F : Function)
        → IsFunction P.functions P.main F → F.params ≡ [] → (given : ListOf ℤ) (n : ℕ) (t : ListOf ℕ) → run_by strictly P given n ≡ stops t (wrong immutable) → ⊥ }
{}

/// A program of such functions in whose types there is no reference goes behind none. Where it is initialised too, a strict run of it
/// is the plain run, and doesn't end because a value is lacking, because something can't be written, or because operands are of other
/// types.
pub fn runs_without_references()
    ensures never_behind { (D : Declarations) (Ts : ℕ → Typing) (P : Program) → ProgramTyped D Ts P.functions → NoReferences Ts → NeverBehind P.functions }
    ensures plain { (D : Declarations) (Ts : ℕ → Typing) (P : Program) → ProgramTyped D Ts P.functions → NoReferences Ts → (Fs : ℕ → Frame) (muts : ℕ → ListOf Bool) → IsInitial P.functions Fs muts
        → (F : Function) → IsFunction P.functions P.main F → (given : ListOf ℤ) (n : ℕ) → SameRun (run_by strictly P given (suc n)) (run_by plainly P given (suc n)) }
    ensures causes { (D : Declarations) (Ts : ℕ → Typing) (P : Program) → ProgramTyped D Ts P.functions → NoReferences Ts → (Fs : ℕ → Frame) (muts : ℕ → ListOf Bool) → IsInitial P.functions Fs muts
        → (F : Function) → IsFunction P.functions P.main F → F.params ≡ [] → (given : ListOf ℤ) (n : ℕ) (t : ListOf ℕ) (c : Cause) → run_by strictly P given (suc n) ≡ stops t (wrong c) → RemainsWithoutReferences c }
{}

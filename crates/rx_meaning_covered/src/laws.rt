//! Laws, each the contract of a function that does nothing.

ghost use Rattle.std.specs.Prelude.{◌≡◌, ℕ, ℤ, Bool, false, suc, List as ListOf, []};
ghost use Rattle.rx_typed.specs.Types.{Declarations};
ghost use Rattle.rx_typed.specs.Tree.{Root, Temporary, Pattern, Exp, Scrutinee, Arms, Function};
ghost use Rattle.rx_lower_walks.specs.Matching.{tests, bindings};
ghost use Rattle.rx_lower_walks.specs.Actions.{subject};
ghost use Rattle.rx_cover.specs.Choices.{choices};
ghost use Rattle.rx_cover.specs.Causes.{AllCovered};
ghost use Rattle.rx_facts_tables.specs.Places.{Frame};
ghost use Rattle.rx_meaning.specs.Endings.{Cause, wrong};
ghost use Rattle.rx_meaning.specs.Values.{Value, State};
ghost use Rattle.rx_meaning.specs.Acting.{plainly};
ghost use Rattle.rx_meaning.specs.Programs.{Program, ending_of, run_by};
ghost use Rattle.rx_meaning_keeping.specs.Pending.{Pending, holding, Fits};
ghost use Rattle.rx_meaning_keeping.specs.Keeping.{IsFunction, AllFail};
ghost use Rattle.rx_meaning_keeping.specs.Strict.{strictly};
ghost use Rattle.rx_meaning_keeping.specs.Ready.{IsInitial};
ghost use Rattle.rx_meaning_keeping.specs.Behind.{SameRun};
ghost use Rattle.rx_meaning_typed.specs.TypedActs.{Typing, root_typ};
ghost use Rattle.rx_meaning_typed.specs.TypedFunctions.{ProgramTyped};
ghost use Rattle.rx_meaning_typed.specs.ValueTypes.{Store};
ghost use Rattle.rx_meaning_typed.specs.TypedStates.{StateTyped};
ghost use Rattle.rx_meaning_typed.specs.NoReferences.{HasNoReference, NoReferences};
ghost use Rattle.rx_meaning_covered.specs.Arms.{HasArm, InTurn, AllLead};
ghost use Rattle.rx_meaning_covered.specs.Standing.{AnyChoice, AnyLet, Standing};
ghost use Rattle.rx_meaning_covered.specs.Ranged.{StateRanged, InputRanged};
ghost use Rattle.rx_meaning_covered.specs.Begun.{UsesBegun};
ghost use Rattle.rx_meaning_covered.specs.Scopes.{ScopedFunction, Gives};
ghost use Rattle.rx_meaning_covered.specs.Covered.{IsNotOf, ChoiceFits, LetFits, CoversChoice, CoversLet, Answers, ProgramCovered};

/// At a state of typed values without references, with integers in the ranges of their kinds, a choice that is covered by the type of
/// what is matched has an arm whose tests all hold. Of each arm, a test leads to a part that is there where those in front of it
/// hold, and so do the bindings where all hold; so do those of a `let` that is covered.
pub fn covered_choices_take_an_arm()
    ensures takes { (N : Temporary → Bool) (T : Typing) → ((r : Root) → HasNoReference T.declared (root_typ T r)) → (St : Store) (s : State) (c : Scrutinee) (vs : ListOf Value) (K : Pending) → StateTyped false T St s (holding (subject c) vs K)
        → StateRanged N s (holding (subject c) vs K) → Fits (subject c) vs → IsNotOf N (subject c) → (l : Arms) → ChoiceFits T c l → AllFail strictly (subject c) vs s l → ⊥ }
    ensures leads { (N : Temporary → Bool) (T : Typing) → ((r : Root) → HasNoReference T.declared (root_typ T r)) → (St : Store) (s : State) (c : Scrutinee) (vs : ListOf Value) (K : Pending) → StateTyped false T St s (holding (subject c) vs K)
        → StateRanged N s (holding (subject c) vs K) → Fits (subject c) vs → IsNotOf N (subject c) → (l : Arms) → ChoiceFits T c l → (p : Pattern) → HasArm p l
        → InTurn strictly (subject c) vs s (tests [] p) (AllLead (subject c) vs s (bindings [] p)) }
    ensures lets { (N : Temporary → Bool) (T : Typing) → ((r : Root) → HasNoReference T.declared (root_typ T r)) → (St : Store) (s : State) (c : Scrutinee) (vs : ListOf Value) (K : Pending) → StateTyped false T St s (holding (subject c) vs K)
        → StateRanged N s (holding (subject c) vs K) → Fits (subject c) vs → IsNotOf N (subject c) → (p : Pattern) → LetFits T c p → AllLead (subject c) vs s (bindings [] p) }
{}

/// A function in which each variable is in scope uses on its walks what has begun there; where its jumps are in their loops too and its
/// body ends by giving, no walk leaves it without a value.
pub fn scoped_functions_answer()
    ensures begun { (F : Function) → ScopedFunction F → UsesBegun F }
    ensures answers { (F : Function) → ScopedFunction F → Gives F.body → Answers F }
{}

/// Where the matches of a function are covered, each choice between arms and each `let` of its tree is.
pub fn choices_are_covered()
    ensures { (D : Declarations) (n : ℕ) (e : Exp) → AllCovered D (choices n e) → Standing AnyChoice AnyLet e → Standing (CoversChoice D) (CoversLet D) e }
{}

/// A run of an initialised program that acts by its types, without references, and is covered is never Wrong: neither the strict run,
/// whatever numbers of 64 bits it reads, nor the plain run, which is the same.
pub fn covered_runs_are_never_wrong()
    ensures strict { (D : Declarations) (N : ℕ → Temporary → Bool) (Ts : ℕ → Typing) (P : Program) → ProgramTyped D Ts P.functions → NoReferences Ts → (Fs : ℕ → Frame) (muts : ℕ → ListOf Bool) → IsInitial P.functions Fs muts
        → ProgramCovered N Ts P.functions → (given : ListOf ℤ) → InputRanged given → (n : ℕ) (F : Function) → IsFunction P.functions P.main F → F.params ≡ [] → (c : Cause) → ending_of (run_by strictly P given (suc n)) ≡ wrong c → ⊥ }
    ensures plain { (D : Declarations) (N : ℕ → Temporary → Bool) (Ts : ℕ → Typing) (P : Program) → ProgramTyped D Ts P.functions → NoReferences Ts → (Fs : ℕ → Frame) (muts : ℕ → ListOf Bool) → IsInitial P.functions Fs muts
        → ProgramCovered N Ts P.functions → (given : ListOf ℤ) → InputRanged given → (n : ℕ) (F : Function) → IsFunction P.functions P.main F → F.params ≡ [] → (c : Cause) → ending_of (run_by plainly P given (suc n)) ≡ wrong c → ⊥ }
    ensures same { (D : Declarations) (N : ℕ → Temporary → Bool) (Ts : ℕ → Typing) (P : Program) → ProgramTyped D Ts P.functions → NoReferences Ts → (Fs : ℕ → Frame) (muts : ℕ → ListOf Bool) → IsInitial P.functions Fs muts
        → (given : ListOf ℤ) (n : ℕ) (F : Function) → IsFunction P.functions P.main F → SameRun (run_by strictly P given (suc n)) (run_by plainly P given (suc n)) }
{}

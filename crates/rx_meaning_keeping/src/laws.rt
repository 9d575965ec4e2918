//! Laws of runs, by any way to act, each the contract of a function that does nothing.

ghost use Rattle.std.specs.Prelude.{◌≡◌, ℕ, ℤ, suc, Bool, List as ListOf, []};
ghost use Rattle.rx_core.specs.declared.types.Span.{Span};
ghost use Rattle.rx_tree.specs.Plain.{Function as FunctionTree};
ghost use Rattle.rx_resolve_names.specs.declared.resolved.NodeNames.{NodeNames};
ghost use Rattle.rx_typed.specs.Naming.{function_named};
ghost use Rattle.rx_typed.specs.Tree.{Function, temporary_of};
ghost use Rattle.rx_typed.specs.Elaborated.{Assigned, elaborated};
ghost use Rattle.rx_facts_tables.specs.Places.{Frame};
ghost use Rattle.rx_meaning.specs.Endings.{Ending, wrong, lacks};
ghost use Rattle.rx_meaning.specs.Values.{Value, State};
ghost use Rattle.rx_meaning.specs.Results.{stops};
ghost use Rattle.rx_meaning.specs.Acting.{Acting, plainly};
ghost use Rattle.rx_meaning.specs.Telling.{fully};
ghost use Rattle.rx_meaning.specs.Expressions.{Functions, activation, below_level, called};
ghost use Rattle.rx_meaning.specs.Programs.{Program, run_by};
ghost use Rattle.rx_meaning_keeping.specs.Formed.{Any, Formed, AllFormed};
ghost use Rattle.rx_meaning_keeping.specs.Keeping.{IsFunction};
ghost use Rattle.rx_meaning_keeping.specs.Reaching.{Behaves, Traced, Ends, starting};
ghost use Rattle.rx_meaning_keeping.specs.Relating.{Related};
ghost use Rattle.rx_meaning_keeping.specs.Beside.{firsts, seconds, SaidBeside, ValuesBeside, beside};
ghost use Rattle.rx_meaning_keeping.specs.Strict.{strictly};
ghost use Rattle.rx_meaning_keeping.specs.Ready.{IsInitial};
ghost use Rattle.rx_meaning_keeping.specs.Behind.{LacksBehind, NeverBehind, SameRun, SameButLacks};

use rx_typed::numbers_stand_in_order;

/// Whichever way an activation acts, where the trees are formed, the actions that it tells are a walk of its function, behind
/// which a state is reached: what the start of each activation has and each action keeps is so there. And a run ends for the
/// reasons alone that there are: by an action that was performed where it was reached, or where no action is to be. The plain
/// way is one that so behaves.
pub fn runs_are_traced()
    ensures activations { (A : Acting ℕ) → Behaves A → (P : Functions) → AllFormed P (λ f. Any) → (n f : ℕ) (F : Function) → IsFunction P f F
        → (vs : ListOf Value) (s : State) → Traced A P f F vs s (activation (fully A) (below_level (fully A) P n) F vs s) }
    ensures ends { (A : Acting ℕ) → Behaves A → (P : Program) → AllFormed P.functions (λ f. Any) → (F : Function) → IsFunction P.functions P.main F
        → (given : ListOf ℤ) (n : ℕ) (t : ListOf ℕ) (e : Ending) → run_by A P given (suc n) ≡ stops t e
        → Ends A P.functions P.main [] (starting P given n) e }
    ensures plainly { Behaves plainly }
{}

/// Two ways to act go side by side through the same program: what they give, tell and end with is what the actions gave that
/// both performed in states that both came to, until an action ends the one alone, or they have parted.
pub fn runs_go_side_by_side()
    ensures { (A B : Acting ℕ) (P : Functions) (n f : ℕ) (given : ListOf (Value × Value)) (s s' : State) → s.turns ≡ s'.turns
        → Related (beside A B given s s') (SaidBeside A B given s s') tt (λ k v v'. ValuesBeside A B given s s' v v')
        (called A P n f (firsts given) s) (called B P n f (seconds given) s') }
{}

/// No temporary of a tree that is elaborated is filled while its value is pending.
pub fn elaborated_trees_are_formed()
    ensures { (A : Assigned) (i : ℕ) (s : Span) (f : FunctionTree) (ns : ListOf NodeNames)
        → Formed Any [] (elaborated A (function_named i s f ns)).body (temporary_of (elaborated A (function_named i s f ns)).body) }
{
    numbers_stand_in_order();
}

/// The strict meaning marks what is moved and what has ended, and to look at what lacks a value is Wrong. A strict run of a program
/// whose functions are initialised ends so behind a reference alone: the action that it ended with goes through a dereference.
pub fn lacks_are_behind_references()
    ensures { (P : Program) (Fs : ℕ → Frame) (muts : ℕ → ListOf Bool) → IsInitial P.functions Fs muts → (F : Function) → IsFunction P.functions P.main F
        → (given : ListOf ℤ) (n : ℕ) (t : ListOf ℕ) → run_by strictly P given (suc n) ≡ stops t (wrong lacks)
        → LacksBehind strictly P.functions P.main [] (starting P given n) }
{}

/// A strict run prints what the plain one does, gives the same value and ends as it does, with the same cause where that is Wrong,
/// unless it ends for a lack; and so it does where no action of an initialised program goes behind a reference.
pub fn strict_runs_are_plain()
    ensures each { (P : Program) (given : ListOf ℤ) (n : ℕ) → SameButLacks (run_by strictly P given n) (run_by plainly P given n) }
    ensures without_references { (P : Program) (Fs : ℕ → Frame) (muts : ℕ → ListOf Bool) → IsInitial P.functions Fs muts → (F : Function)
        → IsFunction P.functions P.main F → NeverBehind P.functions → (given : ListOf ℤ) (n : ℕ)
        → SameRun (run_by strictly P given (suc n)) (run_by plainly P given (suc n)) }
{}

//! Laws of steps, each the contract of a function that does nothing.

ghost use Rattle.std.specs.Prelude.{◌≡◌, ◌<◌, ◌≤◌, [], ◌∷◌, ℕ, ℤ, List as ListOf};
ghost use Rattle.rx_typed.specs.Tree.{Exp, Body, Function, Mark, loop};
ghost use Rattle.rx_meaning.specs.Values.{Value, State, new_frame};
ghost use Rattle.rx_lower_walks.specs.Orders.{Exit};
ghost use Rattle.rx_meaning.specs.Results.{Result, jumps, after};
ghost use Rattle.rx_meaning.specs.Expressions.{Functions, passed};
ghost use Rattle.rx_machine_running.specs.Running.{Meaning, value, body, entered, level, with_arguments};
ghost use Rattle.rx_meaning.specs.Programs.{Program, run, outcome_of, begins};
ghost use Rattle.rx_machine_frames.specs.Stepping.{config, step, turn, means};
ghost use Rattle.rx_machine_frames.specs.Laws.{Keeps, Lessens};
ghost use Rattle.rx_machine_frames.specs.Frames.{Next, calls, finishes, Hole, Around, hole, pass, call_from, loops, does_next, opened, opened_body, filled, resume, unwind};

/// What an expression does first, and what is left of it then, is what it does.
#[tactic(auto, using(crate::proofs::Steps::opened_is))]
pub fn expressions_open()
    ensures { (P : Functions) (below : Meaning) (e : Exp) (s : State) → value P below e s ≡ does_next P below (opened e) s }
{}

/// The same of a block.
#[tactic(auto, using(crate::proofs::Steps::opened_body_is))]
pub fn blocks_open()
    ensures { (P : Functions) (below : Meaning) (b : Body) (s : State) → body P below b s ≡ does_next P below (opened_body b) s }
{}

/// What comes next once an operand has its value is what is left of the form.
#[tactic(auto, using(crate::proofs::Steps::filled_is))]
pub fn holes_fill()
    ensures { (P : Functions) (below : Meaning) (h : Hole) (v : Value) (s : State)
        → resume P below h v s ≡ does_next P below (filled h v) s }
{}

/// What was printed already comes first, whatever frames are around.
#[tactic(auto, using(crate::proofs::Unwinding::unwind_after))]
pub fn printed_comes_first()
    ensures { (P : Functions) (below : Meaning) (K : ListOf Around) (w : ListOf ℕ) (r : Result ℕ Value)
        → unwind P below K (after w r) ≡ after w (unwind P below K r) }
{}

/// A jump leaves what was half done.
#[tactic(auto, using(crate::proofs::Unwinding::jump_leaves))]
pub fn jumps_leave_holes()
    ensures { (P : Functions) (below : Meaning) (h : Hole) (K : ListOf Around) (w : ListOf ℕ) (x : Exit) (v : Value)
        (s : State) → unwind P below (hole h ∷ K) (jumps w x v s) ≡ unwind P below K (jumps w x v s) }
{}

/// The first pass of a loop behind a turn is its body in a frame, where fewer turns are left than may be nested.
#[tactic(auto, using(crate::proofs::Unwinding::pass_begins))]
pub fn passes_begin()
    ensures { (P : Functions) (n : ℕ) (m : Mark) (l : ℕ) (e : Exp) (s : State) → s.turns < n
        → passed l (level P n e s) (λ s1. level P n (loop m l e) s1)
        ≡ unwind P (level P n) (pass m l e ∷ []) (value P (level P n) e s) }
{}

/// A loop that begins again is what an expression of that loop does first.
#[tactic(auto, using(crate::proofs::Unwinding::pass_again))]
pub fn passes_go_on()
    ensures { (P : Functions) (n : ℕ) (m : Mark) (l : ℕ) (e : Exp) (s : State) → s.turns < n
        → level P n (loop m l e) s ≡ does_next P (level P n) (loops m l e) s }
{}

/// The body of a call behind a turn is in a frame that keeps the caller's, where fewer turns are left than may be nested.
#[tactic(auto, using(crate::proofs::Calls::call_begins))]
pub fn calls_begin()
    ensures { (P : Functions) (n i : ℕ) (f : Function) (vs : ListOf Value) (s : State) → s.turns < n
        → entered (level P n) i f vs s ≡ unwind P (level P n) (call_from s.frame ∷ [])
        (with_arguments f.params vs (λ s1. value P (level P n) f.body s1) (record s { frame = new_frame i })) }
{}

/// One step leaves the rest of a run as it is, behind what it printed, where fewer turns are left than may be nested; and
/// it makes what is left to do before the next turn smaller.
pub fn steps_keep()
    ensures keeps { (P : Functions) (n : ℕ) (K : ListOf Around) (x : Next) (s : State) → s.turns < n
        → Keeps P n (config K x s) (step K x s) }
    ensures lessens { (K : ListOf Around) (x : Next) (s : State) → Lessens (config K x s) (step K x s) }
{}

/// A turn leaves the rest of a run as it is; none is left where it was cut off.
pub fn turns_keep()
    ensures { (P : Functions) (n : ℕ) (K : ListOf Around) (x : Next) (s : State) → s.turns ≤ n
        → Keeps P n (config K x s) (turn P K x s) }
{}

/// A run is what is left of it where the call of `main` waits for its turn.
#[tactic(auto, using(crate::proofs::StepLemmas::run_begins))]
pub fn runs_begin()
    ensures { (P : Program) (given : ListOf ℤ) (n : ℕ)
        → run P given n ≡ outcome_of (means P.functions n (config [] (finishes (calls P.main) []) (begins given n))) }
{}

//! Laws, each the contract of a function that does nothing.

ghost use Rattle.std.specs.Prelude.{◌≡◌, ◌≢◌, ◌≤◌, ℕ, Bool, true, false, List as ListOf, ◌∷◌, [], ◌++◌, Some};
ghost use Rattle.rx_core.specs.declared.types.Step.{Step};
ghost use Rattle.rx_typed.specs.Tree.{Temporary, ends, own};
ghost use Rattle.rx_typed_declarations.specs.Sizes.{Sized};
ghost use Rattle.rx_lower_walks.specs.Actions.{Action};
ghost use Rattle.rx_lower_walks.specs.Orders.{Order, order_body, order_function, exit};
ghost use Rattle.rx_lower_walks.specs.Walks.{fails, stopped, Walk, IsWalk, Among};
ghost use Rattle.rx_lower_walks.specs.Walks.{leaves as left_by};
ghost use Rattle.rx_facts_tables.specs.Along.{after};
ghost use Rattle.rx_facts_tables.specs.Setting.{is_behind, AllSet};
ghost use Rattle.rx_exits_plan.specs.Blocks.{tail, before};
ghost use Rattle.rx_exits_plan.specs.Runs.{Sits, in_front, behind};
ghost use Rattle.rx_exits_plan.specs.Spots.{spots_of_function};
ghost use Rattle.rx_exits_plan.specs.Coming.{HasNoMark};
ghost use Rattle.rx_exits_plan.specs.Unreachable.{SomeComes, At, Unreachable};
ghost use Rattle.rx_exits_plan.specs.Exits.{exits};
ghost use Rattle.rx_exits_plan.specs.Points.{Exit, next, returns, leaves, jump_exit};
ghost use Rattle.rx_exits_plan.specs.Marked.{shown, ended_tail, marked_body};
ghost use Rattle.rx_exits_plan.specs.Asked.{Asked};
ghost use Rattle.rx_exits_plan.specs.Plan.{Plan, IsPlan, variables_of};
ghost use Rattle.rx_exits_plan.specs.PartlyMoved.{PartlyMoved};
ghost use Rattle.rx_modes_uses.specs.NotMut.{NotMut};
ghost use Rattle.rx_engine_related.specs.AboutRun.{text_of};
ghost use Rattle.rx_engine_related.specs.OneSite.{blocks_at};
ghost use Rattle.rx_engine_related.specs.OnePlace.{LeadsToOnePlace};
ghost use Rattle.rx_engine_related.specs.Accepted.{Accepted};
ghost use Rattle.rx_engine_related.specs.ByForm.{IsItself};
ghost use Rattle.rx_engine_related.specs.Had.{Had};
ghost use Rattle.rx_engine_initial.specs.Matching.{Piece, fill, Runs, Matches};
ghost use Rattle.rx_engine_initial.specs.Variables.{Sides, KnownVariables, standing_in};
ghost use Rattle.rx_engine_initial.specs.Copies.{world};
ghost use Rattle.rx_engine_initial.specs.Handing.{Handing, Straight, giving};
ghost use Rattle.rx_engine_initial.specs.Planned.{IsTextOf, MeetsMark, AllFor};
ghost use Rattle.rx_engine_initial_calls.specs.GoneThrough.{IsGoneThrough};
ghost use Rattle.rx_engine_initial_calls.specs.RunPieces.{pieces_of, run_pieces};
ghost use Rattle.rx_engine_initial_calls.specs.CallOf.{IsCallOf};
ghost use Rattle.rx_engine_initial_calls.specs.MatchOf.{IsMatchOf, HasWays};

/// Where all of a variable of the run is set, each place of it, behind no reference, is there as a whole with each that it is in: so it may be lent.
pub fn lent_variables_stand()
    ensures { (A : Asked) (muts : ListOf Bool) → Accepted A muts → (k : Plan) → IsPlan A k → (x : ℕ) → Among x (variables_of A) → (w : ListOf Action) → IsWalk (text_of A k) w
        → AllSet A.frame w (own x) → (qs : ListOf Step) → is_behind qs ≡ false → after (standing_in x qs) w false ≡ true }
{}

/// A run without its block's tail stands in the marked text as pieces of its block, and a walk through them goes through the run.
pub fn runs_are_pieces()
    ensures stand { (A : Asked) (k : Plan) (d : Temporary) → order_body (marked_body A.run A.home.around.loops k.params A.home.body) A.run.block d
        ≡ fill (pieces_of A.run.block (in_front A.run A.home.body)) (fill (run_pieces A k)
        (order_body (before (behind A.run A.home.body) (ends (ended_tail A.run.tail A.run.block A.home.around.loops (tail A.home.body)))) A.run.block d)) }
    ensures gone_through { (A : Asked) (k : Plan) → A.run.tail ≡ false → (u : ListOf Action) → Runs (run_pieces A k) u → IsGoneThrough A k next u }
{}

/// The call of a plan matches its run, in front of what matches, where some walk goes through the run to its end: each variable in scope
/// behind has its fate by the plan, and what the caller does is in order.
pub fn calls_of_plans_match()
    ensures { (A : Asked) (k : Plan) → IsPlan A k → (S : Sides) → Sized S.frame.declared S.frame.sizes → Accepted A S.muts_there → IsTextOf S A k
        → ((x : ℕ) → ¬ (PartlyMoved A k x)) → ((x : ℕ) → ¬ (NotMut A S.muts_there k x)) → Among next k.exits → (R T : KnownVariables S) (H K : ListOf Piece) (q r : Order) → IsCallOf S A k R T H
        → (u : ListOf Action) → Runs K u → IsGoneThrough A k next u → ((us : ListOf Action) → Walk q us fails → ⊥)
        → Matches (world S) T q r → Matches (world S) R (fill H q) (fill K r) }
{}

/// So does the match of the call, where the run is left by several exits: each walk through it is the way of an exit, and goes on, jumps or
/// returns as the run does there.
pub fn matched_calls_match()
    ensures { (A : Asked) (k : Plan) → IsPlan A k → (S : Sides) → Sized S.frame.declared S.frame.sizes → Accepted A S.muts_there → IsTextOf S A k
        → ((x : ℕ) → ¬ (PartlyMoved A k x)) → ((x : ℕ) → ¬ (NotMut A S.muts_there k x)) → (R T : KnownVariables S) (H K : ListOf Piece) (q r : Order) → IsMatchOf S A k R T H (fill K r) → HasWays A k K (fill K r)
        → ((us : ListOf Action) → Walk q us fails → ⊥) → Matches (world S) T q r → Matches (world S) R (fill H q) (fill K r) }
{}

/// Where the new function takes what an exit hands out, and gives what it makes of it, it is in order, also where several jumps of the run take
/// the exit, if their marks lead to one place.
pub fn exits_of_several_jumps_match()
    ensures { (A : Asked) (k : Plan) → IsPlan A k → (e : Exit) → Among e k.exits → LeadsToOnePlace (text_of A k) (shown (leaves e)) → (S : Sides) → Sized S.frame.declared S.frame.sizes
        → Accepted A S.muts_there → IsTextOf S A k → (R : KnownVariables S) (q : Order) → ((x : ℕ) → ¬ (PartlyMoved A k x)) → MeetsMark S (leaves e) q
        → (xs : ListOf ℕ) → AllFor R xs (k.outs e) → (l : ListOf Action) → Handing xs l → (s : Order) → Straight s l → (n : ℕ) (t : Temporary)
        → Matches (world S) R (giving s n t) q }
{}

/// A walk comes to each exit of a run that is reached. Where one comes to the mark of an exit, some walk goes through the run to it, whatever
/// follows the run; and where it is the mark of the run's end, one goes through all its pieces.
pub fn reached_exits_are_gone_through()
    ensures reached { (A : Asked) → ((q : At) → ¬ (Unreachable A q)) → (e : Exit) → Among e (exits A.run A.home) → SomeComes A (leaves e) }
    ensures through { (A : Asked) (k : Plan) → A.run.tail ≡ false → HasNoMark (order_function A.function) → Sits A.function A.run A.home → blocks_at A.run.block (spots_of_function A.function) ≤ 1
        → (e : Exit) → SomeComes A (leaves e) → (q : Order) → (u : ListOf Action) × Walk (fill (run_pieces A k) q) u stopped × IsGoneThrough A k e u }
    ensures to_end { (A : Asked) (k : Plan) → A.run.tail ≡ false → HasNoMark (order_function A.function) → Sits A.function A.run A.home → blocks_at A.run.block (spots_of_function A.function) ≤ 1
        → SomeComes A (leaves next) → (u : ListOf Action) × Runs (run_pieces A k) u × IsGoneThrough A k next u }
{}

/// The call of a plan matches a run that is not refused, in front of what matches: no walk through the run is asked for.
pub fn calls_of_reached_runs_match()
    ensures { (A : Asked) (k : Plan) (S : Sides) → Had A S.muts_there k → ((q : At) → ¬ (Unreachable A q)) → Sized S.frame.declared S.frame.sizes → IsTextOf S A k
        → Among next k.exits → (R T : KnownVariables S) (H : ListOf Piece) (q r : Order) → IsCallOf S A k R T H → ((us : ListOf Action) → Walk q us fails → ⊥)
        → Matches (world S) T q r → Matches (world S) R (fill H q) (fill (run_pieces A k) r) }
{}

/// So does the match of the call of one.
pub fn matched_calls_of_reached_runs_match()
    ensures { (A : Asked) (k : Plan) (S : Sides) → Had A S.muts_there k → ((q : At) → ¬ (Unreachable A q)) → Sized S.frame.declared S.frame.sizes → IsTextOf S A k
        → (R T : KnownVariables S) (H : ListOf Piece) (q r : Order) → IsMatchOf S A k R T H (fill (run_pieces A k) r) → ((us : ListOf Action) → Walk q us fails → ⊥)
        → Matches (world S) T q r → Matches (world S) R (fill H q) (fill (run_pieces A k) r) }
{}

/// Of a run that is not refused, in a function that is like itself: a walk that comes to the mark of a `break` or `continue` goes on to leave
/// the run so, whatever follows the run.
pub fn jumps_leave_reached_runs()
    ensures { (A : Asked) (muts : ListOf Bool) (k : Plan) → Had A muts k → IsItself (Some (Some A.function)) → ((q : At) → ¬ (Unreachable A q))
        → (l : ℕ) (again : Bool) → Among (jump_exit l again) k.exits → (q : Order)
        → (n : ℕ) × (u : ListOf Action) × Walk (fill (run_pieces A k) q) u (left_by (exit n l again)) × IsGoneThrough A k (jump_exit l again) u }
{}

/// And what an exit hands out of one is in order where the new function takes it, and gives what it makes of it: the exit's marks lead to one
/// place.
pub fn exits_of_reached_runs_match()
    ensures { (A : Asked) (k : Plan) (S : Sides) → Had A S.muts_there k → IsItself (Some (Some A.function)) → (e : Exit) → Among e k.exits → e ≢ returns
        → Sized S.frame.declared S.frame.sizes → IsTextOf S A k → (R : KnownVariables S) (q : Order) → MeetsMark S (leaves e) q
        → (xs : ListOf ℕ) → AllFor R xs (k.outs e) → (l : ListOf Action) → Handing xs l → (s : Order) → Straight s l → (n : ℕ) (t : Temporary)
        → Matches (world S) R (giving s n t) q }
{}

//! Laws, each the contract of a function that does nothing.

ghost use Rattle.std.specs.Prelude.{◌≡◌, ◌≢◌, ℕ, Bool, List as ListOf, [], map, Some};
ghost use Rattle.rx_typed.specs.Tree as tree;
ghost use Rattle.rx_typed.specs.Tree.{Temporary, Mark, Parameter, Pattern, Operands, Exp, Arms, Body, ends, Function, temporary_of};
ghost use Rattle.rx_typed_declarations.specs.Sizes.{Sized};
ghost use Rattle.rx_lower_walks.specs.Actions.{Action};
ghost use Rattle.rx_lower_walks.specs.Orders.{Order, beginning, order, order_body, order_function, exit};
ghost use Rattle.rx_lower_walks.specs.Walks.{Walk, Among};
ghost use Rattle.rx_lower_walks.specs.Walks.{leaves as left_by};
ghost use Rattle.rx_facts_tables.specs.Initialised.{Initialised};
ghost use Rattle.rx_exits_plan.specs.Points.{Exit, Point, next, returns, enters, leaves, jump_exit};
ghost use Rattle.rx_exits_plan.specs.Blocks.{Statement, tail, before};
ghost use Rattle.rx_exits_plan.specs.Runs.{inside, behind};
ghost use Rattle.rx_exits_plan.specs.Runs.{in_front as run_front};
ghost use Rattle.rx_exits_plan.specs.Changed.{changed, changed_statement};
ghost use Rattle.rx_exits_plan.specs.Marked.{mark, then_mark, marking, entering, ended_tail, marked_body};
ghost use Rattle.rx_exits_plan.specs.Bound.{variables_of_params};
ghost use Rattle.rx_exits_plan.specs.Asked.{Asked};
ghost use Rattle.rx_exits_plan.specs.Plan.{Plan, IsPlan};
ghost use Rattle.rx_exits_plan.specs.Unreachable.{At, Unreachable};
ghost use Rattle.rx_modes_policy.specs.declared.uses.Mode.{Mode};
ghost use Rattle.rx_engine_simulation.specs.Sights.{Sight, Renaming, sight_of};
ghost use Rattle.rx_engine_simulation.specs.Places.{IsDirect};
ghost use Rattle.rx_engine_simulation.specs.Turns.{Allowance};
ghost use Rattle.rx_engine_simulation.specs.Passing.{New, inner_jumps};
ghost use Rattle.rx_engine_simulation.specs.Blocks.{Stretch, with_locals};
ghost use Rattle.rx_engine_simulation.specs.Blocks.{before as in_front};
ghost use Rattle.rx_engine_simulation.specs.Statements.{body_of};
ghost use Rattle.rx_engine_related.specs.AboutRun.{special_of};
ghost use Rattle.rx_engine_related.specs.Running.{passing};
ghost use Rattle.rx_engine_related.specs.Moved.{Moved, Ended};
ghost use Rattle.rx_engine_related.specs.Never.{NeverEnds};
ghost use Rattle.rx_engine_simulation.specs.Jumps.{Jumping};
ghost use Rattle.rx_engine_simulation.specs.Packing.{Way, no_way, Gives};
ghost use Rattle.rx_engine_simulation.specs.Endings.{Last};
ghost use Rattle.rx_engine_related.specs.Accepted.{Accepted};
ghost use Rattle.rx_engine_related.specs.Leaving.{HaveThere, jumps_of};
ghost use Rattle.rx_engine_related.specs.ByForm.{RelatedFunction, IsItself};
ghost use Rattle.rx_engine_related.specs.InBlock.{in_its_block};
ghost use Rattle.rx_engine_related.specs.Given.{EntersWith};
ghost use Rattle.rx_engine_related.specs.Handed.{Handed};
ghost use Rattle.rx_engine_related.specs.Had.{Had};
ghost use Rattle.rx_engine_related.specs.Standing.{CallOf, the_call};
ghost use Rattle.rx_engine_initial.specs.Matching.{Piece, fill, Matches};
ghost use Rattle.rx_engine_initial.specs.Variables.{Sides, LikeVariable, KnownVariables};
ghost use Rattle.rx_engine_initial.specs.Copies.{world};
ghost use Rattle.rx_engine_initial.specs.Planned.{IsTextOf, MeetsMark};
ghost use Rattle.rx_engine_initial_calls.specs.RunPieces.{run_pieces};
ghost use Rattle.rx_engine_initial_calls.specs.CallOf.{IsCallOf};
ghost use Rattle.rx_engine_initial_calls.specs.GoneThrough.{IsGoneThrough};
ghost use Rattle.rx_engine_initial_calls.specs.MatchOf.{IsMatchOf};
ghost use Rattle.rx_engine_initial_forms.specs.Agreeing.{Agrees, AllLike};
ghost use Rattle.rx_engine_initial_forms.specs.Following.{AgreesOnLoops};
ghost use Rattle.rx_engine_initial_related.specs.CallerAsked.{EntersSo, CallerAsked};
ghost use Rattle.rx_engine_initial_related.specs.ExitArms.{OnlyExits};
ghost use Rattle.rx_engine_initial_related.specs.Calling.{ExpCalls};
ghost use Rattle.rx_engine_initial_related.specs.FrontAlike.{FrontAlike};
ghost use Rattle.rx_engine_initial_related.specs.AlsoMarked.{AlsoMarked, AlsoMarkedStretch};
ghost use Rattle.rx_engine_initial_related.specs.Moving.{LeavesBy, StretchMoves, stretch_of};
ghost use Rattle.rx_engine_initial_related.specs.Ending.{with_left, EndMoves};

/// The call that the relation of trees puts in place of a run, without a match, with what is done with what it gives, is the call of the plan: the
/// statements around it are pieces of the block's order, and each variable behind becomes what the plan says of it. The scope behind agrees with the
/// relation's.
pub fn related_calls_are_calls()
    ensures { (S : Sides) (A : Asked) (k : Plan) → IsPlan A k → Among next k.exits → (again : Bool) (modes : ListOf Mode) (R Ra Rb Rn : Renaming) (es : Operands) (ps : ListOf Parameter)
        (ls : ListOf (ℕ × ℕ)) (mc : Mark) (i : ℕ) (f : Body → Body) (given : EntersWith again k modes R es ps ls Ra) → EntersSo A given → Handed A S.muts_there k R Rb (tree.call mc i es) Rn f
        → CallerAsked S A k R Rn → (K : KnownVariables S) → Agrees S R K
        → (T : KnownVariables S) × Agrees S Rn T × (T.loops ≡ K.loops)
        × ((n : ℕ) → (H : ListOf Piece) × ((b : Body) (d : Temporary) → order_body (f b) n d ≡ fill H (order_body b n d)) × IsCallOf S A k K T H) }
{}

/// So it matches a run that is reached and not refused, in front of what matches.
pub fn related_calls_match()
    ensures { (S : Sides) (A : Asked) (k : Plan) → Had A S.muts_there k → ((q : At) → ¬ (Unreachable A q)) → Sized S.frame.declared S.frame.sizes → IsTextOf S A k → Among next k.exits
        → (again : Bool) (modes : ListOf Mode) (R Ra Rb Rn : Renaming) (es : Operands) (ps : ListOf Parameter) (ls : ListOf (ℕ × ℕ)) (mc : Mark) (i : ℕ) (f : Body → Body)
        (given : EntersWith again k modes R es ps ls Ra) → EntersSo A given → Handed A S.muts_there k R Rb (tree.call mc i es) Rn f → CallerAsked S A k R Rn → (K : KnownVariables S) → Agrees S R K
        → (T : KnownVariables S) × Agrees S Rn T × (T.loops ≡ K.loops)
        × ((n : ℕ) (b : Body) (d : Temporary) (r : Order) → Matches (world S) T (order_body b n d) r → Matches (world S) K (order_body (f b) n d) (fill (run_pieces A k) r)) }
{}

/// The match of the call over the exits is the match of the plan, where it has no arm but theirs: each walk through it is the way of an exit, and goes on,
/// jumps or returns as the run does there.
pub fn related_matches_are_matches()
    ensures { (S : Sides) (A : Asked) (k : Plan) → IsPlan A k → (again : Bool) (modes : ListOf Mode) (R Ra Rb Rn : Renaming) (es : Operands) (ps : ListOf Parameter) (ls : ListOf (ℕ × ℕ)) (mc mm : Mark)
        (i : ℕ) (f : Body → Body) (J Ji : Jumping) (w : Way) (p : Pattern) (e : Exp) (l : Arms) (given : EntersWith again k modes R es ps ls Ra) → EntersSo A given
        → CallOf A S.muts_there k J R (tree.call mc i es) Ji w (tree.choose mm (tree.of_value (tree.call mc i es)) (tree.arm_and p e l)) → OnlyExits k (tree.arm_and p e l) (tree.arm_and p e l)
        → Handed A S.muts_there k R Rb (tree.choose mm (tree.of_value (tree.call mc i es)) (tree.arm_and p e l)) Rn f → CallerAsked S A k R Rn → (K : KnownVariables S) → Agrees S R K → AgreesOnLoops S J K
        → (t : Order) → ((n : ℕ) (b : Bool) → Among (jump_exit n b) k.exits → (m : ℕ) × (u : ListOf Action) × Walk t u (left_by (exit m n b)) × IsGoneThrough A k (jump_exit n b) u)
        → (T : KnownVariables S) × Agrees S Rn T × (T.loops ≡ K.loops)
        × ((n : ℕ) → (H : ListOf Piece) × ((b : Body) (d : Temporary) → order_body (f b) n d ≡ fill H (order_body b n d)) × IsMatchOf S A k K T H t) }
{}

/// So it matches a run that is reached and not refused, in a function that is like itself, in front of what matches.
pub fn related_matches_match()
    ensures { (S : Sides) (A : Asked) (k : Plan) → Had A S.muts_there k → IsItself (Some (Some A.function)) → ((q : At) → ¬ (Unreachable A q)) → Sized S.frame.declared S.frame.sizes → IsTextOf S A k
        → (again : Bool) (modes : ListOf Mode) (R Ra Rb Rn : Renaming) (es : Operands) (ps : ListOf Parameter) (ls : ListOf (ℕ × ℕ)) (mc mm : Mark) (i : ℕ) (f : Body → Body) (J Ji : Jumping) (w : Way)
        (p : Pattern) (e : Exp) (l : Arms) (given : EntersWith again k modes R es ps ls Ra) → EntersSo A given
        → CallOf A S.muts_there k J R (tree.call mc i es) Ji w (tree.choose mm (tree.of_value (tree.call mc i es)) (tree.arm_and p e l)) → OnlyExits k (tree.arm_and p e l) (tree.arm_and p e l)
        → Handed A S.muts_there k R Rb (tree.choose mm (tree.of_value (tree.call mc i es)) (tree.arm_and p e l)) Rn f → CallerAsked S A k R Rn → (K : KnownVariables S) → Agrees S R K → AgreesOnLoops S J K
        → (r : Order) → (T : KnownVariables S) × Agrees S Rn T × (T.loops ≡ K.loops)
        × ((n : ℕ) (b : Body) (d : Temporary) → Matches (world S) T (order_body b n d) r → Matches (world S) K (order_body (f b) n d) (fill (run_pieces A k) r)) }
{}

/// The params and the locals that the relation gives the new function match in front of what matches where the run is entered; the scope behind them
/// agrees with how the relation has the text's variables there.
pub fn related_entries_match()
    ensures { (S : Sides) (A : Asked) (k : Plan) → IsPlan A k → Accepted A S.muts_there → IsTextOf S A k → Sized S.frame.declared S.frame.sizes → Sized S.frame_there.declared S.frame_there.sizes
        → Initialised S.frame_there S.muts_there S.text → (again : Bool) (modes : ListOf Mode) (R Ra : Renaming) (es : Operands) (ps : ListOf Parameter) (ls : ListOf (ℕ × ℕ)) → EntersWith again k modes R es ps ls Ra
        → ((x : ℕ) (e : Sight) → sight_of Ra x ≡ Some e → IsDirect e.how → LikeVariable S e.to x) → (T : KnownVariables S) → T.variables ≡ [] → (q : Order) → MeetsMark S enters q
        → (U : KnownVariables S) × Agrees S Ra U × (U.loops ≡ T.loops)
        × ((n m : ℕ) (b : Body) (d : Temporary) → Matches (world S) U (order_body b m d) q → Matches (world S) T (beginning ps n (order_body (with_locals ls b) m d)) q) }
{}

/// What the new function gives where an exit is taken, by its end or by a jump that became a return, matches where the exit's mark is met.
pub fn related_exits_match()
    ensures { (A : Asked) (k : Plan) (S : Sides) → Had A S.muts_there k → IsItself (Some (Some A.function)) → (e : Exit) → Among e k.exits → e ≢ returns → Sized S.frame.declared S.frame.sizes → IsTextOf S A k
        → (R : Renaming) (U : KnownVariables S) → Agrees S R U → (w : Way) (zs : ListOf ℕ) (v : Exp) → HaveThere R (k.outs e) zs → Gives w zs v → (q : Order) → MeetsMark S (leaves e) q → (m : Mark) (d : Temporary)
        → Matches (world S) U (order (tree.give m v) d) q }
{}

/// So does what it does where the run returns: the value becomes a part of a variant, and the text tells by a mark that it returns; or a variant without
/// a part is returned, in place of anything.
pub fn related_returns_match()
    ensures value { (S : Sides) → Sized S.frame.declared S.frame.sizes → Sized S.frame_there.declared S.frame_there.sizes → (U : KnownVariables S) (p : Point) (m n w : Mark) (i v : ℕ) (e f : Exp)
        → Matches (world S) U (order e (temporary_of e)) (order f (temporary_of f)) → (d t : Temporary)
        → Matches (world S) U (order (tree.give m (tree.build w (tree.variant_of i v) (tree.operand_and 0 e tree.no_operand))) d) (order (tree.give n (then_mark p f)) t) }
    ensures unit { (S : Sides) → Sized S.frame.declared S.frame.sizes → Sized S.frame_there.declared S.frame_there.sizes → (R : Renaming) (U : KnownVariables S) → Agrees S R U
        → (w : Way) (v : Exp) → Gives w [] v → (q : Order) (m : Mark) (d : Temporary) → Matches (world S) U (order (tree.give m v) d) q }
{}

/// So the whole new function matches the run's statements in the text with all its marks, and what follows there, where the run's end is an exit: its
/// jumps and returns are those of the plan's exits. Where that part is come to in the text, the new function is initialised by `functions_are_initialised`.
pub fn related_runs_match()
    ensures function { (S : Sides) (A : Asked) (k : Plan) → Had A S.muts_there k → IsItself (Some (Some A.function)) → Sized S.frame.declared S.frame.sizes → Sized S.frame_there.declared S.frame_there.sizes
        → IsTextOf S A k → Initialised S.frame_there S.muts_there S.text → Among next k.exits → (again : Bool) (modes : ListOf Mode) (R Ra Rb : Renaming) (es : Operands) (ps : ListOf Parameter) (ls : ListOf (ℕ × ℕ))
        → EntersWith again k modes R es ps ls Ra → ((x : ℕ) (e : Sight) → sight_of Ra x ≡ Some e → IsDirect e.how → LikeVariable S e.to x)
        → (items : ℕ → ℕ) (gain : Allowance) (U : ListOf ℕ) (J : Jumping) (r q : Stretch) (m : Moved items gain U (special_of A S.muts_there k) J Ra r q Rb) → StretchMoves S m → LeavesBy k J → J.loops ≡ [] → (x : Stretch) → AlsoMarkedStretch r x
        → (w : Way) (zs : ListOf ℕ) (g : Exp) → HaveThere Rb (k.outs next) zs → Gives w zs g → (T : KnownVariables S) → T.variables ≡ [] → T.loops ≡ [] → (f : Function) (mb mg : Mark) → f.params ≡ ps
        → f.body ≡ body_of mb ls q (tree.ends (tree.give mg g)) → (rest : Body) (n : ℕ) (t : Temporary)
        → Matches (world S) T (order_function f) (order_body (before (entering k.params) (in_front x (tree.runs (mark (leaves next)) rest))) n t) }
    ensures jumps { (A : Asked) (muts : ListOf Bool) (k : Plan) (unit : Bool) → LeavesBy k (jumps_of A muts k unit) }
    ensures alone { (k : Plan) → LeavesBy k inner_jumps }
    ensures marks { (ls : ListOf ℕ) (e : Exp) → AlsoMarked (changed (passing ls) e) (changed (marking ls) e) }
{}

/// The block of the run matches the text's with all its marks, where what stands in front of the run is alike and what stands for the run, with
/// what follows, matches.
pub fn related_blocks_match()
    ensures { (S : Sides) (A : Asked) (k : Plan) (R T : KnownVariables S) (ss : ListOf Statement) → FrontAlike S R ss (run_front A.run A.home.body) T → (b : Body) (m : ℕ) (d t : Temporary)
        → Matches (world S) T (order_body b m d) (fill (run_pieces A k) (order_body (before (behind A.run A.home.body) (ends (ended_tail A.run.tail A.run.block A.home.around.loops (tail A.home.body)))) A.run.block t))
        → Matches (world S) R (order_body (before ss b) m d) (order_body (marked_body A.run A.home.around.loops k.params A.home.body) A.run.block t) }
{}

/// And so the new function is initialised, where the run is not refused, is reached, and its end is an exit, in a function that is like itself.
pub fn related_functions_are_initialised()
    ensures { (S : Sides) (A : Asked) (k : Plan) → Had A S.muts_there k → IsItself (Some (Some A.function)) → ((q : At) → ¬ (Unreachable A q)) → Sized S.frame.declared S.frame.sizes
        → Sized S.frame_there.declared S.frame_there.sizes → IsTextOf S A k → Initialised S.frame_there S.muts_there S.text → Among next k.exits → (again : Bool) (modes : ListOf Mode) (R Ra Rb : Renaming)
        (es : Operands) (ps : ListOf Parameter) (ls : ListOf (ℕ × ℕ)) → EntersWith again k modes R es ps ls Ra → ((x : ℕ) (e : Sight) → sight_of Ra x ≡ Some e → IsDirect e.how → LikeVariable S e.to x)
        → (items : ℕ → ℕ) (gain : Allowance) (U : ListOf ℕ) (J : Jumping) (q : Stretch)
        (m : Moved items gain U (special_of A S.muts_there k) J Ra (stretch_of (map (changed_statement (passing A.home.around.loops)) (inside A.run A.home.body))) q Rb) → StretchMoves S m → LeavesBy k J → J.loops ≡ []
        → (w : Way) (zs : ListOf ℕ) (g : Exp) → HaveThere Rb (k.outs next) zs → Gives w zs g → (f : Function) (mb mg : Mark) → f.params ≡ ps → f.body ≡ body_of mb ls q (tree.ends (tree.give mg g))
        → Initialised S.frame S.muts f }
{}

/// So is one that ends otherwise: with the run's last statement as its tail, also where that never goes on; or with anything, where a statement in
/// front never goes on.
pub fn ended_functions_are_initialised()
    ensures { (S : Sides) (A : Asked) (k : Plan) → Had A S.muts_there k → IsItself (Some (Some A.function)) → ((q : At) → ¬ (Unreachable A q)) → Sized S.frame.declared S.frame.sizes
        → Sized S.frame_there.declared S.frame_there.sizes → IsTextOf S A k → Initialised S.frame_there S.muts_there S.text → (again : Bool) (modes : ListOf Mode) (R Ra Rb : Renaming)
        (es : Operands) (ps : ListOf Parameter) (ls : ListOf (ℕ × ℕ)) → EntersWith again k modes R es ps ls Ra → ((x : ℕ) (e : Sight) → sight_of Ra x ≡ Some e → IsDirect e.how → LikeVariable S e.to x)
        → (items : ℕ → ℕ) (gain : Allowance) (U : ListOf ℕ) (J : Jumping) (r q : Stretch) (l : Last) → stretch_of (map (changed_statement (passing A.home.around.loops)) (inside A.run A.home.body)) ≡ with_left r l
        → (m : Moved items gain U (special_of A S.muts_there k) J Ra r q Rb) → StretchMoves S m → LeavesBy k J → J.loops ≡ [] → (w : Way) (end : Body) (d : Ended items gain U (special_of A S.muts_there k) J Rb l w (k.outs next) end) → EndMoves S d
        → (w ≢ no_way → Among next k.exits) → (w ≡ no_way → NeverEnds l r) → (f : Function) (mb : Mark) → f.params ≡ ps → f.body ≡ body_of mb ls q end → Initialised S.frame S.muts f }
{}

/// And the caller is initialised, where the relation has it alike but for the run's block, and what is asked besides holds along it: where the block is,
/// that it is alike the text's with all its marks, as `related_blocks_match` has it.
pub fn related_callers_are_initialised()
    ensures { (S : Sides) (A : Asked) (k : Plan) → Sized S.frame.declared S.frame.sizes → Sized S.frame_there.declared S.frame_there.sizes → IsTextOf S A k → Initialised S.frame_there S.muts_there S.text
        → (modes : ListOf Mode) (items : ℕ → ℕ) (gain : Allowance) (U : ListOf ℕ) (new : New) (special : ListOf ℕ) (f : Function)
        (r : RelatedFunction items (in_its_block A S.muts_there k items (the_call A S.muts_there k modes items gain U new) gain) gain special A.function f)
        → AllLike S (variables_of_params A.function.params) (variables_of_params f.params) → ExpCalls S A k r.body → Initialised S.frame S.muts f }
{}

//! Laws, each the contract of a function that does nothing.

ghost use Rattle.std.specs.Prelude.{◌≡◌, ◌==◌, ℕ, Bool, true, List as ListOf, map, Some};
ghost use Rattle.rx_typed.specs.Tree as tree;
ghost use Rattle.rx_typed.specs.Tree.{Mark, Temporary, Body};
ghost use Rattle.rx_typed_declarations.specs.Sizes.{Sized};
ghost use Rattle.rx_lower_walks.specs.Orders.{order_body};
ghost use Rattle.rx_facts_tables.specs.Initialised.{Initialised};
ghost use Rattle.rx_exits_plan.specs.Points.{next, enters, leaves};
ghost use Rattle.rx_exits_plan.specs.Blocks.{before, tail};
ghost use Rattle.rx_exits_plan.specs.Runs.{inside, behind};
ghost use Rattle.rx_exits_plan.specs.Changed.{changed_statement};
ghost use Rattle.rx_exits_plan.specs.Marked.{mark, using, marked_body};
ghost use Rattle.rx_exits_plan.specs.Coming.{HasNoMark};
ghost use Rattle.rx_exits_plan.specs.Asked.{Asked};
ghost use Rattle.rx_exits_plan.specs.Plan.{Plan};
ghost use Rattle.rx_exits_plan.specs.Unreachable.{At, Unreachable};
ghost use Rattle.rx_modes_policy.specs.declared.uses.Mode.{Mode};
ghost use Rattle.rx_engine_simulation.specs.Turns.{Allowance};
ghost use Rattle.rx_engine_simulation.specs.Sights.{Renaming};
ghost use Rattle.rx_engine_simulation.specs.Jumps.{Jumping};
ghost use Rattle.rx_engine_simulation.specs.Passing.{New};
ghost use Rattle.rx_engine_simulation.specs.Packing.{Way};
ghost use Rattle.rx_engine_simulation.specs.Endings.{Last, with_last};
ghost use Rattle.rx_engine_simulation.specs.Blocks.{Stretch};
ghost use Rattle.rx_engine_simulation.specs.Blocks.{before as in_front_of};
ghost use Rattle.rx_engine_simulation.specs.Like.{LikeBody};
ghost use Rattle.rx_engine_related.specs.ByForm.{by_form, IsItself};
ghost use Rattle.rx_engine_related.specs.Had.{Had};
ghost use Rattle.rx_engine_related.specs.Moved.{Ended};
ghost use Rattle.rx_engine_related.specs.Running.{passing, running_body};
ghost use Rattle.rx_engine_related.specs.Standing.{marked_run, the_call};
ghost use Rattle.rx_engine_initial.specs.Variables.{Sides};
ghost use Rattle.rx_engine_initial.specs.Planned.{IsTextOf};
ghost use Rattle.rx_engine_initial_forms.specs.Following.{ExpAsked};
ghost use Rattle.rx_engine_initial_related.specs.Moving.{stretch_of};
ghost use Rattle.rx_engine_initial_related.specs.Ending.{with_left};
ghost use Rattle.rx_engine_initial_blocks.specs.AtBlock.{BlockSo};
ghost use Rattle.rx_engine_initial_blocks.specs.NewCall.{CallsSo};

/// What the relation of trees has between the marks of a run, in front of what is left for the new function's end, are the run's statements; and what
/// follows is the rest of the block, since no other statement of the block is a mark.
pub fn marks_tell_the_run()
    ensures { (A : Asked) (muts : ListOf Bool) (k : Plan) → Had A muts k → (items : ℕ → ℕ) (gain : Allowance) (U : ListOf ℕ) (special : ListOf ℕ) (J : Jumping) (R : Renaming) (l : Last) (w : Way) (xs : ListOf ℕ) (end : Body)
        → Ended items gain U special J R l w xs end → (r : Stretch) (rest : Body)
        → in_front_of (marked_run k l r) (with_last l rest) ≡ tree.runs (mark enters) (before (map using k.params) (before (map (changed_statement (passing A.home.around.loops)) (inside A.run A.home.body))
        (tree.runs (mark (leaves next)) (before (behind A.run A.home.body) (tree.ends (tail A.home.body))))))
        → (with_left r l ≡ stretch_of (map (changed_statement (passing A.home.around.loops)) (inside A.run A.home.body))) × (rest ≡ before (behind A.run A.home.body) (tree.ends (tail A.home.body))) }
{}

/// So the block of the run in the caller is alike the text's with all its marks, where what is asked besides holds along it, and the answer has no mark:
/// what `related_callers_are_initialised` asks there.
pub fn run_blocks_are_alike()
    ensures { (S : Sides) (A : Asked) (k : Plan) → Had A S.muts_there k → IsItself (Some (Some A.function)) → ((q : At) → ¬ (Unreachable A q)) → Sized S.frame.declared S.frame.sizes → IsTextOf S A k
        → (modes : ListOf Mode) (items : ℕ → ℕ) (gain : Allowance) (U : ListOf ℕ) (new : New) (special : ListOf ℕ) (i : ℕ) (J : Jumping) (N : Renaming) (b : Body)
        (l : LikeBody items (the_call A S.muts_there k modes items gain U new) gain (by_form special) i J N (running_body A.run A.home.around.loops k.params A.home.body) b) → BlockSo S l
        → (m n : Mark) → (m.node == A.run.block) ≡ true → (d : Temporary) → HasNoMark (order_body b n.node d)
        → ExpAsked S J N (tree.block n b) (tree.block m (marked_body A.run A.home.around.loops k.params A.home.body)) }
{}

/// And the function that the relation calls in place of the run is initialised, where what is asked besides holds of it.
pub fn called_functions_are_initialised()
    ensures { (S : Sides) (A : Asked) (k : Plan) → Had A S.muts_there k → IsItself (Some (Some A.function)) → ((q : At) → ¬ (Unreachable A q)) → Sized S.frame.declared S.frame.sizes
        → Sized S.frame_there.declared S.frame_there.sizes → IsTextOf S A k → Initialised S.frame_there S.muts_there S.text
        → (modes : ListOf Mode) (items : ℕ → ℕ) (gain : Allowance) (U : ListOf ℕ) (new : New) (special : ListOf ℕ) (i : ℕ) (J : Jumping) (N : Renaming) (b : Body)
        (l : LikeBody items (the_call A S.muts_there k modes items gain U new) gain (by_form special) i J N (running_body A.run A.home.around.loops k.params A.home.body) b) → CallsSo S l
        → (n : ℕ) (d : Temporary) → HasNoMark (order_body b n d) → Initialised S.frame S.muts new.function }
{}

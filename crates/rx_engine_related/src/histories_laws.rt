//! Laws of histories, each the contract of a function that does nothing.

ghost use Rattle.std.specs.Prelude.{◌≡◌, ◌≢◌, ◌≤◌, ℕ, ℤ, Bool, true, false, List as ListOf, [], ◌∷◌, ◌++◌, Some, slice_get};
ghost use Rattle.rx_typed.specs.Tree.{Temporary, Body, runs, Function, own, temporary_of};
ghost use Rattle.rx_lower_walks.specs.Actions.{Give, Action, does};
ghost use Rattle.rx_lower_walks.specs.Orders.{order, order_body, order_function};
ghost use Rattle.rx_lower_walks.specs.Walks.{IsWalk, Among};
ghost use Rattle.rx_typed_declarations.specs.Sizes.{Sized};
ghost use Rattle.rx_facts_tables.specs.Places.{Frame, is_part};
ghost use Rattle.rx_facts_tables.specs.Setting.{is_set};
ghost use Rattle.rx_facts_tables.specs.Initialised.{Initialised};
ghost use Rattle.rx_exits_plan.specs.Blocks.{tail, before};
ghost use Rattle.rx_exits_plan.specs.Runs.{Run, Home, Sits, inside};
ghost use Rattle.rx_exits_plan.specs.Points.{Exit, next, returns, jump_exit, Point, enters, leaves};
ghost use Rattle.rx_exits_plan.specs.Marked.{mark, entering, shown, marked, is_among};
ghost use Rattle.rx_exits_plan.specs.Spots.{a_block, spots_of_function};
ghost use Rattle.rx_exits_plan.specs.Exits.{leaving, spots_in_statements, at_start};
ghost use Rattle.rx_exits_plan.specs.Coming.{HasNoMark};
ghost use Rattle.rx_exits_plan.specs.Asked.{Asked};
ghost use Rattle.rx_exits_plan.specs.Plan.{Plan, IsPlan};
ghost use Rattle.rx_exits_plan.specs.PartlyMoved.{PartlyMoved};
ghost use Rattle.rx_meaning.specs.Values.{element};
ghost use Rattle.rx_meaning.specs.Programs.{Program, run};
ghost use Rattle.rx_modes_uses.specs.NotMut.{NotMut};
ghost use Rattle.rx_modes_uses.specs.Aliased.{Aliased};
ghost use Rattle.rx_engine_simulation.specs.Histories.{Written, Borrowed, Living};
ghost use Rattle.rx_engine_simulation.specs.Sights.{In, sight, special, Renaming};
ghost use Rattle.rx_engine_simulation.specs.Programs.{back, IsHistory, ComesTo, About, Untouched, facts_of};
ghost use Rattle.rx_engine_simulation.specs.Blocks.{Stretch, done};
ghost use Rattle.rx_engine_simulation.specs.Arrivals.{Aim, past, AreDead, IsReady, IsUnlent};
ghost use Rattle.rx_engine_related.specs.Reads.{Wider};
ghost use Rattle.rx_engine_related.specs.Premises.{known_of, InFront, ByMark, NotHanded};
ghost use Rattle.rx_engine_related.specs.Reading.{ReadingEntry};
ghost use Rattle.rx_engine_related.specs.Running.{running, running_of, MarkedEntry};
ghost use Rattle.rx_engine_related.specs.Tailed.{tailed, tailed_of, HasNoPass, TellsOnce};
ghost use Rattle.rx_typed.specs.Tree.{Exp};
ghost use Rattle.rx_engine_simulation.specs.Passed.{passage};
ghost use Rattle.rx_engine_simulation.specs.Openings.{no_openings};
ghost use Rattle.rx_engine_simulation.specs.Programs.{LikeFunction};
ghost use Rattle.rx_engine_simulation.specs.Marking.{without_turns, facts_alone, TreeEntry};
ghost use Rattle.rx_engine_simulation.specs.Marks.{AreWritten};
ghost use Rattle.rx_engine_related.specs.ByForm.{IsItself};
ghost use Rattle.rx_engine_related.specs.OneSite.{StandsOnce, blocks_at, times_taken};
ghost use Rattle.rx_engine_related.specs.OnePlace.{LeadsToOnePlace, loops_in, loops_of, loops_of_run};
ghost use Rattle.rx_engine_related.specs.AboutRun.{special_of, about_run, marked_with, text_of};
ghost use Rattle.rx_engine_related.specs.Accepted.{Accepted};
ghost use Rattle.rx_engine_related.specs.Ambiguous.{moves_perhaps, behind_it, branching};

/// That a variable which one branch of a run's last statement moves is needed no more behind the run is not to be had from histories
/// alone: the history with which the other branch comes there goes on in the first one too.
pub fn histories_do_not_tell_what_a_test_gave()
    ensures { (K : About) (u : Untouched branching K) (y : ℕ) → AreDead (facts_of branching K u) ((0, sight y special) ∷ []) (past (runs moves_perhaps behind_it) done moves_perhaps) → ⊥ }
{}

/// Of a function that is initialised a variable of which some part is set was written as a whole since it began.
pub fn set_variables_were_written()
    ensures { (F : Frame) (muts : ListOf Bool) (f : Function) → Sized F.declared F.sizes → Initialised F muts f → (x n : ℕ) → is_part F (own x) n ≡ true
        → (h : ListOf Action) → IsHistory f h → is_set F (back h []) n ≡ true → Written h x }
{}

/// Reads of variables where a run is entered change no walk but for themselves.
pub fn entry_reads_change_no_walk()
    ensures { (f : Function) (r : Run) (ls xs : ListOf ℕ) (u : ListOf Action) → IsWalk (marked r ls xs f) u → (w : ListOf Action) × IsWalk (marked r ls [] f) w × Wider xs false w u }
{}

/// Where the run is entered, a param was written, and is living, whichever of them the text with marks uses there.
pub fn params_are_written_and_living()
    ensures written { (A : Asked) (muts : ListOf Bool) → Accepted A muts → (k : Plan) → IsPlan A k → (xs : ListOf ℕ) (x : ℕ) → Among x k.params → (b : Body) (i : ℕ) (t : Temporary) (h : ListOf Action)
        → ComesTo (marked_with A xs) (order_body (runs (mark enters) b) i t) h → Written h x }
    ensures living { (A : Asked) (muts : ListOf Bool) (k : Plan) (u : Untouched (text_of A k) (about_run A muts k)) (x : ℕ) → Among x k.params → (b : Body) (i : ℕ) (t : Temporary) (h : ListOf Action)
        → ComesTo (text_of A k) (order_body (before (entering k.params) b) i t) h → Living (facts_of (text_of A k) (about_run A muts k) u) x h }
{}

/// A local is not living there.
pub fn locals_are_not_living()
    ensures { (A : Asked) (muts : ListOf Bool) → Accepted A muts → (k : Plan) → IsPlan A k → (u : Untouched (text_of A k) (about_run A muts k)) (x : ℕ) → Among x k.locals
        → (b : Body) (i : ℕ) (t : Temporary) (h : ListOf Action) → ComesTo (text_of A k) (order_body (runs (mark enters) b) i t) h → Living (facts_of (text_of A k) (about_run A muts k) u) x h → ⊥ }
{}

/// Where the run is left by an exit, what the exit hands out was written.
pub fn outs_are_written()
    ensures { (A : Asked) (muts : ListOf Bool) → Accepted A muts → (k : Plan) → IsPlan A k → (xs : ListOf ℕ) (e : Exit) (x : ℕ) → ¬ (PartlyMoved A k x) → Among e k.exits → Among x (k.outs e)
        → (h : ListOf Action) → IsHistory (marked_with A xs) (shown (leaves e) ∷ h) → Written h x }
{}

/// It is living behind each mark of the exit, where these lead to one place.
pub fn outs_are_living()
    ensures { (A : Asked) (muts : ListOf Bool) → Accepted A muts → (k : Plan) → IsPlan A k → (u : Untouched (text_of A k) (about_run A muts k)) (e : Exit) (x : ℕ)
        → LeadsToOnePlace (text_of A k) (shown (leaves e)) → Among e k.exits → Among x (k.outs e)
        → (h : ListOf Action) → IsHistory (text_of A k) (shown (leaves e) ∷ h) → Living (facts_of (text_of A k) (about_run A muts k) u) x (shown (leaves e) ∷ h) }
{}

/// Behind an action that stands at one place, a walk may go on as any other does that holds the action.
pub fn walks_go_on_alike()
    ensures { (f : Function) (a : Action) → StandsOnce f a → (w v us : ListOf Action) → IsWalk f (w ++ a ∷ us) → IsWalk f (v ++ a ∷ []) → IsWalk f (v ++ a ∷ us) }
{}

/// So such an action leads to one place.
pub fn sole_actions_lead_to_one_place()
    ensures { (f : Function) (a : Action) → StandsOnce f a → LeadsToOnePlace f a }
{}

/// The mark at the end of a run stands at one place of the text that runs, where the function has no mark of its own and one block of the run's node.
pub fn ends_stand_once()
    ensures { (r : Run) (ls xs : ListOf ℕ) (f : Function) → HasNoMark (order_function f) → blocks_at r.block (spots_of_function f) ≤ 1 → StandsOnce (running r ls xs f) (shown (leaves next)) }
{}

/// And so does that of a `break` or `continue` which one jump of the run takes.
pub fn single_jumps_stand_once()
    ensures { (r : Run) (h : Home) (xs : ListOf ℕ) (f : Function) (l : ℕ) (again : Bool) → HasNoMark (order_function f) → blocks_at r.block (spots_of_function f) ≤ 1
        → Among (a_block h.around r.block h.body) (spots_of_function f) → times_taken (jump_exit l again) (leaving h.around.loops (spots_in_statements (at_start r h) (inside r h.body))) ≤ 1
        → StandsOnce (running r h.around.loops xs f) (shown (leaves (jump_exit l again))) }
{}

/// The marks of a `break` or `continue` lead to one place, however many jumps of the run take it, where no loop in the run has the number of
/// the loop that they leave: in the text that runs as the function does, and in the function with marks, also behind what is returned.
/// So do those of each exit but `return` there, where the function is like itself.
pub fn jumps_lead_to_one_place()
    ensures running { (r : Run) (h : Home) (xs : ListOf ℕ) (f : Function) (l : ℕ) (again : Bool) → HasNoMark (order_function f) → blocks_at r.block (spots_of_function f) ≤ 1
        → Among (a_block h.around r.block h.body) (spots_of_function f) → is_among l (loops_of (inside r h.body)) ≡ false
        → LeadsToOnePlace (running r h.around.loops xs f) (shown (leaves (jump_exit l again))) }
    ensures marked { (r : Run) (h : Home) (xs : ListOf ℕ) (f : Function) (l : ℕ) (again : Bool) → HasNoMark (order_function f) → blocks_at r.block (spots_of_function f) ≤ 1
        → Among (a_block h.around r.block h.body) (spots_of_function f) → is_among l (loops_of_run r h.body) ≡ false
        → LeadsToOnePlace (marked r h.around.loops xs f) (shown (leaves (jump_exit l again))) }
    ensures exits { (A : Asked) (k : Plan) → IsPlan A k → Sits A.function A.run A.home → HasNoMark (order_function A.function) → blocks_at A.run.block (spots_of_function A.function) ≤ 1
        → IsItself (Some (Some A.function)) → (e : Exit) → Among e k.exits → e ≢ returns → LeadsToOnePlace (text_of A k) (shown (leaves e)) }
{}

/// A history that comes to a body that begins with a mark goes on to the mark.
pub fn histories_come_to_marks()
    ensures { (f : Function) (p : Point) (b : Body) (i : ℕ) (t : Temporary) (h : ListOf Action) → ComesTo f (order_body (runs (mark p) b) i t) h → IsHistory f (shown p ∷ h) }
{}

/// And of the variables that may be elsewhere the others are not living behind the exit's mark.
pub fn what_is_not_handed_out_is_not_living()
    ensures { (A : Asked) (muts : ListOf Bool) (k : Plan) → IsPlan A k → ((y : ℕ) → ¬ (NotMut A muts k y)) → (u : Untouched (text_of A k) (about_run A muts k)) (e : Exit) (x : ℕ) → Among e k.exits → e ≢ returns → In x (special_of A muts k)
        → (Among x (k.outs e) → ⊥) → (h : ListOf Action) → Living (facts_of (text_of A k) (about_run A muts k) u) x (shown (leaves e) ∷ h) → ⊥ }
{}

/// Behind what a function gives nothing is living: variables end there, and nothing else is done.
pub fn nothing_is_living_behind_what_is_given()
    ensures { (f : Function) (l : ListOf ℕ) (u : Untouched f (record { special = l; asked = [] })) (n : ℕ) (t : Temporary) (x : ℕ) (h : ListOf Action)
        → Living (facts_of f (record { special = l; asked = [] }) u) x (does n (Give t) ∷ h) → ⊥ }
{}

/// Where no variable would be aliased, one that may be elsewhere is not written once its own storage was borrowed; nor is it borrowed at all
/// if it is declared `mut`.
pub fn special_variables_are_untouched()
    ensures untouched { (A : Asked) (muts : ListOf Bool) → Accepted A muts → (k : Plan) → IsPlan A k → ((x : ℕ) → ¬ (Aliased A muts k x)) → Untouched (text_of A k) (about_run A muts k) }
    ensures unlent { (A : Asked) (muts : ListOf Bool) → Accepted A muts → (k : Plan) → IsPlan A k → ((x : ℕ) → ¬ (Aliased A muts k x)) → (x : ℕ) → In x (special_of A muts k) → slice_get muts x ≡ Some true
        → (h : ListOf Action) → IsHistory (text_of A k) h → Borrowed h x → ⊥ }
{}

/// The same of the text that runs as the function does, of a run without its block's tail: where the run is entered, params were written and
/// are living, and locals are not.
pub fn running_texts_are_entered_so()
    ensures written { (A : Asked) → A.run.tail ≡ false → (xs : ListOf ℕ) (muts : ListOf Bool) → Accepted A muts → (k : Plan) → IsPlan A k → (x : ℕ) → Among x k.params
        → (b : Body) (i : ℕ) (t : Temporary) (h : ListOf Action) → ComesTo (running_of A xs) (order_body (runs (mark enters) b) i t) h → Written h x }
    ensures living { (A : Asked) (muts : ListOf Bool) (k : Plan) (u : Untouched (running_of A k.params) (about_run A muts k)) (x : ℕ) → Among x k.params → (b : Body) (i : ℕ) (t : Temporary) (h : ListOf Action)
        → ComesTo (running_of A k.params) (order_body (before (entering k.params) b) i t) h → Living (facts_of (running_of A k.params) (about_run A muts k) u) x h }
    ensures locals { (A : Asked) → A.run.tail ≡ false → (k : Plan) → IsPlan A k → (muts : ListOf Bool) → Accepted A muts → (u : Untouched (running_of A k.params) (about_run A muts k)) (x : ℕ) → Among x k.locals
        → (b : Body) (i : ℕ) (t : Temporary) (h : ListOf Action) → ComesTo (running_of A k.params) (order_body (runs (mark enters) b) i t) h
        → Living (facts_of (running_of A k.params) (about_run A muts k) u) x h → ⊥ }
{}

/// And where the run is left by its end or by a `break` or a `continue`: what is handed out was written, and is living
/// where the exit's marks lead to one place, and nothing else that may be elsewhere is.
pub fn running_texts_are_left_so()
    ensures written { (A : Asked) → A.run.tail ≡ false → (xs : ListOf ℕ) (muts : ListOf Bool) → Accepted A muts → (k : Plan) → IsPlan A k → (e : Exit) (x : ℕ) → ¬ (PartlyMoved A k x)
        → Among e k.exits → Among x (k.outs e) → (h : ListOf Action) → IsHistory (running_of A xs) (shown (leaves e) ∷ h) → Written h x }
    ensures others { (A : Asked) → A.run.tail ≡ false → (k : Plan) → IsPlan A k → (muts : ListOf Bool) → ((y : ℕ) → ¬ (NotMut A muts k y)) → (u : Untouched (running_of A k.params) (about_run A muts k)) (e : Exit) (x : ℕ) → Among e k.exits → e ≢ returns
        → In x (special_of A muts k) → (Among x (k.outs e) → ⊥) → (h : ListOf Action) → Living (facts_of (running_of A k.params) (about_run A muts k) u) x (shown (leaves e) ∷ h) → ⊥ }
    ensures living { (A : Asked) → A.run.tail ≡ false → (k : Plan) → IsPlan A k → (muts : ListOf Bool) → Accepted A muts → (u : Untouched (running_of A k.params) (about_run A muts k)) (e : Exit) (x : ℕ)
        → e ≢ returns → LeadsToOnePlace (running_of A k.params) (shown (leaves e)) → Among e k.exits → Among x (k.outs e)
        → (h : ListOf Action) → IsHistory (running_of A k.params) (shown (leaves e) ∷ h) → Living (facts_of (running_of A k.params) (about_run A muts k) u) x (shown (leaves e) ∷ h) }
    ensures untouched { (A : Asked) → A.run.tail ≡ false → (k : Plan) → IsPlan A k → (muts : ListOf Bool) → Accepted A muts → ((x : ℕ) → ¬ (Aliased A muts k x))
        → Untouched (running_of A k.params) (about_run A muts k) }
    ensures unlent { (A : Asked) → A.run.tail ≡ false → (k : Plan) → IsPlan A k → (muts : ListOf Bool) → Accepted A muts → ((x : ℕ) → ¬ (Aliased A muts k x)) → (x : ℕ) → In x (special_of A muts k)
        → slice_get muts x ≡ Some true → (h : ListOf Action) → IsHistory (running_of A k.params) h → Borrowed h x → ⊥ }
{}

/// The same of the text of a run with its block's tail: where the run is entered, params were written and are living, and locals are not; and nothing
/// that may be elsewhere is written once it was borrowed.
pub fn tailed_texts_are_entered_so()
    ensures written { (A : Asked) → A.run.tail ≡ true → (xs : ListOf ℕ) (muts : ListOf Bool) → Accepted A muts → (k : Plan) → IsPlan A k → (x : ℕ) → Among x k.params
        → (b : Body) (i : ℕ) (t : Temporary) (h : ListOf Action) → ComesTo (tailed_of A xs) (order_body (runs (mark enters) b) i t) h → Written h x }
    ensures living { (A : Asked) (muts : ListOf Bool) (k : Plan) (u : Untouched (tailed_of A k.params) (about_run A muts k)) (x : ℕ) → Among x k.params → (b : Body) (i : ℕ) (t : Temporary) (h : ListOf Action)
        → ComesTo (tailed_of A k.params) (order_body (before (entering k.params) b) i t) h → Living (facts_of (tailed_of A k.params) (about_run A muts k) u) x h }
    ensures locals { (A : Asked) → A.run.tail ≡ true → (k : Plan) → IsPlan A k → (muts : ListOf Bool) → Accepted A muts → (u : Untouched (tailed_of A k.params) (about_run A muts k)) (x : ℕ) → Among x k.locals
        → (b : Body) (i : ℕ) (t : Temporary) (h : ListOf Action) → ComesTo (tailed_of A k.params) (order_body (runs (mark enters) b) i t) h
        → Living (facts_of (tailed_of A k.params) (about_run A muts k) u) x h → ⊥ }
    ensures untouched { (A : Asked) → A.run.tail ≡ true → (k : Plan) → IsPlan A k → (muts : ListOf Bool) → Accepted A muts → ((x : ℕ) → ¬ (Aliased A muts k x))
        → Untouched (tailed_of A k.params) (about_run A muts k) }
    ensures unlent { (A : Asked) → A.run.tail ≡ true → (k : Plan) → IsPlan A k → (muts : ListOf Bool) → Accepted A muts → ((x : ℕ) → ¬ (Aliased A muts k x)) → (x : ℕ) → In x (special_of A muts k)
        → slice_get muts x ≡ Some true → (h : ListOf Action) → IsHistory (tailed_of A k.params) h → Borrowed h x → ⊥ }
{}

/// Of the text of a run with its block's tail, where this is let pass at the run's end: what is handed out there was written and is living, and
/// nothing else that may be elsewhere is; and it is the function with marks.
pub fn tailed_texts_are_left_so()
    ensures written { (A : Asked) → A.run.tail ≡ true → (k : Plan) → IsPlan A k → TellsOnce A k.params → (muts : ListOf Bool) → Accepted A muts → (x : ℕ) → ¬ (PartlyMoved A k x)
        → Among next k.exits → Among x (k.outs next) → (e : Exp) (d : Temporary) (h : ListOf Action) → IsHistory (tailed_of A k.params) (passage e d ∷ h) → Written h x }
    ensures living { (A : Asked) → A.run.tail ≡ true → (k : Plan) → IsPlan A k → TellsOnce A k.params → (muts : ListOf Bool) → Accepted A muts → (u : Untouched (tailed_of A k.params) (about_run A muts k)) (x : ℕ)
        → Among next k.exits → Among x (k.outs next) → (e : Exp) (d : Temporary) (h : ListOf Action) → IsHistory (tailed_of A k.params) (passage e d ∷ h)
        → Living (facts_of (tailed_of A k.params) (about_run A muts k) u) x (passage e d ∷ h) }
    ensures others { (A : Asked) → A.run.tail ≡ true → (k : Plan) → IsPlan A k → TellsOnce A k.params → (muts : ListOf Bool) → ((y : ℕ) → ¬ (NotMut A muts k y)) → (u : Untouched (tailed_of A k.params) (about_run A muts k)) (x : ℕ)
        → Among next k.exits → In x (special_of A muts k) → (Among x (k.outs next) → ⊥) → (e : Exp) (d : Temporary) (h : ListOf Action)
        → Living (facts_of (tailed_of A k.params) (about_run A muts k) u) x (passage e d ∷ h) → ⊥ }
    ensures marked { (A : Asked) (xs : ListOf ℕ) (l : LikeFunction (λ f. f) no_openings without_turns A.function A.function) → l.about.special ≡ []
        → AreWritten (facts_alone (tailed_of A xs)) enters xs → TreeEntry (Some (Some A.function)) (Some (Some (tailed_of A xs))) }
    ensures once { (A : Asked) (xs : ListOf ℕ) → HasNoMark (order_function A.function) → HasNoPass (order_function A.function) → blocks_at A.run.block (spots_of_function A.function) ≤ 1 → TellsOnce A xs }
    ensures jumps { (r : Run) (h : Home) (xs : ListOf ℕ) (f : Function) (l : ℕ) (again : Bool) → HasNoMark (order_function f) → blocks_at r.block (spots_of_function f) ≤ 1
        → Among (a_block h.around r.block h.body) (spots_of_function f) → is_among l (loops_of (inside r h.body) ++ loops_in (order (tail h.body) (temporary_of (tail h.body)))) ≡ false
        → LeadsToOnePlace (tailed r h.around.loops xs f) (shown (leaves (jump_exit l again))) }
{}

/// A program in which some functions have the marks that do nothing, and no reads, has the program's runs.
pub fn marks_change_no_run()
    ensures { (P Q : Program) → Q.main ≡ P.main → ((f : ℕ) → MarkedEntry (element P.functions f) (element Q.functions f)) → (given : ListOf ℤ) (n : ℕ) → run Q given n ≡ run P given n }
{}

/// A program in which some functions are that text with reads of variables which were written where the run is entered has the program's
/// runs, if each function is like itself.
pub fn entry_reads_change_no_run()
    ensures { (P T : Program) → T.main ≡ P.main → ((f : ℕ) → ReadingEntry (element P.functions f) (element T.functions f)) → (given : ListOf ℤ) (n : ℕ) → run T given n ≡ run P given n }
{}

/// So of the text that runs, what a call that stands for the run asks of histories: where the run is entered, params were written and are
/// living, and locals are not; where it is left by an exit, with its mark as the newest action, nothing is living that is not handed out, and what
/// is handed out is ready; and what is put back was not lent.
pub fn plans_give_what_calls_ask()
    ensures living { (A : Asked) (muts : ListOf Bool) (k : Plan) (u : Untouched (running_of A k.params) (about_run A muts k)) (r : Stretch) (rest : Body) (x : ℕ) (h : ListOf Action) → Among x k.params → InFront A muts k u r rest h
        → Living (known_of A muts k u) x h }
    ensures written { (A : Asked) (muts : ListOf Bool) (k : Plan) (u : Untouched (running_of A k.params) (about_run A muts k)) → A.run.tail ≡ false → IsPlan A k → Accepted A muts
        → (r : Stretch) (rest : Body) (x : ℕ) (h : ListOf Action) → Among x k.params → InFront A muts k u r rest h → Written h x }
    ensures locals { (A : Asked) (muts : ListOf Bool) (k : Plan) (u : Untouched (running_of A k.params) (about_run A muts k)) → A.run.tail ≡ false → IsPlan A k → Accepted A muts
        → (r : Stretch) (rest : Body) (x : ℕ) (h : ListOf Action) → Among x k.locals → InFront A muts k u r rest h → Living (known_of A muts k u) x h → ⊥ }
    ensures dead { (A : Asked) (muts : ListOf Bool) (k : Plan) (u : Untouched (running_of A k.params) (about_run A muts k)) → A.run.tail ≡ false → IsPlan A k → ((y : ℕ) → ¬ (NotMut A muts k y)) → (e : Exit) (a : Aim) (R : Renaming)
        → ByMark A muts k u e a → e ≢ returns → Among e k.exits → NotHanded A muts k e R → AreDead (known_of A muts k u) R a }
    ensures ready { (A : Asked) (muts : ListOf Bool) (k : Plan) (u : Untouched (running_of A k.params) (about_run A muts k)) → A.run.tail ≡ false → IsPlan A k → Accepted A muts
        → (e : Exit) (a : Aim) (x : ℕ) → ByMark A muts k u e a → e ≢ returns → LeadsToOnePlace (running_of A k.params) (shown (leaves e)) → ¬ (PartlyMoved A k x) → Among e k.exits → Among x (k.outs e)
        → IsReady (known_of A muts k u) a x }
    ensures unlent { (A : Asked) (muts : ListOf Bool) (k : Plan) (u : Untouched (running_of A k.params) (about_run A muts k)) → A.run.tail ≡ false → IsPlan A k → Accepted A muts
        → ((x : ℕ) → ¬ (Aliased A muts k x)) → (b : Body) (x : ℕ) → In x (special_of A muts k) → slice_get muts x ≡ Some true → IsUnlent (known_of A muts k u) b x }
{}

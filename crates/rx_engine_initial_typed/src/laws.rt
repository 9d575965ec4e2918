//! Laws, each the contract of a function that does nothing.

ghost use Rattle.std.specs.Prelude.{◌≡◌, ◌≢◌, ℕ, Bool, true, false, List as ListOf, [], map, Some};
ghost use Rattle.rx_typed.specs.Types.{boolean};
ghost use Rattle.rx_typed.specs.Tree.{Mark, Temporary, Parameter, Operands, Exp, Body, Function};
ghost use Rattle.rx_typed_declarations.specs.Sizes.{Sized};
ghost use Rattle.rx_lower_walks.specs.Orders.{order, order_all, order_body, order_function};
ghost use Rattle.rx_lower_walks.specs.Walks.{Among};
ghost use Rattle.rx_facts_tables.specs.Initialised.{Initialised};
ghost use Rattle.rx_exits_plan.specs.Bound.{variables_of_params};
ghost use Rattle.rx_exits_plan.specs.Runs.{inside};
ghost use Rattle.rx_exits_plan.specs.Points.{next};
ghost use Rattle.rx_exits_plan.specs.Changed.{changed_statement};
ghost use Rattle.rx_exits_plan.specs.Unreachable.{At, Unreachable};
ghost use Rattle.rx_exits_plan.specs.Coming.{HasNoMark};
ghost use Rattle.rx_exits_plan.specs.Asked.{Asked};
ghost use Rattle.rx_exits_plan.specs.Occurrences.{is_declared_in_run};
ghost use Rattle.rx_exits_plan.specs.Plan.{Plan, IsPlan};
ghost use Rattle.rx_exits_plan.specs.MixedInit.{MixedInit};
ghost use Rattle.rx_exits_plan.specs.PartlyMoved.{PartlyMoved};
ghost use Rattle.rx_modes_policy.specs.declared.uses.Mode.{Mode};
ghost use Rattle.rx_modes_policy.specs.declared.uses.Uses.{Uses};
ghost use Rattle.rx_modes_policy.specs.Allowed.{allowed_by, IsMember, HasMember};
ghost use Rattle.rx_modes_uses.specs.Paths.{OwnPath};
ghost use Rattle.rx_modes_uses.specs.Deeds.{Done, moved};
ghost use Rattle.rx_modes_uses.specs.Outside.{in_run};
ghost use Rattle.rx_modes_uses.specs.Modes.{IsModes};
ghost use Rattle.rx_engine_simulation.specs.Turns.{Allowance};
ghost use Rattle.rx_engine_simulation.specs.Places.{IsDirect};
ghost use Rattle.rx_engine_simulation.specs.Packing.{Way, no_way};
ghost use Rattle.rx_engine_simulation.specs.Endings.{Last};
ghost use Rattle.rx_engine_simulation.specs.Statements.{body_of};
ghost use Rattle.rx_engine_simulation.specs.Sights.{Hold, plain, Sight, sight, Renaming, sight_of};
ghost use Rattle.rx_engine_simulation.specs.Blocks.{Stretch, before};
ghost use Rattle.rx_engine_simulation.specs.Jumps.{Jumping};
ghost use Rattle.rx_engine_simulation.specs.Passing.{New};
ghost use Rattle.rx_engine_simulation.specs.Like.{LikeExp, LikeBody};
ghost use Rattle.rx_engine_related.specs.ByForm.{by_form, RelatedFunction, IsItself};
ghost use Rattle.rx_engine_related.specs.AboutRun.{special_of};
ghost use Rattle.rx_engine_related.specs.Had.{Had};
ghost use Rattle.rx_engine_related.specs.Never.{NeverEnds};
ghost use Rattle.rx_engine_related.specs.Running.{passing, running_body};
ghost use Rattle.rx_engine_related.specs.Standing.{the_call};
ghost use Rattle.rx_engine_related.specs.InBlock.{in_its_block};
ghost use Rattle.rx_engine_related.specs.Moved.{Moved, Ended};
ghost use Rattle.rx_engine_related.specs.Given.{GivenTo, EntersWith};
ghost use Rattle.rx_engine_related.specs.Leaving.{left};
ghost use Rattle.rx_engine_blocks.specs.Renumbering.{Renumbering};
ghost use Rattle.rx_engine_initial.specs.Variables.{Sides, LikeVariable};
ghost use Rattle.rx_engine_initial_related.specs.CallerAsked.{IsSlot, GivenSo, CallerAsked};
ghost use Rattle.rx_engine_initial_related.specs.Calling.{ExpCalls};
ghost use Rattle.rx_engine_initial_related.specs.Moving.{ExpMoves, LeavesBy, StretchMoves, stretch_of};
ghost use Rattle.rx_engine_initial_related.specs.Ending.{with_left};
ghost use Rattle.rx_engine_initial.specs.Planned.{IsTextOf};
ghost use Rattle.rx_engine_initial_blocks.specs.AtBlock.{BlockSo};
ghost use Rattle.rx_engine_initial_typed.specs.SameTypes.{DeclaresAlike, SameVariable, TypedScope};
ghost use Rattle.rx_engine_initial_typed.specs.ByType.{ReadsByType};
ghost use Rattle.rx_engine_initial_typed.specs.Wrong.{one_of, two_booleans, one_mut, entering_a_part, assigning_again, forgetting_an_out};
ghost use Rattle.rx_engine_initial_typed.specs.OfTypes.{in_caller_with, in_caller, in_new_function, ExpOfTypes, SamePairs, StretchOfTypes, EndOfTypes};
ghost use Rattle.rx_engine_initial_typed.specs.BlockOfTypes.{BlockOfTypes, CallsOfTypes, block_of_types};

/// A variable of the text's type, by other numbers of items, has the same parts, wherever these begin, where the same is declared by these numbers.
pub fn variables_of_like_types_are_alike()
    ensures { (r : Renumbering) (S : Sides) → DeclaresAlike r S.frame_there S.frame → (x y : ℕ) → SameVariable r S x y → LikeVariable S y x }
{}

/// Where variables are of the text's types, and both functions move what isn't Copy, and nothing from behind a reference, what moves in the caller moves
/// in the text: so what is asked besides along the caller holds, but for what types don't say.
pub fn callers_of_types_move_alike()
    ensures { (r : Renumbering) (S : Sides) → DeclaresAlike r S.frame_there S.frame → (A : Asked) (k : Plan) (muts : ListOf Bool) (modes : ListOf Mode) (items : ℕ → ℕ) (gain : Allowance) (U : ListOf ℕ) (new : New) (special : ListOf ℕ)
        (i : ℕ) (J : Jumping) (N : Renaming) (e f : Exp) (l : LikeExp items (in_its_block A S.muts_there k items (the_call A muts k modes items gain U new) gain) gain (by_form special) i J N e f) → ExpOfTypes r S (in_caller S A k) l → TypedScope r S N → (d t : Temporary)
        → ReadsByType S.frame_there (order e d) → ReadsByType S.frame (order f t) → ExpCalls S A k l }
{}

/// So it does along the run's statements in the new function.
pub fn statements_of_types_move_alike()
    ensures expressions { (r : Renumbering) (S : Sides) → DeclaresAlike r S.frame_there S.frame → (items : ℕ → ℕ) (U : ListOf ℕ) (gain : Allowance) (special : ListOf ℕ) (i : ℕ) (J : Jumping) (N : Renaming) (e f : Exp)
        (l : LikeExp items (left U) gain (by_form special) i J N e f) → ExpOfTypes r S (in_new_function S) l → TypedScope r S N → (d t : Temporary)
        → ReadsByType S.frame_there (order e d) → ReadsByType S.frame (order f t) → ExpMoves S l }
    ensures stretches { (r : Renumbering) (S : Sides) → DeclaresAlike r S.frame_there S.frame → (items : ℕ → ℕ) (gain : Allowance) (U : ListOf ℕ) (special : ListOf ℕ) (J : Jumping) (N M : Renaming) (s q : Stretch)
        (m : Moved items gain U special J N s q M) → StretchOfTypes r S m → TypedScope r S N → (b c : Body) (i j : ℕ) (d t : Temporary)
        → ReadsByType S.frame_there (order_body (before s b) i d) → ReadsByType S.frame (order_body (before q c) j t) → StretchMoves S m × TypedScope r S M }
{}

/// What the call copies to the new function does not move in the caller, or no walk needs it on from an exit of the run, where modes are those that uses
/// allow, and what the run moves is elsewhere in the answer.
pub fn copied_params_are_given_so()
    ensures { (r : Renumbering) (S : Sides) → DeclaresAlike r S.frame_there S.frame → (A : Asked) (k : Plan) (muts : ListOf Bool) → S.frame_there ≡ A.frame → (choice : Uses → Mode)
        → ((u : Uses) → HasMember (allowed_by u) → IsMember (choice u) (allowed_by u)) → (modes : ListOf Mode) → IsModes A muts k choice modes → (R : Renaming) → TypedScope r S R
        → ((x y : ℕ) (w : Hold) → sight_of R x ≡ Some (sight y (plain w)) → ¬ (Done moved (OwnPath x) (in_run A))) → (again : Bool) (cold : ListOf ℕ) (Rp Rf : Renaming) (es : Operands) (ps : ListOf Parameter)
        (given : GivenTo again R cold Rp k.params modes es ps Rf) → ReadsByType S.frame (order_all es) → GivenSo A k given }
{}

/// What is asked of the caller where it calls holds for a run that isn't refused for its variables, where each param has a mode: its variables are in
/// slots, of the text's types, and none that is there in front of the run is declared in it.
pub fn callers_of_types_are_asked_so()
    ensures { (r : Renumbering) (S : Sides) → DeclaresAlike r S.frame_there S.frame → (A : Asked) (k : Plan) → IsPlan A k → ((x : ℕ) → ¬ (MixedInit A x)) → ((x : ℕ) → ¬ (PartlyMoved A k x))
        → (choice : Uses → Mode) (modes : ListOf Mode) → IsModes A S.muts_there k choice modes → (R N : Renaming) → ((x : ℕ) (e : Sight) → sight_of N x ≡ Some e → IsSlot e.how)
        → ((x : ℕ) (e : Sight) → sight_of R x ≡ Some e → is_declared_in_run A.run A.home.body x ≡ false) → ((x : ℕ) (e : Sight) → sight_of N x ≡ Some e → SameVariable r S x e.to) → CallerAsked S A k R N }
{}

/// So the caller is initialised, which the relation of trees has alike but for the run's block: where the types of variables are the text's, and both functions
/// move by type, no more is asked than what types don't say.
pub fn callers_of_types_are_initialised()
    ensures { (r : Renumbering) (S : Sides) → DeclaresAlike r S.frame_there S.frame → (A : Asked) (k : Plan) → Sized S.frame.declared S.frame.sizes → Sized S.frame_there.declared S.frame_there.sizes → IsTextOf S A k
        → Initialised S.frame_there S.muts_there S.text → (modes : ListOf Mode) (items : ℕ → ℕ) (gain : Allowance) (U : ListOf ℕ) (new : New) (special : ListOf ℕ) (f : Function)
        (l : RelatedFunction items (in_its_block A S.muts_there k items (the_call A S.muts_there k modes items gain U new) gain) gain special A.function f)
        → SamePairs r S (variables_of_params A.function.params) (variables_of_params f.params) → ExpOfTypes r S (in_caller S A k) l.body
        → ReadsByType S.frame_there (order_function A.function) → ReadsByType S.frame (order_function f) → Initialised S.frame S.muts f }
{}

/// And so is the new function, however it ends.
pub fn new_functions_of_types_are_initialised()
    ensures { (r : Renumbering) (S : Sides) → DeclaresAlike r S.frame_there S.frame → (A : Asked) (k : Plan) → Had A S.muts_there k → IsItself (Some (Some A.function)) → ((q : At) → ¬ (Unreachable A q))
        → Sized S.frame.declared S.frame.sizes → Sized S.frame_there.declared S.frame_there.sizes → IsTextOf S A k → Initialised S.frame_there S.muts_there S.text → (again : Bool) (modes : ListOf Mode) (R Ra Rb : Renaming)
        (es : Operands) (ps : ListOf Parameter) (ls : ListOf (ℕ × ℕ)) → EntersWith again k modes R es ps ls Ra → ((x : ℕ) (e : Sight) → sight_of Ra x ≡ Some e → IsDirect e.how → SameVariable r S x e.to)
        → (items : ℕ → ℕ) (gain : Allowance) (U : ListOf ℕ) (J : Jumping) (q t : Stretch) (l : Last) → stretch_of (map (changed_statement (passing A.home.around.loops)) (inside A.run A.home.body)) ≡ with_left q l
        → (m : Moved items gain U (special_of A S.muts_there k) J Ra q t Rb) → StretchOfTypes r S m → LeavesBy k J → J.loops ≡ [] → (w : Way) (end : Body) (d : Ended items gain U (special_of A S.muts_there k) J Rb l w (k.outs next) end)
        → EndOfTypes r S d → (w ≢ no_way → Among next k.exits) → (w ≡ no_way → NeverEnds l q) → (f : Function) (mb : Mark) → f.params ≡ ps → f.body ≡ body_of mb ls t end
        → ReadsByType S.frame_there (order_function A.function) → ReadsByType S.frame (order_function f) → Initialised S.frame S.muts f }
{}

/// Along the run's block in the caller, what is asked besides holds too, but for what types don't say: so `run_blocks_are_alike` of rx_engine_initial_blocks
/// holds of it.
pub fn run_blocks_of_types_are_asked_so()
    ensures { (r : Renumbering) (S : Sides) → DeclaresAlike r S.frame_there S.frame → (A : Asked) (k : Plan) → Had A S.muts_there k → ((x : ℕ) → ¬ (MixedInit A x)) → S.frame_there ≡ A.frame → (choice : Uses → Mode)
        → ((u : Uses) → HasMember (allowed_by u) → IsMember (choice u) (allowed_by u)) → (modes : ListOf Mode) → IsModes A S.muts_there k choice modes
        → (items : ℕ → ℕ) (gain : Allowance) (U : ListOf ℕ) (new : New) (special : ListOf ℕ) (i : ℕ) (J : Jumping) (N : Renaming) (b : Body)
        (l : LikeBody items (the_call A S.muts_there k modes items gain U new) gain (by_form special) i J N (running_body A.run A.home.around.loops k.params A.home.body) b) → BlockOfTypes r S l → TypedScope r S N
        → (n : ℕ) (d : Temporary) → HasNoMark (order_body b n d) → ReadsByType S.frame_there (order_function A.function) → ReadsByType S.frame (order_body b n d) → BlockSo S l }
{}

/// And the function that the relation calls in place of the run is initialised.
pub fn called_functions_of_types_are_initialised()
    ensures { (r : Renumbering) (S : Sides) → DeclaresAlike r S.frame_there S.frame → (A : Asked) (k : Plan) → Had A S.muts_there k → IsItself (Some (Some A.function)) → ((q : At) → ¬ (Unreachable A q))
        → Sized S.frame.declared S.frame.sizes → Sized S.frame_there.declared S.frame_there.sizes → IsTextOf S A k → Initialised S.frame_there S.muts_there S.text
        → (modes : ListOf Mode) (items : ℕ → ℕ) (gain : Allowance) (U : ListOf ℕ) (new : New) (special : ListOf ℕ) (i : ℕ) (J : Jumping) (N : Renaming) (b : Body)
        (l : LikeBody items (the_call A S.muts_there k modes items gain U new) gain (by_form special) i J N (running_body A.run A.home.around.loops k.params A.home.body) b) → CallsOfTypes r S l
        → (n : ℕ) (d : Temporary) → HasNoMark (order_body b n d) → ReadsByType S.frame_there (order_function A.function) → ReadsByType S.frame (order_function new.function) → Initialised S.frame S.muts new.function }
{}

/// So the caller is initialised, where the relation of trees opens at the run's block alone and has along it what types don't say: of the block no more is
/// asked.
pub fn extracted_callers_of_types_are_initialised()
    ensures { (r : Renumbering) (S : Sides) → DeclaresAlike r S.frame_there S.frame → (A : Asked) (k : Plan) → Had A S.muts_there k → IsItself (Some (Some A.function)) → ((q : At) → ¬ (Unreachable A q))
        → Sized S.frame.declared S.frame.sizes → Sized S.frame_there.declared S.frame_there.sizes → IsTextOf S A k → Initialised S.frame_there S.muts_there S.text → ((x : ℕ) → ¬ (MixedInit A x)) → S.frame_there ≡ A.frame
        → (choice : Uses → Mode) → ((u : Uses) → HasMember (allowed_by u) → IsMember (choice u) (allowed_by u)) → (modes : ListOf Mode) → IsModes A S.muts_there k choice modes → ReadsByType S.frame_there (order_function A.function)
        → (items : ℕ → ℕ) (gain : Allowance) (U : ListOf ℕ) (new : New) (special : ListOf ℕ) (f : Function)
        (l : RelatedFunction items (in_its_block A S.muts_there k items (the_call A S.muts_there k modes items gain U new) gain) gain special A.function f) → SamePairs r S (variables_of_params A.function.params) (variables_of_params f.params)
        → ExpOfTypes r S (in_caller_with S A k (block_of_types r S A k {modes = modes} {items = items} {gain = gain} {U = U} {N = new})) l.body → ReadsByType S.frame (order_function f) → HasNoMark (order_function f)
        → Initialised S.frame S.muts f }
{}

/// An extraction that is wrong is not initialised: a new function that has as a local what has parts that were moved one by one, and one that forgets that a
/// local is declared `mut`; and a function with the call in which what the run hands out is forgotten.
pub fn wrong_functions_are_not_initialised()
    ensures parts { Initialised (one_of two_booleans) (one_mut true) entering_a_part → ⊥ }
    ensures again { Initialised (one_of boolean) (one_mut false) assigning_again → ⊥ }
    ensures outs { Initialised (one_of boolean) (one_mut false) forgetting_an_out → ⊥ }
{}

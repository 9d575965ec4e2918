//! Laws, each the contract of a function that does nothing.

ghost use Rattle.std.specs.Prelude.{◌≡◌, ◌≢◌, ◌==◌, ℕ, Bool, true, List as ListOf, [], map, Some};
ghost use Rattle.rx_tree.specs.Plain.{ProgramTree};
ghost use Rattle.rx_tree.specs.Size.{IsNumbered};
ghost use Rattle.rx_resolve_names.specs.declared.resolved.ItemNames.{ItemNames};
ghost use Rattle.rx_resolve_names.specs.Causes.{Meant};
ghost use Rattle.rx_typed.specs.Tree as tree;
ghost use Rattle.rx_typed.specs.Tree.{Mark, Temporary, Parameter, Operands, Body};
ghost use Rattle.rx_typed.specs.PlainTypes.{declarations};
ghost use Rattle.rx_typed.specs.PlainTree.{plain-TypedTree};
ghost use Rattle.rx_typed_declarations.specs.Sizes.{Sized};
ghost use Rattle.rx_lower_walks.specs.Orders.{order_body, order_function};
ghost use Rattle.rx_lower_walks.specs.Walks.{Among};
ghost use Rattle.rx_typeck_typed.specs.declared.typed.Typed.{Typed};
ghost use Rattle.rx_typeck_typed.specs.declared.typed.TypedFn.{TypedFn};
ghost use Rattle.rx_typeck_typed.specs.Typing.{IsTyped};
ghost use Rattle.rx_facts.specs.Functions.{frame_of, IsInitialised};
ghost use Rattle.rx_exits_plan.specs.Bound.{variables_of_params};
ghost use Rattle.rx_exits_plan.specs.Runs.{inside};
ghost use Rattle.rx_exits_plan.specs.Spots.{Around, a_block, spots_of_function};
ghost use Rattle.rx_exits_plan.specs.Marked.{marked_body};
ghost use Rattle.rx_exits_plan.specs.MixedInit.{MixedInit};
ghost use Rattle.rx_exits_plan.specs.Coming.{HasNoMark};
ghost use Rattle.rx_exits_plan.specs.Points.{next};
ghost use Rattle.rx_exits_plan.specs.Changed.{changed_statement};
ghost use Rattle.rx_exits_plan.specs.Asked.{Asked};
ghost use Rattle.rx_exits_plan.specs.Plan.{Plan};
ghost use Rattle.rx_exits_plan.specs.Unreachable.{At, Unreachable};
ghost use Rattle.rx_modes_policy.specs.declared.uses.Mode.{Mode};
ghost use Rattle.rx_modes_policy.specs.declared.uses.Uses.{Uses};
ghost use Rattle.rx_modes_policy.specs.Allowed.{allowed_by, IsMember, HasMember};
ghost use Rattle.rx_modes_uses.specs.Modes.{IsModes};
ghost use Rattle.rx_engine_simulation.specs.Turns.{Allowance};
ghost use Rattle.rx_engine_simulation.specs.Sights.{Sight, Renaming, sight_of};
ghost use Rattle.rx_engine_simulation.specs.Places.{IsDirect};
ghost use Rattle.rx_engine_simulation.specs.Jumps.{Jumping};
ghost use Rattle.rx_engine_simulation.specs.Passing.{New};
ghost use Rattle.rx_engine_simulation.specs.Like.{LikeBody};
ghost use Rattle.rx_engine_simulation.specs.Blocks.{Stretch};
ghost use Rattle.rx_engine_simulation.specs.Packing.{Way, no_way};
ghost use Rattle.rx_engine_simulation.specs.Endings.{Last};
ghost use Rattle.rx_engine_simulation.specs.Statements.{body_of};
ghost use Rattle.rx_engine_related.specs.AboutRun.{special_of};
ghost use Rattle.rx_engine_related.specs.ByForm.{by_form, RelatedFunction, IsItself};
ghost use Rattle.rx_engine_related.specs.InBlock.{in_its_block};
ghost use Rattle.rx_engine_related.specs.Standing.{the_call};
ghost use Rattle.rx_engine_related.specs.Given.{EntersWith};
ghost use Rattle.rx_engine_related.specs.Had.{Had};
ghost use Rattle.rx_engine_related.specs.Moved.{Moved, Ended};
ghost use Rattle.rx_engine_related.specs.Never.{NeverEnds};
ghost use Rattle.rx_engine_related.specs.Running.{passing, running_body};
ghost use Rattle.rx_engine_blocks.specs.Renumbering.{Renumbering};
ghost use Rattle.rx_engine_initial_forms.specs.Following.{ExpAsked};
ghost use Rattle.rx_engine_initial_related.specs.Moving.{LeavesBy, stretch_of};
ghost use Rattle.rx_engine_initial_related.specs.Ending.{with_left};
ghost use Rattle.rx_engine_initial_typed.specs.SameTypes.{DeclaresAlike, SameVariable, TypedScope};
ghost use Rattle.rx_engine_initial_typed.specs.BlockOfTypes.{BlockOfTypes, CallsOfTypes, block_of_types};
ghost use Rattle.rx_engine_initial_typed.specs.OfTypes.{in_caller, in_caller_with, ExpOfTypes, SamePairs, StretchOfTypes, EndOfTypes};
ghost use Rattle.rx_engine_initial_reads.specs.InPrograms.{IsOfTyped, IsAskedOf, sides};
ghost use Rattle.rx_engine_initial_typed.specs.ByType.{ReadsByType};

use rx_typeck_typed::{all_have_types, signatures_are_well_formed, sizes_are_sized};

/// Each read of a typed program's function, whether or not some walk comes there, moves what isn't Copy and copies the rest, and moves nothing from behind
/// a reference: by the types of the function's variables.
pub fn typed_reads_move_by_type()
    ensures { (p : ProgramTree) (names : ListOf ItemNames) (t : Typed) → IsNumbered p → Meant p names → IsTyped p names t → (P : ℕ → ℕ) → Sized (declarations t.decls.items) P
        → (f : TypedFn) → Among f t.functions → ReadsByType (frame_of (declarations t.decls.items) P f) (order_function (plain-TypedTree f.tree)) }
{
    all_have_types();
    signatures_are_well_formed();
    sizes_are_sized();
}

/// So the function with the call is initialised, as rx_facts has it, in a typed program beside a typed text: where the relation of trees has it alike the
/// text's but for the run's block, variables are of the text's types, and what is asked besides holds along it.
pub fn callers_in_typed_programs_are_initialised()
    ensures { (t u : Typed) (P Q : ℕ → ℕ) (g f : TypedFn) → IsOfTyped t P g → IsOfTyped u Q f → (A : Asked) (k : Plan) → IsAskedOf (declarations t.decls.items) P g A → Had A g.mutable k
        → (r : Renumbering) → DeclaresAlike r (frame_of (declarations t.decls.items) P g) (frame_of (declarations u.decls.items) Q f)
        → (modes : ListOf Mode) (items : ℕ → ℕ) (gain : Allowance) (U : ListOf ℕ) (new : New) (special : ListOf ℕ)
        (l : RelatedFunction items (in_its_block A g.mutable k items (the_call A g.mutable k modes items gain U new) gain) gain special A.function (plain-TypedTree f.tree))
        → SamePairs r (sides (declarations t.decls.items) P g (declarations u.decls.items) Q f A k) (variables_of_params A.function.params) (variables_of_params (plain-TypedTree f.tree).params)
        → ExpOfTypes r (sides (declarations t.decls.items) P g (declarations u.decls.items) Q f A k) (in_caller (sides (declarations t.decls.items) P g (declarations u.decls.items) Q f A k) A k) l.body
        → IsInitialised (declarations u.decls.items) Q f }
{
    all_have_types();
    signatures_are_well_formed();
    sizes_are_sized();
}

/// And so is the new function, where the run is reached and its function is like itself.
pub fn new_functions_in_typed_programs_are_initialised()
    ensures { (t u : Typed) (P Q : ℕ → ℕ) (g f : TypedFn) → IsOfTyped t P g → IsOfTyped u Q f → (A : Asked) (k : Plan) → IsAskedOf (declarations t.decls.items) P g A → Had A g.mutable k
        → (r : Renumbering) → DeclaresAlike r (frame_of (declarations t.decls.items) P g) (frame_of (declarations u.decls.items) Q f) → IsItself (Some (Some A.function)) → ((q : At) → ¬ (Unreachable A q))
        → (again : Bool) (modes : ListOf Mode) (R Ra Rb : Renaming) (es : Operands) (ps : ListOf Parameter) (ls : ListOf (ℕ × ℕ)) → EntersWith again k modes R es ps ls Ra
        → ((x : ℕ) (e : Sight) → sight_of Ra x ≡ Some e → IsDirect e.how → SameVariable r (sides (declarations t.decls.items) P g (declarations u.decls.items) Q f A k) x e.to)
        → (items : ℕ → ℕ) (gain : Allowance) (U : ListOf ℕ) (J : Jumping) (s q : Stretch) (l : Last) → stretch_of (map (changed_statement (passing A.home.around.loops)) (inside A.run A.home.body)) ≡ with_left s l
        → (m : Moved items gain U (special_of A g.mutable k) J Ra s q Rb) → StretchOfTypes r (sides (declarations t.decls.items) P g (declarations u.decls.items) Q f A k) m → LeavesBy k J → J.loops ≡ []
        → (w : Way) (end : Body) (d : Ended items gain U (special_of A g.mutable k) J Rb l w (k.outs next) end) → EndOfTypes r (sides (declarations t.decls.items) P g (declarations u.decls.items) Q f A k) d
        → (w ≢ no_way → Among next k.exits) → (w ≡ no_way → NeverEnds l s) → (b : Mark) → (plain-TypedTree f.tree).params ≡ ps → (plain-TypedTree f.tree).body ≡ body_of b ls q end
        → IsInitialised (declarations u.decls.items) Q f }
{
    all_have_types();
    signatures_are_well_formed();
    sizes_are_sized();
}

/// The run's block in the function with the call is alike the text's with all its marks, where what types don't say holds along it: what is asked where
/// the relation of trees opens in the caller.
pub fn run_blocks_in_typed_programs_are_alike()
    ensures { (t u : Typed) (P Q : ℕ → ℕ) (g f : TypedFn) → IsOfTyped t P g → IsOfTyped u Q f → (A : Asked) (k : Plan) → IsAskedOf (declarations t.decls.items) P g A → Had A g.mutable k
        → (r : Renumbering) → DeclaresAlike r (frame_of (declarations t.decls.items) P g) (frame_of (declarations u.decls.items) Q f) → IsItself (Some (Some A.function)) → ((q : At) → ¬ (Unreachable A q)) → ((x : ℕ) → ¬ (MixedInit A x))
        → (choice : Uses → Mode) → ((v : Uses) → HasMember (allowed_by v) → IsMember (choice v) (allowed_by v)) → (modes : ListOf Mode) → IsModes A g.mutable k choice modes
        → (items : ℕ → ℕ) (gain : Allowance) (U : ListOf ℕ) (new : New) (special : ListOf ℕ) (i : ℕ) (J : Jumping) (N : Renaming) (b : Body)
        (l : LikeBody items (the_call A g.mutable k modes items gain U new) gain (by_form special) i J N (running_body A.run A.home.around.loops k.params A.home.body) b)
        → BlockOfTypes r (sides (declarations t.decls.items) P g (declarations u.decls.items) Q f A k) l → TypedScope r (sides (declarations t.decls.items) P g (declarations u.decls.items) Q f A k) N
        → HasNoMark (order_function (plain-TypedTree f.tree)) → (m n : Mark) (c : Around) → Among (a_block c n.node b) (spots_of_function (plain-TypedTree f.tree)) → (m.node == A.run.block) ≡ true
        → ExpAsked (sides (declarations t.decls.items) P g (declarations u.decls.items) Q f A k) J N (tree.block n b) (tree.block m (marked_body A.run A.home.around.loops k.params A.home.body)) }
{
    all_have_types();
    signatures_are_well_formed();
    sizes_are_sized();
}

/// And the function of a typed program that the relation calls in place of the run is initialised.
pub fn called_functions_in_typed_programs_are_initialised()
    ensures { (t u : Typed) (P Q : ℕ → ℕ) (g f : TypedFn) → IsOfTyped t P g → IsOfTyped u Q f → (A : Asked) (k : Plan) → IsAskedOf (declarations t.decls.items) P g A → Had A g.mutable k
        → (r : Renumbering) → DeclaresAlike r (frame_of (declarations t.decls.items) P g) (frame_of (declarations u.decls.items) Q f) → IsItself (Some (Some A.function)) → ((q : At) → ¬ (Unreachable A q))
        → (modes : ListOf Mode) (items : ℕ → ℕ) (gain : Allowance) (U : ListOf ℕ) (new : New) (special : ListOf ℕ) (i : ℕ) (J : Jumping) (N : Renaming) (b : Body)
        (l : LikeBody items (the_call A g.mutable k modes items gain U new) gain (by_form special) i J N (running_body A.run A.home.around.loops k.params A.home.body) b)
        → CallsOfTypes r (sides (declarations t.decls.items) P g (declarations u.decls.items) Q f A k) l → (n : ℕ) (d : Temporary) → HasNoMark (order_body b n d) → new.function ≡ plain-TypedTree f.tree
        → IsInitialised (declarations u.decls.items) Q f }
{
    all_have_types();
    signatures_are_well_formed();
    sizes_are_sized();
}

/// So the function with the call is initialised, where the relation opens at the run's block alone, and what types don't say holds along it and along the
/// block.
pub fn extracted_callers_in_typed_programs_are_initialised()
    ensures { (t u : Typed) (P Q : ℕ → ℕ) (g f : TypedFn) → IsOfTyped t P g → IsOfTyped u Q f → (A : Asked) (k : Plan) → IsAskedOf (declarations t.decls.items) P g A → Had A g.mutable k
        → (r : Renumbering) → DeclaresAlike r (frame_of (declarations t.decls.items) P g) (frame_of (declarations u.decls.items) Q f) → IsItself (Some (Some A.function)) → ((q : At) → ¬ (Unreachable A q)) → ((x : ℕ) → ¬ (MixedInit A x))
        → (choice : Uses → Mode) → ((v : Uses) → HasMember (allowed_by v) → IsMember (choice v) (allowed_by v)) → (modes : ListOf Mode) → IsModes A g.mutable k choice modes
        → (items : ℕ → ℕ) (gain : Allowance) (U : ListOf ℕ) (new : New) (special : ListOf ℕ)
        (l : RelatedFunction items (in_its_block A g.mutable k items (the_call A g.mutable k modes items gain U new) gain) gain special A.function (plain-TypedTree f.tree))
        → SamePairs r (sides (declarations t.decls.items) P g (declarations u.decls.items) Q f A k) (variables_of_params A.function.params) (variables_of_params (plain-TypedTree f.tree).params)
        → ExpOfTypes r (sides (declarations t.decls.items) P g (declarations u.decls.items) Q f A k) (in_caller_with (sides (declarations t.decls.items) P g (declarations u.decls.items) Q f A k) A k
        (block_of_types r (sides (declarations t.decls.items) P g (declarations u.decls.items) Q f A k) A k {modes = modes} {items = items} {gain = gain} {U = U} {N = new})) l.body
        → HasNoMark (order_function (plain-TypedTree f.tree)) → IsInitialised (declarations u.decls.items) Q f }
{
    all_have_types();
    signatures_are_well_formed();
    sizes_are_sized();
}

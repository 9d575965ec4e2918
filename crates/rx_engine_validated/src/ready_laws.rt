//! Laws, each the contract of a function that does nothing.

ghost use Rattle.std.specs.Prelude.{ℕ, Bool, ◌≤◌, List as ListOf};
ghost use Rattle.rx_core.specs.declared.types.Span.{Span};
ghost use Rattle.rx_tree.specs.Plain.{Function as FunctionTree, ProgramTree};
ghost use Rattle.rx_tree.specs.Size.{IsNumbered};
ghost use Rattle.rx_typed.specs.PlainTypes.{declarations};
ghost use Rattle.rx_typed.specs.PlainTree.{plain-TypedTree};
ghost use Rattle.rx_typeck_typed.specs.declared.typed.Typed.{Typed};
ghost use Rattle.rx_typeck_typed.specs.declared.typed.TypedFn.{TypedFn};
ghost use Rattle.rx_lower_walks.specs.Walks.{Among};
ghost use Rattle.rx_exits_plan.specs.Runs.{Run, Home, Sits, inside};
ghost use Rattle.rx_check.specs.Passes.{IsFront};
ghost use Rattle.rx_engine_related.specs.Accepted.{Accepted};
ghost use Rattle.rx_resolve_names.specs.declared.resolved.NodeNames.{NodeNames};
ghost use Rattle.rx_typed.specs.Naming.{function_named};
ghost use Rattle.rx_typed.specs.Elaborated.{Assigned, elaborated};
ghost use Rattle.rx_exits_plan.specs.Spots.{spots_of_function};
ghost use Rattle.rx_engine_related.specs.OneSite.{blocks_at, times_taken, StandsOnce};
ghost use Rattle.rx_engine_related.specs.Running.{running};
ghost use Rattle.rx_exits_plan.specs.Points.{next, jump_exit, leaves};
ghost use Rattle.rx_exits_plan.specs.Exits.{leaving, spots_in_statements, at_start};
ghost use Rattle.rx_exits_plan.specs.Marked.{shown};
ghost use Rattle.rx_engine_validated.specs.AskedOf.{asked_of};

use rx_engine_related::{ends_stand_once, single_jumps_stand_once};
use rx_hoist_naming::runs_have_names;
use rx_meaning_accepted::typed_functions_stand;
use rx_typeck_typed::{signatures_are_well_formed, sizes_are_sized};
use rx_typed::numbers_stand_in_order;

/// Of a program that the passes up to initialisation accept, a function in which a run sits is as the laws of histories ask.
pub fn accepted_functions_are_ready()
    ensures { (p : ProgramTree) (t : Typed) → IsNumbered p → (front : IsFront p t) → (f : TypedFn) → Among f t.functions → (r : Run) (h : Home) → Sits (plain-TypedTree f.tree) r h
        → Accepted (asked_of (declarations t.decls.items) front.parts f r h) f.mutable }
{
    typed_functions_stand();
    runs_have_names();
    signatures_are_well_formed();
    sizes_are_sized();
}

/// No two blocks of a function have one node.
pub fn blocks_have_their_nodes()
    ensures { (A : Assigned) (i : ℕ) (s : Span) (f : FunctionTree) (ns : ListOf NodeNames) (n : ℕ) → blocks_at n (spots_of_function (elaborated A (function_named i s f ns))) ≤ 1 }
{
    numbers_stand_in_order();
}

/// So the mark at the end of a run stands at one place of the text that runs, in each function of an accepted program.
pub fn ends_of_runs_stand_once()
    ensures { (p : ProgramTree) (t : Typed) → IsNumbered p → IsFront p t → (f : TypedFn) → Among f t.functions → (r : Run) (ls xs : ListOf ℕ)
        → StandsOnce (running r ls xs (plain-TypedTree f.tree)) (shown (leaves next)) }
{
    ends_stand_once();
    blocks_have_their_nodes();
    typed_functions_stand();
    signatures_are_well_formed();
    sizes_are_sized();
}

/// So does that of a `break` or `continue` which one jump of the run takes.
pub fn single_jumps_of_runs_stand_once()
    ensures { (p : ProgramTree) (t : Typed) → IsNumbered p → IsFront p t → (f : TypedFn) → Among f t.functions → (r : Run) (h : Home) → Sits (plain-TypedTree f.tree) r h → (xs : ListOf ℕ) (l : ℕ) (again : Bool)
        → times_taken (jump_exit l again) (leaving h.around.loops (spots_in_statements (at_start r h) (inside r h.body))) ≤ 1
        → StandsOnce (running r h.around.loops xs (plain-TypedTree f.tree)) (shown (leaves (jump_exit l again))) }
{
    single_jumps_stand_once();
    blocks_have_their_nodes();
    typed_functions_stand();
    signatures_are_well_formed();
    sizes_are_sized();
}

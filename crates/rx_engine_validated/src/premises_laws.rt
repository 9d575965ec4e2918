//! Laws, each the contract of a function that does nothing.

ghost use Rattle.std.specs.Prelude.{◌≡◌, ℕ, ℤ, true, false, Some, List as ListOf, map, slice_get};
ghost use Rattle.rx_tree.specs.Plain.{ProgramTree};
ghost use Rattle.rx_tree.specs.Size.{IsNumbered};
ghost use Rattle.rx_typed.specs.Types.{unit_shape, result_declared};
ghost use Rattle.rx_typed.specs.PlainTypes.{declarations};
ghost use Rattle.rx_typed.specs.PlainTree.{plain-TypedTree};
ghost use Rattle.rx_typed.specs.Tree.{Body, Function};
ghost use Rattle.rx_typeck_typed.specs.declared.typed.Typed.{Typed};
ghost use Rattle.rx_typeck_typed.specs.declared.typed.TypedFn.{TypedFn};
ghost use Rattle.rx_lower_walks.specs.Walks.{Among};
ghost use Rattle.rx_check.specs.Passes.{IsFront};
ghost use Rattle.rx_exits_plan.specs.Blocks.{Statement, before, tail, written_tail};
ghost use Rattle.rx_exits_plan.specs.Points.{Point, next};
ghost use Rattle.rx_exits_plan.specs.Runs.{Run, Home, Sits, inside};
ghost use Rattle.rx_exits_plan.specs.Changed.{changed, changed_statement};
ghost use Rattle.rx_exits_plan.specs.Diverging.{run_diverges};
ghost use Rattle.rx_exits_plan.specs.Exits.{exits};
ghost use Rattle.rx_exits_plan.specs.Asked.{Asked};
ghost use Rattle.rx_exits_plan.specs.Plan.{Plan};
ghost use Rattle.rx_machine.specs.Functions.{program_of};
ghost use Rattle.rx_meaning.specs.Values.{element};
ghost use Rattle.rx_meaning.specs.Acting.{plainly};
ghost use Rattle.rx_meaning.specs.Programs.{Program, run_by};
ghost use Rattle.rx_engine_simulation.specs.Astray.{FindsReferences};
ghost use Rattle.rx_engine_simulation.specs.Blocks.{Stretch};
ghost use Rattle.rx_engine_simulation.specs.Blocks as stretched;
ghost use Rattle.rx_engine_simulation.specs.Endings.{Last, a_marked};
ghost use Rattle.rx_engine_simulation.specs.Sights.{In};
ghost use Rattle.rx_engine_simulation.specs.Units.{UnitFunctions};
ghost use Rattle.rx_engine_related.specs.Running.{passing};
ghost use Rattle.rx_engine_related.specs.ByForm.{EachIsItself};
ghost use Rattle.rx_engine_related.specs.Extracts.{with_its_marks};
ghost use Rattle.rx_engine_related.specs.Never.{NeverEnds};
ghost use Rattle.rx_engine_related.specs.Stretched.{stretch_of};
ghost use Rattle.rx_engine_dropped.specs.Undrops.{UndropsProgram};
ghost use Rattle.rx_engine_validated.specs.Stretches.{Divided};
ghost use Rattle.rx_engine_validated.specs.UnitReads.{unit_items, ReadsNoUnit};

use rx_engine_dropped::dropped_units_change_no_run;
use rx_engine_related::alike_items_are_the_same;
use rx_meaning_accepted::{
    accepted_programs_act_by_their_types, accepted_programs_are_initial,
    accepted_runs_follow_references,
};
use rx_typeck_typed::{demands_are_orderly, signatures_are_well_formed, sizes_are_sized};

/// A run of an accepted text, without its block's tail, that diverges by its syntax never goes on to its end by its form: as it stands, and
/// with marks in front of jumps out of loops.
pub fn diverging_runs_never_end()
    ensures plain { (p : ProgramTree) (t : Typed) → IsNumbered p → IsFront p t → (f : TypedFn) → Among f t.functions → (r : Run) (h : Home) → Sits (plain-TypedTree f.tree) r h → r.tail ≡ false
        → run_diverges r h.body ≡ true → (l : Last) (rest : Stretch) → Divided (inside r h.body) l rest → NeverEnds l rest }
    ensures marked { (p : ProgramTree) (t : Typed) → IsNumbered p → IsFront p t → (f : TypedFn) → Among f t.functions → (r : Run) (h : Home) → Sits (plain-TypedTree f.tree) r h → r.tail ≡ false
        → run_diverges r h.body ≡ true → (ls : ListOf ℕ) (l : Last) (rest : Stretch) → Divided (map (changed_statement (passing ls)) (inside r h.body)) l rest → NeverEnds l rest }
{
    signatures_are_well_formed();
    sizes_are_sized();
}

/// Nor does a run with its block's tail, with marks in front of jumps out of loops: some statement of it never goes on, or the tail.
pub fn diverging_tails_never_end()
    ensures { (p : ProgramTree) (t : Typed) → IsNumbered p → IsFront p t → (f : TypedFn) → Among f t.functions → (r : Run) (h : Home) → Sits (plain-TypedTree f.tree) r h → r.tail ≡ true
        → run_diverges r h.body ≡ true → (ls : ListOf ℕ) (q : Point) → NeverEnds (a_marked (changed (passing ls) (written_tail r.block (tail h.body))) q) (stretch_of (map (changed_statement (passing ls)) (inside r h.body))) }
{
    signatures_are_well_formed();
    sizes_are_sized();
}

/// A run of which the end is no exit diverges.
pub fn runs_without_an_end_diverge()
    ensures { (r : Run) (h : Home) → (Among next (exits r h) → ⊥) → run_diverges r h.body ≡ true }
{}

/// A stretch of statements in front of a body is these statements in front of it.
pub fn statements_stand_as_a_stretch()
    ensures { (ss : ListOf Statement) (b : Body) → stretched.before (stretch_of ss) b ≡ before ss b }
{}

/// No run of an accepted program follows what is no reference, whichever item is its `main`.
pub fn accepted_runs_find_references()
    ensures { (q : ProgramTree) (u : Typed) → IsNumbered q → IsFront q u → (main : ℕ) (given : ListOf ℤ) (n : ℕ) → FindsReferences (program_of u main) given n }
{
    accepted_runs_follow_references();
}

/// Each function of an accepted program is itself: its variables and loops are told apart.
pub fn accepted_programs_are_themselves()
    ensures { (p : ProgramTree) (t : Typed) → IsNumbered p → IsFront p t → (main : ℕ) → EachIsItself (program_of t main) }
{
    alike_items_are_the_same();
    demands_are_orderly();
}

/// Where a function of an accepted program is declared to give the unit, and blocks drop what calls of it give, in front of the unit, the program in
/// which they give it has the same runs.
pub fn dropped_units_run_so()
    ensures { (q : ProgramTree) (u : Typed) → IsNumbered q → IsFront q u → (main item : ℕ) → result_declared (slice_get (declarations u.decls.items) item) ≡ Some unit_shape
        → (R : Program) → UndropsProgram item (program_of u main) R → (given : ListOf ℤ) (n : ℕ) → run_by plainly R given n ≡ run_by plainly (program_of u main) given n }
{
    accepted_programs_act_by_their_types();
    accepted_programs_are_initial();
    dropped_units_change_no_run();
}

/// Functions of an accepted program that are declared to give the unit do so by their form, where none of them reads a value of its type from
/// a place.
pub fn unit_functions_give_the_unit()
    ensures { (p : ProgramTree) (t : Typed) → IsNumbered p → IsFront p t → (main : ℕ)
        → ((f : ℕ) → In f (unit_items (declarations t.decls.items)) → (g : Function) → element (program_of t main).functions f ≡ Some (Some g) → ReadsNoUnit g.body)
        → UnitFunctions (program_of t main).functions (unit_items (declarations t.decls.items)) }
{}

/// So they do with the marks of a run in one of them.
pub fn marks_keep_unit_functions()
    ensures { (P : Program) (item : ℕ) (A : Asked) (k : Plan) (units : ListOf ℕ) → element P.functions item ≡ Some (Some A.function) → UnitFunctions P.functions units
        → UnitFunctions (with_its_marks P item A k).functions units }
{}

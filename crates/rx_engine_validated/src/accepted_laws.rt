//! Laws, each the contract of a function that does nothing.

ghost use Rattle.std.specs.Prelude.{◌≡◌, ◌*◌, ℕ, ℤ, Bool, true, false, List as ListOf};
ghost use Rattle.rx_tree.specs.Plain.{ProgramTree};
ghost use Rattle.rx_tree.specs.Size.{IsNumbered};
ghost use Rattle.rx_typed.specs.PlainTypes.{declarations};
ghost use Rattle.rx_typed.specs.PlainTree.{plain-TypedTree};
ghost use Rattle.rx_typeck_typed.specs.declared.typed.Typed.{Typed};
ghost use Rattle.rx_typeck_typed.specs.declared.typed.TypedFn.{TypedFn};
ghost use Rattle.rx_lower_walks.specs.Walks.{Among};
ghost use Rattle.rx_exits_plan.specs.Runs.{Run, Home, Sits};
ghost use Rattle.rx_exits_plan.specs.Plan.{Plan, IsPlan};
ghost use Rattle.rx_check.specs.Passes.{IsFront};
ghost use Rattle.rx_modes_policy.specs.declared.uses.Mode.{Mode};
ghost use Rattle.rx_machine.specs.Functions.{program_of};
ghost use Rattle.rx_meaning.specs.Programs.{Program, run, UpTo};
ghost use Rattle.rx_engine_simulation.specs.Astray.{FindsReferences};
ghost use Rattle.rx_engine_validated.specs.AskedOf.{asked_of};
ghost use Rattle.rx_engine_related.specs.ByForm.{EachIsItself};
ghost use Rattle.rx_engine_related.specs.Had.{Had};
ghost use Rattle.rx_engine_related.specs.Extracts.{Extracts};
ghost use Rattle.rx_engine_related.specs.ExtractsTail.{HadTail, ExtractsTail};
ghost use Rattle.rx_engine_validated.specs.Refused.{NotRefused};

use crate::{accepted_functions_are_ready, blocks_have_their_nodes};
use rx_engine_related::{extracted_programs_run_alike, extracted_tails_run_alike};
use rx_meaning_accepted::typed_functions_stand;
use rx_typeck_typed::{signatures_are_well_formed, sizes_are_sized};

/// Of a run in an accepted text, without its block's tail, with its plan, all is had that the law on runs asks.
pub fn accepted_runs_are_had()
    ensures { (p : ProgramTree) (t : Typed) → IsNumbered p → (front : IsFront p t) → (f : TypedFn) → Among f t.functions → (r : Run) (h : Home) → Sits (plain-TypedTree f.tree) r h → r.tail ≡ false
        → (k : Plan) → IsPlan (asked_of (declarations t.decls.items) front.parts f r h) k → NotRefused (asked_of (declarations t.decls.items) front.parts f r h) f.mutable k
        → Had (asked_of (declarations t.decls.items) front.parts f r h) f.mutable k }
{
    accepted_functions_are_ready();
    blocks_have_their_nodes();
    typed_functions_stand();
    signatures_are_well_formed();
    sizes_are_sized();
}

/// So a program that stands to the text's as an extraction does, by a run that isn't refused and its plan, does what the text does, up to the
/// turns, where it follows nothing that is no reference.
pub fn accepted_extractions_run_alike()
    ensures answer { (p : ProgramTree) (t : Typed) → IsNumbered p → (front : IsFront p t) → (f : TypedFn) → Among f t.functions → (r : Run) (h : Home) → Sits (plain-TypedTree f.tree) r h → r.tail ≡ false
        → (k : Plan) → IsPlan (asked_of (declarations t.decls.items) front.parts f r h) k → NotRefused (asked_of (declarations t.decls.items) front.parts f r h) f.mutable k
        → (modes : ListOf Mode) (main : ℕ) (Q : Program) → Extracts (asked_of (declarations t.decls.items) front.parts f r h) f.mutable k modes (program_of t main) Q → EachIsItself (program_of t main)
        → (given : ListOf ℤ) (n : ℕ) → FindsReferences Q given n → UpTo (run Q given n) (run (program_of t main) given n) }
    ensures text { (p : ProgramTree) (t : Typed) → IsNumbered p → (front : IsFront p t) → (f : TypedFn) → Among f t.functions → (r : Run) (h : Home) → Sits (plain-TypedTree f.tree) r h → r.tail ≡ false
        → (k : Plan) → IsPlan (asked_of (declarations t.decls.items) front.parts f r h) k → NotRefused (asked_of (declarations t.decls.items) front.parts f r h) f.mutable k
        → (modes : ListOf Mode) (main : ℕ) (Q : Program) → Extracts (asked_of (declarations t.decls.items) front.parts f r h) f.mutable k modes (program_of t main) Q → EachIsItself (program_of t main)
        → (given : ListOf ℤ) (n : ℕ) → FindsReferences Q given (2 * n) → UpTo (run (program_of t main) given n) (run Q given (2 * n)) }
{
    accepted_runs_are_had();
    extracted_programs_run_alike();
}

/// Of a run in an accepted text with its block's tail, also that of its function's body, with its plan, all is had that the law on such runs asks.
pub fn accepted_tails_are_had()
    ensures { (p : ProgramTree) (t : Typed) → IsNumbered p → (front : IsFront p t) → (f : TypedFn) → Among f t.functions → (r : Run) (h : Home) → Sits (plain-TypedTree f.tree) r h → r.tail ≡ true
        → (k : Plan) → IsPlan (asked_of (declarations t.decls.items) front.parts f r h) k → NotRefused (asked_of (declarations t.decls.items) front.parts f r h) f.mutable k
        → HadTail (asked_of (declarations t.decls.items) front.parts f r h) f.mutable k }
{
    accepted_functions_are_ready();
    blocks_have_their_nodes();
    typed_functions_stand();
    signatures_are_well_formed();
    sizes_are_sized();
}

/// So a program that stands to the text's as an extraction does, by a run that isn't refused and its plan, does what the text does, up to the
/// turns, where it follows nothing that is no reference.
pub fn accepted_tail_extractions_run_alike()
    ensures answer { (p : ProgramTree) (t : Typed) → IsNumbered p → (front : IsFront p t) → (f : TypedFn) → Among f t.functions → (r : Run) (h : Home) → Sits (plain-TypedTree f.tree) r h → r.tail ≡ true
        → (k : Plan) → IsPlan (asked_of (declarations t.decls.items) front.parts f r h) k → NotRefused (asked_of (declarations t.decls.items) front.parts f r h) f.mutable k
        → (modes : ListOf Mode) (main : ℕ) (Q : Program) → ExtractsTail (asked_of (declarations t.decls.items) front.parts f r h) f.mutable k modes (program_of t main) Q → EachIsItself (program_of t main)
        → (given : ListOf ℤ) (n : ℕ) → FindsReferences Q given n → UpTo (run Q given n) (run (program_of t main) given n) }
    ensures text { (p : ProgramTree) (t : Typed) → IsNumbered p → (front : IsFront p t) → (f : TypedFn) → Among f t.functions → (r : Run) (h : Home) → Sits (plain-TypedTree f.tree) r h → r.tail ≡ true
        → (k : Plan) → IsPlan (asked_of (declarations t.decls.items) front.parts f r h) k → NotRefused (asked_of (declarations t.decls.items) front.parts f r h) f.mutable k
        → (modes : ListOf Mode) (main : ℕ) (Q : Program) → ExtractsTail (asked_of (declarations t.decls.items) front.parts f r h) f.mutable k modes (program_of t main) Q → EachIsItself (program_of t main)
        → (given : ListOf ℤ) (n : ℕ) → FindsReferences Q given (2 * n) → UpTo (run (program_of t main) given n) (run Q given (2 * n)) }
{
    accepted_tails_are_had();
    extracted_tails_run_alike();
}

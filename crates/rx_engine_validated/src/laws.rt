//! Laws, each the contract of a function that does nothing.

ghost use Rattle.std.specs.Prelude.{◌*◌, ℕ, ℤ, List as ListOf};
ghost use Rattle.rx_tree.specs.Plain.{ProgramTree};
ghost use Rattle.rx_typeck_typed.specs.declared.typed.Typed.{Typed};
ghost use Rattle.rx_machine.specs.Functions.{program_of};
ghost use Rattle.rx_meaning.specs.Programs.{run, UpTo};
ghost use Rattle.rx_engine_validated.specs.Found.{IsFound};

use crate::{
    accepted_programs_are_themselves, accepted_runs_are_had, accepted_runs_find_references,
    accepted_tails_are_had, diverging_runs_never_end, diverging_tails_never_end,
    dropped_units_run_so, found_extractions_are_extractions,
    found_tail_extractions_are_extractions, runs_without_an_end_diverge,
};
use rx_engine_related::{extracted_programs_run_alike, extracted_tails_run_alike};

/// An accepted answer that is found to be the extraction of a run of an accepted text, with the tail of its block or without, by the run's plan, does
/// what the text does: on each input, with n turns, it is up to the text, and the text is up to it with twice as many.
pub fn found_extractions_run_alike()
    ensures answer { (p q : ProgramTree) (t u : Typed) (main other : ℕ) → IsFound p q t u main other → (given : ListOf ℤ) (n : ℕ)
        → UpTo (run (program_of u other) given n) (run (program_of t main) given n) }
    ensures text { (p q : ProgramTree) (t u : Typed) (main other : ℕ) → IsFound p q t u main other → (given : ListOf ℤ) (n : ℕ)
        → UpTo (run (program_of t main) given n) (run (program_of u other) given (2 * n)) }
{
    accepted_programs_are_themselves();
    accepted_runs_are_had();
    accepted_runs_find_references();
    accepted_tails_are_had();
    diverging_runs_never_end();
    diverging_tails_never_end();
    dropped_units_run_so();
    extracted_programs_run_alike();
    extracted_tails_run_alike();
    found_extractions_are_extractions();
    found_tail_extractions_are_extractions();
    runs_without_an_end_diverge();
}

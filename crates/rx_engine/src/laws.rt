//! Laws, each the contract of a function that does nothing.

ghost use Rattle.std.specs.Prelude.{◌≡◌, ◌≤◌, ℕ, ℤ, List, length};
ghost use Rattle.rx_core.specs.declared.types.Bound.{Bound};
ghost use Rattle.rx_tree.specs.Plain.{ProgramTree};
ghost use Rattle.rx_check.specs.Passes.{Accepted};
ghost use Rattle.rx_meaning.specs.declared.outcome.Outcome.{Outcome};
ghost use Rattle.rx_engine_extraction.specs.Source.{Wish};
ghost use Rattle.rx_engine_extraction.specs.Promise as shape;
ghost use Rattle.rx_engine.specs.Runs.{Does};
ghost use Rattle.rx_engine.specs.Promise.{Keeps};

use rx_engine_validated::found_extractions_run_alike;
use rx_parse::parsed_programs_are_numbered;
use rx_parse_grammar::one_tree;
use rx_typeck_typed::{one_typed_program, typed_declarations_are_finite};
use rx_typed_declarations::one_size_each;

/// An accepted program does something on every input, with every number of turns, and one thing.
pub fn one_outcome()
    ensures some { (p : ProgramTree) (turns : ℕ) (input : List ℤ) → Accepted p → (o : Outcome) × Does p turns input o }
    ensures one { (p : ProgramTree) (turns : ℕ) (input : List ℤ) (o q : Outcome) → Does p turns input o → Does p turns input q → o ≡ q }
{
    one_typed_program();
}

/// The text of an extraction that meets every condition is accepted, and does what the text does: on each input, with n turns, it is up to
/// the text, and the text is up to it with twice as many.
pub fn answers_run_alike()
    ensures { (bytes : List ℕ) (w : Wish) (text : List ℕ) (bs : List Bound) → shape.Keeps bytes w text bs → length bytes ≤ 1048576 → Keeps bytes w text bs }
{
    found_extractions_run_alike();
    one_size_each();
    one_tree();
    one_typed_program();
    parsed_programs_are_numbered();
    typed_declarations_are_finite();
}

//! Laws, each the contract of a function that does nothing.

ghost use Rattle.std.specs.Prelude.{◌≡◌, ℕ, true, Option as OptionOf};
ghost use Rattle.rx_typed.specs.Types.{Typ};
ghost use Rattle.rx_exits_plan.specs.Asked.{Asked};
ghost use Rattle.rx_meaning.specs.Programs.{Program};
ghost use Rattle.rx_engine_related.specs.Extracts.{Extracts};
ghost use Rattle.rx_engine_related.specs.ExtractsTail.{ExtractsTail};
ghost use Rattle.rx_engine_extracted.specs.Told.{Told};
ghost use Rattle.rx_engine_extracted.specs.Programs.{extracts};
ghost use Rattle.rx_engine_validated.specs.Telling.{ToldOf, ToldOfTail, with_value};
ghost use Rattle.rx_engine_validated.specs.Undropped.{Undropped};

/// Where an answer's typed program is found to be the text's with a call of the new function in place of the run, as the plan has it, it stands
/// to the text's as an extraction's does, which `extracted_programs_run_alike` asks.
pub fn found_extractions_are_extractions()
    ensures { (A : Asked) (T : Told) (item made : ℕ) (P Q : Program) → ToldOf A T item made P Q → extracts T item P Q ≡ true → Extracts A T.muts T.plan T.modes P Q }
{}

/// So does that of a run with its block's tail, by its plan with a value of any type, which `extracted_tails_run_alike` asks; or the program does in which
/// the run's block gives what the call gives, where the answer drops that and gives the unit.
pub fn found_tail_extractions_are_extractions()
    ensures { (A : Asked) (T : Told) (value : OptionOf Typ) (item made : ℕ) (P Q : Program) → ToldOfTail A T value item made P Q → extracts T item P Q ≡ true
        → (R : Program) × Undropped T Q R × ExtractsTail A T.muts (with_value value T.plan) T.modes P R }
{}

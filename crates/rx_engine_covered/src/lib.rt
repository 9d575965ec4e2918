//! Coverage of an extraction: matches that are the text's by other numbers, and those that are made, take every value. Laws, and no code.
#![tactic(auto)]

mod laws;

pub use laws::{
    blocks_are_covered_part_by_part, copied_runs_are_covered, ends_that_fit_are_covered,
    functions_round_a_run_are_covered, functions_round_a_tail_are_covered,
    functions_with_a_call_are_covered, matches_by_other_numbers_are_covered,
    renumbered_functions_are_covered, statements_that_fit_are_covered,
    typed_functions_by_other_numbers_are_covered, what_stands_for_a_run_takes_all,
};

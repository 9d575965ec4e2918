//! Laws of what stands at special places of a function of an extraction.
#![tactic(auto)]

mod laws;

pub use laws::{
    ends_that_fit_are_met, functions_round_a_run_ask_alike, functions_round_a_tail_ask_alike,
    functions_with_a_copied_run_are_valid, functions_with_ends_that_fit_are_valid,
    functions_with_others_for_a_run_are_valid, functions_with_others_for_an_end_are_valid,
    functions_with_statements_that_fit_are_valid, initialisers_ask_alike,
    moved_statements_ask_alike, moved_tails_ask_alike, runs_and_calls_for_them_are_valid,
    special_bodies_ask_alike, special_functions_ask_alike, special_statements_ask_alike,
    statements_that_fit_are_met, what_is_made_asks_for_no_integer, what_is_named_is_fixed,
};

//! The function with the call of an extraction, and the new one, beside the text's. Laws, and no code.
#![tactic(auto)]

mod laws;

pub use laws::{
    calls_are_few_where_their_tables_are, calls_hand_on_what_their_runs_do,
    calls_in_one_numbering_fit, calls_of_a_plan_fit, copied_runs_are_renumbered,
    demands_of_a_run_stand_together, demands_of_an_end_stand_together,
    ends_are_few_where_their_tables_are, functions_with_a_call_are_renumbered,
    functions_with_a_call_are_valid, functions_with_a_call_at_the_end_are_renumbered,
    functions_with_a_call_have_one_numbering, functions_with_a_call_of_a_plan_are_valid,
    functions_with_a_call_that_fits_are_valid, made_pairs_are_one_to_one,
    nothing_waits_behind_quiet_parts, pieces_tell_a_numbering, planned_runs_do_as_their_calls,
    runs_that_do_alike_go_on, statements_are_numbered_in_order, valid_functions_leave_none_waiting,
    what_a_call_declares_is_known, what_a_call_makes_is_apart, what_stands_for_a_run_fits,
    what_stands_for_an_end_fits,
};

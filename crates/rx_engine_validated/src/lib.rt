//! Extractions of accepted texts: an answer that is found to be one does what the text does.
#![tactic(auto)]

mod accepted_laws;
mod found_laws;
mod laws;
mod premises_laws;
mod ready_laws;
mod staying_laws;

pub use accepted_laws::{
    accepted_extractions_run_alike, accepted_runs_are_had, accepted_tail_extractions_run_alike,
    accepted_tails_are_had,
};
pub use found_laws::{found_extractions_are_extractions, found_tail_extractions_are_extractions};
pub use laws::found_extractions_run_alike;
pub use premises_laws::{
    accepted_programs_are_themselves, accepted_runs_find_references, diverging_runs_never_end,
    diverging_tails_never_end, dropped_units_run_so, marks_keep_unit_functions,
    runs_without_an_end_diverge, statements_stand_as_a_stretch, unit_functions_give_the_unit,
};
pub use ready_laws::{
    accepted_functions_are_ready, blocks_have_their_nodes, ends_of_runs_stand_once,
    single_jumps_of_runs_stand_once,
};
pub use staying_laws::{
    functions_that_stay_are_alike, functions_that_stay_are_renumbered, items_that_stay_are_alike,
    programs_with_a_changed_function_are_alike,
};

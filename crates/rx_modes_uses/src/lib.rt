//! What is done with the variables of a run, in which modes a new function takes them, and when it can't: definitions and laws.
#![tactic(auto)]

mod laws;

pub use laws::{
    modes_are_allowed, modes_are_one, modes_or_a_refusal, moved_params_are_values, params_are_set,
    refusals_name_one, refused_runs_have_no_modes, uses_are_one, what_is_moved_is_one,
};

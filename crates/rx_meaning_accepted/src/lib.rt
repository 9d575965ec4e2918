//! Accepted programs act by their types: laws.
#![tactic(auto)]

mod initial_laws;
mod laws;

pub use initial_laws::{
    accepted_lacks_are_behind_references, accepted_programs_are_initial,
    accepted_strict_runs_are_plain, typed_calls_fit, typed_functions_are_ready,
    typed_functions_stand, typed_runs_find_functions,
};
pub use laws::{
    accepted_programs_act_by_their_types, accepted_runs_are_not_mistyped,
    accepted_runs_follow_references, accepted_runs_without_references, accepted_values_stay_typed,
    typed_functions_act_by_their_types,
};

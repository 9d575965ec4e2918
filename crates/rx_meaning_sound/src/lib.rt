//! Accepted programs without references are never Wrong: laws.
#![tactic(auto)]

mod laws;

pub use laws::{
    accepted_programs_are_covered, accepted_runs_are_never_wrong, typed_functions_stand_fresh,
    typed_runs_give_values,
};

//! Runs of programs whose matches are covered: laws.
#![tactic(auto)]

mod laws;

pub use laws::{
    choices_are_covered, covered_choices_take_an_arm, covered_runs_are_never_wrong,
    scoped_functions_answer,
};

//! Laws of the typed trees of what an extraction makes.
#![tactic(auto)]

mod laws;

pub use laws::{
    arguments_are_given, calls_are_left, calls_are_matched, calls_hand_over, calls_stand_alone,
    calls_stand_for_runs, calls_stand_for_tails, jumps_are_returned, new_functions_are_entered,
    new_functions_end_so, tail_calls_are_left, tail_calls_are_matched, tail_calls_stand_alone,
};

//! The extraction keeps initialisation: the call of a plan stands for its run. Laws, and no code.
#![tactic(auto)]

mod laws;

pub use laws::{
    calls_of_plans_match, calls_of_reached_runs_match, exits_of_reached_runs_match,
    exits_of_several_jumps_match, jumps_leave_reached_runs, lent_variables_stand,
    matched_calls_match, matched_calls_of_reached_runs_match, reached_exits_are_gone_through,
    runs_are_pieces,
};

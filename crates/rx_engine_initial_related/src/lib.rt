//! The extraction keeps initialisation: what the relation of trees puts in place of a run has the orders that stand for it. Laws, and no code.
#![tactic(auto)]

mod laws;

pub use laws::{
    ended_functions_are_initialised, related_blocks_match, related_callers_are_initialised,
    related_calls_are_calls, related_calls_match, related_entries_match, related_exits_match,
    related_functions_are_initialised, related_matches_are_matches, related_matches_match,
    related_returns_match, related_runs_match,
};

//! Runs of programs, step by step.
#![tactic(auto)]

mod laws;

pub use laws::{
    blocks_open, calls_begin, expressions_open, holes_fill, jumps_leave_holes, passes_begin,
    passes_go_on, printed_comes_first, runs_begin, steps_keep, turns_keep,
};

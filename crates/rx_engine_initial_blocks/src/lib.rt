//! The extraction keeps initialisation: the block of a run, as the relation of trees tells it by marks. Laws, and no code.
#![tactic(auto)]

mod laws;

pub use laws::{called_functions_are_initialised, marks_tell_the_run, run_blocks_are_alike};

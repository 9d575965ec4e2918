//! Runs of programs, told as a machine does them.
#![tactic(auto)]

mod laws;

pub use laws::{level_serves_itself, running_is_the_meaning};

//! Runs of statements, by their place in a program.
#![tactic(auto)]

mod runs;

pub use runs::RunPos;

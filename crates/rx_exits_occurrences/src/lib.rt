//! The variables that a run names and declares.
#![tactic(auto)]

mod naming;
mod occurring;

pub use naming::{Variables, variables_of};

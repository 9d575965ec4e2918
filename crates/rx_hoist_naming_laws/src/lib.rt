//! Laws of what a run and its plan are by names.
#![tactic(auto)]

mod laws;

pub use laws::runs_sit;

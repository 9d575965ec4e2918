//! Laws of the runs of programs with short signatures.
#![tactic(auto)]

mod laws;

pub use laws::short_signatures_run_alike;

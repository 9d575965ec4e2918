//! Laws of the passes up to initialisation over programs with short signatures.
#![tactic(auto)]

mod laws;

pub use laws::short_signatures_pass_alike;

//! Laws of the types of programs with short signatures.
#![tactic(auto)]

mod laws;

pub use laws::{merged_numbers_are_known, short_signatures_are_typed};

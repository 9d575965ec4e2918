//! The text of a short signature is read as the program with it.
#![tactic(auto)]

mod laws;

pub use laws::{halves_are_derived_alike, short_signatures_are_read};

//! Typed trees that are found alike are so by their form: laws.
#![tactic(auto)]

mod laws;

pub use laws::{alike_items_are_same, like_programs_are_themselves};

//! The numbers of a function's nodes, and their positions: definitions, and a law.
#![tactic(auto)]

mod laws;

pub use laws::numbers_are_positions;

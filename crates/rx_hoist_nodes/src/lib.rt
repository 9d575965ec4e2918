//! The nodes of an item in the order of the text, and their numbers: definitions, and a law.
#![tactic(auto)]

mod laws;

pub use laws::nodes_stand_in_order;

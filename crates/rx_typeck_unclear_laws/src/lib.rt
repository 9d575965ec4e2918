//! Nodes at which it isn't clear which type is meant, and nodes that have none.
#![tactic(auto)]

mod laws;

pub use laws::{no_others_have_types, unclear_nodes_have_types};

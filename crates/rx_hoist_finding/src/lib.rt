//! The nodes of an item in the order of the text, and their numbers: found in a program.
#![tactic(auto)]

mod nodes;

pub use nodes::{Found, item_nodes, node_of};

//! The blocks of the text in typed trees: a law.
#![tactic(auto)]

mod laws;

pub use laws::blocks_are_in_typed_trees;

//! A program in which the signature of one function is as short as a person would write it.
#![tactic(auto)]

mod tree;

pub use tree::{compact_tree, compacted_by};

//! Edits of a text.
#![tactic(auto)]

mod splicing;

pub use splicing::splice;

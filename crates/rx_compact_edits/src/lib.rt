//! The edits of a file's text that make the signature of one function short: all other bytes stay.
#![tactic(auto)]

mod blanks;
mod body;
mod cutting;
mod list;
mod types;
mod whole;

pub use whole::compacted_text;

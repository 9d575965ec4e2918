//! Rows of bits: sets of small numbers, which are joined a word of 64 bits at a time.
#![tactic(auto)]

mod row;

pub use row::Row;

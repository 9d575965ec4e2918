//! The edits of a short signature stand in order in a text that is read, and where its characters begin.
#![tactic(auto)]

mod laws;

pub use laws::short_signatures_fit;

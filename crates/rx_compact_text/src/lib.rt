//! The text of a short signature: the file's own bytes with the edits that its changed lifetimes need.
#![tactic(auto)]

mod laws;

pub use laws::unchanged_lifetimes_stay;

//! The text of a short signature is accepted where the given one is.
#![tactic(auto)]

mod laws;

pub use laws::{runs_ignore_spans, short_texts_are_accepted, short_texts_run_alike};

//! Acceptance doesn't depend on where a program's parts stand in its text: laws, and no code.
#![tactic(auto)]

mod laws;

pub use laws::{acceptance_ignores_spans, fronts_ignore_spans};

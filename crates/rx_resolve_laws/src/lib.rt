//! What names mean, apart from where they stand: laws, and no code.
#![tactic(auto)]

mod laws;

pub use laws::names_ignore_spans;

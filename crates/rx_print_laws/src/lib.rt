//! Laws of canonical texts.
#![tactic(auto)]

mod laws;

pub use laws::short_texts_are_numbered;

//! What each tree of the language is spelled as, and that its canonical text is read back as it.
#![tactic(auto)]

mod laws;

pub use laws::{print_parses, print_same, texts_are_formed, texts_read_back};

//! Laws of the grammar that more than one layer above it needs.
#![tactic(auto)]

mod laws;

pub use laws::{
    blocks_speak_of_words, expressions_speak_of_words, items_speak_of_words,
    patterns_speak_of_words, texts_with_the_same_words, types_speak_of_words,
};

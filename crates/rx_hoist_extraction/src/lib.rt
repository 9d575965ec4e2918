//! The program that an extraction makes of a program, as a definition, and its laws.
#![tactic(auto)]

mod laws;

pub use laws::{
    counts_are_exact, elsewhere_is_same, extractions_are_formed, free_names_are_new, fresh_names,
    items_stand, kept_is_same, made_names_are_words, one_extraction, own_lifetimes, written_levels,
};

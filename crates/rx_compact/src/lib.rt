//! A program in which the signature of one function is as short as a person would write it.
#![tactic(auto)]

mod laws;

pub use laws::{
    compacted_is_one, known_lifetimes_follow, lifetimes_are_apart, only_lifetimes_change,
};

//! The `let`s of a function whose initialiser never goes on.
#![tactic(auto)]

mod diverging;

pub use diverging::diverging_lets;

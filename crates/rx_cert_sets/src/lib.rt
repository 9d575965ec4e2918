//! The lines of a function's certificate from its sets of points and its loans.
#![tactic(auto)]

mod making;
mod pushing;

pub use pushing::push_sets;

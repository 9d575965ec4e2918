//! Loans, told over the walks of a function.
#![tactic(auto)]

mod laws;

pub use laws::{legality_is_told_by_walks, loans_are_borrows, scopes_are_told_by_walks};

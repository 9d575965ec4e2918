//! The four rules by which sets that anyone wrote show that a function's lifetimes and loans are accepted.
#![tactic(auto)]

mod access;
mod borrowing;
mod constraining;
mod ending;
mod following;
mod judging;
mod laws;
mod rows;

pub use borrowing::all_loans;
pub use judging::first_broken;
pub use laws::{good_is_accepted, least_is_good, lifetimes_are_numbered, one_verdict};

//! Where a run sits in the typed tree of a function, and how it is left.
#![tactic(auto)]

mod breaking;
mod diverging;
mod finding;
mod leaving;
mod seeing;
mod sought;

pub use diverging::diverges;
pub use finding::home_of;
pub use leaving::{end_scope, exits, jumps};

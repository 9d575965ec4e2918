//! A function with a short signature, and its program.
#![tactic(auto)]

mod body;
mod functions;
mod merging;
mod program;

pub use body::body_lifetimes;
pub use functions::{elided_function, merged_function};
pub use merging::mergings;
pub use program::compacted_program;

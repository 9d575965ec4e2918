//! What a run does to values and memory: what operands are made into, what is printed, where places lead, and which
//! patterns match.
#![tactic(auto)]

mod making;
mod matching;
mod operators;
mod showing;
mod spots;

pub use making::made;
pub use matching::{equals_truth, holds};
pub use operators::{Made, operated};
pub use showing::print;
pub use spots::{Spot, at_place, borrow, read, share, write};

//! Whether an answer's typed trees are those of an extraction.
#![tactic(auto)]

mod arms;
mod block;
mod body;
mod calls;
mod ending;
mod entering;
mod exits;
mod handing;
mod programs;
mod stretches;
mod tail_block;
mod tail_ending;
mod tail_handing;
mod told;

pub use programs::{Whole, all_leave_unit, extracts, leaves_unit};
pub use told::{New, Told};

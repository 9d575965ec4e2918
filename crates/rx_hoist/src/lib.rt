//! The extraction: the program in which a run of statements is a function of its own, and a call stands in its place.
#![tactic(auto)]

mod function;
mod hoisting;
mod levels;
mod limits;
mod parts;
mod program;
mod site;

pub use hoisting::{HoistFault, Hoisted, function_at, hoist, no_block};
pub use levels::levels_past;
pub use limits::parts_past;
pub use parts::{from_on, run_parts};
pub use site::{block_at, labels_round};

//! The run of statements that a range of bytes selects, in any block of a program.
#![tactic(auto)]

mod block;
mod children;
mod laws;
mod places;
mod selecting;

pub use laws::one_run;
pub use selecting::{SelectFault, select};

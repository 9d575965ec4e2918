//! Copies of typed trees for a run: with marks at its points, without it, and the run alone.
#![tactic(auto)]

mod alone;
mod blocks;
mod changes;
mod copying;
mod expressions;
mod forms;
mod function;
mod laws;
mod marks;
mod statements;

pub use alone::run_alone;
pub use function::{marked, without_run};
pub use laws::alone_has_the_actions_of_the_run;

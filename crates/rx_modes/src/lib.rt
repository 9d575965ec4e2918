//! In which modes a new function takes the params of a run, and when it can't take one.
#![tactic(auto)]

mod aliased;
mod choosing;
mod deciding;
mod known;
mod plan;
mod tables;
mod uses;

pub use deciding::modes;
pub use plan::{ModeFault, ModePlan};

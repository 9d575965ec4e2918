//! What is decided of a run before its function is made, by names: data.
#![tactic(auto)]

mod plan;

pub use plan::{Exit, KindPin, Leaving, NamedPlan, Param, Pins, TypePin, Variable};

//! Values as the expressions that make them.
#![tactic(auto)]

mod names;
mod writing;

pub use writing::shown;

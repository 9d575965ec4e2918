//! A text of so many functions that differ in their names alone, with the run that is extracted from it, its input, and what is told of it.
#![tactic(auto)]

mod numbers;
mod text;
mod told;

pub use numbers::input;
pub use text::{Generated, generated_text};
pub use told::summary;

//! The extraction over the texts of the whole language.
#![tactic(auto)]

mod beginning;
mod confirming;
mod deciding;
mod deep;
mod ending;
mod extraction;
mod given;
mod hoisting;
mod laws;
mod names;
mod refusal;
mod rendering;
mod told;

pub use extraction::{extract, extract_checked};
pub use laws::{answers_are_one, conditions_are_one, extractions_are_answers, refusals_are_one};
pub use refusal::{Answer, Fault, Refusal, Selection};

//! Extract function: a run of statements becomes a function of its own, and the program does what it did.
#![tactic(auto)]

mod extraction;
mod laws;

pub use extraction::{extract, extract_checked};
pub use laws::{answers_run_alike, one_outcome};
pub use rx_engine_extraction::{
    Answer, Fault, Refusal, Selection, answers_are_one, conditions_are_one,
    extractions_are_answers, refusals_are_one,
};

//! The tool over values: the words of the command line and a text in, a status, an answer and a line out.
#![tactic(auto)]

mod certifying;
mod check_line;
mod checking;
mod compacting;
mod extracting;
mod extraction_line;
mod generating;
mod laws;
mod line;
mod numbers;
mod reply;
mod run_line;
mod running;
mod status;
mod tool;
mod words;

pub use crate::laws::{
    acceptance_is_defined, certificates_are_defined, extraction_is_defined, extractions_run_alike,
    one_answer, runs_are_defined, short_texts_are_defined, statuses_have_causes,
    summaries_are_defined,
};
pub use crate::reply::report_name;
pub use crate::status::Status;
pub use crate::tool::rem;
pub use rx_engine::one_outcome;

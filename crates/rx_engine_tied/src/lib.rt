//! The names of a run and its plan, by the typed tree of its function: laws.
#![tactic(auto)]

mod laws;

pub use laws::{
    decided_extractions_are_alike, plans_of_runs_give_call_names, runs_are_tied,
    settled_extractions_are_alike, settled_extractions_resolve, settled_runs_are_named,
    texts_behind_are_tied,
};

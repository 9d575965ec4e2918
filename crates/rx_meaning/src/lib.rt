//! What the programs of the language do when they run.
#![tactic(auto)]

mod compare;
mod laws;
mod outcome;

pub use compare::compare_runs;
pub use laws::{
    level_is_free, memory_only_grows, more_turns_go_on, outcomes_forget_causes,
    reborrows_are_the_reference, runs_follow_walks, runs_ignore_spans, telling_changes_nothing,
    up_to_is_an_order,
};
pub use outcome::{End, Outcome, Trap};

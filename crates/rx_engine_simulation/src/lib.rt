//! A program and one that was made from it do the same: whole runs, up to the turns.
#![tactic(auto)]

mod laws;

pub use laws::{
    calls_run_as_what_they_stand_for, marked_calls_run_as_the_text, marked_programs_run_alike,
    marked_trees_are_marked, marks_tell_where_a_run_is_left, reborrows_run_as_reads,
    renamed_programs_run_alike, runs_with_references_are_alike,
};

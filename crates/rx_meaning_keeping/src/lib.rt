//! What each action keeps, the run keeps; and what each action of two ways to act relates, the runs relate.
#![tactic(auto)]

mod laws;

pub use laws::{
    elaborated_trees_are_formed, lacks_are_behind_references, runs_are_traced,
    runs_go_side_by_side, strict_runs_are_plain,
};

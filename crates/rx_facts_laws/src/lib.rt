//! Facts at sites, told over the walks of a function, and the tables of a typed program, told by its text.
#![tactic(auto)]

mod laws;

pub use laws::{
    arrivals_are_walks, faults_exclude_initialised, live_is_told_by_walks, may_be_is_told_by_walks,
    one_table, trees_are_of_tables, typed_actions_are_distinct,
};

//! What a demand is, by its node and its rule, and nodes that break a rule by a set of such demands.
#![tactic(auto)]

mod laws;

pub use laws::{faults_break_rules, single_demands};

//! What a call of a function of the unit's type gives is the unit: where a block drops it and gives the unit, it may give it.
#![tactic(auto)]

mod laws;

pub use laws::{dropped_units_change_no_run, functions_that_drop_are_related};

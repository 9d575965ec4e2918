//! Which params of a run are given away to the new function, and that these are passed by value and not needed behind the run: definitions and laws.
#![tactic(auto)]

mod laws;

pub use laws::{
    uses_tell_what_is_given_away, values_are_given_away_or_copied,
    what_is_given_away_is_not_needed, what_is_given_away_is_passed_by_value,
};

//! Laws of acceptance of programs with short signatures.
#![tactic(auto)]

mod laws;

pub use laws::{
    callers_of_short_signatures_are_accepted_alike, lets_of_short_signatures_stay,
    merged_functions_are_accepted_alike, short_programs_are_numbered,
    short_signatures_are_accepted_alike, short_signatures_know_the_same,
};

//! Why passes of the checker refuse no extraction whose conditions in front are met: laws.
#![tactic(auto)]

mod laws;

pub use laws::{
    extractions_are_never_misnamed, extractions_are_typed_where_two_functions_are,
    faults_of_types_stand_in_two_functions, functions_that_stay_keep_their_types,
    met_extractions_are_alike, met_extractions_are_numbered, met_extractions_declare,
    met_extractions_keep_types_of_what_stays,
};

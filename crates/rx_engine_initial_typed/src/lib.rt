//! The extraction keeps initialisation: what types say of what is asked besides along the relation of trees. Laws, and no code.
#![tactic(auto)]

mod laws;

pub use laws::{
    called_functions_of_types_are_initialised, callers_of_types_are_asked_so,
    callers_of_types_are_initialised, callers_of_types_move_alike, copied_params_are_given_so,
    extracted_callers_of_types_are_initialised, new_functions_of_types_are_initialised,
    run_blocks_of_types_are_asked_so, statements_of_types_move_alike,
    variables_of_like_types_are_alike, wrong_functions_are_not_initialised,
};

//! The extraction keeps initialisation: reads of typed programs move by their types. Laws, and no code.
#![tactic(auto)]

mod laws;

pub use laws::{
    called_functions_in_typed_programs_are_initialised, callers_in_typed_programs_are_initialised,
    extracted_callers_in_typed_programs_are_initialised,
    new_functions_in_typed_programs_are_initialised, run_blocks_in_typed_programs_are_alike,
    typed_reads_move_by_type,
};

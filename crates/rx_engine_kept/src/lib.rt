//! Laws of what an extraction keeps of the types of its program.
#![tactic(auto)]

mod laws;

pub use laws::{
    enums_of_exits_keep_the_limits, extractions_declare, items_that_stay_are_declared,
    types_of_new_functions_keep_the_limits,
};

//! Laws of the types of functions that are one function by other numbers.
#![tactic(auto)]

mod laws;

pub use laws::{
    functions_with_types_known_before_have_like_trees, named_functions_are_scoped,
    renumbered_functions_are_typed_alike, renumbered_functions_ask_alike,
    renumbered_functions_have_like_trees,
};

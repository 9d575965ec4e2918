//! The extraction keeps initialisation: the orders of typed trees that are alike match. Laws, and no code.
#![tactic(auto)]

mod laws;

pub use laws::{
    alike_functions_are_initialised, alike_places_are_copies, alike_trees_match, binders_are_alike,
    related_trees_are_alike, scopes_grow_alike,
};

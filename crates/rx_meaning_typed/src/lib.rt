//! Values keep the shape of their types: laws.
#![tactic(auto)]

mod laws;

pub use laws::{
    runs_without_references, typed_runs_are_not_mistyped, typed_runs_follow_references,
    typed_runs_write_what_is_mutable, typed_values_have_shapes, typed_values_stay_typed,
};

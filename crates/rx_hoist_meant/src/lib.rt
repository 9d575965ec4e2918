//! Blocks of the text in the scope of the typed tree: laws.
#![tactic(auto)]

mod laws;
mod meant_laws;
mod own_names_laws;

pub use laws::blocks_stand_in_scope;
pub use meant_laws::{
    named_plans_have_distinct_names, names_mean_their_variables,
    runs_tell_params_and_locals_by_names,
};
pub use own_names_laws::{outs_have_their_own_names, params_and_locals_have_their_own_names};

//! The plan of a run by names, and laws of what it names.
#![tactic(auto)]

mod declared;
mod ends;
mod exits;
mod laws;
mod names;
mod pins;
mod plan;
mod runs;
mod types;
mod variables;
mod words;

pub use declared::declared_names;
pub use laws::{
    named_plans_are_formed, runs_have_names, tails_go_past, types_name_types, variables_have_names,
};
pub use names::{NameRefusal, name_free};
pub use plan::{Decided, Source, named_plan};
pub use runs::typed_run;
pub use words::{identifiers, lifetimes};

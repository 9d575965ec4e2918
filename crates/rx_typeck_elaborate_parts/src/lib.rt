//! Pieces of the typed tree of a function: places, marks, values at coercion sites, each form from its parts; the walk
//! that makes it, and what that does with written types, patterns, parameters and expressions without parts.
#![tactic(auto)]

mod assigned;
mod copying;
mod cursor;
mod dereferenced;
mod leaves;
mod looked_up;
mod made;
mod marks;
mod matching;
mod parameters;
mod patterns;
mod places;
mod read;
mod seen;
mod told;
mod types;
mod walk;

pub use assigned::NodeTypes;
pub use cursor::{Annotation, Cursor, Entry, Mark};
pub use looked_up::field_of;
pub use made::{end_unit, give, jump, looks, nothing, tests};
pub use marks::{Coercion, Given};
pub use parameters::has_entry;
pub use patterns::Declares;
pub use read::own;
pub use seen::{Seen, part_seen, value_seen, variable_seen};
pub use told::{
    Branch, Ends, Ways, body_never, both, branch_site, either, has_no_type, initialiser_site,
    is_strict, no_branch, passed_on, with_arm,
};
pub use walk::Walk;

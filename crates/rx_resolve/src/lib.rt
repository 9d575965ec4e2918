//! Names to numbers.
#![tactic(auto)]

mod declarations;
mod entries;
mod expressions;
mod holding;
mod items;
mod patterns;
mod program;
mod types;
mod walk;

pub use program::resolve;
pub use rx_resolve_names::{ItemNames, Misnamed, NameFault, NodeNames, Resolved};

//! What the names of a program mean: the tables of numbers, and what is wrong with names.
#![tactic(auto)]

mod laws;
mod resolved;
mod scope;
mod table;

pub use laws::named_or_misnamed;
pub use resolved::{ItemNames, Misnamed, NameFault, NodeNames, Resolved};
pub use scope::Scope;
pub use table::{NumberedName, Table};

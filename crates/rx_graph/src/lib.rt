//! Facts at the sites of a graph: the least table that the sites ask for, by rows of bits.
#![tactic(auto)]

mod effect;
mod few;
mod lattice;
mod leads;
mod least;
mod worklist;

pub use effect::{Effect, Start};
pub use few::Few;
pub use lattice::Facts;
pub use leads::Leads;
pub use least::{Table, holding};
pub use worklist::fixpoint;

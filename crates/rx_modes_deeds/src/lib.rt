//! What the actions of a flow do to each variable.
#![tactic(auto)]

mod deeds;
mod gather;

pub use deeds::{Deeds, deeds_of};
pub use gather::deeds_in;

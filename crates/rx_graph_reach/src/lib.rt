//! Sites that are reached from a site.
#![tactic(auto)]

mod reaching;

pub use reaching::reached;

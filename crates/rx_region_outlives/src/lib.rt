//! What types ask of lifetimes: where a value of one type serves as another, and because a type is formed at all.
#![tactic(auto)]

mod implied;
mod related;

pub use implied::{Implied, add_implied_by, implied_by_fields};
pub use related::add_subtypes;

//! The pieces of the walk over a function that asks what the rules of types ask: all below expressions with parts.
#![tactic(auto)]

mod facts;
mod joins;
mod leaves;
mod marks;
mod matched;
mod patterns;
mod places;
mod types;
mod walk;

pub use facts::type_of;
pub use leaves::is_strict;
pub use matched::{Declares, Matched, as_matched};
pub use places::through;
pub use walk::Walk;

//! Types and patterns of the whole language, read from a cursor.
#![tactic(auto)]

mod patterns;
mod types;

pub use patterns::pattern;
pub use types::{mutability, typ};

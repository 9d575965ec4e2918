//! What is evaluated at once: numbers and truth values of expressions, assignments of them to variables, and how far an
//! expression comes by these.
#![tactic(auto)]

mod naturals;
mod reaching;
mod scalars;
mod variable;

pub use reaching::{Reached, reach};
pub use scalars::{Scalar, direct};

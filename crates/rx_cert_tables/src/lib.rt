//! The lines of one function's certificate as rows of bits, and back.
#![tactic(auto)]

mod collecting;
mod fitting;
mod laws;
mod reading;
mod shape;
mod writing;

pub use collecting::points;
pub use fitting::misfit;
pub use laws::{set_items_are_unique, written_lines_fit};
pub use reading::{row_of, rows};
pub use shape::Shape;
pub use writing::push_function;

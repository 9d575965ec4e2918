//! The parser of the whole language: the program of a text, or why and where it is none, and how deep a text is.
#![tactic(auto)]

mod fault;
mod laws;
mod program;

pub use fault::SyntaxFault;
pub use laws::{levels_are_one, one_place, parsed_programs_are_numbered, parsed_texts_are_low};
pub use program::{levels, parse};

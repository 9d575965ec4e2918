//! The floor of recursive descent over tokens: a cursor, numbers, and lists of elements in brackets.
#![tactic(auto)]

mod cursor;
mod got;
mod groups;
mod laws;
mod lists;
mod numbers;

pub use cursor::Cursor;
pub use got::{Found, Got, Items, ident, join, larger};
pub use groups::{Grouped, group};
pub use laws::lexed_tokens_are_placed;
pub use lists::{Reader, elements, some_elements};
pub use numbers::{Numbered, index, number};

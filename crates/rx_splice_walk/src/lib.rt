//! A walk over a tree that writes the edits of its special places, in the order of the text.
#![tactic(auto)]

mod list;
mod special;
mod walk;

pub use list::EditList;
pub use special::Places;
pub use walk::{block, expression, statements};

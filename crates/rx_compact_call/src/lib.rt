//! Short signatures of functions, from bytes to bytes.
#![tactic(auto)]

mod compacting;
mod fault;
mod laws;
mod named;

pub use compacting::compact;
pub use fault::CompactFault;
pub use laws::{short_texts_are_one, short_texts_are_read};

//! A tree in which special places become something else: kinds and types written out, a run moved, a block replaced.
#![tactic(auto)]

mod jumps;
mod made;
mod moving;
mod pinning;
mod replacing;
mod scope;
mod special;
mod walk;

pub use jumps::Loops;
pub use made::{breaks, continues, returns};
pub use moving::{is_referred, moved_run};
pub use pinning::{kind_at, pinned, suffix_of, type_at};
pub use replacing::with_block;
pub use scope::Names;
pub use special::Places;
pub use walk::block;

//! What is done with whole trees: copies, equality apart from spans, and nodes by their positions.
#![tactic(auto)]

mod copying;
mod copying_expressions;
mod copying_items;
mod equality;
mod equality_expressions;
mod equality_items;
mod parts;
mod positions;

pub use copying::CopyTree;
pub use equality_items::same;
pub use positions::{Node, at, child};

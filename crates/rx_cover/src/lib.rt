//! Whether the patterns of matches cover all values.
#![tactic(auto)]

mod arms;
mod choices;
mod covering;
mod heads;
mod inhabitance;
mod judging;
mod kinds;
mod least;
mod matrix;
mod missing;
mod node;
mod rows;
mod sets;
mod value;
mod width;

pub use covering::{CoverFault, covers};
pub use inhabitance::inhabited;
pub use node::Node;
pub use value::Value;

//! The first node of a graph that comes back to itself, and an order of the nodes where none does.
#![tactic(auto)]

mod first;
mod laws;
mod marks;
mod order;
mod placed;
mod search;
mod settled;

pub use first::first_on_cycle;
pub use laws::some_first_on_cycle;
pub use placed::in_order;

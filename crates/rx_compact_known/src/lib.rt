//! What the signature of a function makes known of its lifetimes.
#![tactic(auto)]

mod closed;
mod known;
mod lifetimes;
mod said;

pub use known::{KnownLifetimes, known_lifetimes};
pub use lifetimes::is_single;

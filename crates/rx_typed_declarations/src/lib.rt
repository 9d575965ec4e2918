//! What declarations say: the sizes of structs and enums, and the variance of their lifetimes.
#![tactic(auto)]

mod holding;
mod invariance;
mod laws;
mod recording;
mod sizing;

pub use holding::{first_endless, held};
pub use laws::one_size_each;
pub use recording::{recorded, variance};
pub use sizing::sizes;

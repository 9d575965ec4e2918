//! Certificates: that a text is accepted, shown by sets that anyone may have made.
#![tactic(auto)]

mod fault;
mod fitting;
mod laws;
mod rules;
mod verifying;

pub use fault::VerifyFault;
pub use fitting::shape;
pub use laws::{verdicts_are_one, verified_is_accepted, verified_or_refused};
pub use verifying::verify;

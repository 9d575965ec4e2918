//! The certificate of an accepted text, with the least sets.
#![tactic(auto)]

mod certifying;
mod fault;
mod laws;
mod making;

pub use certifying::certify;
pub use fault::CertifyFault;
pub use laws::certificates_are_one;

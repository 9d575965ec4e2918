//! Laws of certificates: what `certify` writes, `verify` accepts.
#![tactic(auto)]

mod laws;

pub use laws::{
    certified_is_verified, certified_or_refused, certify_is_verified, imposed_lifetimes_are_counted,
};

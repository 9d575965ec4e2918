//! By value or by reference: which ways to pass a variable its uses allow, and the policy that chooses among them.
#![tactic(auto)]

mod choices;
mod policy;
mod uses;

pub use choices::{ModeChoice, allowed};
pub use policy::{ByCopy, ByReference, Policy};
pub use uses::{Mode, Uses};

//! What is found of each function of a typed program: its graph, what is live, and what may be set and unset.
#![tactic(auto)]

mod fault;
mod finding;
mod laws;
mod lowering;

pub use fault::InitFault;
pub use finding::{FunctionFacts, ProgramFacts, facts};
pub use laws::one_typing;
pub use lowering::{Lowered, lower_all};

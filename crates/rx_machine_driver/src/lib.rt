//! Runs of programs: a machine with a stack of its own.
#![tactic(auto)]

mod acting;
mod arriving;
mod binding;
mod data;
mod fill;
mod giving;
mod next;
mod open;
mod places;
mod runs;
mod slots;
mod stepping;
mod turning;

pub use fill::filled;
pub use next::{Exit, Hole, Next, Subject, Work};
pub use open::{opened, opened_body};
pub use runs::run;

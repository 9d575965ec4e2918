//! Facts on types: what the rules ask, and the types that answer all of them.
#![tactic(auto)]

mod arena;
mod classes;
mod demands;
mod export;
mod facts;
mod import;
mod kinds;
mod last;
mod looks;
mod lookup;
mod made;
mod reading;
mod solver;
mod tables;
mod take;
mod tests;
mod unify;
mod views;

pub use export::Found;
pub use facts::{Broken, Demand, Fact, Kinds, Op, Passing, Rule, Subject, Test};
pub use solver::{Solved, Unsolved, solve};
pub use views::Look;

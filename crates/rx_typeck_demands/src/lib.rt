//! All that the rules of types ask of a function: the walk over expressions, blocks and statements.
#![tactic(auto)]

mod assignments;
mod blocks;
mod branches;
mod expressions;
mod function;
mod listed;
mod loops;
mod statements;
mod values;

pub use function::{Task, asked};

//! The canonical text of a tree.
#![tactic(auto)]

mod blocks;
mod expressions;
mod items;

pub use blocks::{push_statement, push_statements, push_value};
pub use expressions::push_between;
pub use items::print;

//! The typed tree of a function, made of its syntax tree, its names and the types of its nodes.
#![tactic(auto)]

mod branches;
mod expressions;
mod forms;
mod function;
mod operands;
mod statements;
mod walked_places;

pub use function::elaborate;
pub use rx_typeck_elaborate_parts::NodeTypes;

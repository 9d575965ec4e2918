//! Recursive descent over tokens: expressions, statements and blocks of the whole language.
#![tactic(auto)]

mod arms;
mod binary;
mod blocks;
mod level;
mod likes;
mod members;
mod names;
mod operands;
mod statements;
mod whole;

pub use blocks::block;

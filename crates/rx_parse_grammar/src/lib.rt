//! The grammar of the whole language: its definition, a parser on token lists, and the laws that tie them.
#![tactic(auto)]

mod laws;
mod stop;
mod strengths;
mod symbol;

pub use laws::{
    expressions_are_read, one_expression, one_pattern, one_program, one_tree, one_type,
    patterns_are_read, places_are_exact, programs_are_numbered, programs_are_read, types_are_read,
};
pub use stop::Stop;
pub use strengths::{COMPARISON, CONJUNCTION, DISJUNCTION, PRODUCT, SUM, UNARY};
pub use symbol::{Symbol, same_symbol, symbol_of};

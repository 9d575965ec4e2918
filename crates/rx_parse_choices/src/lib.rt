//! What the parser of expressions decides by symbols alone, before any tree is made.
#![tactic(auto)]

mod ends;
mod members;
mod operators;
mod wanted;
mod words;

pub use ends::{After, after_like, after_whole, goes_on};
pub use members::{Member, member_behind};
pub use operators::{
    Setting, begins_expression, begins_like, begins_operand, operator_at, setting_at, turns,
};
pub use wanted::{Wanted, begins, condition, fitted, unary_operand};
pub use words::{is_input, is_println};

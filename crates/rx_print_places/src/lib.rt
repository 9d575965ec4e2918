//! Where the canonical text of an expression needs parentheses.
#![tactic(auto)]

mod places;
mod strengths;

pub use places::{goes_on, is_block, is_borrow, too_weak, unfit};
pub use strengths::{
    COMPARISON, DISJUNCTION, POSTFIX, Strength, UNARY, left_strength, right_strength,
};

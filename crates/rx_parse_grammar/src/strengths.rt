//! The strengths of operands, from the strongest.

pub const UNARY: usize = 0;

pub const PRODUCT: usize = 1;

pub const SUM: usize = 2;

pub const COMPARISON: usize = 3;

pub const CONJUNCTION: usize = 4;

pub const DISJUNCTION: usize = 5;

//! How weakly an expression holds together, as a number, and what the places beside an operator take.

ghost use Rattle.std.specs.Prelude.{◌≡◌};
ghost use Rattle.rx_print_spelling.specs.Places.{strength, left_strength, right_strength};

use rx_tree::BinaryOp;

/// How weakly an expression holds together, or what a place takes: the weaker, the larger.
pub type Strength = u32;

/// A primary, or a step to a field.
pub const POSTFIX: Strength = 0;

pub const UNARY: Strength = 1;

pub const PRODUCT: Strength = 2;

pub const SUM: Strength = 3;

pub const COMPARISON: Strength = 4;

pub const CONJUNCTION: Strength = 5;

pub const DISJUNCTION: Strength = 6;
/// An assignment or a jump.
pub const JUMP: Strength = 7;

/// How weakly an expression with this operator holds together.
pub fn strength(op: BinaryOp) -> Strength
    ensures { result ≡ strength op }
{
    match op {
        BinaryOp::Or => DISJUNCTION,
        BinaryOp::And => CONJUNCTION,
        BinaryOp::Eq | BinaryOp::Ne | BinaryOp::Lt => COMPARISON,
        BinaryOp::Le | BinaryOp::Gt | BinaryOp::Ge => COMPARISON,
        BinaryOp::Add | BinaryOp::Sub => SUM,
        BinaryOp::Mul | BinaryOp::Div | BinaryOp::Rem => PRODUCT,
    }
}

/// The weakest operand that may stand on the left without parentheses.
pub fn left_strength(op: BinaryOp) -> Strength
    ensures { result ≡ left_strength op }
{
    match op {
        BinaryOp::Or => DISJUNCTION,
        BinaryOp::And => CONJUNCTION,
        BinaryOp::Eq | BinaryOp::Ne | BinaryOp::Lt => SUM,
        BinaryOp::Le | BinaryOp::Gt | BinaryOp::Ge => SUM,
        BinaryOp::Add | BinaryOp::Sub => SUM,
        BinaryOp::Mul | BinaryOp::Div | BinaryOp::Rem => PRODUCT,
    }
}

/// The weakest operand that may stand on the right without parentheses.
pub fn right_strength(op: BinaryOp) -> Strength
    ensures { result ≡ right_strength op }
{
    match op {
        BinaryOp::Or => CONJUNCTION,
        BinaryOp::And => COMPARISON,
        BinaryOp::Eq | BinaryOp::Ne | BinaryOp::Lt => SUM,
        BinaryOp::Le | BinaryOp::Gt | BinaryOp::Ge => SUM,
        BinaryOp::Add | BinaryOp::Sub => PRODUCT,
        BinaryOp::Mul | BinaryOp::Div | BinaryOp::Rem => UNARY,
    }
}

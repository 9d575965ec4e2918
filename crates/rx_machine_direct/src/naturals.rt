//! Operators of numbers that are not negative, without wide integers.

ghost use Rattle.std.specs.Prelude.{◌≡◌, pos, IfSome};
ghost use Rattle.rx_tree.specs.declared.tree.BinaryOp.TheVariants.{Rem};
ghost use Rattle.rx_meaning.specs.Operators as operators;
ghost use Rattle.rx_machine_values.specs.PlainNumber.{whole_of};
ghost use Rattle.rx_machine_direct.specs.PlainScalar.{plain-Scalar};

use crate::scalars::Scalar;
use rx_core::Kind;
use rx_machine_values::Number;
use rx_tree::BinaryOp;

/// Whether a number is one of a kind.
fn is_in(kind: Kind, magnitude: u64) -> bool
    ensures { result ≡ operators.is_in kind (pos magnitude) }
{
    match kind {
        Kind::U8 => magnitude <= 255,
        Kind::U32 => magnitude <= 4294967295,
        Kind::U64 => magnitude <= 18446744073709551615,
        Kind::I32 => magnitude <= 2147483647,
        Kind::I64 => magnitude <= 9223372036854775807,
    }
}

/// The number, where it is one of the kind.
fn natural(kind: Kind, magnitude: u64) -> Option<Scalar>
    ensures { IfSome result (λ c. operators.fitting kind (pos magnitude) ≡ operators.gives (plain-Scalar c)) }
{
    if is_in(kind, magnitude) {
        Some(Scalar::Number(Number {
            kind,
            negative: false,
            magnitude,
        }))
    } else {
        None
    }
}

/// What a division leaves, where the quotient is one of the kind.
#[tactic(auto, using(crate::proofs::NaturalLemmas::rest_is))]
fn rest(kind: Kind, left: u64, right: u64) -> Option<Scalar>
    ensures { IfSome result (λ c. operators.compute Rem kind (pos left) (pos right) ≡ operators.gives (plain-Scalar c)) }
{
    if right == 0 {
        return None;
    }
    if is_in(kind, left / right) {
        Some(Scalar::Number(Number {
            kind,
            negative: false,
            magnitude: left % right,
        }))
    } else {
        None
    }
}

/// What an operator gives of two numbers; none where it is left to wide integers.
fn of_naturals(op: BinaryOp, kind: Kind, left: u64, right: u64) -> Option<Scalar>
    ensures { IfSome result (λ c. operators.compute op kind (pos left) (pos right) ≡ operators.gives (plain-Scalar c)) }
{
    match op {
        BinaryOp::Add => match left.checked_add(right) {
            Some(sum) => natural(kind, sum),
            None => None,
        },
        BinaryOp::Rem => rest(kind, left, right),
        BinaryOp::Lt => Some(Scalar::Truth(left < right)),
        BinaryOp::Le => Some(Scalar::Truth(left <= right)),
        BinaryOp::Gt => Some(Scalar::Truth(left > right)),
        BinaryOp::Ge => Some(Scalar::Truth(left >= right)),
        BinaryOp::Sub | BinaryOp::Mul | BinaryOp::Div | BinaryOp::Eq | BinaryOp::Ne => None,
        BinaryOp::And | BinaryOp::Or => None,
    }
}

/// What an operator gives of two numbers that are not negative; none where it is left to wide integers.
pub fn at_once(op: BinaryOp, left: Number, right: Number) -> Option<Scalar>
    ensures { IfSome result (λ c. operators.compute op left.kind (whole_of left) (whole_of right) ≡ operators.gives (plain-Scalar c)) }
{
    if left.negative || right.negative {
        None
    } else {
        of_naturals(op, left.kind, left.magnitude, right.magnitude)
    }
}

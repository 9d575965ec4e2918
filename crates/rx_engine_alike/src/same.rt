//! Whether constants, operators and what operands are made into are the same.

ghost use Rattle.std.specs.Prelude.{◌≡◌, nat_eq, map};
ghost use Rattle.rx_typed.specs.Elaborated.{with_sign};
ghost use Rattle.rx_typed.specs.Tree.{fields_of};
ghost use Rattle.rx_typed.specs.PlainTree.{plain-Constant, plain-Making, plain-Operand, operands_of};
ghost use Rattle.rx_engine_alike.specs.Same as same;
ghost use Rattle.rx_engine_alike.specs.PlainSame as plain;

use rx_core::Kind;
use rx_tree::BinaryOp;
use rx_typed::{Constant, Making, Operand};

pub fn same_bool(one: bool, other: bool) -> bool
    ensures { result ≡ same.same_bool one other }
{
    if one { other } else { !other }
}

fn kind_number(kind: Kind) -> u8
    ensures { result ≡ plain.kind_number kind }
{
    match kind {
        Kind::U8 => 0,
        Kind::U32 => 1,
        Kind::U64 => 2,
        Kind::I32 => 3,
        Kind::I64 => 4,
    }
}

#[tactic(auto, using(crate::proofs::SameLemmas::same_rules))]
fn same_kind(kind: Kind, other: Kind) -> bool
    ensures { result ≡ same.same_kind kind other }
{
    kind_number(kind) == kind_number(other)
}

fn operator_number(op: BinaryOp) -> u8
    ensures { result ≡ plain.operator_number op }
{
    match op {
        BinaryOp::Or => 0,
        BinaryOp::And => 1,
        BinaryOp::Eq => 2,
        BinaryOp::Ne => 3,
        BinaryOp::Lt => 4,
        BinaryOp::Le => 5,
        BinaryOp::Gt => 6,
        BinaryOp::Ge => 7,
        BinaryOp::Add => 8,
        BinaryOp::Sub => 9,
        BinaryOp::Mul => 10,
        BinaryOp::Div => 11,
        BinaryOp::Rem => 12,
    }
}

#[tactic(auto, using(crate::proofs::SameLemmas::same_rules))]
pub fn same_operator(op: BinaryOp, other: BinaryOp) -> bool
    ensures { result ≡ same.same_operator op other }
{
    operator_number(op) == operator_number(other)
}

/// Integers by their signs and magnitudes: zero has no sign.
#[tactic(auto, using(crate::proofs::SameLemmas::same_rules))]
fn same_integer(negative: bool, magnitude: u64, other_negative: bool, other: u64) -> bool
    ensures { result ≡ same.same_integer (with_sign negative magnitude) (with_sign other_negative other) }
{
    magnitude == other && (same_bool(negative, other_negative) || magnitude == 0)
}

pub fn same_constant(constant: Constant, other: Constant) -> bool
    ensures { result ≡ same.same_constant (plain-Constant constant) (plain-Constant other) }
{
    match constant {
        Constant::Integer(kind, negative, magnitude) => match other {
            Constant::Integer(second, second_negative, second_magnitude) => {
                same_kind(kind, second)
                    && same_integer(negative, magnitude, second_negative, second_magnitude)
            }
            Constant::Truth(_) => false,
        },
        Constant::Truth(truth) => match other {
            Constant::Integer(_, _, _) => false,
            Constant::Truth(second) => same_bool(truth, second),
        },
    }
}

#[tactic(auto, using(rx_typed::proofs::Rules::typed_tree_rules))]
fn is_for(operand: &Operand, field: usize) -> bool
    ensures { result ≡ nat_eq field (plain-Operand operand.now).0 }
{
    field == operand.field
}

/// Whether an operand is for this field.
fn has(operands: &[Operand], field: usize) -> bool
    ensures { result ≡ same.has (fields_of (operands_of (map plain-Operand operands.now))) field }
{
    for operand in operands {
        if is_for(operand, field) {
            return true;
        }
    }
    false
}

/// Whether an operand is there for each field.
fn is_complete(operands: &[Operand]) -> bool
    ensures { result ≡ same.is_complete (fields_of (operands_of (map plain-Operand operands.now))) }
{
    for field in 0..operands.len() {
        if !has(operands, field) {
            return false;
        }
    }
    true
}

/// Whether of operands for these fields the same is made.
pub fn like_making(making: Making, other: Making, operands: &[Operand]) -> bool
    ensures { result ≡ same.like_making (plain-Making making) (plain-Making other) (fields_of (operands_of (map plain-Operand operands.now))) }
{
    match making {
        Making::Constant(constant) => match other {
            Making::Constant(second) => same_constant(constant, second),
            Making::Negation | Making::Inversion | Making::Operation(_) => false,
            Making::Tuple | Making::Struct(_) | Making::Variant(_, _) => false,
        },
        Making::Negation => match other {
            Making::Negation => true,
            Making::Constant(_) | Making::Inversion | Making::Operation(_) => false,
            Making::Tuple | Making::Struct(_) | Making::Variant(_, _) => false,
        },
        Making::Inversion => match other {
            Making::Inversion => true,
            Making::Constant(_) | Making::Negation | Making::Operation(_) => false,
            Making::Tuple | Making::Struct(_) | Making::Variant(_, _) => false,
        },
        Making::Operation(op) => match other {
            Making::Operation(second) => same_operator(op, second),
            Making::Constant(_) | Making::Negation | Making::Inversion => false,
            Making::Tuple | Making::Struct(_) | Making::Variant(_, _) => false,
        },
        Making::Tuple => match other {
            Making::Tuple => is_complete(operands),
            Making::Constant(_) | Making::Negation | Making::Inversion => false,
            Making::Operation(_) | Making::Struct(_) | Making::Variant(_, _) => false,
        },
        Making::Struct(_) => match other {
            Making::Struct(_) => is_complete(operands),
            Making::Constant(_) | Making::Negation | Making::Inversion => false,
            Making::Operation(_) | Making::Tuple | Making::Variant(_, _) => false,
        },
        Making::Variant(_, variant) => match other {
            Making::Variant(_, second) => variant == second && is_complete(operands),
            Making::Constant(_) | Making::Negation | Making::Inversion => false,
            Making::Operation(_) | Making::Tuple | Making::Struct(_) => false,
        },
    }
}

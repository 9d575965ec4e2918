//! Numbers and truth values of expressions.

ghost use Rattle.std.specs.Prelude.{◌≡◌, map, option_map};
ghost use Rattle.rx_typed.specs.Tree as tree;
ghost use Rattle.rx_typed.specs.PlainTree.{plain-Constant, plain-Making, plain-Expr, plain-Operand, operands_of};
ghost use Rattle.rx_meaning.specs.Operators.{compute, value_of};
ghost use Rattle.rx_machine_values.specs.PlainNumber.{plain-Calculated, whole_of};
ghost use Rattle.rx_machine_values.specs.PlainValues.{plain-Value};
ghost use Rattle.rx_machine_values.specs.PlainMemory.{plain-Memory};
ghost use Rattle.rx_machine_direct.specs.Direct as spec;
ghost use Rattle.rx_machine_direct.specs.PlainScalar.{plain-Scalar};

use crate::naturals::at_once;
use crate::variable::at_place;
use rx_machine_values::{Calculated, Memory, Number, Value, computed};
use rx_tree::BinaryOp;
use rx_typed::{Constant, Expr, Form, Making, Operand};

/// A number or a truth value.
#[derive(Clone, Copy)]
pub enum Scalar {
    Number(Number),
    Truth(bool),
}

impl Scalar {
    /// It as a value.
    #[tactic(auto, using(rx_machine_values::proofs::ValueRules::value_rules))]
    pub fn value(self) -> Value
        ensures { plain-Value result ≡ plain-Scalar self }
    {
        match self {
            Scalar::Number(number) => Value::Number(number),
            Scalar::Truth(truth) => Value::Truth(truth),
        }
    }
}

/// What a value is, if it is a number or a truth value.
#[tactic(auto, using(rx_machine_values::proofs::ValueRules::value_rules))]
pub fn scalar_of(value: &Value) -> Option<Scalar>
    ensures { option_map plain-Scalar result ≡ spec.scalar (plain-Value value.now) }
{
    match value {
        Value::Number(number) => Some(Scalar::Number(*number)),
        Value::Truth(truth) => Some(Scalar::Truth(*truth)),
        Value::Unit => None,
        Value::Whole(_) => None,
        Value::Tagged(_, _) => None,
        Value::Pointer(_) => None,
        Value::Lacking(_) => None,
    }
}

/// What an operator gave, unless it is a trap.
fn given(calculated: Calculated) -> Option<Scalar>
    ensures { option_map plain-Scalar result ≡ spec.given (plain-Calculated calculated) }
{
    match calculated {
        Calculated::Number(number) => Some(Scalar::Number(number)),
        Calculated::Truth(truth) => Some(Scalar::Truth(truth)),
        Calculated::Traps(_) => None,
        Calculated::Senseless => None,
    }
}

/// What an operator gives of two numbers of the machine, unless it is a trap.
fn operated_numbers(op: BinaryOp, left: Number, right: Number) -> Option<Scalar>
    ensures { option_map plain-Scalar result ≡ spec.given (compute op left.kind (whole_of left) (whole_of right)) }
{
    match at_once(op, left, right) {
        Some(scalar) => Some(scalar),
        None => given(computed(op, left, right)),
    }
}

/// What an operator gives of two numbers, unless it is a trap.
pub fn operated(op: BinaryOp, left: Scalar, right: Scalar) -> Option<Scalar>
    ensures { option_map plain-Scalar result ≡ spec.operated op (plain-Scalar left) (plain-Scalar right) }
{
    match left {
        Scalar::Number(left) => match right {
            Scalar::Number(right) => operated_numbers(op, left, right),
            Scalar::Truth(_) => None,
        },
        Scalar::Truth(_) => None,
    }
}

/// A constant.
fn constant(constant: Constant) -> Scalar
    ensures { plain-Scalar result ≡ value_of (plain-Constant constant) }
{
    match constant {
        Constant::Integer(kind, negative, magnitude) => Scalar::Number(Number {
            kind,
            negative,
            magnitude,
        }),
        Constant::Truth(truth) => Scalar::Truth(truth),
    }
}

fn constant_of(it: Constant, operands: &[Operand]) -> Option<Scalar>
    ensures { option_map plain-Scalar result
        ≡ spec.of_constant (plain-Constant it) (operands_of (map plain-Operand operands.now)) }
{
    match operands.split_first() {
        None => Some(constant(it)),
        Some((_, _)) => None,
    }
}

/// An operator of two operands, where both were told.
pub fn both(op: BinaryOp, left: Option<Scalar>, right: Option<Scalar>) -> Option<Scalar>
    ensures { option_map plain-Scalar result
        ≡ spec.both op (option_map plain-Scalar left) (option_map plain-Scalar right) }
{
    match left {
        Some(left) => match right {
            Some(right) => operated(op, left, right),
            None => None,
        },
        None => None,
    }
}

/// The value of an expression, where it is a number or a truth value of variables, constants and operators of numbers, and
/// no trap. None where it is not.
#[cycle(direct)]
#[tactic(auto, using(rx_typed::proofs::Rules::typed_tree_rules, crate::proofs::DirectRules::direct_rules))]
pub fn direct(expr: &Expr, slots: &[Option<usize>], memory: &Memory) -> Option<Scalar>
    ensures { option_map plain-Scalar result ≡ spec.direct slots.now (plain-Memory memory.now) (plain-Expr expr.now) }
{
    match &expr.form {
        Form::Read(_, place) => at_place(slots, memory, place),
        Form::Build(making, operands) => built(operands.as_slice(), *making, slots, memory),
        Form::Borrow(_, _) => None,
        Form::Share(_) => None,
        Form::Unit => None,
        Form::Lazily(_, _, _) => None,
        Form::Assign(_, _) => None,
        Form::Update(_, _, _) => None,
        Form::Call(_, _) => None,
        Form::Input => None,
        Form::Print(_) => None,
        Form::Block(_, _) => None,
        Form::Choose(_, _) => None,
        Form::Loop(_, _) => None,
        Form::Jump(_, _) => None,
        Form::Give(_) => None,
    }
}

#[cycle(direct)]
#[tactic(auto, using(crate::proofs::DirectRules::built_rules))]
fn built(
    operands: &[Operand],
    making: Making,
    slots: &[Option<usize>],
    memory: &Memory,
) -> Option<Scalar>
    ensures { option_map plain-Scalar result
        ≡ spec.built slots.now (plain-Memory memory.now) (plain-Making making) (operands_of (map plain-Operand operands.now)) }
{
    match making {
        Making::Constant(constant) => constant_of(constant, operands),
        Making::Operation(op) => {
            if operands.len() == 2 {
                let left = direct(&operands[0].value, slots, memory);
                let right = direct(&operands[1].value, slots, memory);
                both(op, left, right)
            } else {
                None
            }
        }
        Making::Negation => None,
        Making::Inversion => None,
        Making::Tuple => None,
        Making::Struct(_) => None,
        Making::Variant(_, _) => None,
    }
}

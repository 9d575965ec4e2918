//! What operators give of values.

ghost use Rattle.std.specs.Prelude.{◌≡◌, not};
ghost use Rattle.rx_meaning.specs.Operators as operators;
ghost use Rattle.rx_meaning.specs.Values as plain;
ghost use Rattle.rx_machine_values.specs.PlainNumber.{plain-Calculated, plain-Number, whole_of};
ghost use Rattle.rx_machine_values.specs.PlainValues.{plain-Value};
ghost use Rattle.rx_machine_actions.specs.PlainActs.{plain-Made};

use rx_machine_values::{Calculated, Number, Value, computed};
use rx_meaning::Trap;
use rx_tree::BinaryOp;

/// What operands were made into.
#[derive(Drop)]
pub enum Made {
    Value(Value),
    Traps(Trap),
    /// Operands of other types.
    Senseless,
}

/// What an operator gave of integers, as what it made.
#[tactic(auto, using(rx_machine_values::proofs::ValueRules::value_rules))]
pub fn of_calculated(calculated: Calculated) -> Made
    ensures { plain-Made result ≡ plain-Calculated calculated }
{
    match calculated {
        Calculated::Number(number) => Made::Value(Value::Number(number)),
        Calculated::Truth(truth) => Made::Value(Value::Truth(truth)),
        Calculated::Traps(trap) => Made::Traps(trap),
        Calculated::Senseless => Made::Senseless,
    }
}

#[tactic(auto, using(rx_machine_values::proofs::ValueRules::value_rules))]
fn of_number(op: BinaryOp, left: Number, right: &Value) -> Made
    ensures { plain-Made result ≡ operators.operate op (plain-Number left) (plain-Value right.now) }
{
    match right {
        Value::Number(right) => of_calculated(computed(op, left, *right)),
        Value::Truth(_) => Made::Senseless,
        Value::Unit => Made::Senseless,
        Value::Whole(_) => Made::Senseless,
        Value::Tagged(_, _) => Made::Senseless,
        Value::Pointer(_) => Made::Senseless,
        Value::Lacking(_) => Made::Senseless,
    }
}

#[tactic(auto, using(rx_machine_values::proofs::ValueRules::value_rules))]
fn of_truths(op: BinaryOp, left: bool, right: bool) -> Made
    ensures { plain-Made result ≡ operators.operate op (plain.truth left) (plain.truth right) }
{
    match op {
        BinaryOp::Eq => Made::Value(Value::Truth(left == right)),
        BinaryOp::Ne => Made::Value(Value::Truth(left != right)),
        BinaryOp::Add | BinaryOp::Sub | BinaryOp::Mul | BinaryOp::Div | BinaryOp::Rem => {
            Made::Senseless
        }
        BinaryOp::Lt | BinaryOp::Le | BinaryOp::Gt | BinaryOp::Ge => Made::Senseless,
        BinaryOp::And | BinaryOp::Or => Made::Senseless,
    }
}

#[tactic(auto, using(rx_machine_values::proofs::ValueRules::value_rules))]
fn of_truth(op: BinaryOp, left: bool, right: &Value) -> Made
    ensures { plain-Made result ≡ operators.operate op (plain.truth left) (plain-Value right.now) }
{
    match right {
        Value::Truth(right) => of_truths(op, left, *right),
        Value::Number(_) => Made::Senseless,
        Value::Unit => Made::Senseless,
        Value::Whole(_) => Made::Senseless,
        Value::Tagged(_, _) => Made::Senseless,
        Value::Pointer(_) => Made::Senseless,
        Value::Lacking(_) => Made::Senseless,
    }
}

/// What an operator of two operands gives.
#[tactic(auto, using(rx_machine_values::proofs::ValueRules::value_rules))]
pub fn operated(op: BinaryOp, left: &Value, right: &Value) -> Made
    ensures { plain-Made result ≡ operators.operate op (plain-Value left.now) (plain-Value right.now) }
{
    match left {
        Value::Number(left) => of_number(op, *left, right),
        Value::Truth(left) => of_truth(op, *left, right),
        Value::Unit => Made::Senseless,
        Value::Whole(_) => Made::Senseless,
        Value::Tagged(_, _) => Made::Senseless,
        Value::Pointer(_) => Made::Senseless,
        Value::Lacking(_) => Made::Senseless,
    }
}

//! What operands are made into.

ghost use Rattle.std.specs.Prelude.{◌≡◌, ◌≢◌, ℕ, List as ListOf, [], ◌∷◌, length, map, IfOk, MatchOption};
ghost use Rattle.rx_meaning.specs.Operators as operators;
ghost use Rattle.rx_meaning.specs.Operators.{fields, arranged};
ghost use Rattle.rx_meaning.specs.Values as plain;
ghost use Rattle.rx_meaning.specs.Values.{with_field};
ghost use Rattle.rx_typed.specs.Tree as tree;
ghost use Rattle.rx_typed.specs.PlainTree.{plain-Constant, plain-Making};
ghost use Rattle.rx_machine_values.specs.PlainValues.{plain-Value, plain-Parts, values_of};
ghost use Rattle.rx_machine_actions.specs.PlainActs.{plain-Made, written_fields, unsets, PlacedAt};

use crate::operators::{Made, of_calculated, operated};
use rx_core::{LetGo, List, keep};
use rx_machine_values::{Lack, Number, Parts, Value, negated, parts_of};
use rx_tree::BinaryOp;
use rx_typed::{Constant, Making, Operand};
use std::alloc::{AllocError, Global};
use std::mem::replace;

/// A constant's value.
#[tactic(auto, using(rx_machine_values::proofs::ValueRules::value_rules))]
fn constant_value(constant: Constant) -> Value
    ensures { plain-Value result ≡ operators.value_of (plain-Constant constant) }
{
    match constant {
        Constant::Integer(kind, negative, magnitude) => Value::Number(Number {
            kind,
            negative,
            magnitude,
        }),
        Constant::Truth(truth) => Value::Truth(truth),
    }
}

/// The only value.
fn only(values: List<Value>) -> Option<Value>
    ensures { MatchOption result (length values ≢ 1) (λ v. values ≡ v ∷ []) }
{
    if values.len() == 1 {
        let mut values = values;
        values.pop()
    } else {
        values.let_go();
        None
    }
}

/// What a function makes of the only value, as one that is not there makes no sense.
fn with_first(rest: List<Value>, last: Value) -> Option<(Value, Value)>
    ensures { MatchOption result (length rest ≢ 1) (λ v. (rest ≡ v.0 ∷ []) × (v.1 ≡ last)) }
{
    match only(rest) {
        Some(first) => Some((first, last)),
        None => {
            last.let_go();
            None
        }
    }
}

/// Both of two values.
fn pair(values: List<Value>) -> Option<(Value, Value)>
    ensures { MatchOption result (length values ≢ 2) (λ v. values ≡ v.0 ∷ v.1 ∷ []) }
{
    let mut rest = values;
    match rest.pop() {
        Some(last) => with_first(rest, last),
        None => None,
    }
}

fn constant_made(constant: Constant, values: List<Value>) -> Made
    ensures { (js : ListOf ℕ) → plain-Made result ≡ operators.make (tree.constant (plain-Constant constant)) js (map plain-Value values) }
{
    if values.is_empty() {
        Made::Value(constant_value(constant))
    } else {
        values.let_go();
        Made::Senseless
    }
}

#[tactic(auto, using(rx_machine_values::proofs::ValueRules::value_rules))]
fn negated_value(value: Value) -> Made
    ensures { (js : ListOf ℕ) → plain-Made result ≡ operators.make tree.negation js (plain-Value value ∷ []) }
{
    match value {
        Value::Number(number) => of_calculated(negated(number)),
        Value::Truth(_) | Value::Unit | Value::Lacking(_) => Made::Senseless,
        Value::Whole(parts) => {
            Value::Whole(parts).let_go();
            Made::Senseless
        }
        Value::Tagged(tag, parts) => {
            Value::Tagged(tag, parts).let_go();
            Made::Senseless
        }
        Value::Pointer(pointer) => {
            Value::Pointer(pointer).let_go();
            Made::Senseless
        }
    }
}

#[tactic(auto, using(rx_machine_values::proofs::ValueRules::value_rules))]
fn inverted_value(value: Value) -> Made
    ensures { (js : ListOf ℕ) → plain-Made result ≡ operators.make tree.inversion js (plain-Value value ∷ []) }
{
    match value {
        Value::Truth(truth) => Made::Value(Value::Truth(!truth)),
        Value::Number(_) | Value::Unit | Value::Lacking(_) => Made::Senseless,
        Value::Whole(parts) => {
            Value::Whole(parts).let_go();
            Made::Senseless
        }
        Value::Tagged(tag, parts) => {
            Value::Tagged(tag, parts).let_go();
            Made::Senseless
        }
        Value::Pointer(pointer) => {
            Value::Pointer(pointer).let_go();
            Made::Senseless
        }
    }
}

fn negation_made(values: List<Value>) -> Made
    ensures { (js : ListOf ℕ) → plain-Made result ≡ operators.make tree.negation js (map plain-Value values) }
{
    match only(values) {
        Some(value) => negated_value(value),
        None => Made::Senseless,
    }
}

fn inversion_made(values: List<Value>) -> Made
    ensures { (js : ListOf ℕ) → plain-Made result ≡ operators.make tree.inversion js (map plain-Value values) }
{
    match only(values) {
        Some(value) => inverted_value(value),
        None => Made::Senseless,
    }
}

fn pair_operated(op: BinaryOp, left: Value, right: Value) -> Made
    ensures { plain-Made result ≡ operators.operate op (plain-Value left) (plain-Value right) }
{
    let made = operated(op, &left, &right);
    left.let_go();
    right.let_go();
    made
}

fn operation_made(op: BinaryOp, values: List<Value>) -> Made
    ensures { (js : ListOf ℕ) → plain-Made result ≡ operators.make (tree.operation op) js (map plain-Value values) }
{
    match pair(values) {
        Some((left, right)) => pair_operated(op, left, right),
        None => Made::Senseless,
    }
}

/// So many parts in which nothing was written.
#[tactic(auto, using(crate::proofs::MakingLemmas::one_more_unset))]
fn unset_parts(alloc: Global, count: usize) -> Result<List<Value>, AllocError>
    ensures { IfOk result (λ it. map plain-Value it ≡ unsets count) }
{
    let mut parts = List::new(alloc);
    for _turn in 0..count {
        parts.push(Value::Lacking(Lack::Unset))?;
    }
    Ok(parts)
}

/// Puts the value of an operand in the place of its field.
fn place(parts: &mut Vec<Value>, field: usize, value: Value)
    ensures { values_of (map plain-Value parts.new.items) ≡ with_field (values_of (map plain-Value parts.old.items)) field (plain-Value value) }
{
    if field < parts.len() {
        replace(&mut parts[field], value).let_go();
    } else {
        value.let_go();
    }
}

/// Puts the value of the operand at a number in the place of its field.
fn place_operand(parts: &mut Vec<Value>, operands: &[Operand], at: usize, value: Value)
    ensures { PlacedAt operands.now at (plain-Value value) (values_of (map plain-Value parts.old.items)) (values_of (map plain-Value parts.new.items)) }
{
    if at < operands.len() {
        place(parts, operands[at].field, value);
    } else {
        value.let_go();
    }
}

/// Puts the values of operands in the places of their fields, the last first, so that of several for one field the first
/// stays.
#[tactic(auto, using(crate::proofs::MakingLemmas::placing_ends))]
fn place_all(parts: &mut Vec<Value>, operands: &[Operand], values: List<Value>)
    ensures { (n : ℕ) → map plain-Value parts.old.items ≡ unsets n
        → values_of (map plain-Value parts.new.items) ≡ arranged n 0 (written_fields operands.now) (map plain-Value values) }
{
    let mut values = values;
    while let Some(value) = values.pop() {
        place_operand(parts, operands, values.len(), value);
    }
    values.let_go();
}

/// Values as parts in a box.
fn boxed_values(alloc: Global, values: Vec<Value>) -> Result<Box<Parts>, AllocError>
    ensures { IfOk result (λ it. plain-Parts it.value ≡ values_of (map plain-Value values.items)) }
{
    let outcome = parts_of(alloc, values.as_slice());
    List::from_vec(values).let_go();
    outcome
}

/// The values of operands in the order of their fields: of the first operand that was written for each.
fn arrange(
    alloc: Global,
    operands: &[Operand],
    values: List<Value>,
) -> Result<Box<Parts>, AllocError>
    ensures { IfOk result (λ it. plain-Parts it.value ≡ fields (written_fields operands.now) (map plain-Value values)) }
{
    let count = values.len();
    let (unset, values) = keep(values, unset_parts(alloc, count))?;
    let mut parts = unset.into_vec();
    place_all(&mut parts, operands, values);
    let boxed = boxed_values(alloc, parts)?;
    Ok(boxed)
}

#[tactic(auto, using(rx_machine_values::proofs::ValueRules::value_rules))]
fn tuple_made(alloc: Global, operands: &[Operand], values: List<Value>) -> Result<Made, AllocError>
    ensures { IfOk result (λ it. plain-Made it ≡ operators.gives (plain.whole (fields (written_fields operands.now) (map plain-Value values)))) }
{
    let parts = arrange(alloc, operands, values)?;
    Ok(Made::Value(Value::Whole(parts)))
}

#[tactic(auto, using(rx_machine_values::proofs::ValueRules::value_rules))]
fn variant_made(
    alloc: Global,
    variant: u32,
    operands: &[Operand],
    values: List<Value>,
) -> Result<Made, AllocError>
    ensures { IfOk result (λ it. plain-Made it ≡ operators.gives (plain.tagged variant (fields (written_fields operands.now) (map plain-Value values)))) }
{
    let parts = arrange(alloc, operands, values)?;
    Ok(Made::Value(Value::Tagged(variant, parts)))
}

/// What the values of operands are made into.
pub fn made(
    alloc: Global,
    making: Making,
    operands: &[Operand],
    values: List<Value>,
) -> Result<Made, AllocError>
    ensures { IfOk result (λ it. plain-Made it ≡ operators.make (plain-Making making) (written_fields operands.now) (map plain-Value values)) }
{
    match making {
        Making::Constant(constant) => Ok(constant_made(constant, values)),
        Making::Negation => Ok(negation_made(values)),
        Making::Inversion => Ok(inversion_made(values)),
        Making::Operation(op) => Ok(operation_made(op, values)),
        Making::Tuple => tuple_made(alloc, operands, values),
        Making::Struct(_) => tuple_made(alloc, operands, values),
        Making::Variant(_, variant) => variant_made(alloc, variant, operands, values),
    }
}

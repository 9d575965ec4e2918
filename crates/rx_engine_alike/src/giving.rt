//! Whether an expression gives the values of variables in a row: nothing, the value, a tuple, or a variant with them.

ghost use Rattle.std.specs.Prelude.{◌≡◌, nat_eq, ◌&&◌, [], ◌∷◌, ◌++◌, map, IfOk, OnOk};
ghost use Rattle.rx_typed.specs.PlainTree.{plain-Expr, plain-Making, plain-Operand, plain-Place, plain-Stmt, operands_of, nested_of};
ghost use Rattle.rx_engine_simulation.specs.Sights.{sight_of};
ghost use Rattle.rx_engine_alike.specs.Giving as giving;
ghost use Rattle.rx_engine_alike.specs.PlainSights.{plain-Renaming, plain-How};
ghost use Rattle.rx_engine_alike.specs.PlainParts.{makes_tuple as makes_tuple_of, makes_variant as makes_variant_of};

use crate::reading::{block_of, borrow_of, build_of, read_of, unit_of};
use crate::sights::{How, Seen, sight_of};
use rx_core::{List, Place, Step};
use rx_typed::{Expr, Making, Operand, Stmt};
use std::alloc::{AllocError, Global};

/// Whether a place is the variable itself.
pub fn is_own(variable: u32, place: &Place) -> bool
    ensures { result ≡ giving.is_own variable (plain-Place place.now) }
{
    match place.steps.as_slice() {
        [] => variable == place.var,
        [_, ..] => false,
    }
}

/// Whether a place is what the reference in the variable leads to.
pub fn leads_from(variable: u32, place: &Place) -> bool
    ensures { result ≡ giving.leads_from variable (plain-Place place.now) }
{
    match place.steps.as_slice() {
        [] => false,
        [step] => match *step {
            Step::Deref(_) => variable == place.var,
            Step::Field(_) | Step::Variant(_) => false,
        },
        [step, _, ..] => match *step {
            Step::Deref(_) | Step::Field(_) | Step::Variant(_) => false,
        },
    }
}

/// Whether an expression gives the value of the variable.
#[tactic(auto, using(crate::proofs::ReadLemmas::read_rules))]
pub fn takes(variable: u32, expr: &Expr) -> bool
    ensures { result ≡ giving.takes variable (plain-Expr expr.now) }
{
    match read_of(expr) {
        Some((_, place)) => is_own(variable, place),
        None => match borrow_of(expr) {
            Some((mutable, place)) => mutable && leads_from(variable, place),
            None => false,
        },
    }
}

#[tactic(auto, using(rx_typed::proofs::Rules::typed_tree_rules))]
fn takes_at(field: usize, variable: u32, operand: &Operand) -> bool
    ensures { result ≡ nat_eq field (plain-Operand operand.now).0 && giving.takes variable (plain-Operand operand.now).1 }
{
    field == operand.field && takes(variable, &operand.value)
}

/// Whether operands give the values of these, for fields from the first on.
pub fn takes_all(variables: &[u32], operands: &[Operand]) -> bool
    ensures { result ≡ giving.takes_all 0 variables.now (operands_of (map plain-Operand operands.now)) }
{
    let mut right = operands;
    for field in 0..variables.len() {
        let [operand, behind @ ..] = right else {
            return false;
        };
        if !takes_at(field, variables[field], operand) {
            return false;
        }
        right = behind;
    }
    match right {
        [] => true,
        [_, ..] => false,
    }
}

/// Whether it is the unit.
#[tactic(auto, using(crate::proofs::ReadLemmas::read_rules))]
pub fn is_unit(expr: &Expr) -> bool
    ensures { result ≡ giving.is_unit (plain-Expr expr.now) }
{
    match unit_of(expr) {
        Some(_) => true,
        None => false,
    }
}

/// Whether a block is of the unit alone.
fn ends_with_unit(stmts: &[Stmt], tail: &Expr) -> bool
    ensures { result ≡ giving.ends_with_unit (nested_of (map plain-Stmt stmts.now) (plain-Expr tail.now)) }
{
    match stmts {
        [] => is_unit(tail),
        [_, ..] => false,
    }
}

/// Whether it is the unit, or a block of the unit alone.
#[tactic(auto, using(crate::proofs::ReadLemmas::read_rules))]
fn gives_nothing(expr: &Expr) -> bool
    ensures { result ≡ giving.gives_nothing (plain-Expr expr.now) }
{
    match block_of(expr) {
        Some(block) => ends_with_unit(block.stmts, block.tail),
        None => is_unit(expr),
    }
}

/// Whether a tuple is made, of the values of these.
fn makes_tuple(making: Making, variables: &[u32], operands: &[Operand]) -> bool
    ensures { result ≡ makes_tuple_of (plain-Making making) variables.now (operands_of (map plain-Operand operands.now)) }
{
    match making {
        Making::Tuple => takes_all(variables, operands),
        Making::Constant(_) | Making::Negation | Making::Inversion => false,
        Making::Operation(_) | Making::Struct(_) | Making::Variant(_, _) => false,
    }
}

/// Whether it is a tuple of the values of these.
#[tactic(auto, using(crate::proofs::ReadLemmas::read_rules))]
fn gives_tuple(variables: &[u32], expr: &Expr) -> bool
    ensures { result ≡ giving.gives_tuple variables.now (plain-Expr expr.now) }
{
    match build_of(expr) {
        Some((making, operands)) => makes_tuple(making, variables, operands),
        None => false,
    }
}

/// Whether it gives the values of these themselves.
pub fn gives_bare(variables: &[u32], expr: &Expr) -> bool
    ensures { result ≡ giving.gives_bare variables.now (plain-Expr expr.now) }
{
    match variables {
        [] => gives_nothing(expr),
        [variable] => takes(*variable, expr),
        [_, _, ..] => gives_tuple(variables, expr),
    }
}

/// Whether the variant of this number is made, of the values of these.
fn makes_variant(variant: usize, making: Making, variables: &[u32], operands: &[Operand]) -> bool
    ensures { result ≡ makes_variant_of variant (plain-Making making) variables.now (operands_of (map plain-Operand operands.now)) }
{
    match making {
        Making::Variant(_, made) => variant == made as usize && takes_all(variables, operands),
        Making::Constant(_) | Making::Negation | Making::Inversion => false,
        Making::Operation(_) | Making::Tuple | Making::Struct(_) => false,
    }
}

/// Whether it gives the variant with the values of these.
#[tactic(auto, using(crate::proofs::ReadLemmas::read_rules))]
pub fn gives_variant(variant: usize, variables: &[u32], expr: &Expr) -> bool
    ensures { result ≡ giving.gives_variant variant variables.now (plain-Expr expr.now) }
{
    match build_of(expr) {
        Some((making, operands)) => makes_variant(variant, making, variables, operands),
        None => false,
    }
}

fn is_special(how: How) -> bool
    ensures { result ≡ giving.is_special (plain-How how) }
{
    match how {
        How::Special => true,
        How::Plain(_) | How::Through(_, _) | How::Copied | How::Viewed | How::Absent => false,
    }
}

/// The answer's variable for one that is elsewhere.
pub fn number_of(renaming: &[Seen], variable: u32) -> Option<u32>
    ensures { result ≡ giving.number_if (sight_of (plain-Renaming renaming.now) variable) }
{
    match sight_of(renaming, variable) {
        Some(seen) => if is_special(seen.how) {
            Some(seen.to)
        } else {
            None
        },
        None => None,
    }
}

fn push(numbers: &mut Vec<u32>, number: u32) -> Result<(), AllocError>
    ensures { OnOk result (numbers.new.items ≡ numbers.old.items ++ number ∷ []) }
{
    match numbers.push(number) {
        Ok(()) => Ok(()),
        Err(_) => Err(AllocError),
    }
}

/// The answer's variables for those that are elsewhere, where each is.
#[tactic(auto, using(crate::proofs::NumberLemmas::number_rules))]
pub fn numbers_of(
    alloc: Global,
    renaming: &[Seen],
    variables: &[u32],
) -> Result<Option<List<u32>>, AllocError>
    ensures { IfOk result (λ it. it ≡ giving.numbers_of (plain-Renaming renaming.now) variables.now) }
{
    let mut numbers = Vec::new(alloc);
    for variable in variables {
        match number_of(renaming, *variable) {
            Some(number) => push(&mut numbers, number)?,
            None => return Ok(None),
        }
    }
    Ok(Some(List::from_vec(numbers)))
}

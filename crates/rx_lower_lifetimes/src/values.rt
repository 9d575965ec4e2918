//! The types of what actions make.

ghost use Rattle.std.specs.Prelude.{◌≡◌, map, replicate, slice_get, IfOk, option_map};
ghost use Rattle.rx_typed.specs.Regions.{region-Ty, region_reference};
ghost use Rattle.rx_typed.specs.Tree.{operation};
ghost use Rattle.rx_typed.specs.PlainTree.{plain-Constant, plain-Making};
ghost use Rattle.rx_lower_walks.specs.Actions as actions;
ghost use Rattle.rx_lower_walks.specs.PlainFlow.{plain-Act, plain-Made, plain-Place, plain-Temporary};
ghost use Rattle.rx_lower_lifetimes.specs.Values as values;
ghost use Rattle.rx_lower_lifetimes.specs.Positions as positions;
ghost use Rattle.rx_lower_lifetimes.specs.PlainOf.{plain-Held, known};

use crate::held::{Held, Open, from_temporary, type_in, unit};
use crate::noted::Noted;
use rx_core::{Kind, List, Ty, keep, pushed};
use rx_lower_walks::{Act, Made, Place, Temporary};
use rx_tree::BinaryOp;
use rx_typed::{Constant, Decl, Decls, Making, place_type, reference};
use std::alloc::{AllocError, Global};

/// How many lifetimes an item has.
pub fn lifetimes_of(decls: &Decls, item: u32) -> u32
    ensures { result ≡ values.lifetimes_of (slice_get decls.now.items item) }
{
    match decls.items.get(item as usize) {
        Some(decl) => match decl {
            Decl::Rt => 0,
            Decl::Struct { lifetimes, .. } => *lifetimes,
            Decl::Enum { lifetimes, .. } => *lifetimes,
            Decl::Func { lifetimes, .. } => *lifetimes,
        },
        None => 0,
    }
}

fn zeros(alloc: Global, count: u32) -> Result<List<u32>, AllocError>
    ensures { IfOk result (λ it. it ≡ replicate count 0) }
{
    let mut zeros = Vec::new(alloc);
    for _zero in 0..count {
        zeros.push(0)?;
    }
    Ok(List::from_vec(zeros))
}

/// A struct or enum, in which each lifetime has the number 0.
#[tactic(auto, using(rx_typed::proofs::TypedRules::region_rules))]
fn made_item(alloc: Global, decls: &Decls, item: u32) -> Result<Ty, AllocError>
    ensures { IfOk result (λ it. region-Ty it ≡ values.made_item decls.now.items item) }
{
    let lifetimes = zeros(alloc, lifetimes_of(decls, item))?;
    Ok(Ty::Adt(item, lifetimes))
}

#[tactic(auto, using(rx_typed::proofs::TypedRules::region_rules))]
fn constant_type(constant: Constant) -> Ty
    ensures { region-Ty result ≡ values.constant_type (plain-Constant constant) }
{
    match constant {
        Constant::Integer(kind, _, _) => Ty::Int(kind),
        Constant::Truth(_) => Ty::Bool,
    }
}

fn compares(op: BinaryOp) -> bool
    ensures { result ≡ values.compares op }
{
    match op {
        BinaryOp::Eq | BinaryOp::Ne | BinaryOp::Lt | BinaryOp::Le | BinaryOp::Gt | BinaryOp::Ge =>
            true,
        BinaryOp::Or
        | BinaryOp::And
        | BinaryOp::Add
        | BinaryOp::Sub
        | BinaryOp::Mul
        | BinaryOp::Div
        | BinaryOp::Rem => false,
    }
}

fn held_type(
    alloc: Global,
    decls: &Decls,
    held: &Noted<Held>,
    temporary: Temporary,
) -> Result<Ty, AllocError>
    ensures { IfOk result (λ it. region-Ty it ≡ values.held_type (map plain-Held held.now) (plain-Temporary temporary)) }
{
    let nowhere = List::new(alloc);
    from_temporary(alloc, decls, held, temporary, nowhere.as_slice())
}

/// The types of operands.
fn operand_types(
    alloc: Global,
    decls: &Decls,
    held: &Noted<Held>,
    operands: &[Temporary],
) -> Result<List<Ty>, AllocError>
    ensures { IfOk result (λ it. map region-Ty it ≡ map (values.held_type (map plain-Held held.now)) (map plain-Temporary operands.now)) }
{
    let mut all = List::new(alloc);
    for operand in operands {
        let (one, before) = keep(all, held_type(alloc, decls, held, *operand))?;
        all = pushed(before, one)?;
    }
    Ok(all)
}

/// That of the first operand.
fn first_type(
    alloc: Global,
    decls: &Decls,
    held: &Noted<Held>,
    operands: &[Temporary],
) -> Result<Ty, AllocError>
    ensures { IfOk result (λ it. region-Ty it ≡ values.first (map (values.held_type (map plain-Held held.now)) (map plain-Temporary operands.now))) }
{
    if operands.is_empty() {
        Ok(unit(alloc))
    } else {
        held_type(alloc, decls, held, operands[0])
    }
}

#[tactic(auto, using(rx_typed::proofs::TypedRules::region_rules))]
fn operation_type(
    alloc: Global,
    decls: &Decls,
    held: &Noted<Held>,
    op: BinaryOp,
    operands: &[Temporary],
) -> Result<Ty, AllocError>
    ensures { IfOk result (λ it. region-Ty it ≡ values.made_type decls.now.items (operation op) (map (values.held_type (map plain-Held held.now)) (map plain-Temporary operands.now))) }
{
    if compares(op) {
        Ok(Ty::Bool)
    } else {
        first_type(alloc, decls, held, operands)
    }
}

#[tactic(auto, using(rx_typed::proofs::TypedRules::region_rules))]
fn making_type(
    alloc: Global,
    decls: &Decls,
    held: &Noted<Held>,
    making: Making,
    operands: &[Temporary],
) -> Result<Ty, AllocError>
    ensures { IfOk result (λ it. region-Ty it ≡ values.made_type decls.now.items (plain-Making making) (map (values.held_type (map plain-Held held.now)) (map plain-Temporary operands.now))) }
{
    match making {
        Making::Constant(constant) => Ok(constant_type(constant)),
        Making::Negation => first_type(alloc, decls, held, operands),
        Making::Inversion => Ok(Ty::Bool),
        Making::Operation(op) => operation_type(alloc, decls, held, op, operands),
        Making::Tuple => Ok(Ty::Tuple(operand_types(alloc, decls, held, operands)?)),
        Making::Struct(item) => made_item(alloc, decls, item),
        Making::Variant(item, _) => made_item(alloc, decls, item),
    }
}

#[tactic(auto, using(rx_typed::proofs::TypedRules::region_rules))]
fn made_type(
    alloc: Global,
    decls: &Decls,
    held: &Noted<Held>,
    made: Made,
    operands: &[Temporary],
) -> Result<Ty, AllocError>
    ensures { IfOk result (λ it. region-Ty it ≡ values.made_type decls.now.items (plain-Made made) (map (values.held_type (map plain-Held held.now)) (map plain-Temporary operands.now))) }
{
    match made {
        Made::Lazy => Ok(Ty::Bool),
        Made::Of(making) => making_type(alloc, decls, held, making, operands),
    }
}

/// What a call of a function gives, with the lifetimes of its signature.
pub fn result_type(alloc: Global, decls: &Decls, function: u32) -> Result<Ty, AllocError>
    ensures { IfOk result (λ it. region-Ty it ≡ values.result_type (slice_get decls.now.items function)) }
{
    let nowhere = List::new(alloc);
    match decls.items.get(function as usize) {
        Some(decl) => match decl {
            Decl::Func { answer, .. } => place_type(alloc, decls, answer, nowhere.as_slice()),
            Decl::Rt | Decl::Struct { .. } | Decl::Enum { .. } => Ok(unit(alloc)),
        },
        None => Ok(unit(alloc)),
    }
}

fn borrow_type(
    alloc: Global,
    decls: &Decls,
    variables: &[Open],
    held: &Noted<Held>,
    mutable: bool,
    place: &Place,
) -> Result<Ty, AllocError>
    ensures { IfOk result (λ it. region-Ty it ≡ region_reference mutable 0 (values.type_in (known decls.now.items variables.now) (map plain-Held held.now) (plain-Place place.now))) }
{
    let target = type_in(alloc, decls, variables, held, place)?;
    reference(alloc, mutable, 0, target)
}

/// The type of what an action makes; its lifetimes say nothing.
#[tactic(auto, using(rx_typed::proofs::TypedRules::region_rules))]
pub fn value_type(
    alloc: Global,
    decls: &Decls,
    variables: &[Open],
    held: &Noted<Held>,
    act: &Act,
) -> Result<Ty, AllocError>
    ensures { IfOk result (λ it. region-Ty it ≡ values.value_type (known decls.now.items variables.now) (map plain-Held held.now) (plain-Act act.now)) }
{
    match act {
        Act::Read(_, place, _) => type_in(alloc, decls, variables, held, place),
        Act::Borrow(mutable, place, _) => {
            borrow_type(alloc, decls, variables, held, *mutable, place)
        }
        Act::Call(function, _, _) => result_type(alloc, decls, *function),
        Act::Build(made, _, operands, _) => {
            made_type(alloc, decls, held, *made, operands.as_slice())
        }
        Act::Input(_) => Ok(Ty::Int(Kind::I64)),
        Act::Declare(_)
        | Act::Dead(_)
        | Act::Write(_, _, _)
        | Act::Test(_, _)
        | Act::Print(_)
        | Act::Give(_) => Ok(unit(alloc)),
    }
}

/// The temporary that an action fills.
pub fn filled(act: &Act) -> Option<Temporary>
    ensures { option_map plain-Temporary result ≡ actions.filled (plain-Act act.now) }
{
    match act {
        Act::Read(_, _, into) => Some(*into),
        Act::Borrow(_, _, into) => Some(*into),
        Act::Call(_, _, into) => Some(*into),
        Act::Build(_, _, _, into) => Some(*into),
        Act::Input(into) => Some(*into),
        Act::Declare(_)
        | Act::Dead(_)
        | Act::Write(_, _, _)
        | Act::Test(_, _)
        | Act::Print(_)
        | Act::Give(_) => None,
    }
}

/// The lifetimes that an action has of its own.
pub fn own_lifetimes(decls: &Decls, act: &Act) -> u32
    ensures { result ≡ positions.own_lifetimes decls.now.items (plain-Act act.now) }
{
    match act {
        Act::Call(function, _, _) => lifetimes_of(decls, *function),
        Act::Borrow(_, _, _) => 1,
        Act::Declare(_)
        | Act::Dead(_)
        | Act::Read(_, _, _)
        | Act::Write(_, _, _)
        | Act::Test(_, _)
        | Act::Build(_, _, _, _)
        | Act::Input(_)
        | Act::Print(_)
        | Act::Give(_) => 0,
    }
}

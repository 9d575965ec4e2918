//! Variables by their names.

ghost use Rattle.std.specs.Prelude.{◌≡◌, [], map, get_or, IfOk};
ghost use Rattle.rx_hoist_plan.specs.PlainPlan.{plain-Variable, plain-Param};
ghost use Rattle.rx_hoist_naming.specs.NamedPlan as spec;

use crate::types::bare_or_unit;
use rx_core::{List, Name, keep, pushed};
use rx_hoist_plan::{Param, Variable};
use rx_modes_policy::Mode;
use rx_typeck_typed::TypedFn;
use std::alloc::{AllocError, Global};

fn name_at(alloc: Global, names: &[&Name], number: u32) -> Result<Name, AllocError>
    ensures { IfOk result (λ name. name ≡ get_or (map (λ x. x.now) names.now) number []) }
{
    match names.get(number as usize) {
        Some(name) => name.copy(alloc),
        None => Ok(Name::empty(alloc)),
    }
}

/// The variable of this number, where these are the names of all of the function.
pub(crate) fn variable(
    alloc: Global,
    names: &[&Name],
    function: &TypedFn,
    number: u32,
) -> Result<Variable, AllocError>
    ensures { IfOk result (λ v. plain-Variable v ≡ spec.named_variable (map (λ x. x.now) names.now) function.now number) }
{
    let ty = bare_or_unit(alloc, function.variable_type(number))?;
    let (name, ty) = keep(ty, name_at(alloc, names, number))?;
    Ok(Variable {
        name,
        mutable: function.is_mutable(number),
        ty,
    })
}

pub(crate) fn variables(
    alloc: Global,
    names: &[&Name],
    function: &TypedFn,
    numbers: &[u32],
) -> Result<List<Variable>, AllocError>
    ensures { IfOk result (λ all. map plain-Variable all ≡ spec.named_variables (map (λ x. x.now) names.now) function.now numbers.now) }
{
    let mut all = List::new(alloc);
    for number in numbers {
        let (next, held) = keep(all, variable(alloc, names, function, *number))?;
        all = pushed(held, next)?;
    }
    Ok(all)
}

fn param(
    alloc: Global,
    names: &[&Name],
    function: &TypedFn,
    number: u32,
    mode: Mode,
    moved: bool,
) -> Result<Param, AllocError>
    ensures { IfOk result (λ p. plain-Param p ≡ spec.named_param (map (λ x. x.now) names.now) function.now number mode moved) }
{
    Ok(Param {
        variable: variable(alloc, names, function, number)?,
        mode,
        moved,
    })
}

/// The params, as many as have a mode and a word on whether they are moved.
pub(crate) fn params(
    alloc: Global,
    names: &[&Name],
    function: &TypedFn,
    numbers: &[u32],
    modes: &[Mode],
    moved: &[bool],
) -> Result<List<Param>, AllocError>
    ensures { IfOk result (λ all. map plain-Param all ≡ spec.named_params (map (λ x. x.now) names.now) function.now numbers.now modes.now moved.now) }
{
    let count = numbers.len().min(modes.len()).min(moved.len());
    let mut all = List::new(alloc);
    for i in 0..count {
        let next = param(alloc, names, function, numbers[i], modes[i], moved[i]);
        let (next, held) = keep(all, next)?;
        all = pushed(held, next)?;
    }
    Ok(all)
}

//! What is told of a run where its answer is confirmed: the variables that may be elsewhere, and the functions that give the unit.

ghost use Rattle.std.specs.Prelude.{◌≡◌, ◌++◌, IfOk};
ghost use Rattle.rx_typed.specs.PlainTypes.{declarations};
ghost use Rattle.rx_engine_extracted.specs.PlainPrograms.{plain-Functions};
ghost use Rattle.rx_engine_extraction.specs.Confirmed as confirmed;
ghost use Rattle.rx_engine_extraction.specs.Confirming as spec;

use rx_engine_extracted::{all_leave_unit, leaves_unit};
use rx_exits_plan::{ExitOuts, ExitPlan};
use rx_hoist_made::is_unit;
use rx_typeck_typed::{Typed, TypedFn};
use rx_typed::{Decl, Decls, TypedTree};
use std::alloc::{AllocError, Global};

/// Params that are given away.
fn given_among(alloc: Global, params: &[u32], given: &[bool]) -> Result<Vec<u32>, AllocError>
    ensures { IfOk result (λ it. it.items ≡ spec.given_among params.now given.now) }
{
    let mut numbers = Vec::new(alloc);
    let mut left = params;
    let mut right = given;
    while let [param, params_behind @ ..] = left {
        let [is_given, given_behind @ ..] = right else {
            return Ok(numbers);
        };
        if *is_given {
            numbers.push(*param)?;
        }
        left = params_behind;
        right = given_behind;
    }
    Ok(numbers)
}

/// These numbers, and what exits hand out.
fn with_handed(exits: &[ExitOuts], numbers: Vec<u32>) -> Result<Vec<u32>, AllocError>
    ensures { IfOk result (λ it. it.items ≡ numbers.items ++ spec.handed_among exits.now) }
{
    let mut all = numbers;
    for exit in exits {
        all.extend_from_slice(exit.outs.as_slice())?;
    }
    Ok(all)
}

/// The variables that may be elsewhere in the answer: params that are given away, locals, what is handed out, and what is declared again.
pub(crate) fn elsewhere(
    alloc: Global,
    plan: &ExitPlan,
    given: &[bool],
) -> Result<Vec<u32>, AllocError>
    ensures { IfOk result (λ it. it.items ≡ spec.elsewhere_by plan.now given.now) }
{
    let mut first = given_among(alloc, plan.params.as_slice(), given)?;
    first.extend_from_slice(plan.locals.as_slice())?;
    let mut all = with_handed(plan.exits.as_slice(), first)?;
    all.extend_from_slice(plan.redeclared.as_slice())?;
    Ok(all)
}

/// Whether an item is a function that is declared to give the unit.
#[tactic(auto, using(rx_typeck_solver::proofs::Lookups::lookup_rules))]
pub(crate) fn is_of_unit(decls: &Decls, item: u32) -> bool
    ensures { result ≡ confirmed.is_of_unit (declarations decls.now.items) item }
{
    match decls.items.get(item as usize) {
        Some(decl) => match decl {
            Decl::Func { answer, .. } => is_unit(answer),
            Decl::Rt | Decl::Struct { .. } | Decl::Enum { .. } => false,
        },
        None => false,
    }
}

/// The functions that are declared to give the unit.
fn units_among(alloc: Global, decls: &Decls, functions: &[TypedFn]) -> Result<Vec<u32>, AllocError>
    ensures { IfOk result (λ it. it.items ≡ confirmed.units_among (declarations decls.now.items) functions.now) }
{
    let mut units = Vec::new(alloc);
    for function in functions {
        if is_of_unit(decls, function.item) {
            units.push(function.item)?;
        }
    }
    Ok(units)
}

/// Those of them that leave by returns of the unit, by their form.
fn leaving(
    alloc: Global,
    trees: &[Option<&TypedTree>],
    units: &[u32],
) -> Result<Vec<u32>, AllocError>
    ensures { IfOk result (λ it. it.items ≡ confirmed.leaving (plain-Functions trees.now) units.now units.now) }
{
    let mut left = Vec::new(alloc);
    for number in units {
        if leaves_unit(trees, units, *number) {
            left.push(*number)?;
        }
    }
    Ok(left)
}

/// The functions that give the unit by their form, as far as is to be seen.
pub(crate) fn units_of(
    alloc: Global,
    typed: &Typed,
    trees: &[Option<&TypedTree>],
) -> Result<Vec<u32>, AllocError>
    ensures { IfOk result (λ it. it.items
        ≡ confirmed.units_if (plain-Functions trees.now) (confirmed.units_among (declarations typed.now.decls.items) typed.now.functions)) }
{
    let declared = units_among(alloc, &typed.decls, typed.functions.as_slice())?;
    let units = leaving(alloc, trees, declared.as_slice())?;
    if all_leave_unit(trees, units.as_slice(), units.as_slice()) {
        return Ok(units);
    }
    Ok(Vec::new(alloc))
}

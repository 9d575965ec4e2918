//! How many lifetime positions types have. Each number is at most `u64::MAX`.

ghost use Rattle.std.specs.Prelude.{◌≡◌, ◌+◌, suc, map};
ghost use Rattle.rx_tree.specs.PlainOf.{plain-Program};
ghost use Rattle.rx_typed.specs.PlainTypes.{plain-Ty};
ghost use Rattle.rx_hoist_plan.specs.PlainPlan.{plain-Leaving, plain-Mode, plain-Param, plain-Plan, plain-Variable};
ghost use Rattle.rx_hoist_extraction.specs.Values.{variables_held, types_of};
ghost use Rattle.rx_hoist_extraction.specs.WrittenTypes as types;
ghost use Rattle.rx_hoist_extraction.specs.NewEnum as new_enum;
ghost use Rattle.rx_hoist_extraction.specs.NewFunction as new_function;
ghost use Rattle.rx_hoist_made.specs.Counts.{capped};
ghost use Rattle.rx_hoist_made.specs.PlainHanded.{plain-Handed};

use crate::exits::has_enum;
use crate::handed::{Handed, handed_by, handed_on};
use crate::written_types::lifetimes_of;
use rx_core::Ty;
use rx_hoist_plan::{Leaving, NamedPlan, Param, Variable};
use rx_modes_policy::Mode;
use rx_tree::Program;

/// The positions of a type.
#[cycle(positions)]
#[tactic(auto, using(rx_typed::proofs::TypedRules::typ_rules, crate::proofs::RowLemmas::all_positions_is))]
pub fn positions(program: &Program, ty: &Ty) -> u64
    ensures { result ≡ capped (types.positions (plain-Program program.now) (plain-Ty ty.now)) }
{
    match ty {
        Ty::Int(_) | Ty::Bool => 0,
        Ty::Tuple(parts) => all_positions(program, parts.as_slice()),
        Ty::Shared(_, inner) => positions(program, inner.get()).saturating_add(1),
        Ty::Mut(_, inner) => positions(program, inner.get()).saturating_add(1),
        Ty::Adt(item, _) => lifetimes_of(program, *item) as u64,
    }
}

/// The positions of types together.
#[cycle(positions)]
fn all_positions(program: &Program, parts: &[Ty]) -> u64
    ensures { result ≡ capped (types.positions_of (plain-Program program.now) (map plain-Ty parts.now)) }
{
    let mut total = 0u64;
    for ty in parts {
        total = total.saturating_add(positions(program, ty));
    }
    total
}

/// A number, and the positions of the types of these variables.
fn with_variables(program: &Program, number: u64, variables: &[Variable]) -> u64
    ensures { result ≡ capped (number
        + types.positions_of (plain-Program program.now) (types_of (variables_held (map plain-Variable variables.now)))) }
{
    let mut total = number;
    for variable in variables {
        total = total.saturating_add(positions(program, &variable.ty));
    }
    total
}

/// The positions of what is handed out.
fn handed_positions(program: &Program, handed: Handed<'_>) -> u64
    ensures { result ≡ capped (types.positions_of (plain-Program program.now) (types_of (plain-Handed handed.entry))) }
{
    match handed.result {
        Some(ty) => with_variables(program, positions(program, ty), handed.outs),
        None => with_variables(program, 0, handed.outs),
    }
}

/// The positions of what an exit hands out.
fn exit_positions(program: &Program, plan: &NamedPlan, leaving: &Leaving) -> u64
    ensures { result ≡ capped (types.positions_of (plain-Program program.now)
        (new_enum.fields_at (plain-Plan plan.now) (plain-Leaving leaving.now))) }
{
    handed_positions(program, handed_by(plan, leaving))
}

/// The positions of what these exits hand out.
fn exits_positions(program: &Program, plan: &NamedPlan, exits: &[Leaving]) -> u64
    ensures { result ≡ capped (types.positions_of (plain-Program program.now)
        (new_enum.all_fields (plain-Plan plan.now) (map plain-Leaving exits.now))) }
{
    let mut total = 0u64;
    for leaving in exits {
        total = total.saturating_add(exit_positions(program, plan, leaving));
    }
    total
}

/// The positions of the enum of exits.
pub fn enum_positions(program: &Program, plan: &NamedPlan) -> u64
    ensures { result ≡ capped (new_enum.enum_positions (plain-Program program.now) (plain-Plan plan.now)) }
{
    exits_positions(program, plan, plan.exits.as_slice())
}

/// The positions of a parameter's type.
#[tactic(auto, using(crate::proofs::CountLemmas::viewed_positions))]
fn passed_positions(program: &Program, mode: Mode, ty: &Ty) -> u64
    ensures { result ≡ capped (types.positions (plain-Program program.now) (new_function.passed (plain-Mode mode) (plain-Ty ty.now))) }
{
    match mode {
        Mode::Value | Mode::Reborrow | Mode::View => positions(program, ty),
        Mode::Shared | Mode::Mut => positions(program, ty).saturating_add(1),
    }
}

/// The positions of the parameters.
fn parameter_positions(program: &Program, params: &[Param]) -> u64
    ensures { result ≡ capped (types.positions_of (plain-Program program.now)
        (new_function.passed_types (map plain-Param params.now))) }
{
    let mut total = 0u64;
    for param in params {
        total = total.saturating_add(passed_positions(program, param.mode, &param.variable.ty));
    }
    total
}

/// The positions of the result.
fn result_positions(program: &Program, plan: &NamedPlan) -> u64
    ensures { result ≡ capped (new_function.result_positions (plain-Program program.now) (plain-Plan plan.now)) }
{
    if has_enum(plan.exits.as_slice()) {
        return enum_positions(program, plan);
    }
    handed_positions(program, handed_on(plan))
}

/// How many fresh lifetimes the signature of the new function has.
pub fn signature_positions(program: &Program, plan: &NamedPlan) -> u64
    ensures { result ≡ capped (new_function.signature_positions (plain-Program program.now) (plain-Plan plan.now)) }
{
    parameter_positions(program, plan.params.as_slice()).saturating_add(result_positions(
        program, plan,
    ))
}

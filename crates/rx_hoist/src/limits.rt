//! The parts of the types that an extraction makes. Each number is at most `u64::MAX`.

ghost use Rattle.std.specs.Prelude.{◌≡◌, ◌+◌, suc, map, option_map};
ghost use Rattle.rx_typed.specs.Types as types;
ghost use Rattle.rx_typed.specs.PlainTypes.{plain-Ty};
ghost use Rattle.rx_typed_declarations.specs.Sizes.{told};
ghost use Rattle.rx_hoist_plan.specs.PlainPlan.{plain-Leaving, plain-Mode, plain-Param, plain-Plan, plain-Variable};
ghost use Rattle.rx_hoist_extraction.specs.Values.{variables_held, types_of};
ghost use Rattle.rx_hoist_extraction.specs.NewEnum.{all_fields};
ghost use Rattle.rx_hoist_extraction.specs.NewFunction.{passed, passed_types};
ghost use Rattle.rx_hoist_extraction.specs.Limits as limits;
ghost use Rattle.rx_hoist_made.specs.Counts.{capped};
ghost use Rattle.rx_hoist_made.specs.PlainHanded.{plain-Handed};
ghost use Rattle.rx_hoist.specs.Parts as spec;

use rx_core::Ty;
use rx_facts_tables::parts_of;
use rx_hoist_made::{Handed, count, handed_by, handed_on, has_enum};
use rx_hoist_plan::{Leaving, NamedPlan, Param, Variable};
use rx_modes_policy::Mode;

/// A number, and the parts of the types of these variables.
fn with_outs(sizes: &[u64], number: u64, outs: &[Variable]) -> u64
    ensures { result ≡ capped (number + types.sum_of_parts (told sizes.now) (types.shapes_of (types_of (variables_held (map plain-Variable outs.now))))) }
{
    let mut total = number;
    for out in outs {
        total = total.saturating_add(parts_of(sizes, &out.ty));
    }
    total
}

/// A number, and the parts of the types of what is handed out.
fn with_handed(sizes: &[u64], number: u64, handed: Handed<'_>) -> u64
    ensures { result ≡ capped (number + types.sum_of_parts (told sizes.now) (types.shapes_of (types_of (plain-Handed handed.entry)))) }
{
    match handed.result {
        Some(ty) => with_outs(
            sizes,
            number.saturating_add(parts_of(sizes, ty)),
            handed.outs,
        ),
        None => with_outs(sizes, number, handed.outs),
    }
}

/// One, and the parts of what these exits hand out.
fn exits_parts(sizes: &[u64], plan: &NamedPlan, exits: &[Leaving]) -> u64
    ensures { result ≡ capped (suc (types.sum_of_parts (told sizes.now)
        (types.shapes_of (all_fields (plain-Plan plan.now) (map plain-Leaving exits.now))))) }
{
    let mut total = 1u64;
    for leaving in exits {
        total = with_handed(sizes, total, handed_by(plan, leaving));
    }
    total
}

/// The parts of the enum of exits.
fn enum_parts(sizes: &[u64], plan: &NamedPlan) -> u64
    ensures { result ≡ capped (limits.enum_parts (told sizes.now) (plain-Plan plan.now)) }
{
    exits_parts(sizes, plan, plan.exits.as_slice())
}

/// The parts of a parameter's type.
#[tactic(auto, using(crate::proofs::PartLemmas::viewed_parts))]
fn passed_parts(sizes: &[u64], mode: Mode, ty: &Ty) -> u64
    ensures { result ≡ capped (types.parts (told sizes.now) (passed (plain-Mode mode) (plain-Ty ty.now))) }
{
    match mode {
        Mode::Value | Mode::Reborrow | Mode::View => parts_of(sizes, ty),
        Mode::Shared | Mode::Mut => parts_of(sizes, ty).saturating_add(1),
    }
}

/// The number, where it is too great.
fn past(count: u64) -> Option<u64>
    ensures { result ≡ spec.past count }
{
    (count > 4096).then_some(count)
}

/// The first number of parts of the parameters' types that is too great.
fn parameters_past(sizes: &[u64], params: &[Param]) -> Option<u64>
    ensures { result ≡ spec.first (told sizes.now) (passed_types (map plain-Param params.now)) }
{
    for param in params {
        let count = passed_parts(sizes, param.mode, &param.variable.ty);
        if count > 4096 {
            return Some(count);
        }
    }
    None
}

/// The number, or one.
fn at_least_one(number: u64) -> u64
    ensures { result ≡ types.at_least_one number }
{
    if number == 0 { 1 } else { number }
}

/// The parts of what is handed out together: those of the one value, or of the tuple; 0 of nothing.
fn together_parts(sizes: &[u64], handed: Handed<'_>) -> u64
    ensures { result ≡ spec.together_parts (told sizes.now) (types_of (plain-Handed handed.entry)) }
{
    let total = with_handed(sizes, 0, handed);
    if count(handed) < 2 {
        return total;
    }
    at_least_one(total)
}

/// The number of parts of what the end hands on, if it is too great.
fn end_past(sizes: &[u64], plan: &NamedPlan) -> Option<u64>
    ensures { result ≡ spec.first (told sizes.now) (limits.end_types (plain-Plan plan.now)) }
{
    past(together_parts(sizes, handed_on(plan)))
}

/// That of the parameters, or else of what the end hands on.
fn signature_past(sizes: &[u64], plan: &NamedPlan) -> Option<u64>
    ensures { result ≡ spec.first (told sizes.now) (spec.signature_types (plain-Plan plan.now)) }
{
    match parameters_past(sizes, plan.params.as_slice()) {
        Some(count) => Some(count),
        None => end_past(sizes, plan),
    }
}

/// That of the enum, or else of the parameters.
fn enum_past(sizes: &[u64], plan: &NamedPlan) -> Option<u64>
    ensures { result ≡ spec.enum_past (told sizes.now) (plain-Plan plan.now) }
{
    match past(enum_parts(sizes, plan)) {
        Some(count) => Some(count),
        None => parameters_past(sizes, plan.params.as_slice()),
    }
}

/// The first number of parts of a type that is made which passes its limit, by a table of the parts of structs and enums.
/// It is asked after the levels of the answer.
pub fn parts_past(sizes: &[u64], plan: &NamedPlan) -> Option<u64>
    ensures { result ≡ option_map capped (limits.first_past 4096 (limits.made_parts (told sizes.now) (plain-Plan plan.now))) }
{
    if has_enum(plan.exits.as_slice()) {
        return enum_past(sizes, plan);
    }
    signature_past(sizes, plan)
}

//! The levels of the types that an extraction makes. Each number is at most `u64::MAX`.

ghost use Rattle.std.specs.Prelude.{◌≡◌, map, max, option_map};
ghost use Rattle.rx_typed.specs.Types as types;
ghost use Rattle.rx_typed.specs.PlainTypes.{plain-Ty};
ghost use Rattle.rx_hoist_plan.specs.PlainPlan.{plain-Leaving, plain-Mode, plain-Param, plain-Plan, plain-Variable};
ghost use Rattle.rx_hoist_extraction.specs.Values.{variables_held, types_of};
ghost use Rattle.rx_hoist_extraction.specs.NewEnum.{all_fields};
ghost use Rattle.rx_hoist_extraction.specs.NewFunction.{passed, passed_types};
ghost use Rattle.rx_hoist_extraction.specs.Limits as limits;
ghost use Rattle.rx_hoist_made.specs.Counts.{capped};
ghost use Rattle.rx_hoist_made.specs.PlainHanded.{plain-Handed};
ghost use Rattle.rx_hoist.specs.Levels as spec;

use rx_core::Ty;
use rx_hoist_made::{Handed, count, handed_by, handed_on, has_enum};
use rx_hoist_plan::{Leaving, NamedPlan, Param, Variable};
use rx_modes_policy::Mode;

/// The levels of a type.
#[cycle(levels)]
#[tactic(auto, using(rx_typed::proofs::TypedRules::typ_rules))]
fn levels(ty: &Ty) -> u64
    ensures { result ≡ capped (types.levels (plain-Ty ty.now)) }
{
    match ty {
        Ty::Int(_) | Ty::Bool => 1,
        Ty::Tuple(parts) => most_levels(0, parts.as_slice()).saturating_add(1),
        Ty::Shared(_, inner) => levels(inner.get()).saturating_add(1),
        Ty::Mut(_, inner) => levels(inner.get()).saturating_add(1),
        Ty::Adt(_, _) => 1,
    }
}

/// The most levels of one of these types, or this number.
#[cycle(levels)]
fn most_levels(number: u64, parts: &[Ty]) -> u64
    ensures { result ≡ max number (capped (types.most_levels (types.shapes_of (map plain-Ty parts.now)))) }
{
    let mut most = number;
    for ty in parts {
        most = most.max(levels(ty));
    }
    most
}

/// The number, where it is too great.
fn past(count: u64) -> Option<u64>
    ensures { result ≡ spec.past count }
{
    (count > 128).then_some(count)
}

/// The first number of levels of the types of these variables that is too great.
fn outs_past(outs: &[Variable]) -> Option<u64>
    ensures { result ≡ spec.first (types_of (variables_held (map plain-Variable outs.now))) }
{
    for out in outs {
        let count = levels(&out.ty);
        if count > 128 {
            return Some(count);
        }
    }
    None
}

/// That of the types that are handed out.
fn handed_past(handed: Handed<'_>) -> Option<u64>
    ensures { result ≡ spec.first (types_of (plain-Handed handed.entry)) }
{
    if let Some(ty) = handed.result {
        let count = levels(ty);
        if count > 128 {
            return Some(count);
        }
    }
    outs_past(handed.outs)
}

/// That of the fields of these exits.
fn fields_past(plan: &NamedPlan, exits: &[Leaving]) -> Option<u64>
    ensures { result ≡ spec.first (all_fields (plain-Plan plan.now) (map plain-Leaving exits.now)) }
{
    for leaving in exits {
        match handed_past(handed_by(plan, leaving)) {
            Some(count) => return Some(count),
            None => {}
        }
    }
    None
}

/// The levels of the type of a `&mut T` as a `&T`; of another type those that it has.
#[tactic(auto, using(crate::proofs::LevelLemmas::viewed_levels))]
fn passed_levels(mode: Mode, ty: &Ty) -> u64
    ensures { result ≡ capped (types.levels (passed (plain-Mode mode) (plain-Ty ty.now))) }
{
    match mode {
        Mode::Value | Mode::Reborrow | Mode::View => levels(ty),
        Mode::Shared | Mode::Mut => levels(ty).saturating_add(1),
    }
}

/// The first number of levels of the parameters' types that is too great.
fn parameters_past(params: &[Param]) -> Option<u64>
    ensures { result ≡ spec.first (passed_types (map plain-Param params.now)) }
{
    for param in params {
        let count = passed_levels(param.mode, &param.variable.ty);
        if count > 128 {
            return Some(count);
        }
    }
    None
}

/// The most levels of the types of these variables, or this number.
fn outs_levels(number: u64, outs: &[Variable]) -> u64
    ensures { result ≡ max number (capped (types.most_levels (types.shapes_of (types_of (variables_held (map plain-Variable outs.now)))))) }
{
    let mut most = number;
    for out in outs {
        most = most.max(levels(&out.ty));
    }
    most
}

/// The most levels of what is handed out.
fn most_handed(handed: Handed<'_>) -> u64
    ensures { result ≡ capped (types.most_levels (types.shapes_of (types_of (plain-Handed handed.entry)))) }
{
    match handed.result {
        Some(ty) => outs_levels(levels(ty), handed.outs),
        None => outs_levels(0, handed.outs),
    }
}

/// The levels of what is handed out together: those of the one value, or of the tuple; 0 of nothing.
fn together_levels(handed: Handed<'_>) -> u64
    ensures { result ≡ spec.together_levels (types_of (plain-Handed handed.entry)) }
{
    let most = most_handed(handed);
    if count(handed) < 2 {
        return most;
    }
    most.saturating_add(1)
}

/// The number of levels of what the end hands on, if it is too great.
fn end_past(plan: &NamedPlan) -> Option<u64>
    ensures { result ≡ spec.first (limits.end_types (plain-Plan plan.now)) }
{
    past(together_levels(handed_on(plan)))
}

/// That of the fields of the enum, where there is one.
fn enum_past(plan: &NamedPlan) -> Option<u64>
    ensures { result ≡ spec.first (spec.enum_types (plain-Plan plan.now)) }
{
    if has_enum(plan.exits.as_slice()) {
        return fields_past(plan, plan.exits.as_slice());
    }
    None
}

/// That of the parameters, or else of what the end hands on.
fn signature_past(plan: &NamedPlan) -> Option<u64>
    ensures { result ≡ spec.first (spec.signature_types (plain-Plan plan.now)) }
{
    match parameters_past(plan.params.as_slice()) {
        Some(count) => Some(count),
        None => end_past(plan),
    }
}

/// The first number of levels of a type that is made which passes its limit.
/// It is asked after the levels of the answer.
pub fn levels_past(plan: &NamedPlan) -> Option<u64>
    ensures { result ≡ option_map capped (limits.first_past 128 (limits.made_levels (plain-Plan plan.now))) }
{
    match enum_past(plan) {
        Some(count) => Some(count),
        None => signature_past(plan),
    }
}

//! The new function.

ghost use Rattle.std.specs.Prelude.{◌≡◌, ◌++◌, ◌<◌, ◌^◌, ◌∷◌, suc, IfOk, OnOk, drop, length, map, option_map};
ghost use Rattle.rx_tree.specs.PlainOf.{plain-Block, plain-Func, plain-Param as plain-Parameter, plain-Program, plain-TypeText};
ghost use Rattle.rx_typed.specs.PlainTypes.{plain-Ty};
ghost use Rattle.rx_typed.specs.Types.{reference as reference_typ};
ghost use Rattle.rx_hoist_plan.specs.PlainPlan.{plain-Mode, plain-Param, plain-Plan};
ghost use Rattle.rx_hoist_extraction.specs.Values.{next_values, types_of};
ghost use Rattle.rx_hoist_extraction.specs.WrittenTypes.{full as full_type, positions, positions_of};
ghost use Rattle.rx_hoist_extraction.specs.NewFunction as new_function_spec;
ghost use Rattle.rx_hoist_extraction.specs.Made as made;
ghost use Rattle.rx_hoist_made.specs.Rows as rows;
ghost use Rattle.rx_hoist_made.specs.Rows.{nth_name};
ghost use Rattle.rx_hoist_items.specs.Signatures as signatures;

use crate::enums::types_handed;
use rx_core::{LetGo, List, Name, Span, Ty, keep, pushed};
use rx_hoist_made::{
    Row, all_written, enum_name, fresh_names, full, handed_on, has_enum, last_of, named, reference,
    together, tuple, written,
};
use rx_hoist_plan::{NamedPlan, Param};
use rx_modes_policy::Mode;
use rx_tree::{Block, BoundLifetime, Func, Ident, Param as Parameter, Program, TypeText};
use std::alloc::{AllocError, Global};

/// A reference to a type, with the lifetimes of the row.
fn referred(
    alloc: Global,
    program: &Program,
    span: Span,
    row: &mut Row<'_>,
    mutable: bool,
    ty: &Ty,
) -> Result<TypeText, AllocError>
    ensures made { IfOk result (λ it. plain-TypeText it
        ≡ full_type (plain-Program program.now) span (nth_name row.old) 0 (reference_typ mutable (plain-Ty ty.now))) }
    ensures rest { OnOk result (row.new ≡ drop (suc (positions (plain-Program program.now) (plain-Ty ty.now))) row.old) }
{
    let lifetime = row.next(alloc, span)?;
    let (inner, lifetime) = keep(lifetime, full(alloc, program, span, row, ty))?;
    reference(alloc, span, Some(lifetime), mutable, inner)
}

/// The type of a `&mut T` as a `&T`; another type as it is.
#[tactic(auto, using(rx_typed::proofs::TypedRules::typ_rules))]
fn viewed(
    alloc: Global,
    program: &Program,
    span: Span,
    row: &mut Row<'_>,
    ty: &Ty,
) -> Result<TypeText, AllocError>
    ensures made { IfOk result (λ it. plain-TypeText it
        ≡ full_type (plain-Program program.now) span (nth_name row.old) 0 (new_function_spec.viewed (plain-Ty ty.now))) }
    ensures rest { OnOk result (row.new ≡ drop (positions (plain-Program program.now) (new_function_spec.viewed (plain-Ty ty.now))) row.old) }
{
    match ty {
        Ty::Shared(_, inner) => referred(alloc, program, span, row, false, inner.get()),
        Ty::Mut(_, inner) => referred(alloc, program, span, row, false, inner.get()),
        Ty::Int(_) | Ty::Bool => full(alloc, program, span, row, ty),
        Ty::Tuple(_) => full(alloc, program, span, row, ty),
        Ty::Adt(_, _) => full(alloc, program, span, row, ty),
    }
}

/// The type of a parameter for a variable of this type.
fn passed(
    alloc: Global,
    program: &Program,
    span: Span,
    row: &mut Row<'_>,
    mode: Mode,
    ty: &Ty,
) -> Result<TypeText, AllocError>
    ensures made { IfOk result (λ it. plain-TypeText it
        ≡ full_type (plain-Program program.now) span (nth_name row.old) 0 (new_function_spec.passed (plain-Mode mode) (plain-Ty ty.now))) }
    ensures rest { OnOk result (row.new
        ≡ drop (positions (plain-Program program.now) (new_function_spec.passed (plain-Mode mode) (plain-Ty ty.now))) row.old) }
{
    match mode {
        Mode::Value | Mode::Reborrow => full(alloc, program, span, row, ty),
        Mode::View => viewed(alloc, program, span, row, ty),
        Mode::Shared => referred(alloc, program, span, row, false, ty),
        Mode::Mut => referred(alloc, program, span, row, true, ty),
    }
}

fn is_by_value(mode: Mode) -> bool
    ensures { result ≡ new_function_spec.is_by_value (plain-Mode mode) }
{
    matches!(mode, Mode::Value)
}

/// A parameter.
fn parameter(
    alloc: Global,
    program: &Program,
    span: Span,
    row: &mut Row<'_>,
    param: &Param,
) -> Result<Parameter, AllocError>
    ensures made { IfOk result (λ it. plain-Parameter it
        ≡ signatures.parameter (plain-Program program.now) span (nth_name row.old) 0 (plain-Param param.now)) }
    ensures rest { OnOk result (row.new ≡ drop (positions (plain-Program program.now)
        (new_function_spec.passed (plain-Param param.now).mode (plain-Param param.now).variable.typ)) row.old) }
{
    let variable = &param.variable;
    let typ = passed(alloc, program, span, row, param.mode, &variable.ty)?;
    let (name, typ) = keep(typ, written(alloc, span, &variable.name))?;
    Ok(Parameter {
        name,
        mutable: is_by_value(param.mode) && param.moved && variable.mutable,
        typ,
    })
}

/// The parameters.
fn parameters(
    alloc: Global,
    program: &Program,
    span: Span,
    row: &mut Row<'_>,
    params: &[Param],
) -> Result<List<Parameter>, AllocError>
    ensures made { IfOk result (λ it. map plain-Parameter it
        ≡ signatures.parameters (plain-Program program.now) span (nth_name row.old) 0 (map plain-Param params.now)) }
    ensures rest { OnOk result (row.new ≡ drop (positions_of (plain-Program program.now)
        (new_function_spec.passed_types (map plain-Param params.now))) row.old) }
{
    let mut all = List::new(alloc);
    for param in params {
        let (next, held) = keep(all, parameter(alloc, program, span, row, param))?;
        all = pushed(held, next)?;
    }
    Ok(all)
}

/// Nothing, the one type, the tuple of more.
#[tactic(auto, using(crate::proofs::SignatureLemmas::trees_rules))]
fn joined(span: Span, types: List<TypeText>) -> Option<TypeText>
    ensures { option_map plain-TypeText result ≡ signatures.joined_trees span (map plain-TypeText types) }
{
    if types.len() > 1 {
        return Some(tuple(span, types));
    }
    last_of(types)
}

/// The result: the enum with all names of the row, or what is handed on.
#[tactic(auto, using(crate::proofs::SignatureLemmas::joined_is))]
fn result_type(
    alloc: Global,
    program: &Program,
    plan: &NamedPlan,
    span: Span,
    row: &mut Row<'_>,
) -> Result<Option<TypeText>, AllocError>
    ensures { IfOk result (λ it. option_map plain-TypeText it
        ≡ signatures.result (plain-Program program.now) (plain-Plan plan.now) span row.old) }
{
    if has_enum(plan.exits.as_slice()) {
        let name = enum_name(alloc, plan)?;
        let left = row.left();
        return Ok(Some(named(alloc, span, row, name, left)?));
    }
    let types = types_handed(alloc, program, span, row, handed_on(plan))?;
    Ok(joined(span, types))
}

/// The parameters and the result with these lifetimes.
fn signature(
    alloc: Global,
    program: &Program,
    plan: &NamedPlan,
    span: Span,
    names: &[Name],
) -> Result<(List<Parameter>, Option<TypeText>), AllocError>
    ensures { IfOk result (λ it. (map plain-Parameter it.0, option_map plain-TypeText it.1)
        ≡ signatures.signature (plain-Program program.now) (plain-Plan plan.now) span names.now) }
{
    let mut row = Row::new(names);
    let params = parameters(alloc, program, span, &mut row, plan.params.as_slice())?;
    let (typ, params) = keep(params, result_type(alloc, program, plan, span, &mut row))?;
    Ok((params, typ))
}

/// A lifetime that outlives no other.
fn unbound(alloc: Global, name: Ident) -> BoundLifetime
    ensures { result ≡ signatures.unbound name }
{
    BoundLifetime {
        name,
        bounds: List::new(alloc),
    }
}

/// These lifetimes, none of which outlives another.
fn all_unbound(alloc: Global, names: &[Ident]) -> Result<List<BoundLifetime>, AllocError>
    ensures { IfOk result (λ it. it ≡ map signatures.unbound names.now) }
{
    let mut all = List::new(alloc);
    for name in names {
        let (next, held) = keep(all, name.copy(alloc))?;
        all = pushed(held, unbound(alloc, next))?;
    }
    Ok(all)
}

/// The lifetimes of the new function: those that are copied, and these.
fn lifetimes(
    alloc: Global,
    span: Span,
    copied: &[Ident],
    names: &[Name],
) -> Result<List<BoundLifetime>, AllocError>
    ensures { IfOk result (λ it. it ≡ map signatures.unbound (copied.now ++ map (made.ident span) names.now)) }
{
    let fresh = all_written(alloc, span, names)?;
    let bound = all_unbound(alloc, fresh.as_slice());
    let (bound, fresh) = keep(fresh, bound)?;
    fresh.let_go();
    let (copied, bound) = keep(bound, all_unbound(alloc, copied))?;
    together(copied, bound)
}

/// The new function, by the lifetimes that types in the run name, the number of lifetime positions of its signature, and its
/// body.
pub fn new_function(
    alloc: Global,
    program: &Program,
    plan: &NamedPlan,
    span: Span,
    copied: &[Ident],
    positions: usize,
    body: Block,
) -> Result<Func, AllocError>
    requires counted { positions ≡ new_function_spec.signature_positions (plain-Program program.now) (plain-Plan plan.now) }
    requires few { positions < 2 ^ 63 }
    ensures { IfOk result (λ it. plain-Func it
        ≡ signatures.function_of (plain-Program program.now) (plain-Plan plan.now) span copied.now (plain-Block body)) }
{
    let names = fresh_names(alloc, "'r", plan.lifetimes.as_slice(), positions);
    let (names, body) = keep(body, names)?;
    let lifetimes = lifetimes(alloc, span, copied, names.as_slice());
    let (lifetimes, held) = keep((names, body), lifetimes)?;
    let (names, body) = held;
    let signature = signature(alloc, program, plan, span, names.as_slice());
    let (signature, held) = keep((names, (lifetimes, body)), signature)?;
    let (names, held) = held;
    names.let_go();
    let (name, held) = keep((signature, held), written(alloc, span, &plan.name))?;
    let ((params, result), (lifetimes, body)) = held;
    Ok(Func {
        name,
        lifetimes,
        params,
        result,
        body,
    })
}

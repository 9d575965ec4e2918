//! A function without the lifetimes that say nothing.

ghost use Rattle.std.specs.Prelude.{◌≡◌, ◌++◌, [], ◌∷◌, filter, map, option_map, if◌then◌else◌, IfOk};
ghost use Rattle.rx_tree.specs.PlainOf.{plain-Func, plain-Param, plain-TypeText};
ghost use Rattle.rx_hoist_extraction.specs.OwnLifetimes.{idents};
ghost use Rattle.rx_compact_lifetimes.specs.Elided as spec;
ghost use Rattle.rx_compact_lifetimes.specs.Rewritten as rewritten;
ghost use Rattle.rx_compact_lifetimes.specs.Steps as steps;

use crate::lists::has_name;
use crate::occurrences::{is_in_bounds, is_once, result_allows};
use crate::rewriting::Rewriting;
use crate::types::rewritten_type;
use rx_core::{LetGo, List, Name, keep, pushed};
use rx_tree::{BoundLifetime, Func, Ident, Param, TypeText};
use std::alloc::{AllocError, Global};

/// Whether the lifetime of this name may be left out, where the body names these.
fn may_go(single: bool, body: &[Ident], function: &Func, name: &Name) -> bool
    ensures { result ≡ spec.may_go single (idents body.now) (plain-Func function.now) name.now }
{
    !is_in_bounds(name, function.lifetimes.as_slice())
        && !has_name(name, body)
        && is_once(name, function.params.as_slice())
        && result_allows(single, &function.result, name)
}

/// Those that are left out, and one more where it is.
fn with_elision(
    alloc: Global,
    all: List<Rewriting>,
    goes: bool,
    lifetime: &BoundLifetime,
) -> Result<List<Rewriting>, AllocError>
    ensures { IfOk result (λ it. it ≡ all ++ map spec.left_out (steps.one_if goes lifetime.now)) }
{
    if !goes {
        return Ok(all);
    }
    let (name, all) = keep(all, lifetime.name.name.copy(alloc))?;
    pushed(
        all,
        Rewriting {
            name,
            becomes: None,
        },
    )
}

/// What is left out of a function: those of some lifetimes that elision tells, where the body names these.
///
/// # Errors
///
/// Memory runs out.
pub fn elisions(
    alloc: Global,
    single: bool,
    body: &[Ident],
    function: &Func,
    lifetimes: &[BoundLifetime],
) -> Result<List<Rewriting>, AllocError>
    ensures { IfOk result (λ it. it ≡ map spec.left_out (filter (spec.goes single (idents body.now) (plain-Func function.now)) lifetimes.now)) }
{
    let mut all = List::new(alloc);
    for lifetime in lifetimes {
        let goes = may_go(single, body, function, &lifetime.name.name);
        all = with_elision(alloc, all, goes, lifetime)?;
    }
    Ok(all)
}

/// A lifetime with its bounds.
fn copied(alloc: Global, lifetime: &BoundLifetime) -> Result<BoundLifetime, AllocError>
    ensures { IfOk result (λ it. it ≡ lifetime.now) }
{
    let bounds = copied_idents(alloc, lifetime.bounds.as_slice())?;
    let (name, bounds) = keep(bounds, lifetime.name.copy(alloc))?;
    Ok(BoundLifetime { name, bounds })
}

fn copied_idents(alloc: Global, idents: &[Ident]) -> Result<List<Ident>, AllocError>
    ensures { IfOk result (λ it. it ≡ idents.now) }
{
    let mut all = List::new(alloc);
    for ident in idents {
        let (next, held) = keep(all, ident.copy(alloc))?;
        all = pushed(held, next)?;
    }
    Ok(all)
}

/// Those that stay, and one more where it does.
fn with_kept(
    alloc: Global,
    all: List<BoundLifetime>,
    stays: bool,
    lifetime: &BoundLifetime,
) -> Result<List<BoundLifetime>, AllocError>
    ensures { IfOk result (λ it. it ≡ all ++ steps.one_if stays lifetime.now) }
{
    if !stays {
        return Ok(all);
    }
    let (copy, all) = keep(all, copied(alloc, lifetime))?;
    pushed(all, copy)
}

/// Those of some lifetimes that stay, where the body names these.
///
/// # Errors
///
/// Memory runs out.
pub fn kept(
    alloc: Global,
    single: bool,
    body: &[Ident],
    function: &Func,
    lifetimes: &[BoundLifetime],
) -> Result<List<BoundLifetime>, AllocError>
    ensures { IfOk result (λ it. it ≡ filter (spec.stays single (idents body.now) (plain-Func function.now)) lifetimes.now) }
{
    let mut all = List::new(alloc);
    for lifetime in lifetimes {
        let goes = may_go(single, body, function, &lifetime.name.name);
        all = with_kept(alloc, all, !goes, lifetime)?;
    }
    Ok(all)
}

// ---- parameters and the result

fn rewritten_parameter(
    alloc: Global,
    rewritings: &[Rewriting],
    param: &Param,
) -> Result<Param, AllocError>
    ensures { IfOk result (λ it. plain-Param it ≡ rewritten.rewritten_parameter rewritings.now (plain-Param param.now)) }
{
    let typ = rewritten_type(alloc, rewritings, &param.typ)?;
    let (name, typ) = keep(typ, param.name.copy(alloc))?;
    Ok(Param {
        name,
        mutable: param.mutable,
        typ,
    })
}

/// Parameters in whose types lifetimes are written otherwise.
///
/// # Errors
///
/// Memory runs out.
pub fn rewritten_parameters(
    alloc: Global,
    rewritings: &[Rewriting],
    params: &[Param],
) -> Result<List<Param>, AllocError>
    ensures { IfOk result (λ it. map plain-Param it ≡ map (rewritten.rewritten_parameter rewritings.now) (map plain-Param params.now)) }
{
    let mut all = List::new(alloc);
    for param in params {
        let (next, held) = keep(all, rewritten_parameter(alloc, rewritings, param))?;
        all = pushed(held, next)?;
    }
    Ok(all)
}

/// A type that may be written, in which lifetimes are written otherwise.
///
/// # Errors
///
/// Memory runs out.
pub fn rewritten_optional(
    alloc: Global,
    rewritings: &[Rewriting],
    typ: &Option<TypeText>,
) -> Result<Option<TypeText>, AllocError>
    ensures { IfOk result (λ it. option_map plain-TypeText it ≡ rewritten.rewritten_optional rewritings.now (option_map plain-TypeText typ.now)) }
{
    match typ {
        Some(typ) => Ok(Some(rewritten_type(alloc, rewritings, typ)?)),
        None => Ok(None),
    }
}

// ---- a function

/// The parts of a function's signature.
#[derive(Drop)]
pub struct Signature {
    pub lifetimes: List<BoundLifetime>,
    pub params: List<Param>,
    pub result: Option<TypeText>,
}

/// The signature of a function without the lifetimes that elision tells: where its body names these, and `single` says whether the
/// types of its parameters have one lifetime.
///
/// # Errors
///
/// Memory runs out.
pub fn elided_signature(
    alloc: Global,
    single: bool,
    body: &[Ident],
    function: &Func,
) -> Result<Signature, AllocError>
    ensures { IfOk result (λ it. spec.IsElided single (idents body.now) (plain-Func function.now) it.lifetimes (map plain-Param it.params) (option_map plain-TypeText it.result)) }
{
    let rewritings = elisions(alloc, single, body, function, function.lifetimes.as_slice())?;
    let outcome = kept(alloc, single, body, function, function.lifetimes.as_slice());
    let (lifetimes, rewritings) = keep(rewritings, outcome)?;
    let outcome = rewritten_parameters(alloc, rewritings.as_slice(), function.params.as_slice());
    let (params, held) = keep((lifetimes, rewritings), outcome)?;
    let (lifetimes, rewritings) = held;
    let outcome = rewritten_optional(alloc, rewritings.as_slice(), &function.result);
    rewritings.let_go();
    let (result, held) = keep((lifetimes, params), outcome)?;
    let (lifetimes, params) = held;
    Ok(Signature {
        lifetimes,
        params,
        result,
    })
}

//! Copies of what has no expression in it. A copy is the same, and shares nothing with it.

ghost use Rattle.std.specs.Prelude.{◌≡◌, IfOk};

use rx_core::{Boxed, List, Place, Ty, keep, pushed};
use rx_typed::{Mark, Param, Pattern, Subpattern};
use std::alloc::{AllocError, Global};

#[cycle(types)]
fn type_copied(alloc: Global, ty: &Ty) -> Result<Ty, AllocError>
    ensures { IfOk result (λ it. it ≡ ty.now) }
{
    match ty {
        Ty::Int(kind) => Ok(Ty::Int(*kind)),
        Ty::Bool => Ok(Ty::Bool),
        Ty::Tuple(parts) => Ok(Ty::Tuple(types_copied(alloc, parts.as_slice())?)),
        Ty::Shared(lifetime, inner) => {
            let inner = type_copied(alloc, inner.get())?;
            Ok(Ty::Shared(*lifetime, Boxed::new(alloc, inner)?))
        }
        Ty::Mut(lifetime, inner) => {
            let inner = type_copied(alloc, inner.get())?;
            Ok(Ty::Mut(*lifetime, Boxed::new(alloc, inner)?))
        }
        Ty::Adt(item, lifetimes) => {
            Ok(Ty::Adt(*item, List::from_slice(alloc, lifetimes.as_slice())?))
        }
    }
}

#[cycle(types)]
fn types_copied(alloc: Global, types: &[Ty]) -> Result<List<Ty>, AllocError>
    ensures { IfOk result (λ it. it ≡ types.now) }
{
    let mut all = List::new(alloc);
    for ty in types {
        let (next, held) = keep(all, type_copied(alloc, ty))?;
        all = pushed(held, next)?;
    }
    Ok(all)
}

pub(crate) fn mark_copied(alloc: Global, mark: &Mark) -> Result<Mark, AllocError>
    ensures { IfOk result (λ it. it ≡ mark.now) }
{
    match &mark.ty {
        Some(ty) => {
            let ty = type_copied(alloc, ty)?;
            Ok(Mark {
                node: mark.node,
                ty: Some(ty),
            })
        }
        None => Ok(Mark {
            node: mark.node,
            ty: None,
        }),
    }
}

pub(crate) fn place_copied(alloc: Global, place: &Place) -> Result<Place, AllocError>
    ensures { IfOk result (λ it. it ≡ place.now) }
{
    let steps = List::from_slice(alloc, place.steps.as_slice())?;
    Ok(Place {
        var: place.var,
        steps,
    })
}

#[cycle(patterns)]
pub(crate) fn pattern_copied(alloc: Global, pattern: &Pattern) -> Result<Pattern, AllocError>
    ensures { IfOk result (λ it. it ≡ pattern.now) }
{
    match pattern {
        Pattern::Any => Ok(Pattern::Any),
        Pattern::Bind(node, variable, mode) => Ok(Pattern::Bind(*node, *variable, *mode)),
        Pattern::Exactly(node, constant) => Ok(Pattern::Exactly(*node, *constant)),
        Pattern::Parts(parts) => Ok(Pattern::Parts(parts_copied(alloc, parts.as_slice())?)),
        Pattern::Variant(node, item, many, variant, parts) => {
            let parts = parts_copied(alloc, parts.as_slice())?;
            Ok(Pattern::Variant(*node, *item, *many, *variant, parts))
        }
        Pattern::Behind(mutable, inner) => {
            let inner = pattern_copied(alloc, inner.get())?;
            Ok(Pattern::Behind(*mutable, Boxed::new(alloc, inner)?))
        }
    }
}

#[cycle(patterns)]
fn part_copied(alloc: Global, part: &Subpattern) -> Result<Subpattern, AllocError>
    ensures { IfOk result (λ it. it ≡ part.now) }
{
    Ok(Subpattern {
        field: part.field,
        pattern: pattern_copied(alloc, &part.pattern)?,
    })
}

#[cycle(patterns)]
fn parts_copied(alloc: Global, parts: &[Subpattern]) -> Result<List<Subpattern>, AllocError>
    ensures { IfOk result (λ it. it ≡ parts.now) }
{
    let mut all = List::new(alloc);
    for part in parts {
        let (next, held) = keep(all, part_copied(alloc, part))?;
        all = pushed(held, next)?;
    }
    Ok(all)
}

/// The parameters of a function.
pub(crate) fn params_copied(alloc: Global, params: &List<Param>) -> Result<List<Param>, AllocError>
    ensures { IfOk result (λ it. it ≡ params.now) }
{
    List::from_slice(alloc, params.as_slice())
}

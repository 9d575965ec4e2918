//! Copies of types without their lifetimes.

ghost use Rattle.std.specs.Prelude.{◌≡◌, map, IfOk};
ghost use Rattle.std.specs.Option.{option_copied};
ghost use Rattle.rx_typed.specs.Elaborated.{as_shared};
ghost use Rattle.rx_typed.specs.PlainTypes.{plain-Ty};
ghost use Rattle.rx_typeck_elaborate_parts.specs.Assigning.{shape_of};
ghost use Rattle.rx_typeck_elaborate_parts.specs.Coercing.{plain-Coercion};
ghost use Rattle.rx_hoist_naming.specs.NamedPlan.{passed as passed_of};

use rx_core::{Boxed, List, Ty, keep, pushed};
use rx_typeck_typed::Coercion;
use std::alloc::{AllocError, Global};

fn zeros(alloc: Global, count: usize) -> Result<List<u32>, AllocError> {
    Ok(List::from_vec(vec![in alloc; 0u32; count]?))
}

/// The same type, in which each lifetime has the number 0.
#[cycle(bare)]
#[tactic(auto, using(rx_typed::proofs::TypedRules::typ_rules))]
pub(crate) fn bare(alloc: Global, ty: &Ty) -> Result<Ty, AllocError>
    ensures { IfOk result (λ it. plain-Ty it ≡ plain-Ty ty.now) }
{
    match ty {
        Ty::Int(kind) => Ok(Ty::Int(*kind)),
        Ty::Bool => Ok(Ty::Bool),
        Ty::Tuple(parts) => Ok(Ty::Tuple(all_bare(alloc, parts.as_slice())?)),
        Ty::Shared(_, inner) => {
            let inner = bare(alloc, inner.get())?;
            Ok(Ty::Shared(0, Boxed::new(alloc, inner)?))
        }
        Ty::Mut(_, inner) => {
            let inner = bare(alloc, inner.get())?;
            Ok(Ty::Mut(0, Boxed::new(alloc, inner)?))
        }
        Ty::Adt(item, lifetimes) => Ok(Ty::Adt(*item, zeros(alloc, lifetimes.len())?)),
    }
}

#[cycle(bare)]
fn all_bare(alloc: Global, parts: &[Ty]) -> Result<List<Ty>, AllocError>
    ensures { IfOk result (λ all. map plain-Ty all ≡ map plain-Ty parts.now) }
{
    let mut all = List::new(alloc);
    for part in parts {
        let (copy, copies) = keep(all, bare(alloc, part))?;
        all = pushed(copies, copy)?;
    }
    Ok(all)
}

/// The same type, and the unit where there is none.
#[tactic(auto, using(rx_typed::proofs::TypedRules::typ_rules))]
pub(crate) fn bare_or_unit(alloc: Global, ty: Option<&Ty>) -> Result<Ty, AllocError>
    ensures { IfOk result (λ it. plain-Ty it ≡ shape_of (option_copied ty.entry)) }
{
    match ty {
        Some(ty) => bare(alloc, ty),
        None => Ok(Ty::Tuple(List::new(alloc))),
    }
}

/// A `&T` for a `&mut T`, and any other type as it is.
#[tactic(auto, using(rx_typed::proofs::TypedRules::typ_rules))]
fn shared(alloc: Global, ty: &Ty) -> Result<Ty, AllocError>
    ensures { IfOk result (λ it. plain-Ty it ≡ as_shared (plain-Ty ty.now)) }
{
    match ty {
        Ty::Mut(_, inner) => {
            let inner = bare(alloc, inner.get())?;
            Ok(Ty::Shared(0, Boxed::new(alloc, inner)?))
        }
        Ty::Shared(_, inner) => {
            let inner = bare(alloc, inner.get())?;
            Ok(Ty::Shared(0, Boxed::new(alloc, inner)?))
        }
        Ty::Int(_) | Ty::Bool | Ty::Tuple(_) | Ty::Adt(_, _) => bare(alloc, ty),
    }
}

#[tactic(auto, using(rx_typed::proofs::TypedRules::typ_rules))]
fn shared_or_unit(alloc: Global, ty: Option<&Ty>) -> Result<Ty, AllocError>
    ensures { IfOk result (λ it. plain-Ty it ≡ as_shared (shape_of (option_copied ty.entry))) }
{
    match ty {
        Some(ty) => shared(alloc, ty),
        None => Ok(Ty::Tuple(List::new(alloc))),
    }
}

/// The type of a value behind its coercion; the unit where it has no type.
pub(crate) fn passed(alloc: Global, coercion: Coercion, ty: Option<&Ty>) -> Result<Ty, AllocError>
    ensures { IfOk result (λ it. plain-Ty it ≡ passed_of (plain-Coercion coercion) (shape_of (option_copied ty.entry))) }
{
    match coercion {
        Coercion::Share => shared_or_unit(alloc, ty),
        Coercion::Plain | Coercion::Reborrow => bare_or_unit(alloc, ty),
    }
}

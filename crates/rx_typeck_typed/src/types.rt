//! Types with their lifetimes, and what stands behind their references.

ghost use Rattle.std.specs.Prelude.{◌≡◌, [], IfOk};
ghost use Rattle.rx_typed.specs.Regions.{erased, region-Ty};
ghost use Rattle.rx_typed.specs.Elaborated as elaborated;
ghost use Rattle.rx_typeck_typed.specs.Bindings as spec;
ghost use Rattle.rx_typeck_typed.specs.Walks as walks;

use crate::lets::Lets;
use rx_core::{Boxed, Step, Ty};
use rx_typed::place_type;
use std::alloc::AllocError;

/// What stands behind all references.
#[cycle(peeled)]
#[tactic(auto, using(rx_typed::proofs::TypedRules::region_rules))]
pub(crate) fn peeled(ty: &Ty) -> &Ty
    ensures { region-Ty result.now ≡ spec.peeled (region-Ty ty.now) }
{
    match ty {
        Ty::Shared(_, inner) => peeled(inner.get()),
        Ty::Mut(_, inner) => peeled(inner.get()),
        Ty::Int(_) | Ty::Bool | Ty::Tuple(_) | Ty::Adt(_, _) => ty,
    }
}

fn meet(mutable: bool, round: Option<bool>) -> Option<bool>
    ensures { result ≡ elaborated.meet mutable round }
{
    match round {
        None => Some(mutable),
        Some(before) => Some(mutable && before),
    }
}

/// Whether references are gone through behind this type too, and if so, whether all are mutable.
#[cycle(met)]
#[tactic(auto, using(rx_typed::proofs::TypedRules::region_rules))]
pub(crate) fn met(ty: &Ty, round: Option<bool>) -> Option<bool>
    ensures { result ≡ elaborated.met (erased (region-Ty ty.now)) round }
{
    match ty {
        Ty::Shared(_, inner) => met(inner.get(), meet(false, round)),
        Ty::Mut(_, inner) => met(inner.get(), meet(true, round)),
        Ty::Int(_) | Ty::Bool | Ty::Tuple(_) | Ty::Adt(_, _) => round,
    }
}

impl<'t> Lets<'t> {
    /// What a variable has of a part of this type.
    #[tactic(auto, using(rx_typed::proofs::TypedRules::region_rules))]
    pub(crate) fn bound(&self, round: Option<bool>, ty: &Ty) -> Result<Ty, AllocError>
        ensures { IfOk result (λ t. region-Ty t ≡ spec.bound self.now.free round (region-Ty ty.now)) }
    {
        let part = place_type(self.alloc, self.decls, ty, &[])?;
        match round {
            None => Ok(part),
            Some(mutable) => {
                let part = Boxed::new(self.alloc, part)?;
                if mutable {
                    Ok(Ty::Mut(self.free, part))
                } else {
                    Ok(Ty::Shared(self.free, part))
                }
            }
        }
    }

    /// The type of a part of this number; those of a variant stand behind it.
    pub(crate) fn part(&self, variant: Option<u32>, field: usize, ty: &Ty) -> Result<Ty, AllocError>
        ensures { IfOk result (λ t. region-Ty t ≡ spec.part (walks.declared self.now) variant field (region-Ty ty.now)) }
    {
        match u32::try_from(field) {
            Ok(field) => {
                let field = Step::Field(field);
                match variant {
                    None => place_type(self.alloc, self.decls, ty, &[field]),
                    Some(variant) => {
                        let variant = Step::Variant(variant);
                        place_type(self.alloc, self.decls, ty, &[variant, field])
                    }
                }
            }
            Err(_too_many) => Err(AllocError),
        }
    }
}

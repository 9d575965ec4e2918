//! Types, and what stands under their references.

ghost use Rattle.std.specs.Prelude.{◌≡◌, ◌++◌, OnOk};
ghost use Rattle.std.specs.Option.{option_copied};
ghost use Rattle.rx_typed.specs.Types as types;
ghost use Rattle.rx_typed.specs.PlainTypes.{plain-Ty};
ghost use Rattle.rx_typed.specs.Elaborated as elaborated;
ghost use Rattle.rx_typeck_elaborate_parts.specs.Assigning.{shape_of};
ghost use Rattle.rx_typeck_elaborate_parts.specs.Coercing as coercing;

use rx_core::{Kind, List, Step, Ty};
use std::alloc::AllocError;

/// Whether a type is a reference, and if so, whether it is mutable.
#[tactic(auto, using(rx_typed::proofs::TypedRules::typ_rules))]
pub(crate) fn reference_of(ty: Option<&Ty>) -> Option<bool>
    ensures { result ≡ coercing.reference_of (shape_of (option_copied ty.entry)) }
{
    match ty {
        Some(ty) => match ty {
            Ty::Shared(_, _) => Some(false),
            Ty::Mut(_, _) => Some(true),
            Ty::Int(_) | Ty::Bool | Ty::Tuple(_) | Ty::Adt(_, _) => None,
        },
        None => None,
    }
}

/// What stands under all references.
#[cycle(peeled)]
#[tactic(auto, using(rx_typed::proofs::TypedRules::typ_rules))]
pub(crate) fn peeled(ty: &Ty) -> &Ty
    ensures { plain-Ty result.now ≡ types.peeled (plain-Ty ty.now) }
{
    match ty {
        Ty::Shared(_, inner) => peeled(inner.get()),
        Ty::Mut(_, inner) => peeled(inner.get()),
        Ty::Int(_) | Ty::Bool | Ty::Tuple(_) | Ty::Adt(_, _) => ty,
    }
}

/// Adds the dereferences that a step to a field of this type goes through.
#[cycle(dereferences)]
#[tactic(auto, using(rx_typed::proofs::TypedRules::typ_rules, crate::proofs::References::list_rules))]
fn push_dereferences(steps: &mut List<Step>, ty: &Ty) -> Result<(), AllocError>
    ensures { OnOk result (steps.new ≡ steps.old ++ elaborated.dereferences (plain-Ty ty.now)) }
{
    match ty {
        Ty::Shared(_, inner) => {
            steps.push(Step::Deref(false))?;
            push_dereferences(steps, inner.get())
        }
        Ty::Mut(_, inner) => {
            steps.push(Step::Deref(true))?;
            push_dereferences(steps, inner.get())
        }
        Ty::Int(_) | Ty::Bool | Ty::Tuple(_) | Ty::Adt(_, _) => Ok(()),
    }
}

/// Adds the dereferences that a step to a field of what has this type goes through.
pub(crate) fn push_all(steps: &mut List<Step>, ty: Option<&Ty>) -> Result<(), AllocError>
    ensures { OnOk result (steps.new ≡ steps.old ++ elaborated.dereferences (shape_of (option_copied ty.entry))) }
{
    match ty {
        Some(ty) => push_dereferences(steps, ty),
        None => Ok(()),
    }
}

/// Adds the dereference of `*`.
#[tactic(auto, using(crate::proofs::References::dereference_is))]
pub(crate) fn push_one(steps: &mut List<Step>, ty: Option<&Ty>) -> Result<(), AllocError>
    ensures { OnOk result (steps.new ≡ steps.old ++ elaborated.dereference (shape_of (option_copied ty.entry))) }
{
    match reference_of(ty) {
        Some(mutable) => steps.push(Step::Deref(mutable)),
        None => Ok(()),
    }
}

/// The integer type that this is; where it is none, that of literals.
#[tactic(auto, using(rx_typed::proofs::TypedRules::typ_rules))]
pub fn kind_in(ty: Option<&Ty>) -> Kind
    ensures { result ≡ elaborated.kind_in (shape_of (option_copied ty.entry)) }
{
    match ty {
        Some(ty) => match ty {
            Ty::Int(kind) => *kind,
            Ty::Bool | Ty::Tuple(_) | Ty::Shared(_, _) | Ty::Mut(_, _) | Ty::Adt(_, _) => Kind::I32,
        },
        None => Kind::I32,
    }
}

/// The integer type under all references.
#[tactic(auto, using(rx_typed::proofs::TypedRules::typ_rules))]
pub fn kind_behind(ty: Option<&Ty>) -> Kind
    ensures { result ≡ elaborated.kind_in (types.peeled (shape_of (option_copied ty.entry))) }
{
    match ty {
        Some(ty) => kind_in(Some(peeled(ty))),
        None => Kind::I32,
    }
}

/// The references that were gone through, with those of a type.
#[cycle(met)]
#[tactic(auto, using(rx_typed::proofs::TypedRules::typ_rules))]
fn met_in(ty: &Ty, round: Option<bool>) -> Option<bool>
    ensures { result ≡ elaborated.met (plain-Ty ty.now) round }
{
    match ty {
        Ty::Shared(_, inner) => met_in(inner.get(), meet(false, round)),
        Ty::Mut(_, inner) => met_in(inner.get(), meet(true, round)),
        Ty::Int(_) | Ty::Bool | Ty::Tuple(_) | Ty::Adt(_, _) => round,
    }
}

/// The references that were gone through, with one more.
fn meet(mutable: bool, round: Option<bool>) -> Option<bool>
    ensures { result ≡ elaborated.meet mutable round }
{
    match round {
        None => Some(mutable),
        Some(all) => Some(mutable && all),
    }
}

/// The references that were gone through, with those of a type where there is one.
pub(crate) fn met(ty: Option<&Ty>, round: Option<bool>) -> Option<bool>
    ensures { result ≡ elaborated.met (shape_of (option_copied ty.entry)) round }
{
    match ty {
        Some(ty) => met_in(ty, round),
        None => round,
    }
}

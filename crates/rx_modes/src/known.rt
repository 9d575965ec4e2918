//! What the uses of a run's variables are told by.

ghost use Rattle.std.specs.Prelude.{◌≡◌, ◌↔◌, ℕ, true, List as ListOf, map, option_map, slice_get, Some};
ghost use Rattle.std.specs.Bool.{Decides};
ghost use Rattle.rx_typed.specs.PlainTypes.{declarations, plain-Ty};
ghost use Rattle.rx_exits_plan.specs.Asked.{Asked, IsLiveAt};
ghost use Rattle.rx_exits_plan.specs.PlainPlan.{plain-Exit};
ghost use Rattle.rx_exits.specs.Living.{IsAsked, IsLiving};
ghost use Rattle.rx_modes.specs.Told as spec;

use rx_core::Ty;
use rx_exits::RunLiving;
use rx_exits_plan::{ExitOuts, ExitPlan};
use rx_modes_deeds::Deeds;
use rx_typed::{Decls, is_copy};

/// What the uses of a run's variables are told by.
#[derive(Clone, Copy)]
pub(crate) struct Known<'t> {
    pub decls: &'t Decls,
    /// The types of the function's variables, and whether each is declared `mut`.
    pub types: &'t [Option<Ty>],
    pub mutable: &'t [bool],
    pub plan: &'t ExitPlan,
    /// What the run does, the rest of the function, and the whole function, by variable.
    pub inside: &'t [Deeds],
    pub outside: &'t [Deeds],
    pub whole: &'t [Deeds],
    pub living: &'t RunLiving,
    /// Whether some walk enters the run.
    pub entered: bool,
}

fn copies(ty: &Option<Ty>, decls: &Decls) -> bool
    ensures { result ≡ spec.copies_some (declarations decls.now.items) (option_map plain-Ty ty.now) }
{
    match ty {
        Some(ty) => is_copy(ty, decls),
        None => false,
    }
}

#[tactic(auto, using(rx_typed::proofs::TypedRules::typ_rules))]
fn is_borrowed_mutably(ty: &Ty) -> bool
    ensures { result ≡ spec.borrows_mutably (Some (plain-Ty ty.now)) }
{
    match ty {
        Ty::Mut(_, _) => true,
        Ty::Int(_) | Ty::Bool | Ty::Tuple(_) | Ty::Shared(_, _) | Ty::Adt(_, _) => false,
    }
}

fn borrows_mutably(ty: &Option<Ty>) -> bool
    ensures { result ≡ spec.borrows_mutably (option_map plain-Ty ty.now) }
{
    match ty {
        Some(ty) => is_borrowed_mutably(ty),
        None => false,
    }
}

/// Whether the type of a variable is Copy.
pub(crate) fn is_copy_at(types: &[Option<Ty>], decls: &Decls, variable: u32) -> bool
    ensures { result ≡ spec.is_copy (declarations decls.now.items) (slice_get (map (option_map plain-Ty) types.now) variable) }
{
    match types.get(variable as usize) {
        Some(ty) => copies(ty, decls),
        None => false,
    }
}

/// Whether the type of a variable is `&mut T`.
pub(crate) fn is_mutable_reference(types: &[Option<Ty>], variable: u32) -> bool
    ensures { result ≡ spec.is_mutable_reference (slice_get (map (option_map plain-Ty) types.now) variable) }
{
    match types.get(variable as usize) {
        Some(ty) => borrows_mutably(ty),
        None => false,
    }
}

/// Whether a variable is declared `mut`.
pub(crate) fn is_declared_mut(mutable: &[bool], variable: u32) -> bool
    ensures { result ≡ spec.is_mut (slice_get mutable.now variable) }
{
    match mutable.get(variable as usize) {
        Some(mutable) => *mutable,
        None => false,
    }
}

/// Whether on from this exit some walk uses a variable before it is written as a whole.
fn is_live_behind(living: &RunLiving, exit: &ExitOuts, variable: u32) -> bool
    requires { IsAsked living.now }
    ensures { (A : Asked) (params : ListOf ℕ) → IsLiving A params living.now → (result ≡ true) ↔ IsLiveAt A params (plain-Exit exit.now.exit) variable }
{
    living.is_live_at(exit.exit, variable)
}

/// Whether on from some exit.
pub(crate) fn is_live_out(living: &RunLiving, exits: &[ExitOuts], variable: u32) -> bool
    requires { IsAsked living.now }
    ensures { (A : Asked) (params : ListOf ℕ) → IsLiving A params living.now → Decides result (spec.LiveBehind A params exits.now variable) }
{
    for exit in exits {
        if is_live_behind(living, exit, variable) {
            return true;
        }
    }
    false
}

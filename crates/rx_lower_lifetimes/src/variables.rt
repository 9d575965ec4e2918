//! The types of a function's variables.

ghost use Rattle.std.specs.Prelude.{◌≡◌, map, option_map, IfOk};
ghost use Rattle.std.specs.Option.{option_copied};
ghost use Rattle.rx_typed.specs.Regions.{region-Ty};
ghost use Rattle.rx_typed.specs.PlainTree.{plain-Param};
ghost use Rattle.rx_lower_lifetimes.specs.Variables as spec;
ghost use Rattle.rx_lower_lifetimes.specs.PlainOf.{plain-Open, plain-Told};

use crate::held::{Open, unit};
use rx_core::{LetGo, List, Ty, keep, pushed};
use rx_typed::{Decls, Param, place_type};
use std::alloc::{AllocError, Global};

/// What a `let` writes as the type of a variable. A lifetime that it leaves out has the number of the function's own.
#[derive(Drop)]
pub struct Told {
    pub variable: u32,
    pub ty: Ty,
}

impl LetGo for Told {
    fn let_go(self) {
        self.ty.let_go();
    }
}

/// That of a parameter.
fn parameter_type<'a>(params: &[Param], types: &'a [Ty], variable: u32) -> Option<&'a Ty>
    ensures { option_copied result ≡ spec.parameter_type (map plain-Param params.now) types.now variable }
{
    for i in 0..params.len() {
        if i >= types.len() {
            return None;
        }
        if params[i].variable == variable {
            return Some(&types[i]);
        }
    }
    None
}

/// That of what a `let` writes.
fn written_type<'a>(written: &'a [Told], variable: u32) -> Option<&'a Ty>
    ensures { option_map region-Ty (option_copied result) ≡ spec.written_type (map plain-Told written.now) variable }
{
    for i in 0..written.len() {
        if written[i].variable == variable {
            return Some(&written[i].ty);
        }
    }
    None
}

/// The type of a variable that is told.
fn told_type<'a>(
    params: &[Param],
    types: &'a [Ty],
    written: &'a [Told],
    variable: u32,
) -> Option<&'a Ty>
    ensures { option_map region-Ty (option_copied result) ≡ spec.told (spec.parameter_type (map plain-Param params.now) types.now variable) (spec.written_type (map plain-Told written.now) variable) }
{
    match parameter_type(params, types, variable) {
        Some(ty) => Some(ty),
        None => written_type(written, variable),
    }
}

/// A copy of a type.
fn copied(alloc: Global, decls: &Decls, ty: &Ty) -> Result<Ty, AllocError>
    ensures { IfOk result (λ it. region-Ty it ≡ region-Ty ty.now) }
{
    let nowhere = List::new(alloc);
    place_type(alloc, decls, ty, nowhere.as_slice())
}

/// The type of a variable whose type is not told: that without lifetimes.
fn raw_type(alloc: Global, decls: &Decls, raw: &Option<Ty>) -> Result<Ty, AllocError>
    ensures { IfOk result (λ it. region-Ty it ≡ spec.raw_type raw.now) }
{
    match raw {
        Some(ty) => copied(alloc, decls, ty),
        None => Ok(unit(alloc)),
    }
}

/// The type of a variable, and which of its lifetimes are open.
fn open_type(
    alloc: Global,
    decls: &Decls,
    own: u32,
    told: Option<&Ty>,
    raw: &Option<Ty>,
) -> Result<Open, AllocError>
    ensures { IfOk result (λ it. plain-Open it ≡ spec.open_type own (option_map region-Ty (option_copied told.entry)) raw.now) }
{
    match told {
        Some(ty) => {
            let ty = copied(alloc, decls, ty)?;
            Ok(Open { ty, from: own })
        }
        None => {
            let ty = raw_type(alloc, decls, raw)?;
            Ok(Open { ty, from: 0 })
        }
    }
}

/// The types of the variables, by their numbers.
pub fn open_types(
    alloc: Global,
    decls: &Decls,
    own: u32,
    params: &[Param],
    types: &[Ty],
    written: &[Told],
    raws: &[Option<Ty>],
) -> Result<List<Open>, AllocError>
    ensures { IfOk result (λ it. map plain-Open it ≡ spec.open_types own (map plain-Param params.now) types.now (map plain-Told written.now) 0 raws.now) }
{
    let mut all = List::new(alloc);
    let mut variable = 0u32;
    for raw in raws {
        let told = told_type(params, types, written, variable);
        let (one, before) = keep(all, open_type(alloc, decls, own, told, raw))?;
        all = pushed(before, one)?;
        variable = match variable.checked_add(1) {
            Some(next) => next,
            None => return Err(AllocError),
        };
    }
    Ok(all)
}

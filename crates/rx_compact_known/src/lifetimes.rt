//! How many lifetimes the types of a function's parameters have.

ghost use Rattle.std.specs.Prelude.{◌≡◌, ◌++◌, map, slice_get, IfOk, OnOk};
ghost use Rattle.std.specs.Option.{option_copied};
ghost use Rattle.rx_typed.specs.Regions.{region-Ty, regions_of, lifetimes_in, lifetimes_among};
ghost use Rattle.rx_compact.specs.Outliving as spec;

use crate::said::item_of;
use rx_core::{List, Ty};
use rx_typed::{Decl, Decls};
use std::alloc::{AllocError, Global};

fn add_all(lifetimes: &mut List<u32>, list: &[u32]) -> Result<(), AllocError>
    ensures { OnOk result (lifetimes.new ≡ lifetimes.old ++ list.now) }
{
    for lifetime in list {
        lifetimes.push(*lifetime)?;
    }
    Ok(())
}

/// Adds the lifetimes in a type, in order.
#[cycle(lifetimes)]
#[tactic(auto, using(rx_typed::proofs::TypedRules::region_rules, crate::proofs::Appending::appending))]
fn add_lifetimes(lifetimes: &mut List<u32>, ty: &Ty) -> Result<(), AllocError>
    ensures { OnOk result (lifetimes.new ≡ lifetimes.old ++ lifetimes_in (region-Ty ty.now)) }
{
    match ty {
        Ty::Int(_) | Ty::Bool => Ok(()),
        Ty::Tuple(parts) => add_lifetimes_among(lifetimes, parts.as_slice()),
        Ty::Shared(lifetime, inner) | Ty::Mut(lifetime, inner) => {
            lifetimes.push(*lifetime)?;
            add_lifetimes(lifetimes, inner.get())
        }
        Ty::Adt(_, list) => add_all(lifetimes, list.as_slice()),
    }
}

/// Adds those in these types.
#[cycle(lifetimes)]
fn add_lifetimes_among(lifetimes: &mut List<u32>, types: &[Ty]) -> Result<(), AllocError>
    ensures { OnOk result (lifetimes.new ≡ lifetimes.old ++ lifetimes_among (regions_of (map region-Ty types.now))) }
{
    for ty in types {
        add_lifetimes(lifetimes, ty)?;
    }
    Ok(())
}

/// Adds the lifetimes in the types of an item's parameters.
fn add_parameters(lifetimes: &mut List<u32>, item: Option<&Decl>) -> Result<(), AllocError>
    ensures { OnOk result (lifetimes.new ≡ lifetimes.old ++ spec.parameter_lifetimes (option_copied item.entry)) }
{
    match item {
        Some(
            Decl::Func {
                lifetimes: _,
                params,
                answer: _,
                bounds: _,
            },
        ) => add_lifetimes_among(lifetimes, params.as_slice()),
        _ => Ok(()),
    }
}

/// Whether the types of the parameters of an item's function have one lifetime, those that are left out counted too.
///
/// # Errors
///
/// Memory runs out.
pub fn is_single(alloc: Global, decls: &Decls, function: u32) -> Result<bool, AllocError>
    ensures { IfOk result (λ it. it ≡ spec.is_single (slice_get decls.now.items function)) }
{
    let mut lifetimes = List::new(alloc);
    add_parameters(&mut lifetimes, item_of(decls.items.as_slice(), function))?;
    Ok(lifetimes.as_slice().len() == 1)
}

//! What a signature says of its lifetimes, as pairs.

ghost use Rattle.std.specs.Prelude.{◌≡◌, ◌++◌, map, slice_get, IfOk, OnOk};
ghost use Rattle.std.specs.Option.{option_copied};
ghost use Rattle.rx_typed.specs.Regions.{region-Ty, regions_of};
ghost use Rattle.rx_region_outlives.specs.Implied.{implied_among, pairs_of};
ghost use Rattle.rx_compact_known.specs.Knowing as spec;

use rx_core::{Bound, List, Ty};
use rx_region_outlives::{Implied, add_implied_by};
use rx_typed::Decl;
use std::alloc::{AllocError, Global};

/// Adds these pairs.
fn add_bounds(pairs: &mut List<Bound>, bounds: &[Bound]) -> Result<(), AllocError>
    ensures { OnOk result (pairs.new ≡ pairs.old ++ bounds.now) }
{
    for bound in bounds {
        pairs.push(*bound)?;
    }
    Ok(())
}

/// Adds what these types ask because they are formed.
fn add_implied_among(
    alloc: Global,
    pairs: &mut List<Bound>,
    implied: &Implied,
    types: &[Ty],
) -> Result<(), AllocError>
    ensures { OnOk result (pairs.new ≡ pairs.old ++ implied_among (pairs_of implied.now.items) (regions_of (map region-Ty types.now))) }
{
    for ty in types {
        add_implied_by(alloc, pairs, implied, ty)?;
    }
    Ok(())
}

/// The pairs of a signature: its bounds, and what its types ask.
#[tactic(auto, using(crate::proofs::Appending::appending))]
fn of_signature(
    alloc: Global,
    implied: &Implied,
    params: &[Ty],
    answer: &Ty,
    bounds: &[Bound],
) -> Result<List<Bound>, AllocError>
    ensures { IfOk result (λ it. it ≡ spec.of_signature (pairs_of implied.now.items) params.now answer.now bounds.now) }
{
    let mut pairs = List::new(alloc);
    add_bounds(&mut pairs, bounds)?;
    add_implied_among(alloc, &mut pairs, implied, params)?;
    add_implied_by(alloc, &mut pairs, implied, answer)?;
    Ok(pairs)
}

/// What an item declares, by its number.
pub(crate) fn item_of(items: &[Decl], number: u32) -> Option<&Decl>
    ensures { option_copied result ≡ slice_get items.now number }
{
    items.get(number as usize)
}

/// The pairs of an item; one that is no function has none.
pub(crate) fn said(
    alloc: Global,
    implied: &Implied,
    item: Option<&Decl>,
) -> Result<List<Bound>, AllocError>
    ensures { IfOk result (λ it. it ≡ spec.said (pairs_of implied.now.items) (option_copied item.entry)) }
{
    match item {
        Some(
            Decl::Func {
                lifetimes: _,
                params,
                answer,
                bounds,
            },
        ) => of_signature(alloc, implied, params.as_slice(), answer, bounds.as_slice()),
        _ => Ok(List::new(alloc)),
    }
}

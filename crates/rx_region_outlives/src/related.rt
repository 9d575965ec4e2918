//! Pairs of lifetimes that a type in the place of another asks.

ghost use Rattle.std.specs.Prelude.{◌≡◌, ◌++◌, [], OnOk, drop, map, slice_get};
ghost use Rattle.rx_typed.specs.Regions.{region-Ty, regions_of};
ghost use Rattle.rx_typed_declarations.specs.Variance.{variances_recorded};
ghost use Rattle.rx_region_outlives.specs.Related as spec;

use rx_core::{Bound, List, Ty};
use rx_typed::{Decl, Decls, Polarity};
use std::alloc::AllocError;

/// The polarities that an item has recorded.
fn recorded(items: &[Decl], item: u32) -> &[Polarity]
    ensures { result.now ≡ variances_recorded (slice_get items.now item) }
{
    match items.get(item as usize) {
        Some(Decl::Struct { variances, .. }) => variances.as_slice(),
        Some(Decl::Enum { variances, .. }) => variances.as_slice(),
        _ => &[],
    }
}

/// The polarity of the first of an item's lifetimes; what is past the end is covariant.
fn first_polarity(polarities: &[Polarity]) -> Polarity
    ensures { result ≡ spec.first_polarity polarities.now }
{
    match polarities.split_first() {
        Some((first, _)) => *first,
        None => Polarity::Co,
    }
}

/// The polarities of the others.
fn other_polarities(polarities: &[Polarity]) -> &[Polarity]
    ensures { result.now ≡ spec.other_polarities polarities.now }
{
    match polarities.split_first() {
        Some((_, others)) => others,
        None => &[],
    }
}

/// What is behind the first.
fn others<T>(items: &[T]) -> &[T]
    ensures { result.now ≡ drop 1 items.now }
{
    match items.split_first() {
        Some((_, others)) => others,
        None => &[],
    }
}

/// The polarity of a place within another.
fn within(outer: Polarity, inner: Polarity) -> Polarity
    ensures { result ≡ spec.within outer inner }
{
    match outer {
        Polarity::Co => inner,
        Polarity::Inv => Polarity::Inv,
    }
}

/// Adds what a lifetime in the place of another asks.
fn add_in_place(
    pairs: &mut List<Bound>,
    polarity: Polarity,
    held: u32,
    wanted: u32,
) -> Result<(), AllocError>
    ensures { OnOk result (pairs.new ≡ pairs.old ++ spec.in_place polarity held wanted) }
{
    pairs.push(Bound {
        long: held,
        short: wanted,
    })?;
    match polarity {
        Polarity::Co => Ok(()),
        Polarity::Inv => pairs.push(Bound {
            long: wanted,
            short: held,
        }),
    }
}

/// Adds what the first lifetime asks in the place of the first that is wanted.
#[tactic(auto, using(crate::proofs::Appending::appending))]
fn add_argument(
    pairs: &mut List<Bound>,
    polarity: Polarity,
    polarities: &[Polarity],
    held: u32,
    wanted: &[u32],
) -> Result<(), AllocError>
    ensures { OnOk result (pairs.new ≡ pairs.old ++ spec.argument polarity polarities.now held wanted.now) }
{
    match wanted.split_first() {
        Some((first, _)) => {
            let inner = within(polarity, first_polarity(polarities));
            add_in_place(pairs, inner, held, *first)
        }
        None => Ok(()),
    }
}

/// Adds what the lifetimes of a struct or enum in the places of others ask, by their polarities.
#[tactic(auto, using(crate::proofs::Appending::appending, crate::proofs::Steps::arguments_step))]
fn add_arguments(
    pairs: &mut List<Bound>,
    polarity: Polarity,
    polarities: &[Polarity],
    held: &[u32],
    wanted: &[u32],
) -> Result<(), AllocError>
    ensures { OnOk result (pairs.new ≡ pairs.old ++ spec.arguments polarity polarities.now held.now wanted.now) }
{
    let mut polarities = polarities;
    let mut wanted = wanted;
    for long in held {
        add_argument(pairs, polarity, polarities, *long, wanted)?;
        polarities = other_polarities(polarities);
        wanted = others(wanted);
    }
    Ok(())
}

/// Adds what a type in the place of another asks.
#[cycle(related)]
#[tactic(auto, using(rx_typed::proofs::TypedRules::region_rules, crate::proofs::Appending::appending))]
fn add_related(
    pairs: &mut List<Bound>,
    items: &[Decl],
    polarity: Polarity,
    held: &Ty,
    wanted: &Ty,
) -> Result<(), AllocError>
    ensures { OnOk result (pairs.new ≡ pairs.old ++ spec.related (λ i. variances_recorded (slice_get items.now i)) polarity (region-Ty held.now) (region-Ty wanted.now)) }
{
    match held {
        Ty::Int(_) | Ty::Bool => Ok(()),
        Ty::Tuple(held) => match wanted {
            Ty::Tuple(wanted) => add_all_related(
                pairs,
                items,
                polarity,
                held.as_slice(),
                wanted.as_slice(),
            ),
            Ty::Int(_) | Ty::Bool | Ty::Shared(_, _) | Ty::Mut(_, _) | Ty::Adt(_, _) => Ok(()),
        },
        Ty::Shared(long, held) => match wanted {
            Ty::Shared(short, wanted) => {
                add_in_place(pairs, polarity, *long, *short)?;
                add_related(pairs, items, polarity, held.get(), wanted.get())
            }
            Ty::Int(_) | Ty::Bool | Ty::Tuple(_) | Ty::Mut(_, _) | Ty::Adt(_, _) => Ok(()),
        },
        Ty::Mut(long, held) => match wanted {
            Ty::Mut(short, wanted) => {
                add_in_place(pairs, polarity, *long, *short)?;
                add_related(pairs, items, Polarity::Inv, held.get(), wanted.get())
            }
            Ty::Int(_) | Ty::Bool | Ty::Tuple(_) | Ty::Shared(_, _) | Ty::Adt(_, _) => Ok(()),
        },
        Ty::Adt(item, held) => match wanted {
            Ty::Adt(_, wanted) => add_arguments(
                pairs,
                polarity,
                recorded(items, *item),
                held.as_slice(),
                wanted.as_slice(),
            ),
            Ty::Int(_) | Ty::Bool | Ty::Tuple(_) | Ty::Shared(_, _) | Ty::Mut(_, _) => Ok(()),
        },
    }
}

/// Adds what a type asks in the place of the first that is wanted.
#[cycle(related)]
#[tactic(auto, using(rx_typed::proofs::TypedRules::region_rules, crate::proofs::Appending::appending))]
fn add_first_related(
    pairs: &mut List<Bound>,
    items: &[Decl],
    polarity: Polarity,
    held: &Ty,
    wanted: &[Ty],
) -> Result<(), AllocError>
    ensures { OnOk result (pairs.new ≡ pairs.old ++ spec.first_related (λ i. variances_recorded (slice_get items.now i)) polarity (region-Ty held.now) (regions_of (map region-Ty wanted.now))) }
{
    match wanted.split_first() {
        Some((first, _)) => add_related(pairs, items, polarity, held, first),
        None => Ok(()),
    }
}

/// Adds what types in the places of others ask, one by one.
#[cycle(related)]
#[tactic(auto, using(rx_typed::proofs::TypedRules::region_rules, crate::proofs::Appending::appending, crate::proofs::Steps::all_related_step))]
fn add_all_related(
    pairs: &mut List<Bound>,
    items: &[Decl],
    polarity: Polarity,
    held: &[Ty],
    wanted: &[Ty],
) -> Result<(), AllocError>
    ensures { OnOk result (pairs.new ≡ pairs.old ++ spec.all_related (λ i. variances_recorded (slice_get items.now i)) polarity (regions_of (map region-Ty held.now)) (regions_of (map region-Ty wanted.now))) }
{
    let mut wanted = wanted;
    for ty in held {
        add_first_related(pairs, items, polarity, ty, wanted)?;
        wanted = others(wanted);
    }
    Ok(())
}

/// Adds what is asked where a value of the type `held` is written where the type `wanted` is: pairs of lifetimes, the one that
/// outlives first, in the order in which they stand in the types (RFC 2094, "Subtyping").
///
/// # Errors
///
/// Memory runs out.
pub fn add_subtypes(
    pairs: &mut List<Bound>,
    decls: &Decls,
    held: &Ty,
    wanted: &Ty,
) -> Result<(), AllocError>
    ensures { OnOk result (pairs.new ≡ pairs.old ++ spec.subtypes (λ i. variances_recorded (slice_get decls.now.items i)) (region-Ty held.now) (region-Ty wanted.now)) }
{
    add_related(pairs, decls.items.as_slice(), Polarity::Co, held, wanted)
}

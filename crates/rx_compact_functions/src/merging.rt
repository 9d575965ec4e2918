//! The names that stand for those of lifetimes which are equal by what is known.

ghost use Rattle.std.specs.Prelude.{◌≡◌, Some as SomeOf, IfOk};
ghost use Rattle.rx_compact_lifetimes.specs.Merged as merged;
ghost use Rattle.rx_compact_known.specs.Knowing.{knows};

use rx_compact_known::KnownLifetimes;
use rx_compact_lifetimes::Rewriting;
use rx_core::{List, Name, keep, pushed};
use rx_tree::BoundLifetime;
use std::alloc::{AllocError, Global};

/// Whether two lifetimes are known to outlive each other.
fn are_equal(known: &KnownLifetimes, one: usize, other: usize) -> bool
    ensures { result ≡ merged.are_equal (knows known.now) one other }
{
    known.outlives(one, other) && known.outlives(other, one)
}

/// The name of the first of these lifetimes that is equal to the one of a number, or this name where there is none.
fn first_equal<'f>(
    known: &KnownLifetimes,
    number: usize,
    lifetimes: &'f [BoundLifetime],
    name: &'f Name,
) -> &'f Name
    ensures { result.now ≡ merged.first_equal (knows known.now) number 0 lifetimes.now name.now }
{
    for k in 0..lifetimes.len() {
        let lifetime = &lifetimes[k];
        if are_equal(known, number, k) {
            return &lifetime.name.name;
        }
    }
    name
}

/// What stands for the lifetime of a number and this name.
fn merging(
    alloc: Global,
    known: &KnownLifetimes,
    number: usize,
    lifetimes: &[BoundLifetime],
    name: &Name,
) -> Result<Rewriting, AllocError>
    ensures { IfOk result (λ it. it ≡ record { name = name.now; becomes = SomeOf (merged.first_equal (knows known.now) number 0 lifetimes.now name.now) }) }
{
    let first = first_equal(known, number, lifetimes, name).copy(alloc)?;
    let (name, first) = keep(first, name.copy(alloc))?;
    Ok(Rewriting {
        name,
        becomes: Some(first),
    })
}

/// The names that stand for those of these lifetimes, each that of the first which is equal to it by what is known.
///
/// # Errors
///
/// Memory runs out.
pub fn mergings(
    alloc: Global,
    known: &KnownLifetimes,
    lifetimes: &[BoundLifetime],
) -> Result<List<Rewriting>, AllocError>
    ensures { IfOk result (λ it. it ≡ merged.mergings (knows known.now) lifetimes.now 0 lifetimes.now) }
{
    let mut all = List::new(alloc);
    for number in 0..lifetimes.len() {
        let lifetime = &lifetimes[number];
        let outcome = merging(alloc, known, number, lifetimes, &lifetime.name.name);
        let (next, held) = keep(all, outcome)?;
        all = pushed(held, next)?;
    }
    Ok(all)
}

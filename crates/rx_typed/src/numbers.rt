//! Numbers for lifetimes that are open.

ghost use Rattle.std.specs.Prelude.{◌≡◌, ◌+◌, length, map, IfOk, OnOk};
ghost use Rattle.rx_typed.specs.Regions.{lifetimes_in, lifetimes_among, region-Ty, regions_of, region_reference};
ghost use Rattle.rx_typed.specs.Numbers as spec;

use rx_core::{Boxed, List, Ty, keep, pushed};
use std::alloc::{AllocError, Global};

/// The sum, or the greatest number.
fn add(a: u64, b: u64) -> u64
    ensures { result ≡ spec.capped (a + b) }
{
    a.saturating_add(b)
}

/// A number and the lifetimes that stand in a type, or the greatest number.
#[cycle(count)]
#[tactic(auto, using(crate::proofs::TypedRules::region_rules))]
pub fn count(before: u64, ty: &Ty) -> u64
    ensures { result ≡ spec.capped (before + length (lifetimes_in (region-Ty ty.now))) }
{
    match ty {
        Ty::Int(_) | Ty::Bool => before,
        Ty::Tuple(parts) => count_all(before, parts.as_slice()),
        Ty::Shared(_, inner) => count(add(before, 1), inner.get()),
        Ty::Mut(_, inner) => count(add(before, 1), inner.get()),
        Ty::Adt(_, lifetimes) => add(before, lifetimes.len() as u64),
    }
}

#[cycle(count)]
fn count_all(before: u64, parts: &[Ty]) -> u64
    ensures { result ≡ spec.capped (before + length (lifetimes_among (regions_of (map region-Ty parts.now)))) }
{
    let mut total = before;
    for part in parts {
        total = count(total, part);
    }
    total
}

/// A lifetime, or the next number where it is open.
fn number(from: u32, lifetime: u32, next: &mut u32) -> Result<u32, AllocError>
    ensures number { IfOk result (λ it. it ≡ spec.number from next.old lifetime) }
    ensures next { OnOk result (next.new ≡ next.old + spec.open_one from lifetime) }
{
    if lifetime < from {
        return Ok(lifetime);
    }
    let number = *next;
    match number.checked_add(1) {
        Some(behind) => {
            *next = behind;
            Ok(number)
        }
        None => Err(AllocError),
    }
}

fn numbers(
    alloc: Global,
    lifetimes: &[u32],
    from: u32,
    next: &mut u32,
) -> Result<List<u32>, AllocError>
    ensures numbers { IfOk result (λ it. it ≡ spec.numbers from next.old lifetimes.now) }
    ensures next { OnOk result (next.new ≡ next.old + spec.open_among from lifetimes.now) }
{
    let mut all = List::new(alloc);
    for lifetime in lifetimes {
        all.push(number(from, *lifetime, next)?)?;
    }
    Ok(all)
}

/// A reference to this type.
#[tactic(auto, using(crate::proofs::TypedRules::region_rules))]
pub fn reference(alloc: Global, mutable: bool, lifetime: u32, inner: Ty) -> Result<Ty, AllocError>
    ensures { IfOk result (λ it. region-Ty it ≡ region_reference mutable lifetime (region-Ty inner)) }
{
    let inner = Boxed::new(alloc, inner)?;
    if mutable {
        Ok(Ty::Mut(lifetime, inner))
    } else {
        Ok(Ty::Shared(lifetime, inner))
    }
}

/// The type, in which each lifetime from this number on has a number of its own, from the next one on, in the order in
/// which they stand in it. There are fewer than 2^32 - 1 numbers: behind them memory runs out.
#[cycle(numbered)]
#[tactic(auto, using(crate::proofs::TypedRules::region_rules))]
pub fn numbered(alloc: Global, ty: &Ty, from: u32, next: &mut u32) -> Result<Ty, AllocError>
    ensures numbered { IfOk result (λ it. region-Ty it ≡ spec.numbered from next.old (region-Ty ty.now)) }
    ensures next { OnOk result (next.new ≡ next.old + spec.open_in from (region-Ty ty.now)) }
{
    match ty {
        Ty::Int(kind) => Ok(Ty::Int(*kind)),
        Ty::Bool => Ok(Ty::Bool),
        Ty::Tuple(parts) => Ok(Ty::Tuple(all_numbered(alloc, parts.as_slice(), from, next)?)),
        Ty::Shared(lifetime, inner) => {
            let lifetime = number(from, *lifetime, next)?;
            let inner = numbered(alloc, inner.get(), from, next)?;
            reference(alloc, false, lifetime, inner)
        }
        Ty::Mut(lifetime, inner) => {
            let lifetime = number(from, *lifetime, next)?;
            let inner = numbered(alloc, inner.get(), from, next)?;
            reference(alloc, true, lifetime, inner)
        }
        Ty::Adt(item, lifetimes) => {
            let lifetimes = numbers(alloc, lifetimes.as_slice(), from, next)?;
            Ok(Ty::Adt(*item, lifetimes))
        }
    }
}

#[cycle(numbered)]
fn all_numbered(
    alloc: Global,
    parts: &[Ty],
    from: u32,
    next: &mut u32,
) -> Result<List<Ty>, AllocError>
    ensures numbered { IfOk result (λ it. regions_of (map region-Ty it) ≡ spec.all_numbered from next.old (regions_of (map region-Ty parts.now))) }
    ensures next { OnOk result (next.new ≡ next.old + spec.open_in_all from (regions_of (map region-Ty parts.now))) }
{
    let mut all = List::new(alloc);
    for part in parts {
        let (one, held) = keep(all, numbered(alloc, part, from, next))?;
        all = pushed(held, one)?;
    }
    Ok(all)
}

//! The lifetimes in types.

ghost use Rattle.std.specs.Prelude.{◌≡◌, ◌++◌, ◌<◌, ◌≤◌, ℕ, map, IfOk, OnOk};
ghost use Rattle.rx_graph_cycles.specs.Reaches.{IsIn};
ghost use Rattle.rx_typed.specs.Regions.{region-Ty, regions_of, lifetimes_in, lifetimes_among};
ghost use Rattle.rx_region.specs.Seeds as spec;

use rx_core::{List, Ty};
use std::alloc::{AllocError, Global};

fn add_all(lifetimes: &mut List<u32>, list: &[u32]) -> Result<(), AllocError>
    ensures { OnOk result (lifetimes.new ≡ lifetimes.old ++ list.now) }
{
    for lifetime in list {
        lifetimes.push(*lifetime)?;
    }
    Ok(())
}

/// Adds the lifetimes in a type, in order.
#[cycle(lifetimes)]
#[tactic(auto, using(rx_typed::proofs::TypedRules::region_rules, crate::proofs::Rules::appending))]
fn add_lifetimes(lifetimes: &mut List<u32>, ty: &Ty) -> Result<(), AllocError>
    ensures { OnOk result (lifetimes.new ≡ lifetimes.old ++ lifetimes_in (region-Ty ty.now)) }
{
    match ty {
        Ty::Int(_) | Ty::Bool => Ok(()),
        Ty::Tuple(parts) => add_lifetimes_among(lifetimes, parts.as_slice()),
        Ty::Shared(lifetime, inner) | Ty::Mut(lifetime, inner) => {
            lifetimes.push(*lifetime)?;
            add_lifetimes(lifetimes, inner.get())
        }
        Ty::Adt(_, list) => add_all(lifetimes, list.as_slice()),
    }
}

/// Adds those in these types.
#[cycle(lifetimes)]
fn add_lifetimes_among(lifetimes: &mut List<u32>, types: &[Ty]) -> Result<(), AllocError>
    ensures { OnOk result (lifetimes.new ≡ lifetimes.old ++ lifetimes_among (regions_of (map region-Ty types.now))) }
{
    for ty in types {
        add_lifetimes(lifetimes, ty)?;
    }
    Ok(())
}

/// The lifetimes in a type, in order.
pub fn lifetimes_of(alloc: Global, ty: &Ty) -> Result<List<u32>, AllocError>
    ensures { IfOk result (λ it. it ≡ lifetimes_in (region-Ty ty.now)) }
{
    let mut lifetimes = List::new(alloc);
    add_lifetimes(&mut lifetimes, ty)?;
    Ok(lifetimes)
}

/// The greater of a number and the one behind a lifetime.
fn behind(least: usize, lifetime: u32) -> usize
    ensures more { least ≤ result }
    ensures within { lifetime < result }
{
    let lifetime = lifetime as usize;
    if least <= lifetime {
        lifetime + 1
    } else {
        least
    }
}

fn behind_all(least: usize, lifetimes: &[u32]) -> usize
    ensures more { least ≤ result }
    ensures within { (l : ℕ) → IsIn lifetimes.now l → l < result }
{
    let mut count = least;
    for k in 0..lifetimes.len() {
        count = behind(count, lifetimes[k]);
    }
    count
}

fn behind_type(alloc: Global, least: usize, ty: &Ty) -> Result<usize, AllocError>
    ensures more { IfOk result (λ it. least ≤ it) }
    ensures within { IfOk result (λ it. (l : ℕ) → IsIn (lifetimes_in (region-Ty ty.now)) l → l < it) }
{
    let lifetimes = lifetimes_of(alloc, ty)?;
    Ok(behind_all(least, lifetimes.as_slice()))
}

/// At least a number, and more than each lifetime in these types.
pub fn behind_types(alloc: Global, least: usize, types: &[Ty]) -> Result<usize, AllocError>
    ensures more { IfOk result (λ it. least ≤ it) }
    ensures within { IfOk result (λ it. spec.AllBelow types.now it) }
{
    let mut count = least;
    for k in 0..types.len() {
        count = behind_type(alloc, count, &types[k])?;
    }
    Ok(count)
}

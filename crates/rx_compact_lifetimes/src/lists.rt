//! The list of a function's lifetimes, where several have become one.

ghost use Rattle.std.specs.Prelude.{◌≡◌, ◌∷◌, [], IfOk, map};
ghost use Rattle.std.specs.Option.{option_copied};
ghost use Rattle.rx_hoist_extraction.specs.Names as names_of;
ghost use Rattle.rx_hoist_extraction.specs.NewFunction.{firsts_of};
ghost use Rattle.rx_hoist_extraction.specs.OwnLifetimes.{idents};
ghost use Rattle.rx_compact_lifetimes.specs.Merged as merged;
ghost use Rattle.rx_compact_lifetimes.specs.Rewritten as rewritten;
ghost use Rattle.rx_compact_lifetimes.specs.Steps as steps;

use crate::rewriting::Rewriting;
use crate::types::{becomes, is_same};
use rx_core::{List, Name, keep, pushed};
use rx_tree::{BoundLifetime, Ident};
use std::alloc::{AllocError, Global};

// ---- renaming

/// A lifetime with this name, at its place; with its own where none is told.
fn ident_or(alloc: Global, lifetime: &Ident, name: Option<&Name>) -> Result<Ident, AllocError>
    ensures { IfOk result (λ it. it ≡ rewritten.ident_or lifetime.now (option_copied name.entry)) }
{
    match name {
        Some(name) => Ok(Ident {
            span: lifetime.span,
            name: name.copy(alloc)?,
        }),
        None => lifetime.copy(alloc),
    }
}

fn renamed_idents(
    alloc: Global,
    rewritings: &[Rewriting],
    lifetimes: &[Ident],
) -> Result<List<Ident>, AllocError>
    ensures { IfOk result (λ it. it ≡ map (rewritten.renamed_ident rewritings.now) lifetimes.now) }
{
    let mut all = List::new(alloc);
    for lifetime in lifetimes {
        let outcome = ident_or(alloc, lifetime, becomes(rewritings, &lifetime.name));
        let (next, held) = keep(all, outcome)?;
        all = pushed(held, next)?;
    }
    Ok(all)
}

fn renamed_bound(
    alloc: Global,
    rewritings: &[Rewriting],
    lifetime: &BoundLifetime,
) -> Result<BoundLifetime, AllocError>
    ensures { IfOk result (λ it. it ≡ rewritten.renamed_bound rewritings.now lifetime.now) }
{
    let bounds = renamed_idents(alloc, rewritings, lifetime.bounds.as_slice())?;
    let outcome = ident_or(
        alloc,
        &lifetime.name,
        becomes(rewritings, &lifetime.name.name),
    );
    let (name, bounds) = keep(bounds, outcome)?;
    Ok(BoundLifetime { name, bounds })
}

/// A list of lifetimes with other names, in it and in its bounds.
///
/// # Errors
///
/// Memory runs out.
pub fn renamed_list(
    alloc: Global,
    rewritings: &[Rewriting],
    lifetimes: &[BoundLifetime],
) -> Result<List<BoundLifetime>, AllocError>
    ensures { IfOk result (λ it. it ≡ map (rewritten.renamed_bound rewritings.now) lifetimes.now) }
{
    let mut all = List::new(alloc);
    for lifetime in lifetimes {
        let (next, held) = keep(all, renamed_bound(alloc, rewritings, lifetime))?;
        all = pushed(held, next)?;
    }
    Ok(all)
}

// ---- joining

/// Whether one of the lifetimes has this name.
pub fn has_name(name: &Name, lifetimes: &[Ident]) -> bool
    ensures { result ≡ names_of.is_among name.now (idents lifetimes.now) }
{
    for lifetime in lifetimes {
        if is_same(name, &lifetime.name) {
            return true;
        }
    }
    false
}

/// Whether a lifetime of this name is declared.
pub fn is_declared(name: &Name, lifetimes: &[BoundLifetime]) -> bool
    ensures { result ≡ names_of.is_among name.now (steps.names lifetimes.now) }
{
    for lifetime in lifetimes {
        if is_same(name, &lifetime.name.name) {
            return true;
        }
    }
    false
}

/// The bounds of a lifetime, and one more where it is on another and new.
fn with_bound(
    alloc: Global,
    bounds: List<Ident>,
    name: &Name,
    bound: &Ident,
) -> Result<List<Ident>, AllocError>
    ensures { IfOk result (λ it. it ≡ steps.with_bound name.now bounds bound.now) }
{
    if is_same(&bound.name, name) || has_name(&bound.name, bounds.as_slice()) {
        return Ok(bounds);
    }
    let (copy, bounds) = keep(bounds, bound.copy(alloc))?;
    pushed(bounds, copy)
}

fn with_bounds(
    alloc: Global,
    bounds: List<Ident>,
    name: &Name,
    more: &[Ident],
) -> Result<List<Ident>, AllocError>
    ensures { IfOk result (λ it. it ≡ steps.with_bounds name.now bounds more.now) }
{
    let mut all = bounds;
    for bound in more {
        all = with_bound(alloc, all, name, bound)?;
    }
    Ok(all)
}

/// The bounds of a lifetime, and those that this one has for its name.
fn with_bounds_if(
    alloc: Global,
    bounds: List<Ident>,
    name: &Name,
    lifetime: &BoundLifetime,
) -> Result<List<Ident>, AllocError>
    ensures { IfOk result (λ it. it ≡ steps.with_bounds name.now bounds (steps.bounds_if name.now lifetime.now)) }
{
    if is_same(name, &lifetime.name.name) {
        return with_bounds(alloc, bounds, name, lifetime.bounds.as_slice());
    }
    Ok(bounds)
}

/// The bounds on others that a list has for a name, each once.
fn bounds_of(
    alloc: Global,
    name: &Name,
    lifetimes: &[BoundLifetime],
) -> Result<List<Ident>, AllocError>
    ensures { IfOk result (λ it. it ≡ firsts_of (name.now ∷ []) (merged.bounds_for name.now lifetimes.now)) }
{
    let mut all = List::new(alloc);
    for lifetime in lifetimes {
        all = with_bounds_if(alloc, all, name, lifetime)?;
    }
    Ok(all)
}

fn joined_lifetime(
    alloc: Global,
    lifetimes: &[BoundLifetime],
    name: &Ident,
) -> Result<BoundLifetime, AllocError>
    ensures { IfOk result (λ it. it ≡ merged.joined_lifetime lifetimes.now name.now) }
{
    let bounds = bounds_of(alloc, &name.name, lifetimes)?;
    let (name, bounds) = keep(bounds, name.copy(alloc))?;
    Ok(BoundLifetime { name, bounds })
}

/// The lifetimes, and one more where its name is new.
fn with_joined(
    alloc: Global,
    all: List<BoundLifetime>,
    lifetimes: &[BoundLifetime],
    name: &Ident,
) -> Result<List<BoundLifetime>, AllocError>
    ensures { IfOk result (λ it. it ≡ steps.with_joined lifetimes.now all name.now) }
{
    if is_declared(&name.name, all.as_slice()) {
        return Ok(all);
    }
    let (next, all) = keep(all, joined_lifetime(alloc, lifetimes, name))?;
    pushed(all, next)
}

/// A list in which each name stands once, with all bounds on others that are written for it, each once.
///
/// # Errors
///
/// Memory runs out.
pub fn joined_list(
    alloc: Global,
    lifetimes: &[BoundLifetime],
) -> Result<List<BoundLifetime>, AllocError>
    ensures { IfOk result (λ it. it ≡ merged.joined_list lifetimes.now) }
{
    let mut all = List::new(alloc);
    for lifetime in lifetimes {
        all = with_joined(alloc, all, lifetimes, &lifetime.name)?;
    }
    Ok(all)
}

//! Types with other lifetimes.

ghost use Rattle.std.specs.Prelude.{◌≡◌, [], false, map, IfOk};
ghost use Rattle.rx_typed.specs.Regions.{region-Ty, regions_of, no_region};
ghost use Rattle.rx_typed.specs.Renaming as spec;
ghost use Rattle.rx_typed.specs.PlainSignature.{plain-Signature};

use crate::{Decl, Decls};
use rx_core::{Bound, Boxed, LetGo, List, Ty, keep, pushed};
use std::alloc::{AllocError, Global};

/// What stands in place of lifetimes.
#[derive(Drop)]
pub struct Arguments {
    /// Each lifetime itself, and not the one of its number in the list.
    pub own: bool,
    pub list: List<u32>,
}

/// The types of a function's parameters, its result, and its bounds.
#[derive(Drop)]
pub struct Signature {
    pub params: List<Ty>,
    pub answer: Ty,
    pub bounds: List<Bound>,
}

impl Arguments {
    fn of(&self, lifetime: u32) -> u32
        ensures { result ≡ spec.argument self.now lifetime }
    {
        if self.own {
            return lifetime;
        }
        match self.list.as_slice().get(lifetime as usize) {
            Some(argument) => *argument,
            None => 0,
        }
    }

    /// The same.
    pub fn copied(&self, alloc: Global) -> Result<Arguments, AllocError>
        ensures { IfOk result (λ it. it ≡ self.now) }
    {
        let list = List::from_slice(alloc, self.list.as_slice())?;
        Ok(Arguments {
            own: self.own,
            list,
        })
    }
}

/// Lifetimes, each by its argument.
pub fn rename_all(
    alloc: Global,
    lifetimes: &[u32],
    arguments: &Arguments,
) -> Result<List<u32>, AllocError>
    ensures { IfOk result (λ it. it ≡ map (spec.argument arguments.now) lifetimes.now) }
{
    let mut all = List::new(alloc);
    for lifetime in lifetimes {
        all.push(arguments.of(*lifetime))?;
    }
    Ok(all)
}

/// The type, in which each lifetime is its argument.
#[cycle(renamed)]
#[tactic(auto, using(crate::proofs::TypedRules::region_rules))]
pub fn renamed(alloc: Global, ty: &Ty, arguments: &Arguments) -> Result<Ty, AllocError>
    ensures { IfOk result (λ it. region-Ty it ≡ spec.renamed (spec.argument arguments.now) (region-Ty ty.now)) }
{
    match ty {
        Ty::Int(kind) => Ok(Ty::Int(*kind)),
        Ty::Bool => Ok(Ty::Bool),
        Ty::Tuple(parts) => Ok(Ty::Tuple(all_renamed(alloc, parts.as_slice(), arguments)?)),
        Ty::Shared(lifetime, inner) => {
            let inner = renamed(alloc, inner.get(), arguments)?;
            Ok(Ty::Shared(arguments.of(*lifetime), Boxed::new(alloc, inner)?))
        }
        Ty::Mut(lifetime, inner) => {
            let inner = renamed(alloc, inner.get(), arguments)?;
            Ok(Ty::Mut(arguments.of(*lifetime), Boxed::new(alloc, inner)?))
        }
        Ty::Adt(item, lifetimes) => {
            Ok(Ty::Adt(*item, rename_all(alloc, lifetimes.as_slice(), arguments)?))
        }
    }
}

#[cycle(renamed)]
pub fn all_renamed(
    alloc: Global,
    parts: &[Ty],
    arguments: &Arguments,
) -> Result<List<Ty>, AllocError>
    ensures { IfOk result (λ all. regions_of (map region-Ty all) ≡ spec.all_renamed (spec.argument arguments.now) (regions_of (map region-Ty parts.now))) }
{
    let mut all = List::new(alloc);
    for part in parts {
        let (one, held) = keep(all, renamed(alloc, part, arguments))?;
        all = pushed(held, one)?;
    }
    Ok(all)
}

fn bounds_renamed(
    alloc: Global,
    bounds: &[Bound],
    arguments: &Arguments,
) -> Result<List<Bound>, AllocError>
    ensures { IfOk result (λ it. it ≡ map (spec.bound_renamed (spec.argument arguments.now)) bounds.now) }
{
    let mut all = List::new(alloc);
    for bound in bounds {
        all.push(Bound {
            long: arguments.of(bound.long),
            short: arguments.of(bound.short),
        })?;
    }
    Ok(all)
}

/// So many numbers, from the next one on.
fn fresh(alloc: Global, count: u32, next: u32) -> Result<Arguments, AllocError>
    ensures { IfOk result (λ it. it ≡ record { own = false; list = spec.from next count }) }
{
    let mut list = List::new(alloc);
    if next > u32::MAX - count {
        return Err(AllocError);
    }
    for turn in 0..count {
        list.push(next + turn)?;
    }
    Ok(Arguments { own: false, list })
}

fn signature_with(
    alloc: Global,
    params: &[Ty],
    answer: &Ty,
    bounds: &[Bound],
    arguments: &Arguments,
) -> Result<Signature, AllocError>
    ensures { IfOk result (λ it. plain-Signature it ≡ spec.signature_with (spec.argument arguments.now) (regions_of (map region-Ty params.now)) (region-Ty answer.now) bounds.now) }
{
    let bounds = bounds_renamed(alloc, bounds, arguments)?;
    let params = all_renamed(alloc, params, arguments)?;
    let (answer, params) = keep(params, renamed(alloc, answer, arguments))?;
    Ok(Signature {
        params,
        answer,
        bounds,
    })
}

#[tactic(auto, using(crate::proofs::TypedRules::region_rules))]
fn no_signature(alloc: Global) -> Signature
    ensures { plain-Signature result ≡ record { params = no_region; answer = spec.unit_region; bounds = [] } }
{
    Signature {
        params: List::new(alloc),
        answer: Ty::Tuple(List::new(alloc)),
        bounds: List::new(alloc),
    }
}

/// The signature of a function, with lifetimes from the next number on. The numbers are below 2^32: else memory runs out.
/// An item that is no function has no parameters, and the unit as its result.
pub fn call_signature(
    alloc: Global,
    decls: &Decls,
    function: u32,
    next: u32,
) -> Result<Signature, AllocError>
    ensures { IfOk result (λ it. plain-Signature it ≡ spec.signature decls.now.items function next) }
{
    match decls.items.get(function as usize) {
        Some(decl) => match decl {
            Decl::Func {
                lifetimes,
                params,
                answer,
                bounds,
            } => {
                let arguments = fresh(alloc, *lifetimes, next)?;
                signature_with(
                    alloc,
                    params.as_slice(),
                    answer,
                    bounds.as_slice(),
                    &arguments,
                )
            }
            Decl::Rt | Decl::Struct { .. } | Decl::Enum { .. } => Ok(no_signature(alloc)),
        },
        None => Ok(no_signature(alloc)),
    }
}

impl LetGo for Signature {
    fn let_go(self) {
        self.params.let_go();
        self.answer.let_go();
        self.bounds.let_go();
    }
}

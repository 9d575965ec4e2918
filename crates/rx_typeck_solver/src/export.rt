//! The types that were found, as types of the code.

ghost use Rattle.std.specs.Prelude.{◌≡◌, map, slice_get, replicate, IfOk};
ghost use Rattle.rx_typed.specs.Types.{lifetimes_declared};
ghost use Rattle.rx_typed.specs.PlainTypes.{declarations};
ghost use Rattle.rx_typed.specs.Regions.{region-Ty, regions_of, region_reference, region_named};
ghost use Rattle.rx_typeck_solver.specs.Cells.{IsList};
ghost use Rattle.rx_typeck_solver.specs.Solving.{IsSound};
ghost use Rattle.rx_typeck_solver.specs.Views.{IsEntry, kind_found, typ_at, typs_at, unnumbered, all_unnumbered, EntryTyped, EntryWithin, TableTyped, Entered, IsFound};

use crate::arena::Form;
use crate::kinds::pick;
use crate::last::{parent_at, set_at};
use crate::solver::Solved;
use rx_core::{Boxed, Kind, List, Ty, keep, pushed};
use rx_typed::Decl;
use std::alloc::{AllocError, Global};

/// The types that were found, by the numbers of variables and nodes; each lifetime in them has the number 0.
#[derive(Drop)]
pub struct Found {
    pub variables: List<Option<Ty>>,
    pub nodes: List<Option<Ty>>,
    /// Those that the places of nodes expect.
    pub expected: List<Option<Ty>>,
}

/// How many lifetimes an item declares.
#[tactic(auto, using(crate::proofs::Lookups::lookup_rules))]
fn lifetimes_of(items: &List<Decl>, item: u32) -> u32
    ensures { result ≡ lifetimes_declared (slice_get (declarations items.now) item) }
{
    match items.get(item as usize) {
        Some(decl) => match decl {
            Decl::Struct { lifetimes, .. } => *lifetimes,
            Decl::Enum { lifetimes, .. } => *lifetimes,
            _ => 0,
        },
        None => 0,
    }
}

/// So many zeros.
fn zeros(alloc: Global, count: u32) -> Result<List<u32>, AllocError>
    ensures { IfOk result (λ it. it ≡ replicate count 0) }
{
    let mut zeros = Vec::new(alloc);
    for _zero in 0..count {
        zeros.push(0)?;
    }
    Ok(List::from_vec(zeros))
}

/// A struct or enum, in which each lifetime has the number 0.
#[tactic(auto, using(rx_typed::proofs::TypedRules::region_rules))]
fn named(alloc: Global, items: &List<Decl>, item: u32) -> Result<Ty, AllocError>
    ensures { IfOk result (λ it. region-Ty it ≡ region_named item (replicate (lifetimes_declared (slice_get (declarations items.now) item)) 0)) }
{
    let lifetimes = zeros(alloc, lifetimes_of(items, item))?;
    Ok(Ty::Adt(item, lifetimes))
}

/// A reference whose lifetime has the number 0.
#[tactic(auto, using(rx_typed::proofs::TypedRules::region_rules))]
fn reference(alloc: Global, mutable: bool, to: Ty) -> Result<Ty, AllocError>
    ensures { IfOk result (λ it. region-Ty it ≡ region_reference mutable 0 (region-Ty to)) }
{
    let to = Boxed::new(alloc, to)?;
    if mutable {
        Ok(Ty::Mut(0, to))
    } else {
        Ok(Ty::Shared(0, to))
    }
}

impl Solved {
    fn kind_of(&self, node: usize) -> Kind
        requires sound { IsSound self.now }
        ensures { result ≡ kind_found self.now node }
    {
        let class = parent_at(&self.tables.classes, node);
        pick(set_at(&self.tables.classes, class))
    }

    /// The type of an entry, in which each lifetime has the number 0.
    #[cycle(export)]
    #[tactic(auto, using(rx_typed::proofs::TypedRules::region_rules))]
    pub fn typ(&self, alloc: Global, items: &List<Decl>, entry: usize) -> Result<Ty, AllocError>
        requires sound { IsSound self.now }
        requires entry { IsEntry self.now entry }
        ensures { IfOk result (λ it. region-Ty it ≡ unnumbered (declarations items.now) (typ_at self.now entry)) }
    {
        match self.arena.form(entry) {
            Form::Fixed(kind) => Ok(Ty::Int(kind)),
            Form::KindOf(node) => Ok(Ty::Int(self.kind_of(node))),
            Form::Boolean => Ok(Ty::Bool),
            Form::Tuple(list) => {
                let parts = self.types(alloc, items, list)?;
                Ok(Ty::Tuple(parts))
            }
            Form::Reference(mutable, to) => {
                let to = self.typ(alloc, items, to)?;
                reference(alloc, mutable, to)
            }
            Form::Named(item) => named(alloc, items, item),
            // No entry of a type is a list.
            Form::Nothing => Ok(Ty::Tuple(List::new(alloc))),
            Form::And(_, _) => Ok(Ty::Tuple(List::new(alloc))),
        }
    }

    /// The types of a list.
    #[cycle(export)]
    fn types(&self, alloc: Global, items: &List<Decl>, list: usize) -> Result<List<Ty>, AllocError>
        requires sound { IsSound self.now }
        requires list { IsList self.now.arena.entries.items list }
        ensures { IfOk result (λ it. regions_of (map region-Ty it) ≡ all_unnumbered (declarations items.now) (typs_at self.now list)) }
    {
        let mut all = List::new(alloc);
        let mut at = list;
        while let Form::And(first, others) = self.arena.form(at) {
            let (ty, rest) = keep(all, self.typ(alloc, items, first))?;
            all = pushed(rest, ty)?;
            at = others;
        }
        Ok(all)
    }

    /// The types of a table's entries.
    fn types_in(
        &self,
        alloc: Global,
        items: &List<Decl>,
        table: &[Option<usize>],
    ) -> Result<List<Option<Ty>>, AllocError>
        requires sound { IsSound self.now }
        requires entries { Entered self.now table.now }
        ensures { IfOk result (λ it. TableTyped self.now (declarations items.now) table.now it) }
    {
        let mut all = List::new(alloc);
        for entry in table {
            let (ty, rest) = keep(all, self.typ_of(alloc, items, *entry))?;
            all = pushed(rest, ty)?;
        }
        Ok(all)
    }

    /// The type of an entry, if there is one.
    fn typ_of(
        &self,
        alloc: Global,
        items: &List<Decl>,
        entry: Option<usize>,
    ) -> Result<Option<Ty>, AllocError>
        requires sound { IsSound self.now }
        requires entry { EntryWithin self.now entry }
        ensures { IfOk result (λ it. EntryTyped self.now (declarations items.now) entry it) }
    {
        match entry {
            Some(entry) => {
                let ty = self.typ(alloc, items, entry)?;
                Ok(Some(ty))
            }
            None => Ok(None),
        }
    }

    /// All types that were found.
    pub fn found(&self, alloc: Global, items: &List<Decl>) -> Result<Found, AllocError>
        requires sound { IsSound self.now }
        ensures { IfOk result (λ it. IsFound self.now (declarations items.now) it) }
    {
        let variables = self.types_in(alloc, items, &self.tables.variables)?;
        let (nodes, variables) = keep(variables, self.types_in(alloc, items, &self.tables.nodes))?;
        let held = (variables, nodes);
        let (expected, (variables, nodes)) = keep(
            held,
            self.types_in(alloc, items, &self.tables.expected),
        )?;
        Ok(Found {
            variables,
            nodes,
            expected,
        })
    }
}

//! Initialisation of a function.

ghost use Rattle.std.specs.Prelude.{◌≡◌, ◌≤◌, ◌<◌, ◌↔◌, ℕ, length, map, true, IfOk, List as ListOf};
ghost use Rattle.rx_lower_walks.specs.PlainFlow.{plain-Place};
ghost use Rattle.rx_lower_walks.specs.Graph as graphs;
ghost use Rattle.rx_lower_walks.specs.PlainSite.{plain-Site};
ghost use Rattle.rx_graph.specs.Facts.{has};
ghost use Rattle.rx_facts_tables.specs.Layouts.{plain-Frame, IsSized, IsLayout};
ghost use Rattle.rx_facts_tables.specs.Initialised.{MayBeSet, MayBeUnset};
ghost use Rattle.rx_facts_tables.specs.Tables as tables;
ghost use Rattle.rx_facts_tables.specs.Answer.{IsFacts, IsInitTable, Answers};

use crate::acts::numbers;
use crate::facts::{Kind, Setup, table};
use crate::judging::{Facts, judge_all, some_at};
use crate::watching::watched;
use crate::{Frame, Layout, Range, layout, range};
use rx_core::{List, Place as Kept};
use rx_graph::{Few, Table};
use rx_lower_walks::{Place, Site};
use std::alloc::{AllocError, Global};

/// Why a function is not initialised.
#[derive(Drop)]
pub enum InitFault {
    /// At this node a place is read, borrowed or tested that some walk reaches unset, or a part of a place is written that
    /// some walk reaches unset or moved as a whole.
    Unset { node: usize, place: Kept },
    /// At this node a variable that isn't declared `mut` is assigned, and it was before on some walk.
    Again { node: usize, variable: u32 },
    OutOfMemory,
}

/// Which parts of variables may be set, and may be unset, at each site.
#[derive(Drop)]
pub struct InitTable {
    set: Table,
    unset: Table,
    layout: Layout,
}

impl InitTable {
    /// Whether some part of a place is set on some walk that comes to a site.
    pub fn may_be_set(&self, frame: &Frame<'_>, place: &Place, site: usize) -> bool
        requires sized { IsSized frame.now }
        requires layout { IsLayout (plain-Frame frame.now) self.now.layout }
        ensures { (g : ListOf graphs.Site) → IsInitTable (plain-Frame frame.now) g self.now → site < length g
            → (result ≡ true) ↔ MayBeSet (plain-Frame frame.now) g (plain-Place place.now) site }
    {
        some_at(&self.set, site, range(frame, &self.layout, place))
    }

    /// Whether some part of a place is unset on some walk that comes to a site.
    pub fn may_be_unset(&self, frame: &Frame<'_>, place: &Place, site: usize) -> bool
        requires sized { IsSized frame.now }
        requires layout { IsLayout (plain-Frame frame.now) self.now.layout }
        ensures { (g : ListOf graphs.Site) → IsInitTable (plain-Frame frame.now) g self.now → site < length g
            → (result ≡ true) ↔ MayBeUnset (plain-Frame frame.now) g (plain-Place place.now) site }
    {
        some_at(&self.unset, site, range(frame, &self.layout, place))
    }
}

/// The numbers below a bound.
fn all_below(alloc: Global, bound: u64) -> Result<Few<u32>, AllocError>
    requires { bound ≤ 4294967295 }
    ensures { IfOk result (λ it. (n : ℕ) → n < bound → has it n ≡ true) }
{
    numbers(
        alloc,
        Range {
            first: 0,
            count: bound,
        },
    )
}

/// The tables of a function.
fn facts(
    alloc: Global,
    setup: &Setup<'_>,
    sites: &[Site],
    variables: usize,
) -> Result<Facts, AllocError>
    requires { tables.IsSetup setup.now }
    ensures { IfOk result (λ t. IsFacts setup.now (map plain-Site sites.now) variables t) }
{
    let parts = setup.layout.total as usize;
    let places = setup.watched.len();
    let all_parts = all_below(alloc, setup.layout.total)?;
    let unset = table(alloc, setup, Kind::Unset, sites, all_parts, parts)?;
    let set = table(alloc, setup, Kind::Set, sites, Few::new(alloc), parts)?;
    let all_places = all_below(alloc, places as u64)?;
    let lost = table(alloc, setup, Kind::Lost, sites, all_places, places)?;
    let assigned = table(
        alloc,
        setup,
        Kind::Assigned,
        sites,
        Few::new(alloc),
        variables,
    )?;
    Ok(Facts {
        unset,
        set,
        lost,
        assigned,
    })
}

/// What the tables say, where it is known where the parts of variables are, and which places are watched.
fn judged(
    alloc: Global,
    frame: &Frame<'_>,
    layout: Layout,
    watched: List<Kept>,
    mutable: &[bool],
    sites: &[Site],
) -> Result<InitTable, InitFault>
    requires sized { IsSized frame.now }
    requires layout { IsLayout (plain-Frame frame.now) layout }
    requires few { length watched ≤ 4294967295 }
    requires kept { tables.KeepsForAll watched (map plain-Site sites.now) }
    ensures answers { Answers (plain-Frame frame.now) mutable.now (map plain-Site sites.now) result }
    ensures layout { IfOk result (λ t. IsLayout (plain-Frame frame.now) t.layout) }
{
    let setup = Setup {
        frame,
        layout: &layout,
        watched: watched.as_slice(),
    };
    match facts(alloc, &setup, sites, mutable.len()) {
        Ok(facts) => match judge_all(alloc, &setup, mutable, &facts, sites) {
            Ok(()) => Ok(InitTable {
                set: facts.set,
                unset: facts.unset,
                layout,
            }),
            Err(fault) => Err(fault),
        },
        Err(_) => Err(InitFault::OutOfMemory),
    }
}

/// Whether a function is initialised, by its sites; what may be set, and unset, at each. `frame` has the types of its
/// variables, and `mutable` says of each whether it is declared `mut`.
///
/// # Errors
///
/// A place that some walk reaches unset, or a variable that some walk assigns again; or memory runs out, also where
/// all variables have more than 2^32 - 1 parts.
pub fn init(
    alloc: Global,
    frame: &Frame<'_>,
    mutable: &[bool],
    sites: &[Site],
) -> Result<InitTable, InitFault>
    requires { IsSized frame.now }
    ensures answers { Answers (plain-Frame frame.now) mutable.now (map plain-Site sites.now) result }
    ensures layout { IfOk result (λ t. IsLayout (plain-Frame frame.now) t.layout) }
{
    match layout(alloc, frame) {
        Ok(layout) => match watched(alloc, sites) {
            Ok(watched) => judged(alloc, frame, layout, watched, mutable, sites),
            Err(_) => Err(InitFault::OutOfMemory),
        },
        Err(_) => Err(InitFault::OutOfMemory),
    }
}

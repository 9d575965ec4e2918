//! Tables of facts of the sites of a function.

ghost use Rattle.std.specs.Prelude.{◌≡◌, ◌≤◌, ℕ, length, map, IfOk};
ghost use Rattle.rx_lower_walks.specs.PlainFlow.{plain-Act, plain-Action};
ghost use Rattle.rx_graph.specs.Facts.{has};
ghost use Rattle.rx_lower_walks.specs.PlainSite.{plain-Site};
ghost use Rattle.rx_facts_tables.specs.Tracking.{EachDoes};
ghost use Rattle.rx_facts_tables.specs.Layouts.{plain-Frame, IsSized, IsLayout};
ghost use Rattle.rx_facts_tables.specs.Tables as tables;

use crate::acts::{assigned, begun, lost, regained, sets, unsets};
use crate::{Frame, Layout, along};
use rx_core::{List, Place};
use rx_graph::{Effect, Few, Table};
use rx_lower_walks::{Act, Action, Site};
use std::alloc::{AllocError, Global};

/// What the facts of a table are, by their numbers: of each part, whether it may be unset, or set; of each place that is
/// watched, whether it may be lost; of each variable, whether it may have been assigned.
#[derive(Clone, Copy)]
pub enum Kind {
    Unset,
    Set,
    Lost,
    Assigned,
}

/// What facts are told by: the types of variables, where their parts are, the places that are watched.
#[derive(Clone, Copy)]
pub struct Setup<'t> {
    pub frame: &'t Frame<'t>,
    pub layout: &'t Layout,
    pub watched: &'t [Place],
}

/// The list of a number, where there is one.
fn single(alloc: Global, number: Option<u32>) -> Few<u32>
    ensures { (i : ℕ) → has result i ≡ tables.is_it number i }
{
    match number {
        Some(number) => Few::one(alloc, number),
        None => Few::new(alloc),
    }
}

/// What an action makes true, of facts of a kind.
fn gives(alloc: Global, setup: &Setup<'_>, kind: Kind, act: &Act) -> Result<Few<u32>, AllocError>
    requires { tables.IsSetup setup.now }
    ensures { IfOk result (λ it. (i : ℕ) → has it i ≡ tables.given (plain-Frame setup.now.frame.now) setup.now.watched.now kind i (plain-Act act.now)) }
{
    match kind {
        Kind::Unset => unsets(alloc, setup.frame, setup.layout, act),
        Kind::Set => sets(alloc, setup.frame, setup.layout, act),
        Kind::Lost => lost(alloc, setup.watched, act),
        Kind::Assigned => Ok(single(alloc, assigned(act))),
    }
}

/// What an action makes false, of facts of a kind.
fn kills(alloc: Global, setup: &Setup<'_>, kind: Kind, act: &Act) -> Result<Few<u32>, AllocError>
    requires { tables.IsSetup setup.now }
    ensures { IfOk result (λ it. (i : ℕ) → has it i ≡ tables.killed (plain-Frame setup.now.frame.now) setup.now.watched.now kind i (plain-Act act.now)) }
{
    match kind {
        Kind::Unset => sets(alloc, setup.frame, setup.layout, act),
        Kind::Set => unsets(alloc, setup.frame, setup.layout, act),
        Kind::Lost => regained(alloc, setup.watched, act),
        Kind::Assigned => Ok(single(alloc, begun(act))),
    }
}

/// What an action does to facts of a kind.
fn effect(
    alloc: Global,
    setup: &Setup<'_>,
    kind: Kind,
    action: &Action,
) -> Result<Effect, AllocError>
    requires { tables.IsSetup setup.now }
    ensures { IfOk result (λ e. tables.DoesAt (tables.switches (plain-Frame setup.now.frame.now) setup.now.watched.now kind) e (plain-Action action.now)) }
{
    let kills = kills(alloc, setup, kind, &action.act)?;
    let gives = gives(alloc, setup, kind, &action.act)?;
    Ok(Effect { kills, gives })
}

/// What each site does to facts of a kind.
fn effects(
    alloc: Global,
    setup: &Setup<'_>,
    kind: Kind,
    sites: &[Site],
) -> Result<Vec<Effect>, AllocError>
    requires { tables.IsSetup setup.now }
    ensures { IfOk result (λ es. EachDoes (tables.DoesAt (tables.switches (plain-Frame setup.now.frame.now) setup.now.watched.now kind)) es.items (map plain-Site sites.now)) }
{
    let mut all = Vec::with_capacity(alloc, sites.len())?;
    for site in sites {
        let one = effect(alloc, setup, kind, &site.action)?;
        all.push(one)?;
    }
    Ok(all)
}

/// The table of facts of a kind below a bound, where these hold at the start. Where there are no facts it has no rows.
pub fn table(
    alloc: Global,
    setup: &Setup<'_>,
    kind: Kind,
    sites: &[Site],
    start: Few<u32>,
    bound: usize,
) -> Result<Table, AllocError>
    requires { tables.IsSetup setup.now }
    ensures { IfOk result (λ t. tables.Tells (map plain-Site sites.now) (tables.switches (plain-Frame setup.now.frame.now) setup.now.watched.now kind) (has start) bound t.rows) }
{
    if bound == 0 {
        return Ok(Table {
            rows: List::new(alloc),
        });
    }
    let effects = effects(alloc, setup, kind, sites)?;
    along(alloc, sites, effects.as_slice(), start, bound)
}

//! Tables of facts of the sites of a function.

ghost use Rattle.std.specs.Prelude.{◌≡◌, ◌≤◌, ◌<◌, ◌+◌, ℕ, map, true, false, IfOk, MatchBool};
ghost use Rattle.rx_lower_walks.specs.PlainFlow.{plain-Act, plain-Action};
ghost use Rattle.rx_graph.specs.Facts.{has};
ghost use Rattle.rx_lower_walks.specs.PlainSite.{plain-Site};
ghost use Rattle.rx_facts_tables.specs.Tracking.{EachDoes};
ghost use Rattle.rx_facts_tables.specs.Layouts.{plain-Frame};
ghost use Rattle.rx_facts_tables.specs.Tables as tables;
ghost use Rattle.rx_exits.specs.Facts as spec;

use crate::acts::{lost, numbers, regained, sets, unsets};
use crate::marks::MarkSite;
use rx_core::List;
use rx_facts_tables::{Frame, Layout, Range, along};
use rx_graph::{Effect, Few, Table};
use rx_lower_walks::{Act, Action, Site};
use std::alloc::{AllocError, Global};

/// What the facts of a table are, by their numbers: of each part, whether it may be unset, or set; of each variable, whether it
/// may be there as a whole.
#[derive(Clone, Copy)]
pub enum Kind {
    Unset,
    Set,
    Standing,
}

/// What facts are told by: the types of variables, where their parts are.
#[derive(Clone, Copy)]
pub struct Setup<'t> {
    pub frame: &'t Frame<'t>,
    pub layout: &'t Layout,
}

/// The tables of the sites of a function, by kinds of facts.
#[derive(Drop)]
pub struct Facts {
    pub unset: Table,
    pub set: Table,
    pub standing: Table,
}

/// The list of a number, where there is one.
fn single(alloc: Global, number: Option<u32>) -> Few<u32>
    ensures { (i : ℕ) → has result i ≡ tables.is_it number i }
{
    match number {
        Some(number) => Few::one(alloc, number),
        None => Few::new(alloc),
    }
}

/// What an action makes true, of facts of a kind.
fn gives(alloc: Global, setup: &Setup<'_>, kind: Kind, act: &Act) -> Result<Few<u32>, AllocError>
    requires { spec.IsSetup setup.now }
    ensures { IfOk result (λ it. (i : ℕ) → has it i ≡ spec.given (plain-Frame setup.now.frame.now) kind i (plain-Act act.now)) }
{
    match kind {
        Kind::Unset => unsets(alloc, setup, act),
        Kind::Set => sets(alloc, setup, act),
        Kind::Standing => Ok(single(alloc, regained(act))),
    }
}

/// What an action makes false, of facts of a kind.
fn kills(alloc: Global, setup: &Setup<'_>, kind: Kind, act: &Act) -> Result<Few<u32>, AllocError>
    requires { spec.IsSetup setup.now }
    ensures { IfOk result (λ it. (i : ℕ) → has it i ≡ spec.killed (plain-Frame setup.now.frame.now) kind i (plain-Act act.now)) }
{
    match kind {
        Kind::Unset => sets(alloc, setup, act),
        Kind::Set => unsets(alloc, setup, act),
        Kind::Standing => Ok(single(alloc, lost(act))),
    }
}

/// What an action does to facts of a kind.
fn effect(
    alloc: Global,
    setup: &Setup<'_>,
    kind: Kind,
    action: &Action,
) -> Result<Effect, AllocError>
    requires { spec.IsSetup setup.now }
    ensures { IfOk result (λ e. tables.DoesAt (spec.switches (plain-Frame setup.now.frame.now) kind) e (plain-Action action.now)) }
{
    let kills = kills(alloc, setup, kind, &action.act)?;
    let gives = gives(alloc, setup, kind, &action.act)?;
    Ok(Effect { kills, gives })
}

/// What each site does to facts of a kind.
fn effects(
    alloc: Global,
    setup: &Setup<'_>,
    kind: Kind,
    sites: &[Site],
) -> Result<Vec<Effect>, AllocError>
    requires { spec.IsSetup setup.now }
    ensures { IfOk result (λ es. EachDoes (tables.DoesAt (spec.switches (plain-Frame setup.now.frame.now) kind)) es.items (map plain-Site sites.now)) }
{
    let mut all = Vec::with_capacity(alloc, sites.len())?;
    for site in sites {
        let one = effect(alloc, setup, kind, &site.action)?;
        all.push(one)?;
    }
    Ok(all)
}

/// The table of facts of a kind below a bound, where these hold at the start. Where there are no facts it has no rows.
fn table(
    alloc: Global,
    setup: &Setup<'_>,
    kind: Kind,
    sites: &[Site],
    start: Few<u32>,
    bound: usize,
) -> Result<Table, AllocError>
    requires { spec.IsSetup setup.now }
    ensures { IfOk result (λ t. tables.Tells (map plain-Site sites.now) (spec.switches (plain-Frame setup.now.frame.now) kind) (has start) bound t.rows) }
{
    if bound == 0 {
        return Ok(Table {
            rows: List::new(alloc),
        });
    }
    let effects = effects(alloc, setup, kind, sites)?;
    along(alloc, sites, effects.as_slice(), start, bound)
}

/// All numbers below a bound.
fn all_below(alloc: Global, bound: u64) -> Result<Few<u32>, AllocError>
    requires { bound ≤ 4294967295 }
    ensures { IfOk result (λ it. (n : ℕ) → n < bound → has it n ≡ true) }
{
    numbers(
        alloc,
        Range {
            first: 0,
            count: bound,
        },
    )
}

/// The tables of a function, where the variables that are written as a whole have numbers below a bound.
pub fn all_facts(
    alloc: Global,
    setup: &Setup<'_>,
    sites: &[Site],
    variables: usize,
) -> Result<Facts, AllocError>
    requires { spec.IsSetup setup.now }
    ensures { IfOk result (λ t. spec.AreFacts setup.now (map plain-Site sites.now) variables t) }
{
    let parts = setup.layout.total as usize;
    let all_parts = all_below(alloc, setup.layout.total)?;
    let unset = table(alloc, setup, Kind::Unset, sites, all_parts, parts)?;
    let set = table(alloc, setup, Kind::Set, sites, Few::new(alloc), parts)?;
    let standing = table(
        alloc,
        setup,
        Kind::Standing,
        sites,
        Few::new(alloc),
        variables,
    )?;
    Ok(Facts {
        unset,
        set,
        standing,
    })
}

/// Whether some of these facts is true at a site.
fn some_at(table: &Table, site: usize, range: Range) -> bool
    requires { range.first + range.count ≤ 18446744073709551615 }
    ensures { MatchBool result (tables.SomeAt table.now.rows site range.first range.count)
        (tables.NoneAt table.now.rows site range.first range.count) }
{
    for n in range.first..range.first + range.count {
        if table.holds(site, n as usize) {
            return true;
        }
    }
    false
}

/// Whether a mark is one of a point, and some of these facts is true there.
fn is_there(table: &Table, mark: MarkSite, point: usize, range: Range) -> bool
    requires { range.first + range.count ≤ 18446744073709551615 }
    ensures { MatchBool result (mark.point ≡ point × tables.SomeAt table.now.rows mark.site range.first range.count)
        (mark.point ≡ point → tables.NoneAt table.now.rows mark.site range.first range.count) }
{
    mark.point == point && some_at(table, mark.site, range)
}

/// Whether some of these facts is true at some mark of a point.
pub fn some_there(table: &Table, marks: &[MarkSite], point: usize, range: Range) -> bool
    requires { range.first + range.count ≤ 18446744073709551615 }
    ensures { MatchBool result (spec.SomeThere table.now.rows marks.now point range.first range.count)
        (spec.NoneThere table.now.rows marks.now point range.first range.count) }
{
    for mark in marks {
        if is_there(table, *mark, point, range) {
            return true;
        }
    }
    false
}

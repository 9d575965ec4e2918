//! What is wrong with an action, by the tables.

ghost use Rattle.std.specs.Prelude.{◌≡◌, ◌≤◌, ◌+◌, ◌<◌, ℕ, length, map, true, false, IfOk, IfErr, MatchBool, Some};
ghost use Rattle.rx_lower_walks.specs.PlainFlow.{plain-Action};
ghost use Rattle.rx_lower_walks.specs.PlainSite.{plain-Site};
ghost use Rattle.rx_facts_tables.specs.Initialised.{IsFixed};
ghost use Rattle.rx_facts_tables.specs.Tables as tables;
ghost use Rattle.rx_facts_tables.specs.Judged as judged;

use crate::acts::{assigned, enters, looked_at};
use crate::facts::Setup;
use crate::whole::InitFault;
use crate::{Range, range};
use rx_core::{List, Place, Step};
use rx_graph::Table;
use rx_lower_walks::{Action, Root, Site};
use std::alloc::Global;

/// The tables of the sites of a function, by kinds of facts.
#[derive(Drop)]
pub struct Facts {
    pub unset: Table,
    pub set: Table,
    pub lost: Table,
    pub assigned: Table,
}

/// Whether some of these parts has the fact of its number at a site.
pub fn some_at(table: &Table, site: usize, range: Range) -> bool
    requires { range.first + range.count ≤ 4294967295 }
    ensures { MatchBool result (tables.SomeAt table.now.rows site range.first range.count)
        (tables.NoneAt table.now.rows site range.first range.count) }
{
    for n in range.first..range.first + range.count {
        if table.holds(site, n as usize) {
            return true;
        }
    }
    false
}

/// That a place is unset, or want of memory.
fn unset_at(alloc: Global, node: usize, variable: u32, steps: &[Step]) -> InitFault
    ensures { judged.Says result node variable steps.now }
{
    match List::from_slice(alloc, steps) {
        Ok(steps) => InitFault::Unset {
            node,
            place: Place {
                var: variable,
                steps,
            },
        },
        Err(_) => InitFault::OutOfMemory,
    }
}

/// The place that an action reads, borrows or tests is set.
fn look(
    alloc: Global,
    setup: &Setup<'_>,
    facts: &Facts,
    site: usize,
    action: &Action,
) -> Result<(), InitFault>
    requires { tables.IsSetup setup.now }
    ensures well { IfOk result (λ u. judged.Looks setup.now facts.now site (plain-Action action.now)) }
    ensures ill { IfErr result (λ e. judged.LooksIllAt setup.now facts.now site (plain-Action action.now) e) }
{
    match looked_at(&action.act) {
        Some(place) => match place.root {
            Root::Variable(variable) => {
                if some_at(&facts.unset, site, range(setup.frame, setup.layout, place)) {
                    return Err(unset_at(alloc, action.node, variable, place.steps.as_slice()));
                }
                Ok(())
            }
            Root::Temporary(_) => Ok(()),
        },
        None => Ok(()),
    }
}

/// The places that an action writes a part of are there.
fn enter(
    alloc: Global,
    setup: &Setup<'_>,
    facts: &Facts,
    site: usize,
    action: &Action,
) -> Result<(), InitFault>
    ensures well { IfOk result (λ u. judged.Enters setup.now facts.now site (plain-Action action.now)) }
    ensures ill { IfErr result (λ e. judged.EntersIllAt setup.now facts.now site (plain-Action action.now) e) }
{
    for k in 0..setup.watched.len() {
        let place = &setup.watched[k];
        if enters(place, &action.act) && facts.lost.holds(site, k) {
            return Err(unset_at(alloc, action.node, place.var, place.steps.as_slice()));
        }
    }
    Ok(())
}

/// Whether a variable is not declared `mut`.
fn is_fixed(mutable: &[bool], variable: u32) -> bool
    ensures { MatchBool result (IsFixed mutable.now variable) (IsFixed mutable.now variable → ⊥) }
{
    match mutable.get(variable as usize) {
        Some(mutable) => !*mutable,
        None => false,
    }
}

/// The variable that an action assigns was not assigned, or is declared `mut`.
fn assign(mutable: &[bool], facts: &Facts, site: usize, action: &Action) -> Result<(), InitFault>
    ensures well { IfOk result (λ u. judged.Assigns mutable.now facts.now site (plain-Action action.now)) }
    ensures ill { IfErr result (λ e. judged.AssignsIllAt mutable.now facts.now site (plain-Action action.now) e) }
{
    match assigned(&action.act) {
        Some(variable) => {
            if is_fixed(mutable, variable) && facts.assigned.holds(site, variable as usize) {
                return Err(InitFault::Again {
                    node: action.node,
                    variable,
                });
            }
            Ok(())
        }
        None => Ok(()),
    }
}

/// An action is in order at its site.
fn judge(
    alloc: Global,
    setup: &Setup<'_>,
    mutable: &[bool],
    facts: &Facts,
    site: usize,
    action: &Action,
) -> Result<(), InitFault>
    requires { tables.IsSetup setup.now }
    ensures well { IfOk result (λ u. judged.Well setup.now mutable.now facts.now site (plain-Action action.now)) }
    ensures ill { IfErr result (λ e. judged.Ill setup.now mutable.now facts.now site (plain-Action action.now) e) }
{
    look(alloc, setup, facts, site, action)?;
    enter(alloc, setup, facts, site, action)?;
    assign(mutable, facts, site, action)
}

/// All actions are in order at their sites; else what is wrong with the first that isn't.
pub fn judge_all(
    alloc: Global,
    setup: &Setup<'_>,
    mutable: &[bool],
    facts: &Facts,
    sites: &[Site],
) -> Result<(), InitFault>
    requires { tables.IsSetup setup.now }
    ensures well { IfOk result (λ u. judged.AllWell setup.now mutable.now facts.now (map plain-Site sites.now)) }
    ensures ill { IfErr result (λ e. judged.SomeIll setup.now mutable.now facts.now (map plain-Site sites.now) e) }
{
    for i in 0..sites.len() {
        match judge(alloc, setup, mutable, facts, i, &sites[i].action) {
            Ok(()) => (),
            Err(fault) => return Err(fault),
        }
    }
    Ok(())
}

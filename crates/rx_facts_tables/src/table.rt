//! Tables of liveness.

ghost use Rattle.std.specs.Prelude.{◌≡◌, ◌↔◌, ◌<◌, ◌≤◌, ◌==◌, ℕ, List as ListOf, length, map, true, false, ◌++◌, OnOk, IfOk, option_map, option_to_list, slice_get};
ghost use Rattle.rx_graph.specs.Facts as facts;
ghost use Rattle.rx_graph.specs.Tables.{at};
ghost use Rattle.rx_lower_walks.specs.Graph as graphs;
ghost use Rattle.rx_lower_walks.specs.PlainSite.{plain-Site};
ghost use Rattle.rx_lower_walks.specs.PlainFlow.{plain-Act, plain-Action, plain-Root};
ghost use Rattle.rx_lower_walks.specs.declared.actions.Root.{Root as RootOf};
ghost use Rattle.rx_facts_tables.specs.Live as spec;
ghost use Rattle.rx_facts_tables.specs.LiveTables as tables;
ghost use Rattle.rx_facts_tables.specs.Effects.{Numbers, Adds, DoesAt, listed};
ghost use Rattle.rx_facts_tables.specs.Tracking.{EachDoes};

use crate::ahead;
use crate::index::Index;
use crate::uses::{used, written};
use rx_graph::{Effect, Few, Table};
use rx_lower_walks::{Action, Root, Site};
use std::alloc::{AllocError, Global};

/// Which variables and temporaries are live at each site.
#[derive(Drop)]
pub struct LiveTable {
    index: Index,
    effects: Vec<Effect>,
    ahead: Table,
}

/// Whether a fact holds behind what a site does, where it does or doesn't at it.
fn behind(effect: &Effect, number: u32, before: bool) -> bool
    ensures { result ≡ facts.behind effect.now number before }
{
    effect.gives.has(number) || (!effect.kills.has(number) && before)
}

impl LiveTable {
    /// Whether the root of a number is live at a site.
    fn told(&self, number: u32, site: usize) -> bool
        ensures { result ≡ facts.behind (facts.effect_of (slice_get self.now.effects.items site)) number (at self.now.ahead.rows site number) }
    {
        let before = self.ahead.holds(site, number as usize);
        match self.effects.get(site) {
            Some(effect) => behind(effect, number, before),
            None => before,
        }
    }

    /// The number by which the table knows a variable or temporary; none of one that is live nowhere.
    pub fn number(&self, root: Root) -> Option<u32>
        requires { tables.IsIndex self.now.index }
        ensures { tables.IsNumberOf self.now.index.roots root result }
    {
        self.index.find(root)
    }

    /// Whether the variable or temporary of a number is live at a site: on some walk from there on it is used, and is not
    /// written as a whole before.
    pub fn is_live_by(&self, number: Option<u32>, site: usize) -> bool
        ensures { (g : ListOf graphs.Site) (root : RootOf) → tables.IsNumberOf self.now.index.roots root number → tables.Lives g self.now → site < length g
            → (result ≡ true) ↔ spec.IsLive g (plain-Root root) site }
    {
        match number {
            Some(number) => self.told(number, site),
            None => false,
        }
    }

    /// Whether a variable or temporary is live at a site: on some walk from there on it is used, and is not written as a
    /// whole before.
    pub fn is_live(&self, root: Root, site: usize) -> bool
        requires { tables.IsIndex self.now.index }
        ensures { (g : ListOf graphs.Site) → tables.Lives g self.now → site < length g → (result ≡ true) ↔ spec.IsLive g (plain-Root root) site }
    {
        self.is_live_by(self.number(root), site)
    }
}

/// Adds a number, where there is one.
fn push_some(all: &mut Few<u32>, number: Option<u32>) -> Result<(), AllocError>
    ensures { OnOk result (all.new ≡ all.old ++ listed number) }
{
    match number {
        Some(number) => all.push(number),
        None => Ok(()),
    }
}

/// Adds the numbers of roots that have one.
fn push_numbers(all: &mut Few<u32>, index: &Index, roots: &[Root]) -> Result<(), AllocError>
    requires { tables.IsIndex index.now }
    ensures { OnOk result (Adds index.now.roots (map plain-Root roots.now) all.old all.new) }
{
    for root in roots {
        push_some(all, index.find(*root))?;
    }
    Ok(())
}

/// The number of a root, where there is one.
fn number(alloc: Global, index: &Index, root: Option<Root>) -> Few<u32>
    requires { tables.IsIndex index.now }
    ensures { Numbers index.now.roots (map plain-Root (option_to_list root)) result }
{
    match root {
        Some(root) => match index.find(root) {
            Some(number) => Few::one(alloc, number),
            None => Few::new(alloc),
        },
        None => Few::new(alloc),
    }
}

/// The numbers of roots that have one.
fn numbers(alloc: Global, index: &Index, roots: &Few<Root>) -> Result<Few<u32>, AllocError>
    requires { tables.IsIndex index.now }
    ensures { IfOk result (λ it. Numbers index.now.roots (map plain-Root roots.now) it) }
{
    let (first, others) = roots.parts();
    let mut all = number(alloc, index, first);
    push_numbers(&mut all, index, others)?;
    Ok(all)
}

/// What an action does to facts by these numbers.
fn effect(alloc: Global, index: &Index, action: &Action) -> Result<Effect, AllocError>
    requires { tables.IsIndex index.now }
    ensures { IfOk result (λ e. DoesAt index.now.roots e (plain-Action action.now)) }
{
    let roots = used(alloc, &action.act)?;
    let gives = numbers(alloc, index, &roots)?;
    let kills = number(alloc, index, written(&action.act));
    Ok(Effect { kills, gives })
}

fn effects(alloc: Global, index: &Index, sites: &[Site]) -> Result<Vec<Effect>, AllocError>
    requires { tables.IsIndex index.now }
    ensures { IfOk result (λ es. EachDoes (DoesAt index.now.roots) es.items (map plain-Site sites.now)) }
{
    let mut all = Vec::with_capacity(alloc, sites.len())?;
    for site in sites {
        let one = effect(alloc, index, &site.action)?;
        all.push(one)?;
    }
    Ok(all)
}

/// Which variables and temporaries are live at each of at most 65,536 sites: those of a function, and marks.
///
/// # Errors
///
/// Memory runs out.
pub fn live_marked(alloc: Global, sites: &[Site]) -> Result<LiveTable, AllocError>
    requires { length sites.now ≤ 65536 }
    ensures index { IfOk result (λ t. tables.IsIndex t.index) }
    ensures lives { IfOk result (λ t. tables.Lives (map plain-Site sites.now) t) }
{
    let index = Index::of(alloc, sites)?;
    let effects = effects(alloc, &index, sites)?;
    let ahead = ahead(alloc, sites, effects.as_slice(), index.roots.len())?;
    Ok(LiveTable {
        index,
        effects,
        ahead,
    })
}

/// Which variables and temporaries are live at each site of a function.
///
/// # Errors
///
/// Memory runs out.
pub fn live(alloc: Global, sites: &[Site]) -> Result<LiveTable, AllocError>
    requires { length sites.now ≤ 16384 }
    ensures index { IfOk result (λ t. tables.IsIndex t.index) }
    ensures lives { IfOk result (λ t. tables.Lives (map plain-Site sites.now) t) }
{
    live_marked(alloc, sites)
}

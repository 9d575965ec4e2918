//! The least table of facts that sites make false and true.

ghost use Rattle.std.specs.Prelude.{◌≡◌, ℕ, ◌+◌, ◌*◌, ◌<◌, ◌≤◌, Bool, true, false, List as ListOf, [], ◌∷◌, length, get_or, slice_get, IfOk};
ghost use Rattle.rx_graph_bits.specs.Rows as bits;
ghost use Rattle.rx_graph.specs.ByEffects as by_effects;
ghost use Rattle.rx_graph.specs.Lawfulness as lawfulness;
ghost use Rattle.rx_graph.specs.Facts as facts;
ghost use Rattle.rx_graph.specs.Tables as tables;

use crate::effect::{Effect, Start};
use crate::few::Few;
use crate::lattice::Facts;
use crate::leads::Leads;
use crate::worklist::fixpoint;
use rx_core::List;
use rx_graph_bits::Row;
use std::alloc::{AllocError, Global};

/// By site, the facts that hold there.
#[derive(Drop)]
pub struct Table {
    pub rows: List<Row>,
}

impl Table {
    /// Whether a fact holds at a site.
    #[tactic(auto, using(crate::proofs::Spreading::no_row))]
    pub fn holds(&self, site: usize, fact: usize) -> bool
        ensures { result ≡ tables.at self.now.rows site fact }
    {
        match self.rows.get(site) {
            Some(row) => row.holds(fact),
            None => false,
        }
    }
}

/// Makes facts false.
fn take_out(row: &mut Row, facts: &[u32])
    ensures { tables.Changed row.old row.new (tables.without facts.now) }
{
    'facts: for k in 0..facts.len() {
        row.remove(facts[k] as usize);
    }
}

/// Makes facts true.
fn put_in(row: &mut Row, facts: &[u32])
    ensures { tables.Changed row.old row.new (tables.with facts.now) }
{
    'facts: for k in 0..facts.len() {
        row.insert(facts[k] as usize);
    }
}

/// Makes few facts false.
fn take_few_out(row: &mut Row, facts: &Few<u32>)
    ensures { tables.Changed row.old row.new (tables.without facts.now) }
{
    let (first, others) = facts.parts();
    match first {
        Some(fact) => row.remove(fact as usize),
        None => {}
    }
    take_out(row, others);
}

/// Makes few facts true.
fn put_few_in(row: &mut Row, facts: &Few<u32>)
    ensures { tables.Changed row.old row.new (tables.with facts.now) }
{
    let (first, others) = facts.parts();
    match first {
        Some(fact) => row.insert(fact as usize),
        None => {}
    }
    put_in(row, others);
}

/// What a site does to the facts.
#[tactic(auto, using(crate::proofs::Rows::both_changes))]
fn apply(row: &mut Row, effect: &Effect)
    ensures { tables.Changed row.old row.new (facts.behind effect.now) }
{
    take_few_out(row, &effect.kills);
    put_few_in(row, &effect.gives);
}

/// Facts below a bound that sites make false and true.
#[derive(Drop)]
struct ByEffects<'t> {
    effects: &'t [Effect],
    start: &'t Start,
    bound: usize,
    /// Whether facts mostly go from later sites to earlier ones.
    down: bool,
}

impl<'t> ByEffects<'t> {
    /// Puts in what holds at a site at the start.
    fn begin(&self, site: usize, row: &mut Row)
        ensures { tables.Changed row.old row.new (by_effects.beginning self.now.start.now site) }
    {
        if site == self.start.site as usize {
            put_few_in(row, &self.start.facts);
        }
    }

    /// What a site leaves of the facts at it.
    fn leave(&self, site: usize, row: &mut Row)
        ensures { tables.Changed row.old row.new (facts.behind (facts.effect_of (slice_get self.now.effects.now site))) }
    {
        match self.effects.get(site) {
            Some(effect) => apply(row, effect),
            None => {}
        }
    }
}

impl<'t> Facts for ByEffects<'t> {
    type Item = Row;

    ghost rules = { λ f. by_effects.rules f.effects.now f.start.now f.bound };

    fn is_backward(&self) -> bool {
        self.down
    }

    fn first(&self, alloc: Global, site: usize) -> Result<Row, AllocError> {
        let mut row = Row::new(alloc, self.bound)?;
        self.begin(site, &mut row);
        Ok(row)
    }

    fn step(&self, site: usize, from: &Row, into: &mut Row) {
        into.assign(from);
        self.leave(site, into);
    }

    fn join(&self, into: &mut Row, from: &Row) -> bool {
        into.join(from)
    }

    ghost lawful = { λ f. lawfulness.lawful f.effects.now f.start.now f.bound };
}

/// The facts that hold at each site, of those below a bound: the least table that begins with what holds at the start, and
/// has what each site makes of the facts at it where the site leads to. So a fact holds at the start, or comes along some way
/// from a site that makes it true, through none that makes it false. `effects` has for each site of the graph what it does; `down` says that facts mostly go from later sites to earlier ones, which changes nothing but the
/// time.
///
/// # Errors
///
/// Memory runs out.
pub fn holding<G: Leads>(
    alloc: Global,
    graph: &G,
    effects: &[Effect],
    start: &Start,
    bound: usize,
    down: bool,
) -> Result<Table, AllocError>
    ensures { IfOk result (λ table. tables.Tells (G.edges graph.now) effects.now start.now bound table.rows) }
{
    let facts = ByEffects {
        effects,
        start,
        bound,
        down,
    };
    let rows = fixpoint(alloc, graph, &facts)?;
    Ok(Table { rows })
}

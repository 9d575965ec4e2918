//! What a function asks of its lifetimes.

ghost use Rattle.std.specs.Prelude.{◌≡◌, ◌≤◌, length, map, IfOk, OnOk};
ghost use Rattle.rx_graph_bits.specs.Rows as bits;
ghost use Rattle.rx_graph.specs.Tables as tables;
ghost use Rattle.rx_graph.specs.Tables.{at};
ghost use Rattle.rx_lower_walks.specs.PlainSite.{plain-Site};
ghost use Rattle.rx_facts_tables.specs.LiveTables.{IsIndex, Lives};
ghost use Rattle.rx_region.specs.Solutions.{site as site_point};
ghost use Rattle.rx_region.specs.PlainContext.{plain-Given};
ghost use Rattle.rx_region.specs.Points.{has_point};
ghost use Rattle.rx_lower_lifetimes.specs.Answer.{plain-Lifetimes};
ghost use Rattle.rx_region.specs.Seeds.{Grows};
ghost use Rattle.rx_region.specs.Tables as spec;

use crate::seeds::{add_temporaries, add_variables};
use crate::types::behind_types;
use crate::{Given, variables};
use rx_core::{Bound, List};
use rx_facts_tables::LiveTable;
use rx_graph_bits::Row;
use rx_graph_closure::{all_below, count, empty_rows, join_first, put_diagonal};
use rx_lower_lifetimes::Lifetimes;
use rx_lower_walks::Site;
use std::alloc::{AllocError, Global};

/// What a function asks of its lifetimes: pairs, of which the set of `long` contains that of `short`, and what each set must
/// hold by itself.
#[derive(Drop)]
pub struct Outlives {
    pub pairs: List<Bound>,
    /// By lifetime, the points that its set must hold: sites, then the ends of the function's own lifetimes.
    pub(crate) rows: List<Row>,
    /// How many lifetimes the function has of its own.
    pub(crate) own: u32,
    pub(crate) sites: u32,
}

/// Whether the row of a lifetime has a number.
pub(crate) fn has(rows: &[Row], member: u32, number: usize) -> bool
    ensures { result ≡ at rows.now member number }
{
    match rows.get(member as usize) {
        Some(row) => row.holds(number),
        None => false,
    }
}

impl Outlives {
    /// Whether the set of a lifetime must hold a site by itself.
    pub fn must_hold(&self, region: u32, site: u32) -> bool
        ensures { result ≡ has_point self.now.rows self.now.sites region (site_point site) }
    {
        site < self.sites && has(self.rows.as_slice(), region, site as usize)
    }
}

/// Adds where variables and temporaries are live.
fn add_live(
    alloc: Global,
    rows: &mut [Row],
    live: &LiveTable,
    lifetimes: &Lifetimes,
    sites: u32,
    bound: usize,
) -> Result<(), AllocError>
    requires index { IsIndex live.now.index }
    requires regular { tables.Regular (length rows.old) (bits.words bound) rows.old }
    ensures { OnOk result (Grows live.now sites (bits.words bound) (spec.AllLived (plain-Lifetimes lifetimes.now)) rows.old rows.new) }
{
    let count = match u32::try_from(variables(lifetimes)) {
        Ok(count) => count,
        Err(_) => return Err(AllocError),
    };
    add_variables(alloc, rows, live, lifetimes, count, sites, bound)?;
    add_temporaries(
        alloc,
        rows,
        live,
        lifetimes,
        lifetimes.temporaries.as_slice(),
        sites,
        bound,
    )?;
    Ok(())
}

/// Fills an empty table with what sets must hold by themselves.
fn fill(
    alloc: Global,
    rows: &mut [Row],
    lifetimes: &Lifetimes,
    live: &LiveTable,
    sites: u32,
    bound: usize,
) -> Result<(), AllocError>
    requires index { IsIndex live.now.index }
    requires empty { tables.Empty (length rows.old) (bits.words bound) rows.old }
    ensures { OnOk result (spec.Seeded (plain-Lifetimes lifetimes.now) live.now (length rows.old) sites (bits.words bound) rows.new) }
{
    let all = all_below(alloc, sites as usize, bound)?;
    join_first(rows, lifetimes.own as usize, &all);
    put_diagonal(rows, lifetimes.own, sites);
    add_live(alloc, rows, live, lifetimes, sites, bound)?;
    Ok(())
}

/// What sets must hold by themselves, for so many lifetimes.
fn seeds(
    alloc: Global,
    lifetimes: &Lifetimes,
    live: &LiveTable,
    count: usize,
    sites: u32,
    bound: usize,
) -> Result<Vec<Row>, AllocError>
    requires { IsIndex live.now.index }
    ensures { IfOk result (λ it. spec.Seeded (plain-Lifetimes lifetimes.now) live.now count sites (bits.words bound) it.items) }
{
    let mut rows = empty_rows(alloc, count, bound)?;
    fill(alloc, rows.as_mut_slice(), lifetimes, live, sites, bound)?;
    Ok(rows)
}

/// What a function asks of its lifetimes, by its sites and where its variables and temporaries are live.
///
/// # Errors
///
/// Memory runs out.
pub fn constraints(
    alloc: Global,
    given: &Given<'_>,
    sites: &[Site],
    live: &LiveTable,
) -> Result<Outlives, AllocError>
    requires few { length sites.now ≤ 16384 }
    requires index { IsIndex live.now.index }
    ensures asks { IfOk result (λ it. Lives (map plain-Site sites.now) live.now → spec.Asks (plain-Given given.now) (map plain-Site sites.now) it) }
    ensures table { IfOk result spec.IsOutlivesTable }
{
    let pairs = given.imposed(alloc, sites)?;
    let lifetimes = given.lifetimes;
    let own = lifetimes.own;
    let least = behind_types(alloc, own as usize, lifetimes.types.as_slice())?;
    let count = count(pairs.as_slice(), least);
    let size = sites.len() as u32;
    let bound = size as usize + own as usize;
    let rows = seeds(alloc, lifetimes, live, count, size, bound)?;
    Ok(Outlives {
        pairs,
        rows: List::from_vec(rows),
        own,
        sites: size,
    })
}

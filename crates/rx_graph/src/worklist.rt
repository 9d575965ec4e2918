//! The least table of facts, by a worklist.

ghost use Rattle.std.specs.Prelude.{◌≡◌, ℕ, ◌*◌, ◌<◌, ◌≤◌, true, false, length, Some, slice_get, IfOk};
ghost use Rattle.rx_graph_bits.specs.Rows as bits;
ghost use Rattle.rx_graph.specs.Facts.{has, targets};
ghost use Rattle.rx_graph.specs.Equations.{Derived, Solves};
ghost use Rattle.rx_graph.specs.Worklist as work;

use crate::lattice::Facts;
use crate::leads::Leads;
use rx_core::List;
use rx_graph_bits::Row;
use std::alloc::{AllocError, Global};

/// A graph, and what is asked of its sites.
#[derive(Drop)]
struct Task<'t, F: Facts, G: Leads> {
    graph: &'t G,
    facts: &'t F,
}

impl<'t, F: Facts, G: Leads> Task<'t, F, G> {
    /// Joins a value to that of a site, where there is one. Whether it grew; then the site is noted.
    fn join_at(&self, rows: &mut [F::Item], pending: &mut Row, site: usize, row: &F::Item) -> bool
        requires fits { work.Fit (F.rules self.now.facts.now) rows.old }
        requires row { (F.rules self.now.facts.now).Fits row.now }
        ensures { work.Joined (F.rules self.now.facts.now) site row.now rows.old rows.new pending.old pending.new result }
    {
        if site < rows.len() {
            let grown = self.facts.join(&mut rows[site], row);
            note(pending, site, grown);
            grown
        } else {
            false
        }
    }

    /// Joins what a site makes of its value to the values of these sites. Whether any of them grew.
    fn spread(&self, rows: &mut [F::Item], pending: &mut Row, sites: &[u32], row: &F::Item) -> bool
        requires row { (F.rules self.now.facts.now).Fits row.now }
        requires fits { work.Fit (F.rules self.now.facts.now) rows.old }
        ensures passed { (q : ℕ) (a : F.Item) → targets (G.edges self.now.graph.now) q ≡ sites.now → Derived (F.rules self.now.facts.now) (G.edges self.now.graph.now) q a
            → (F.rules self.now.facts.now).Steps q a row.now → work.Passing (F.rules self.now.facts.now) (G.edges self.now.graph.now) q a row.now (λ p. ⊥) rows.old pending.old
            → work.Passing (F.rules self.now.facts.now) (G.edges self.now.graph.now) q a row.now (λ p. has sites.now p ≡ true) rows.new pending.new }
        ensures grown { work.Grown (F.rules self.now.facts.now).height rows.old rows.new pending.old pending.new result }
    {
        let mut grown = false;
        'sites: for k in 0..sites.len() {
            let more = self.join_at(rows, pending, sites[k] as usize, row);
            grown = grown | more;
        }
        grown
    }

    /// Joins what a site makes of its value to where it leads. Whether anything grew.
    fn pass(
        &self,
        rows: &mut [F::Item],
        pending: &mut Row,
        site: usize,
        scratch: &mut F::Item,
    ) -> bool
        requires site { site < length rows.old }
        requires scratch { (F.rules self.now.facts.now).Fits scratch.old }
        requires stands { work.StandsBut (F.rules self.now.facts.now) (G.edges self.now.graph.now) site rows.old pending.old }
        ensures stands { work.Stands (F.rules self.now.facts.now) (G.edges self.now.graph.now) rows.new pending.new }
        ensures grown { work.Grown (F.rules self.now.facts.now).height rows.old rows.new pending.old pending.new result }
        ensures scratch { (F.rules self.now.facts.now).Fits scratch.new }
    {
        self.facts.step(site, &rows[site], scratch);
        self.spread(rows, pending, self.graph.targets(site), scratch)
    }

    /// Passes on the value of a site, if it is noted; then it no longer is, unless it grew. Whether anything grew.
    fn visit(
        &self,
        rows: &mut [F::Item],
        pending: &mut Row,
        site: usize,
        scratch: &mut F::Item,
    ) -> bool
        requires site { site < length rows.old }
        requires scratch { (F.rules self.now.facts.now).Fits scratch.old }
        requires stands { work.Stands (F.rules self.now.facts.now) (G.edges self.now.graph.now) rows.old pending.old }
        ensures stands { work.Stands (F.rules self.now.facts.now) (G.edges self.now.graph.now) rows.new pending.new }
        ensures grown { work.Grown (F.rules self.now.facts.now).height rows.old rows.new pending.old pending.new result }
        ensures done { result ≡ false → bits.holds pending.new site ≡ false }
        ensures scratch { (F.rules self.now.facts.now).Fits scratch.new }
    {
        if pending.holds(site) {
            pending.remove(site);
            self.pass(rows, pending, site, scratch)
        } else {
            false
        }
    }

    /// Visits each site once. Whether anything grew.
    fn sweep(&self, rows: &mut [F::Item], pending: &mut Row, scratch: &mut F::Item) -> bool
        requires scratch { (F.rules self.now.facts.now).Fits scratch.old }
        requires stands { work.Stands (F.rules self.now.facts.now) (G.edges self.now.graph.now) rows.old pending.old }
        ensures stands { work.Stands (F.rules self.now.facts.now) (G.edges self.now.graph.now) rows.new pending.new }
        ensures grown { work.Grown (F.rules self.now.facts.now).height rows.old rows.new pending.old pending.new result }
        ensures done { result ≡ false → work.NoneNoted (λ q. q < length rows.old) pending.new }
        ensures scratch { (F.rules self.now.facts.now).Fits scratch.new }
    {
        let mut grown = false;
        let count = rows.len();
        let down = self.facts.is_backward();
        'sites: for k in 0..count {
            let more = self.visit(rows, pending, site_at(down, count, k), scratch);
            grown = grown | more;
        }
        grown
    }

    /// Sweeps until nothing grows.
    fn close(&self, rows: &mut [F::Item], pending: &mut Row, scratch: &mut F::Item)
        requires scratch { (F.rules self.now.facts.now).Fits scratch.old }
        requires stands { work.Stands (F.rules self.now.facts.now) (G.edges self.now.graph.now) rows.old pending.old }
        ensures { Solves (F.rules self.now.facts.now) (G.edges self.now.graph.now) rows.new }
    {
        let mut grown = true;
        'sweeps: while grown {
            grown = self.sweep(rows, pending, scratch);
        }
    }

    /// Fills a table of what sites begin with.
    fn fill(&self, rows: &mut [F::Item], pending: &mut Row, scratch: &mut F::Item)
        requires scratch { (F.rules self.now.facts.now).Fits scratch.old }
        requires width { length (G.edges self.now.graph.now) ≤ 64 * length pending.old }
        requires begun { work.Begun (F.rules self.now.facts.now) (length (G.edges self.now.graph.now)) rows.old }
        ensures { Solves (F.rules self.now.facts.now) (G.edges self.now.graph.now) rows.new }
    {
        note_all(pending, rows.len());
        self.close(rows, pending, scratch);
    }
}

/// The site of a step of a sweep, which goes up or down.
fn site_at(down: bool, count: usize, k: usize) -> usize
    requires { k < count }
    ensures { result ≡ work.site_of down count k }
{
    if down { count - (k + 1) } else { k }
}

/// Notes a site, where this is wanted.
fn note(pending: &mut Row, site: usize, wanted: bool)
    ensures noted { wanted ≡ true → bits.Inserted pending.old pending.new site }
    ensures same { wanted ≡ false → pending.new ≡ pending.old }
{
    if wanted {
        pending.insert(site);
    }
}

/// Notes the first sites.
fn note_all(pending: &mut Row, count: usize)
    ensures width { length pending.new ≡ length pending.old }
    ensures noted { (q : ℕ) → q < count → q < 64 * length pending.old → bits.holds pending.new q ≡ true }
{
    'sites: for k in 0..count {
        pending.insert(k);
    }
}

/// What so many sites begin with.
#[tactic(auto, using(crate::proofs::Working::begun_none, crate::proofs::Working::begun_more))]
fn beginnings<F: Facts>(alloc: Global, facts: &F, count: usize) -> Result<Vec<F::Item>, AllocError>
    ensures { IfOk result (λ t. work.Begun (F.rules facts.now) count t.items) }
{
    let mut all = Vec::with_capacity(alloc, count)?;
    'rows: for site in 0..count {
        let row = facts.first(alloc, site)?;
        all.push(row)?;
    }
    Ok(all)
}

/// By site, the least values that meet the equations: what a site begins with is below its value, and so is what the sites
/// that lead to it make of theirs. A site passes its value on where it grew, in the order of sites, or against it.
///
/// # Errors
///
/// Memory runs out.
pub fn fixpoint<F: Facts, G: Leads>(
    alloc: Global,
    graph: &G,
    facts: &F,
) -> Result<List<F::Item>, AllocError>
    ensures { IfOk result (Solves (F.rules facts.now) (G.edges graph.now)) }
{
    let count = graph.count();
    let mut rows = beginnings(alloc, facts, count)?;
    let mut scratch = facts.first(alloc, 0)?;
    let mut pending = Row::new(alloc, count)?;
    let task = Task { graph, facts };
    task.fill(rows.as_mut_slice(), &mut pending, &mut scratch);
    Ok(List::from_vec(rows))
}

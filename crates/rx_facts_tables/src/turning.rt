//! Edges turned round.

ghost use Rattle.std.specs.Prelude.{◌≡◌, ◌≤◌, ◌<◌, ◌||◌, ◌&&◌, ◌==◌, ℕ, length, replicate, [], ◌∷◌, IfOk, OnOk};
ghost use Rattle.rx_graph.specs.Facts.{has, targets};
ghost use Rattle.rx_facts_tables.specs.Turning.{Turned, Joined};

use rx_core::List;
use rx_graph::Leads;
use std::alloc::{AllocError, Global};

/// So many empty lists.
fn empty(alloc: Global, count: usize) -> Result<Vec<List<u32>>, AllocError>
    ensures { IfOk result (λ it. it.items ≡ replicate count []) }
{
    let mut all = Vec::with_capacity(alloc, count)?;
    for _list in 0..count {
        all.push(List::new(alloc))?;
    }
    Ok(all)
}

/// Adds a number to the list at a place, where there is one.
fn add_at(lists: &mut [List<u32>], at: usize, number: u32) -> Result<(), AllocError>
    ensures { OnOk result (Joined lists.old lists.new (at ∷ []) number) }
{
    if at < lists.len() {
        lists[at].push(number)
    } else {
        Ok(())
    }
}

/// Adds a number to the lists at these places.
fn add_all(lists: &mut [List<u32>], places: &[u32], number: u32) -> Result<(), AllocError>
    ensures { OnOk result (Joined lists.old lists.new places.now number) }
{
    for place in places {
        add_at(lists, *place as usize, number)?;
    }
    Ok(())
}

/// A graph whose edges are turned round.
#[derive(Drop)]
pub struct Back {
    lists: Vec<List<u32>>,
}

impl Leads for Back {
    ghost edges = { λ g. g.lists.items };

    fn count(&self) -> usize {
        self.lists.len()
    }

    fn targets(&self, site: usize) -> &[u32] {
        match self.lists.get(site) {
            Some(sites) => sites.as_slice(),
            None => &[],
        }
    }
}

/// The graph with its edges turned round: each site leads to those that led to it. Edges to what is no site are left out.
///
/// # Errors
///
/// Memory runs out.
pub fn turned<G: Leads>(alloc: Global, graph: &G) -> Result<Back, AllocError>
    requires { length (G.edges graph.now) ≤ 4294967296 }
    ensures { IfOk result (λ back. Turned (G.edges graph.now) back.lists.items) }
{
    let count = graph.count();
    let mut back = empty(alloc, count)?;
    for p in 0..count {
        add_all(back.as_mut_slice(), graph.targets(p), p as u32)?;
    }
    Ok(Back { lists: back })
}

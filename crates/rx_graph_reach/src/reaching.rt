//! A search through a graph, inside a set of its sites.

ghost use Rattle.std.specs.Prelude.{◌≡◌, ◌↔◌, ◌*◌, ◌<◌, ◌≤◌, ◌∷◌, [], ℕ, true, length, IfOk, OnOk};
ghost use Rattle.rx_graph_bits.specs.Rows.{holds as has_bit};
ghost use Rattle.rx_graph.specs.Facts as facts;
ghost use Rattle.rx_graph_reach.specs.Reached.{Reached};
ghost use Rattle.rx_graph_reach.specs.Walking as walking;

use rx_core::List;
use rx_graph::Leads;
use rx_graph_bits::Row;
use std::alloc::{AllocError, Global};

/// A graph, the set that ways stay inside, and the sites that stop them.
#[derive(Drop)]
struct Search<'t, G: Leads> {
    graph: &'t G,
    inside: &'t Row,
    stops: &'t Row,
}

impl<'t, G: Leads> Search<'t, G> {
    /// Sees a site, where it is inside and was not seen.
    fn see(&self, site: u32, seen: &mut Row, ahead: &mut List<u32>) -> Result<(), AllocError>
        requires { length (G.edges self.now.graph.now) ≤ 64 * length seen.old }
        ensures { OnOk result (walking.Added (length (G.edges self.now.graph.now)) (has_bit self.now.inside.now) (site ∷ []) seen.old ahead.old seen.new ahead.new) }
    {
        let at = site as usize;
        if at < self.graph.count() && self.inside.holds(at) && !seen.holds(at) {
            ahead.push(site)?;
            seen.insert(at);
        }
        Ok(())
    }

    /// Sees these sites.
    fn see_all(
        &self,
        sites: &[u32],
        seen: &mut Row,
        ahead: &mut List<u32>,
    ) -> Result<(), AllocError>
        requires { length (G.edges self.now.graph.now) ≤ 64 * length seen.old }
        ensures { OnOk result (walking.Added (length (G.edges self.now.graph.now)) (has_bit self.now.inside.now) sites.now seen.old ahead.old seen.new ahead.new) }
    {
        'sites: for k in 0..sites.len() {
            self.see(sites[k], seen, ahead)?;
        }
        Ok(())
    }

    /// Goes on from a site, unless it stops a way.
    fn go_on(&self, site: usize, seen: &mut Row, ahead: &mut List<u32>) -> Result<(), AllocError>
        requires { length (G.edges self.now.graph.now) ≤ 64 * length seen.old }
        ensures { OnOk result (walking.Added (length (G.edges self.now.graph.now)) (has_bit self.now.inside.now) (walking.onward (G.edges self.now.graph.now) (has_bit self.now.stops.now) site) seen.old ahead.old seen.new ahead.new) }
    {
        if self.stops.holds(site) {
            Ok(())
        } else {
            self.see_all(self.graph.targets(site), seen, ahead)
        }
    }

    /// Goes on from each site that is seen.
    fn go_far(&self, seen: &mut Row, ahead: &mut List<u32>) -> Result<(), AllocError>
        requires { length (G.edges self.now.graph.now) ≤ 64 * length seen.old }
        ensures { OnOk result ((first : ℕ) → walking.Stands (G.edges self.now.graph.now) (has_bit self.now.inside.now) (has_bit self.now.stops.now) first seen.old ahead.old
            → walking.Stands (G.edges self.now.graph.now) (has_bit self.now.inside.now) (has_bit self.now.stops.now) first seen.new []) }
    {
        'sites: while let Some(site) = ahead.pop() {
            self.go_on(site as usize, seen, ahead)?;
        }
        Ok(())
    }
}

/// The sites that are reached from a site, by ways that stay inside a set and go on from no site that stops them.
/// What is seen is a row of as many sites; time is near the edges of the sites reached.
///
/// # Errors
///
/// Memory runs out.
pub fn reached<G: Leads>(
    alloc: Global,
    graph: &G,
    inside: &Row,
    stops: &Row,
    first: usize,
) -> Result<Row, AllocError>
    ensures { IfOk result (λ it. (p : ℕ) → p < length (G.edges graph.now) → (has_bit it p ≡ true) ↔ Reached (G.edges graph.now) (has_bit inside.now) (has_bit stops.now) first p) }
{
    let search = Search {
        graph,
        inside,
        stops,
    };
    let mut seen = Row::new(alloc, graph.count())?;
    let mut ahead = List::new(alloc);
    search.see_all(graph.targets(first), &mut seen, &mut ahead)?;
    search.go_far(&mut seen, &mut ahead)?;
    Ok(seen)
}

//! The graph of a function, by its sites.

ghost use Rattle.std.specs.Prelude.{map};
ghost use Rattle.rx_lower_walks.specs.PlainSite.{plain-Site};
ghost use Rattle.rx_facts_tables.specs.Along.{edges_of};

use rx_graph::Leads;
use rx_lower_walks::Site;

/// The graph of these sites.
#[derive(Clone, Copy)]
pub struct Onward<'t> {
    pub sites: &'t [Site],
}

impl<'t> Leads for Onward<'t> {
    ghost edges = { λ g. edges_of (map plain-Site g.sites.now) };

    fn count(&self) -> usize {
        self.sites.len()
    }

    fn targets(&self, site: usize) -> &[u32] {
        match self.sites.get(site) {
            Some(site) => site.next.as_slice(),
            None => &[],
        }
    }
}

//! Graphs, by the sites that each site leads to.

ghost use Rattle.std.specs.Prelude.{◌≡◌, ℕ, length, List as ListOf};
ghost use Rattle.rx_graph.specs.Facts as facts;

/// A graph. Its sites are numbers below their count.
pub trait Leads {
    /// By site, those that it leads to.
    ghost edges: { Self → ListOf (ListOf ℕ) };

    /// How many sites there are.
    fn count(&self) -> usize
        ensures { result ≡ length (edges self.now) };

    /// The sites that a site leads to; none of what is no site.
    fn targets(&self, site: usize) -> &[u32]
        ensures { facts.targets (edges self.now) site ≡ result.now };
}

//! Facts as values with an order.

ghost use Rattle.std.specs.Prelude.{◌≡◌, ◌<◌, true, false, IfOk};
ghost use Rattle.rx_graph.specs.Equations.{Rules, Lawful};

use std::alloc::{AllocError, Global};

/// What is asked of the sites of a graph: a value for each, in an order in which values can be joined.
pub trait Facts {
    type Item: Drop;

    /// The values, their order and how they are joined, what each site begins with, and what it makes of the value at it.
    ghost rules: { Self → Rules Self.Item };

    /// Whether values mostly go from later sites to earlier ones, which changes nothing but the time.
    fn is_backward(&self) -> bool;

    /// What a site begins with.
    ///
    /// # Errors
    ///
    /// Memory runs out.
    fn first(&self, alloc: Global, site: usize) -> Result<Self::Item, AllocError>
        ensures begins { IfOk result (λ item. (rules self.now).Begins site item) }
        ensures fits { IfOk result (λ item. (rules self.now).Fits item) };

    /// Writes over a value what a site makes of another.
    fn step(&self, site: usize, from: &Self::Item, into: &mut Self::Item)
        requires from { (rules self.now).Fits from.now }
        requires into { (rules self.now).Fits into.old }
        ensures steps { (rules self.now).Steps site from.now into.new }
        ensures fits { (rules self.now).Fits into.new };

    /// Joins another value to one. Whether it grew.
    fn join(&self, into: &mut Self::Item, from: &Self::Item) -> bool
        requires into { (rules self.now).Fits into.old }
        requires from { (rules self.now).Fits from.now }
        ensures joined { (rules self.now).Joins into.old from.now into.new }
        ensures fits { (rules self.now).Fits into.new }
        ensures same { result ≡ false → into.new ≡ into.old }
        ensures higher { result ≡ true → (rules self.now).height into.old < (rules self.now).height into.new };

    /// The order is one and has joins, each step keeps it, and heights are bounded.
    ghost lawful: { (facts : Self) → Lawful (rules facts) };
}

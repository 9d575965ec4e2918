//! Laws of graphs, each the contract of a function that does nothing.

ghost use Rattle.std.specs.Prelude.{ℕ, List as ListOf, Option};
ghost use Rattle.rx_graph_cycles.specs.Reaches.{FirstOnCycle};

/// Of each graph some node is the first that comes back to itself, or none does.
pub fn some_first_on_cycle()
    ensures { (edges : ListOf (ListOf ℕ)) → (o : Option ℕ) × FirstOnCycle edges o }
{}

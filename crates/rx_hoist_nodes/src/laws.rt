//! Laws, each the contract of a function that does nothing.

ghost use Rattle.std.specs.Prelude.{◌≡◌};
ghost use Rattle.rx_tree.specs.Positions.{NodeTree, children};
ghost use Rattle.rx_tree.specs.Nodes.{below};
ghost use Rattle.rx_hoist_nodes.specs.Nodes.{within_all};

/// What stands below a node is its children in order, each with what stands below it.
pub fn nodes_stand_in_order()
    ensures { (n : NodeTree) → below n ≡ within_all (children n) }
{}

//! The flow of a function.

ghost use Rattle.std.specs.Prelude.{◌≡◌, IfOk};
ghost use Rattle.rx_typed.specs.PlainTree.{plain-TypedTree};
ghost use Rattle.rx_lower_walks.specs.Orders.{order_function};
ghost use Rattle.rx_lower_walks.specs.Flows.{order_of};
ghost use Rattle.rx_lower_walks.specs.PlainFlow.{plain-Flow};

use crate::forms::value;
use crate::{node_of, parameters, sequence};
use rx_core::keep;
use rx_lower_walks::Flow;
use rx_typed::TypedTree;
use std::alloc::{AllocError, Global};

/// The order of a function's actions. Where numbers of fields pass 32 bits it is as if memory ran out.
#[tactic(auto, using(crate::proofs::Orders::ordered_rules))]
pub fn flow_of(alloc: Global, tree: &TypedTree) -> Result<Flow, AllocError>
    ensures { IfOk result (λ it. order_of (plain-Flow it) ≡ order_function (plain-TypedTree tree.now)) }
{
    let items = parameters(alloc, node_of(&tree.body), tree.params.as_slice())?;
    let (body, items) = keep(items, value(alloc, &tree.body))?;
    sequence(alloc, items, body)
}

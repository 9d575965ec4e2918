//! Items at the end of a sequence.

ghost use Rattle.std.specs.Prelude.{◌≡◌, ◌++◌, ◌∷◌, [], OnOk, IfOk, map};
ghost use Rattle.rx_lower_walks.specs.Actions.{does};
ghost use Rattle.rx_lower_walks.specs.Orders as order;
ghost use Rattle.rx_lower_walks.specs.Flows as flows;
ghost use Rattle.rx_lower_walks.specs.Flows.{order_of};
ghost use Rattle.rx_lower_walks.specs.PlainFlow.{plain-Act, plain-Flow, plain-Item};
ghost use Rattle.rx_lower_order.specs.Items.{ordered};

use rx_core::{Boxed, List, keep, pushed};
use rx_lower_walks::{Act, Action, Flow, Item};
use std::alloc::{AllocError, Global};

/// An action at a node.
#[tactic(auto, using(rx_lower_walks::proofs::Rules::flow_rules))]
pub fn acts(node: usize, act: Act) -> Flow
    ensures { plain-Flow result ≡ flows.act (does node (plain-Act act)) }
{
    Flow::Act(Action { node, act })
}

#[tactic(auto, using(crate::proofs::Listed::item_rules, rx_lower_walks::proofs::Rules::flow_rules))]
pub fn push_flow(items: &mut List<Item>, flow: Flow) -> Result<(), AllocError>
    ensures { OnOk result (map plain-Item items.new ≡ map plain-Item items.old ++ flows.doing (plain-Flow flow) ∷ []) }
{
    items.push(Item::Do(flow))
}

pub fn push_act(items: &mut List<Item>, node: usize, act: Act) -> Result<(), AllocError>
    ensures { OnOk result (map plain-Item items.new ≡ map plain-Item items.old ++ flows.doing (flows.act (does node (plain-Act act))) ∷ []) }
{
    push_flow(items, acts(node, act))
}

/// What follows may fail a test.
#[tactic(auto, using(crate::proofs::Listed::item_rules, rx_lower_walks::proofs::Rules::flow_rules))]
pub fn push_may(items: &mut List<Item>) -> Result<(), AllocError>
    ensures { OnOk result (map plain-Item items.new ≡ map plain-Item items.old ++ flows.may ∷ []) }
{
    items.push(Item::May)
}

/// A variable that ends where what follows does.
#[tactic(auto, using(crate::proofs::Listed::item_rules, rx_lower_walks::proofs::Rules::flow_rules))]
pub fn push_end(items: &mut List<Item>, node: usize, variable: u32) -> Result<(), AllocError>
    ensures { OnOk result (map plain-Item items.new ≡ map plain-Item items.old ++ flows.ending node variable ∷ []) }
{
    items.push(Item::Ends(node, variable))
}

/// A sequence, and the flow that it ends in.
#[tactic(auto, using(crate::proofs::Orders::sequence_ordered, rx_lower_walks::proofs::Rules::flow_rules))]
pub fn sequence(alloc: Global, items: List<Item>, last: Flow) -> Result<Flow, AllocError>
    ensures { IfOk result (λ it. order_of (plain-Flow it) ≡ ordered (map plain-Item items) (order_of (plain-Flow last))) }
{
    let (last, items) = keep(items, Boxed::new(alloc, last))?;
    Ok(Flow::Items(items, last))
}

/// The items, then a flow.
#[tactic(auto, using(crate::proofs::Listed::item_rules, rx_lower_walks::proofs::Rules::flow_rules))]
pub fn then_flow(items: List<Item>, flow: Flow) -> Result<List<Item>, AllocError>
    ensures { IfOk result (λ it. map plain-Item it ≡ map plain-Item items ++ flows.doing (plain-Flow flow) ∷ []) }
{
    pushed(items, Item::Do(flow))
}

/// The items, then an action at a node.
pub fn then_act(items: List<Item>, node: usize, act: Act) -> Result<List<Item>, AllocError>
    ensures { IfOk result (λ it. map plain-Item it ≡ map plain-Item items ++ flows.doing (flows.act (does node (plain-Act act))) ∷ []) }
{
    then_flow(items, acts(node, act))
}

/// The items, and a flow behind which what follows comes where a test in it fails.
#[tactic(auto, using(crate::proofs::Listed::item_rules, rx_lower_walks::proofs::Rules::flow_rules))]
pub fn then_try(items: List<Item>, flow: Flow) -> Result<List<Item>, AllocError>
    ensures { IfOk result (λ it. map plain-Item it ≡ map plain-Item items ++ flows.trying (plain-Flow flow) ∷ []) }
{
    pushed(items, Item::Else(flow))
}

/// A flow, then an action at a node.
pub fn with_act(alloc: Global, flow: Flow, node: usize, act: Act) -> Result<Flow, AllocError>
    ensures { IfOk result (λ it. order_of (plain-Flow it) ≡ order.then (order_of (plain-Flow flow)) (order.act (does node (plain-Act act)))) }
{
    let (items, act) = keep(act, then_flow(List::new(alloc), flow))?;
    sequence(alloc, items, acts(node, act))
}

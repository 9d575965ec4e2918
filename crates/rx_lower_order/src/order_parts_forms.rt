//! What each form of expression does, from the flows of its parts.

ghost use Rattle.std.specs.Prelude.{◌≡◌, [], ◌∷◌, false, true, IfOk, map};
ghost use Rattle.rx_core.specs.declared.types.Step.TheVariants as step;
ghost use Rattle.rx_typed.specs.Tree as tree;
ghost use Rattle.rx_typed.specs.PlainTree.{plain-Making, plain-Operand, operands_of};
ghost use Rattle.rx_typed.specs.PlainTree as typed;
ghost use Rattle.rx_lower_walks.specs.Matching as matching;
ghost use Rattle.rx_lower_walks.specs.Actions as actions;
ghost use Rattle.rx_lower_walks.specs.Actions.{does};
ghost use Rattle.rx_lower_walks.specs.Orders as order;
ghost use Rattle.rx_lower_walks.specs.Flows as flows;
ghost use Rattle.rx_lower_walks.specs.Flows.{order_of};
ghost use Rattle.rx_lower_walks.specs.PlainFlow.{plain-Act, plain-Flow, plain-Item, plain-Place, plain-Temporary};

use crate::operands::{fields_of, temporaries_of};
use crate::pushing::{acts, sequence, then_act, then_flow, with_act};
use crate::subject::{held, place_of};
use rx_core::{Boxed, List, Place as OwnPlace, Step, keep};
use rx_lower_walks::{Act, Check, Exit, Flow, Item, Made, Place, Root, Temporary};
use rx_tree::BinaryOp;
use rx_typed::{Constant, Making, Operand};
use std::alloc::{AllocError, Global};

/// A place as a value.
pub fn read(
    alloc: Global,
    node: usize,
    moves: bool,
    place: &OwnPlace,
    into: Temporary,
) -> Result<Flow, AllocError>
    ensures { IfOk result (λ it. plain-Flow it ≡ flows.act (does node (actions.Read moves (typed.plain-Place place.now) (plain-Temporary into)))) }
{
    let place = place_of(alloc, place)?;
    Ok(acts(node, Act::Read(moves, place, into)))
}

/// A place, borrowed.
pub fn borrow(
    alloc: Global,
    node: usize,
    mutable: bool,
    place: &OwnPlace,
    into: Temporary,
) -> Result<Flow, AllocError>
    ensures { IfOk result (λ it. plain-Flow it ≡ flows.act (does node (actions.Borrow mutable (typed.plain-Place place.now) (plain-Temporary into)))) }
{
    let place = place_of(alloc, place)?;
    Ok(acts(node, Act::Borrow(mutable, place, into)))
}

/// `break` or `continue` at a node: the loop's number, whether its next pass begins.
#[tactic(auto, using(rx_lower_walks::proofs::Rules::flow_rules))]
pub fn jump(node: usize, number: u32, again: bool) -> Flow
    ensures { plain-Flow result ≡ flows.leave (order.exit node number again) }
{
    if again {
        Flow::Leave(Exit::Continues(node, number))
    } else {
        Flow::Leave(Exit::Breaks(node, number))
    }
}

/// What a temporary refers to.
fn referred(alloc: Global, temporary: Temporary) -> Result<Place, AllocError>
    ensures { IfOk result (λ it. plain-Place it ≡ tree.under (tree.temporary_place (plain-Temporary temporary)) (step.Deref true ∷ [])) }
{
    let steps = List::from_slice(alloc, &[Step::Deref(true)])?;
    Ok(Place {
        root: Root::Temporary(temporary),
        steps,
    })
}

/// A value of type `&mut T` becomes a `&T`.
pub fn shared(
    alloc: Global,
    node: usize,
    from: Temporary,
    flow: Flow,
    into: Temporary,
) -> Result<Flow, AllocError>
    ensures { IfOk result (λ it. order_of (plain-Flow it) ≡ order.then (order_of (plain-Flow flow))
        (order.act (does node (actions.Borrow false (tree.under (tree.temporary_place (plain-Temporary from)) (step.Deref true ∷ [])) (plain-Temporary into))))) }
{
    let (place, flow) = keep(flow, referred(alloc, from))?;
    with_act(alloc, flow, node, Act::Borrow(false, place, into))
}

/// What is made of operands.
pub fn built(
    alloc: Global,
    node: usize,
    making: Making,
    operands: &[Operand],
    flow: Flow,
    into: Temporary,
) -> Result<Flow, AllocError>
    ensures { IfOk result (λ it. order_of (plain-Flow it) ≡ order.then (order_of (plain-Flow flow))
        (order.act (does node (actions.Build (plain-Making making) (tree.fields_of (operands_of (map plain-Operand operands.now))) (tree.temporaries_of (operands_of (map plain-Operand operands.now))) (plain-Temporary into))))) }
{
    let (temporaries, flow) = keep(flow, temporaries_of(alloc, operands))?;
    let (fields, (flow, temporaries)) = keep((flow, temporaries), fields_of(alloc, operands))?;
    with_act(
        alloc,
        flow,
        node,
        Act::Build(Made::Of(making), fields, temporaries, into),
    )
}

/// A call of a function's item.
pub fn called(
    alloc: Global,
    node: usize,
    function: u32,
    operands: &[Operand],
    flow: Flow,
    into: Temporary,
) -> Result<Flow, AllocError>
    ensures { IfOk result (λ it. order_of (plain-Flow it) ≡ order.then (order_of (plain-Flow flow))
        (order.act (does node (actions.Call function (tree.temporaries_of (operands_of (map plain-Operand operands.now))) (plain-Temporary into))))) }
{
    let (temporaries, flow) = keep(flow, temporaries_of(alloc, operands))?;
    with_act(alloc, flow, node, Act::Call(function, temporaries, into))
}

/// A flow, or nothing.
#[tactic(auto, using(rx_lower_walks::proofs::Rules::flow_rules))]
fn or_nothing(alloc: Global, flow: Flow) -> Result<Flow, AllocError>
    ensures { IfOk result (λ it. plain-Flow it ≡ flows.or (plain-Flow flow) flows.nothing) }
{
    let flow = Boxed::new(alloc, flow)?;
    let (nothing, flow) = keep(flow, Boxed::new(alloc, Flow::Nothing))?;
    Ok(Flow::Or(flow, nothing))
}

/// What `&&` or `||` gave, of its two operands.
fn given_lazily(
    alloc: Global,
    node: usize,
    left: Temporary,
    right: Temporary,
    into: Temporary,
) -> Result<Flow, AllocError>
    ensures { IfOk result (λ it. plain-Flow it ≡ flows.act (does node (actions.Build tree.lazy [] (plain-Temporary left ∷ plain-Temporary right ∷ []) (plain-Temporary into)))) }
{
    let operands = List::from_slice(alloc, &[left, right])?;
    Ok(acts(
        node,
        Act::Build(Made::Lazy, List::new(alloc), operands, into),
    ))
}

/// The first operand of `&&` or `||`, and the test whether the other comes.
fn first_of_two(
    alloc: Global,
    node: usize,
    both: bool,
    from: Temporary,
    flow: Flow,
) -> Result<List<Item>, AllocError>
    ensures { IfOk result (λ it. map plain-Item it ≡ flows.doing (plain-Flow flow)
        ∷ flows.doing (flows.act (does node (actions.Test (tree.temporary_place (plain-Temporary from)) (matching.equals (tree.truth both))))) ∷ []) }
{
    let items = then_flow(List::new(alloc), flow)?;
    let check = Check::Equals(Constant::Truth(both));
    then_act(items, node, Act::Test(held(alloc, from), check))
}

/// `&&` with true, `||` with false: the temporaries of the two operands, and their flows.
pub fn lazily(
    alloc: Global,
    node: usize,
    both: bool,
    temporaries: (Temporary, Temporary),
    parts: (Flow, Flow),
    into: Temporary,
) -> Result<Flow, AllocError>
    ensures { IfOk result (λ it. order_of (plain-Flow it) ≡ order.then (order_of (plain-Flow parts.0))
        (order.then (order.act (does node (actions.Test (tree.temporary_place (plain-Temporary temporaries.0)) (matching.equals (tree.truth both)))))
        (order.then (order.or (order_of (plain-Flow parts.1)) order.nothing)
        (order.act (does node (actions.Build tree.lazy [] (plain-Temporary temporaries.0 ∷ plain-Temporary temporaries.1 ∷ []) (plain-Temporary into))))))) }
{
    let (first, second) = parts;
    let (left, right) = temporaries;
    let (second, first) = keep(first, or_nothing(alloc, second))?;
    let (items, second) = keep(second, first_of_two(alloc, node, both, left, first))?;
    let items = then_flow(items, second)?;
    let (last, items) = keep(items, given_lazily(alloc, node, left, right, into))?;
    sequence(alloc, items, last)
}

/// A place is assigned a value.
pub fn assigned(
    alloc: Global,
    node: usize,
    place: &OwnPlace,
    from: Temporary,
    flow: Flow,
) -> Result<Flow, AllocError>
    ensures { IfOk result (λ it. order_of (plain-Flow it) ≡ order.then (order_of (plain-Flow flow))
        (order.act (does node (actions.Write (typed.plain-Place place.now) (plain-Temporary from) [])))) }
{
    let (place, flow) = keep(flow, place_of(alloc, place))?;
    with_act(alloc, flow, node, Act::Write(place, from, List::new(alloc)))
}

/// What `op=` makes of two temporaries.
fn operated(
    alloc: Global,
    op: BinaryOp,
    operands: (Temporary, Temporary),
    into: Temporary,
) -> Result<Act, AllocError>
    ensures { IfOk result (λ it. plain-Act it ≡ actions.Build (tree.operation op) [] (plain-Temporary operands.0 ∷ plain-Temporary operands.1 ∷ []) (plain-Temporary into)) }
{
    let (left, right) = operands;
    let operands = List::from_slice(alloc, &[left, right])?;
    Ok(Act::Build(
        Made::Of(Making::Operation(op)),
        List::new(alloc),
        operands,
        into,
    ))
}

/// The operand of `op=`, what it reads, and what it makes of both.
fn updating(
    alloc: Global,
    node: usize,
    op: BinaryOp,
    place: &OwnPlace,
    from: Temporary,
    flow: Flow,
) -> Result<List<Item>, AllocError>
    ensures { IfOk result (λ it. map plain-Item it ≡ flows.doing (plain-Flow flow)
        ∷ flows.doing (flows.act (does node (actions.Read false (typed.plain-Place place.now) (tree.temporary_at node 1))))
        ∷ flows.doing (flows.act (does node (actions.Build (tree.operation op) [] (tree.temporary_at node 1 ∷ plain-Temporary from ∷ []) (tree.temporary_at node 2)))) ∷ []) }
{
    let read_into = Temporary { node, which: 1 };
    let made_into = Temporary { node, which: 2 };
    let items = then_flow(List::new(alloc), flow)?;
    let (read, items) = keep(items, read(alloc, node, false, place, read_into))?;
    let items = then_flow(items, read)?;
    let (made, items) = keep(items, operated(alloc, op, (read_into, from), made_into))?;
    then_act(items, node, made)
}

/// `p op= e`
pub fn updated(
    alloc: Global,
    node: usize,
    op: BinaryOp,
    place: &OwnPlace,
    from: Temporary,
    flow: Flow,
) -> Result<Flow, AllocError>
    ensures { IfOk result (λ it. order_of (plain-Flow it) ≡ order.then (order_of (plain-Flow flow))
        (order.then (order.act (does node (actions.Read false (typed.plain-Place place.now) (tree.temporary_at node 1))))
        (order.then (order.act (does node (actions.Build (tree.operation op) [] (tree.temporary_at node 1 ∷ plain-Temporary from ∷ []) (tree.temporary_at node 2))))
        (order.act (does node (actions.Write (typed.plain-Place place.now) (tree.temporary_at node 2) [])))))) }
{
    let items = updating(alloc, node, op, place, from, flow)?;
    let (place, items) = keep(items, place_of(alloc, place))?;
    let made = Temporary { node, which: 2 };
    let written = acts(node, Act::Write(place, made, List::new(alloc)));
    sequence(alloc, items, written)
}

/// `return`, and the end of a function's body.
#[tactic(auto, using(rx_lower_walks::proofs::Rules::flow_rules))]
pub fn given(alloc: Global, node: usize, from: Temporary, flow: Flow) -> Result<Flow, AllocError>
    ensures { IfOk result (λ it. order_of (plain-Flow it) ≡ order.then (order_of (plain-Flow flow))
        (order.then (order.act (does node (actions.Give (plain-Temporary from)))) (order.leave (order.returns node)))) }
{
    let items = then_flow(List::new(alloc), flow)?;
    let items = then_act(items, node, Act::Give(from))?;
    sequence(alloc, items, Flow::Leave(Exit::Returns(node)))
}

/// Any number of passes of a loop.
#[tactic(auto, using(rx_lower_walks::proofs::Rules::flow_rules))]
pub fn looped(alloc: Global, number: u32, flow: Flow) -> Result<Flow, AllocError>
    ensures { IfOk result (λ it. order_of (plain-Flow it) ≡ order.passes number (order_of (plain-Flow flow))) }
{
    let flow = Boxed::new(alloc, flow)?;
    Ok(Flow::Passes(number, flow))
}

//! Flows of expressions, from those of their parts.

ghost use Rattle.std.specs.Prelude.{◌≡◌, [], ◌∷◌, IfOk, map};
ghost use Rattle.rx_typed.specs.Tree as tree;
ghost use Rattle.rx_typed.specs.PlainTree.{plain-Expr, plain-Making, plain-Mark, plain-Operand, plain-Place, operands_of};
ghost use Rattle.rx_lower_walks.specs.Matching as matching;
ghost use Rattle.rx_lower_walks.specs.Actions as actions;
ghost use Rattle.rx_lower_walks.specs.Actions.{at_mark};
ghost use Rattle.rx_lower_walks.specs.Orders as order;
ghost use Rattle.rx_lower_walks.specs.Flows.{order_of};
ghost use Rattle.rx_lower_walks.specs.PlainFlow.{plain-Flow, plain-Temporary};

use crate as parts;
use crate::forms::{expression, value};
use crate::{sequence, temporary_of, then_flow, with_act};
use rx_core::{Boxed, List, Place, keep};
use rx_lower_walks::{Act, Flow, Temporary};
use rx_tree::BinaryOp;
use rx_typed::{Expr, Making, Mark, Operand};
use std::alloc::{AllocError, Global};

/// A value of type `&mut T` becomes a `&T`.
#[cycle(expression)]
pub(crate) fn share(
    alloc: Global,
    inner: &Boxed<Expr>,
    mark: &Mark,
    into: Temporary,
) -> Result<Flow, AllocError>
    ensures { IfOk result (λ it. order_of (plain-Flow it) ≡ order.order (tree.share (plain-Mark mark.now) (plain-Expr inner.now)) (plain-Temporary into)) }
{
    let from = Temporary {
        node: mark.node,
        which: 1,
    };
    let flow = expression(alloc, inner.get(), from)?;
    parts::shared(alloc, mark.node, from, flow, into)
}

/// What is made of operands.
#[cycle(expression)]
pub(crate) fn build(
    alloc: Global,
    operands: &List<Operand>,
    mark: &Mark,
    making: Making,
    into: Temporary,
) -> Result<Flow, AllocError>
    ensures { IfOk result (λ it. order_of (plain-Flow it) ≡ order.order (tree.build (plain-Mark mark.now) (plain-Making making) (operands_of (map plain-Operand operands.now))) (plain-Temporary into)) }
{
    let flow = operand_flows(alloc, operands.as_slice())?;
    parts::built(alloc, mark.node, making, operands.as_slice(), flow, into)
}

/// A call of a function's item.
#[cycle(expression)]
pub(crate) fn call(
    alloc: Global,
    operands: &List<Operand>,
    mark: &Mark,
    function: u32,
    into: Temporary,
) -> Result<Flow, AllocError>
    ensures { IfOk result (λ it. order_of (plain-Flow it) ≡ order.order (tree.call (plain-Mark mark.now) function (operands_of (map plain-Operand operands.now))) (plain-Temporary into)) }
{
    let flow = operand_flows(alloc, operands.as_slice())?;
    parts::called(alloc, mark.node, function, operands.as_slice(), flow, into)
}

/// The right operand of `&&` or `||`, behind the left one, and what is made of both.
#[cycle(expression)]
pub(crate) fn lazily(
    alloc: Global,
    right: &Boxed<Expr>,
    first: Flow,
    from: Temporary,
    mark: &Mark,
    both: bool,
    into: Temporary,
) -> Result<Flow, AllocError>
    ensures { IfOk result (λ it. order_of (plain-Flow it) ≡ order.then (order_of (plain-Flow first))
        (order.then (order.act (at_mark (plain-Mark mark.now) (actions.Test (tree.temporary_place (plain-Temporary from)) (matching.equals (tree.truth both)))))
        (order.then (order.or (order.order (plain-Expr right.now) (tree.temporary_of (plain-Expr right.now))) order.nothing)
        (order.act (at_mark (plain-Mark mark.now) (actions.Build tree.lazy [] (plain-Temporary from ∷ tree.temporary_of (plain-Expr right.now) ∷ []) (plain-Temporary into))))))) }
{
    let right = right.get();
    let (second, first) = keep(first, value(alloc, right))?;
    let temporaries = (from, temporary_of(right));
    parts::lazily(alloc, mark.node, both, temporaries, (first, second), into)
}

/// A place is assigned a value.
#[cycle(expression)]
pub(crate) fn assign(
    alloc: Global,
    assigned: &Boxed<Expr>,
    mark: &Mark,
    place: &Place,
    _into: Temporary,
) -> Result<Flow, AllocError>
    ensures { IfOk result (λ it. order_of (plain-Flow it) ≡ order.order (tree.assign (plain-Mark mark.now) (plain-Place place.now) (plain-Expr assigned.now)) (plain-Temporary _into)) }
{
    let assigned = assigned.get();
    let flow = value(alloc, assigned)?;
    parts::assigned(alloc, mark.node, place, temporary_of(assigned), flow)
}

/// `p op= e`
#[cycle(expression)]
pub(crate) fn update(
    alloc: Global,
    operand: &Boxed<Expr>,
    mark: &Mark,
    op: BinaryOp,
    place: &Place,
    _into: Temporary,
) -> Result<Flow, AllocError>
    ensures { IfOk result (λ it. order_of (plain-Flow it) ≡ order.order (tree.update (plain-Mark mark.now) op (plain-Place place.now) (plain-Expr operand.now)) (plain-Temporary _into)) }
{
    let operand = operand.get();
    let flow = value(alloc, operand)?;
    parts::updated(alloc, mark.node, op, place, temporary_of(operand), flow)
}

#[cycle(expression)]
pub(crate) fn print(
    alloc: Global,
    printed: &Boxed<Expr>,
    mark: &Mark,
    _into: Temporary,
) -> Result<Flow, AllocError>
    ensures { IfOk result (λ it. order_of (plain-Flow it) ≡ order.order (tree.print (plain-Mark mark.now) (plain-Expr printed.now)) (plain-Temporary _into)) }
{
    let printed = printed.get();
    let flow = value(alloc, printed)?;
    with_act(alloc, flow, mark.node, Act::Print(temporary_of(printed)))
}

/// A loop, by its number.
#[cycle(expression)]
pub(crate) fn repeat(
    alloc: Global,
    body: &Boxed<Expr>,
    _mark: &Mark,
    number: u32,
    _into: Temporary,
) -> Result<Flow, AllocError>
    ensures { IfOk result (λ it. order_of (plain-Flow it) ≡ order.order (tree.loop (plain-Mark _mark.now) number (plain-Expr body.now)) (plain-Temporary _into)) }
{
    let flow = value(alloc, body.get())?;
    parts::looped(alloc, number, flow)
}

/// `return`, and the end of a function's body.
#[cycle(expression)]
pub(crate) fn give(
    alloc: Global,
    given: &Boxed<Expr>,
    mark: &Mark,
    _into: Temporary,
) -> Result<Flow, AllocError>
    ensures { IfOk result (λ it. order_of (plain-Flow it) ≡ order.order (tree.give (plain-Mark mark.now) (plain-Expr given.now)) (plain-Temporary _into)) }
{
    let given = given.get();
    let flow = value(alloc, given)?;
    parts::given(alloc, mark.node, temporary_of(given), flow)
}

#[cycle(expression)]
#[tactic(auto, using(rx_typed::proofs::Rules::typed_tree_rules))]
fn operand_flow(alloc: Global, operand: &Operand) -> Result<Flow, AllocError>
    ensures { IfOk result (λ it. order_of (plain-Flow it) ≡ order.order (plain-Operand operand.now).1 (tree.temporary_of (plain-Operand operand.now).1)) }
{
    value(alloc, &operand.value)
}

/// Operands from left to right.
#[cycle(expression)]
#[tactic(auto, using(crate::proofs::Orders::ordered_rules))]
fn operand_flows(alloc: Global, operands: &[Operand]) -> Result<Flow, AllocError>
    ensures { IfOk result (λ it. order_of (plain-Flow it) ≡ order.order_all (operands_of (map plain-Operand operands.now))) }
{
    let mut items = List::new(alloc);
    for operand in operands {
        let (flow, before) = keep(items, operand_flow(alloc, operand))?;
        items = then_flow(before, flow)?;
    }
    sequence(alloc, items, Flow::Nothing)
}

//! Flows of blocks and matches.

ghost use Rattle.std.specs.Prelude.{◌≡◌, ◌++◌, [], ◌∷◌, IfOk, map};
ghost use Rattle.rx_typed.specs.Tree as tree;
ghost use Rattle.rx_typed.specs.PlainTree.{plain-Arm, plain-Expr, plain-Mark, plain-Matched, plain-Pattern, plain-Stmt, arms_of, nested_of};
ghost use Rattle.rx_lower_walks.specs.Matching as matching;
ghost use Rattle.rx_lower_walks.specs.Actions as actions;
ghost use Rattle.rx_lower_walks.specs.Orders as order;
ghost use Rattle.rx_lower_walks.specs.Flows.{order_of};
ghost use Rattle.rx_lower_walks.specs.PlainFlow.{plain-Flow, plain-Item, plain-Temporary};
ghost use Rattle.rx_lower_order.specs.Items.{ordered};
ghost use Rattle.rx_lower_order.specs.PlainParts.{plain-Subject};

use crate::forms::{expression, value};
use crate::{Subject, bound, declared, node_of, sequence, subject_of, tested, then_flow, then_try};
use rx_core::{Boxed, List, keep};
use rx_lower_walks::{Flow, Item, Temporary};
use rx_typed::{Arm, Expr, Mark, Matched, Pattern, Stmt};
use std::alloc::{AllocError, Global};

/// What is matched: a value, or a place, which has no action.
#[cycle(expression)]
#[tactic(auto, using(rx_typed::proofs::Rules::typed_tree_rules, rx_lower_walks::proofs::Rules::flow_rules))]
fn matched_flow(alloc: Global, matched: &Matched) -> Result<Flow, AllocError>
    ensures { IfOk result (λ it. order_of (plain-Flow it) ≡ order.order_scrutinee (plain-Matched matched.now)) }
{
    match matched {
        Matched::Place(_, _) => Ok(Flow::Nothing),
        Matched::Value(expr) => value(alloc, expr.get()),
    }
}

/// The flow of an arm.
#[cycle(expression)]
#[tactic(auto, using(crate::proofs::Orders::ordered_rules))]
fn arm_flow(
    alloc: Global,
    arm: &Arm,
    subject: Subject<'_>,
    into: Temporary,
) -> Result<Flow, AllocError>
    ensures { IfOk result (λ it. order_of (plain-Flow it)
        ≡ order.testing (plain-Subject subject.entry) (matching.tests [] (plain-Arm arm.now).0)
        (order.binding (plain-Subject subject.entry) (matching.bindings [] (plain-Arm arm.now).0) (tree.mark_of (plain-Arm arm.now).1).node (order.order (plain-Arm arm.now).1 (plain-Temporary into)))) }
{
    let items = tested(alloc, List::new(alloc), subject, &arm.pattern)?;
    let items = bound(alloc, items, subject, node_of(&arm.body), &arm.pattern)?;
    let (body, items) = keep(items, expression(alloc, &arm.body, into))?;
    sequence(alloc, items, body)
}

/// What is matched, as the first item.
#[cycle(expression)]
#[tactic(auto, using(crate::proofs::Orders::ordered_rules))]
pub(crate) fn matched_items(alloc: Global, matched: &Matched) -> Result<List<Item>, AllocError>
    ensures { IfOk result (λ it. (s : order.Order) → ordered (map plain-Item it) s ≡ order.then (order.order_scrutinee (plain-Matched matched.now)) s) }
{
    let flow = matched_flow(alloc, matched)?;
    then_flow(List::new(alloc), flow)
}

/// The items, and the arms behind them.
#[cycle(expression)]
#[tactic(auto, using(crate::proofs::Orders::ordered_rules))]
pub(crate) fn arm_flows(
    alloc: Global,
    arms: &[Arm],
    before: List<Item>,
    subject: Subject<'_>,
    into: Temporary,
) -> Result<Flow, AllocError>
    ensures { IfOk result (λ it. order_of (plain-Flow it) ≡ ordered (map plain-Item before) (order.order_arms (plain-Subject subject.entry) (arms_of (map plain-Arm arms.now)) (plain-Temporary into))) }
{
    let mut items = before;
    for arm in arms {
        let (flow, before) = keep(items, arm_flow(alloc, arm, subject, into))?;
        items = then_try(before, flow)?;
    }
    sequence(alloc, items, Flow::Nowhere)
}

/// The items, and a statement of the block at a node.
#[cycle(expression)]
#[tactic(auto, using(rx_typed::proofs::Rules::typed_tree_rules))]
fn with_statement(
    alloc: Global,
    statement: &Stmt,
    items: List<Item>,
    node: usize,
) -> Result<List<Item>, AllocError>
    ensures { IfOk result (λ it. (rest : tree.Body) (d : tree.Temporary) → ordered (map plain-Item it) (order.order_body rest node d) ≡ ordered (map plain-Item items) (order.order_body (plain-Stmt statement.now rest) node d)) }
{
    match statement {
        Stmt::Runs(expr) => runs(alloc, expr, items, node),
        Stmt::Declares(at, variables) => declares(items, *at, variables, node),
        Stmt::Lets(at, pattern, matched) => lets(alloc, matched, pattern, items, *at, node),
    }
}

#[cycle(expression)]
#[tactic(auto, using(crate::proofs::Orders::ordered_rules))]
fn runs(
    alloc: Global,
    expr: &Expr,
    items: List<Item>,
    _node: usize,
) -> Result<List<Item>, AllocError>
    ensures { IfOk result (λ it. (rest : tree.Body) (d : tree.Temporary) → ordered (map plain-Item it) (order.order_body rest _node d) ≡ ordered (map plain-Item items) (order.order_body (tree.runs (plain-Expr expr.now) rest) _node d)) }
{
    let (flow, items) = keep(items, value(alloc, expr))?;
    then_flow(items, flow)
}

#[tactic(auto, using(crate::proofs::Orders::ordered_rules))]
fn declares(
    items: List<Item>,
    at: usize,
    variables: &List<u32>,
    node: usize,
) -> Result<List<Item>, AllocError>
    ensures { IfOk result (λ it. (rest : tree.Body) (d : tree.Temporary) → ordered (map plain-Item it) (order.order_body rest node d) ≡ ordered (map plain-Item items) (order.order_body (tree.declares at variables.now rest) node d)) }
{
    declared(items, at, node, variables.as_slice())
}

#[cycle(expression)]
#[tactic(auto, using(crate::proofs::Orders::ordered_rules))]
fn lets(
    alloc: Global,
    matched: &Matched,
    pattern: &Pattern,
    items: List<Item>,
    _at: usize,
    node: usize,
) -> Result<List<Item>, AllocError>
    ensures { IfOk result (λ it. (rest : tree.Body) (d : tree.Temporary) → ordered (map plain-Item it) (order.order_body rest node d) ≡ ordered (map plain-Item items) (order.order_body (tree.lets _at (plain-Pattern pattern.now) (plain-Matched matched.now) rest) node d)) }
{
    let (flow, items) = keep(items, matched_flow(alloc, matched))?;
    let items = then_flow(items, flow)?;
    bound(alloc, items, subject_of(matched), node, pattern)
}

/// The items, then the tail of a block, or the unit.
#[cycle(expression)]
pub(crate) fn then_last(
    alloc: Global,
    last: &Boxed<Expr>,
    items: List<Item>,
    into: Temporary,
) -> Result<Flow, AllocError>
    ensures { IfOk result (λ it. order_of (plain-Flow it) ≡ ordered (map plain-Item items) (order.order (plain-Expr last.now) (plain-Temporary into))) }
{
    let (last, items) = keep(items, expression(alloc, last.get(), into))?;
    sequence(alloc, items, last)
}

/// The statements of the block at a node.
#[cycle(expression)]
pub(crate) fn statement_items(
    alloc: Global,
    statements: &[Stmt],
    node: usize,
) -> Result<List<Item>, AllocError>
    ensures { IfOk result (λ it. (e : tree.Exp) (d : tree.Temporary) → ordered (map plain-Item it) (order.order e d) ≡ order.order_body (nested_of (map plain-Stmt statements.now) e) node d) }
{
    let mut items = List::new(alloc);
    for statement in statements {
        items = with_statement(alloc, statement, items, node)?;
    }
    Ok(items)
}

//! Variables that a run moves, in whole or in part, whether or not some walk comes there.

ghost use Rattle.std.specs.Prelude.{◌≡◌, ◌++◌, map, IfOk};
ghost use Rattle.rx_lower_walks.specs.Flows as flows;
ghost use Rattle.rx_lower_walks.specs.PlainFlow.{plain-Act, plain-Flow, plain-Item, plain-Place, plain-Root};
ghost use Rattle.rx_typed.specs.Tree.{Temporary};
ghost use Rattle.rx_lower_walks.specs.Actions as actions;
ghost use Rattle.rx_facts_tables.specs.Setting as setting;
ghost use Rattle.rx_exits_plan.specs.PlainPlan.{plain-Run};
ghost use Rattle.rx_exits_plan.specs.Plan.{run_actions};
ghost use Rattle.rx_exits_plan.specs.PlainSyntax.{plain-Home};
ghost use Rattle.rx_exits.specs.Moving as moving;

use rx_core::{LetGo, List, Step, pushed};
use rx_exits_plan::{Home, Run};
use rx_exits_tree::run_alone;
use rx_lower_order::flow_of;
use rx_lower_walks::{Act, Flow, Item, Place, Root};
use std::alloc::{AllocError, Global};

/// Whether the steps go through a dereference.
fn is_behind(steps: &[Step]) -> bool
    ensures { result ≡ setting.is_behind steps.now }
{
    for step in steps {
        match step {
            Step::Deref(_) => return true,
            Step::Field(_) | Step::Variant(_) => (),
        }
    }
    false
}

/// The variables, and that of a place unless it is behind a dereference.
fn with_root(found: List<u32>, place: &Place) -> Result<List<u32>, AllocError>
    ensures { IfOk result (λ it. it ≡ found ++ moving.of_root (plain-Root place.now.root) (setting.is_behind place.now.steps)) }
{
    match place.root {
        Root::Variable(variable) => {
            if is_behind(place.steps.as_slice()) {
                Ok(found)
            } else {
                pushed(found, variable)
            }
        }
        Root::Temporary(_) => Ok(found),
    }
}

/// The variables, and that which a read moves.
fn with_read(found: List<u32>, moves: bool, place: &Place) -> Result<List<u32>, AllocError>
    ensures { (d : Temporary) → IfOk result (λ it. it ≡ found ++ moving.moved_by (actions.Read moves (plain-Place place.now) d)) }
{
    if moves {
        with_root(found, place)
    } else {
        Ok(found)
    }
}

/// The variables, and that which an action moves.
#[tactic(auto, using(crate::proofs::MovingLemmas::moving_rules))]
fn with_moved(found: List<u32>, act: &Act) -> Result<List<u32>, AllocError>
    ensures { IfOk result (λ it. it ≡ found ++ moving.moved_by (plain-Act act.now)) }
{
    match act {
        Act::Read(moves, place, _) => with_read(found, *moves, place),
        Act::Declare(_)
        | Act::Dead(_)
        | Act::Write(_, _, _)
        | Act::Borrow(_, _, _)
        | Act::Test(_, _)
        | Act::Call(_, _, _)
        | Act::Build(_, _, _, _)
        | Act::Input(_)
        | Act::Print(_)
        | Act::Give(_) => Ok(found),
    }
}

/// The variables, and those that a flow moves.
#[cycle(moving)]
#[tactic(auto, using(rx_lower_walks::proofs::Rules::flow_rules, crate::proofs::MovingLemmas::moving_rules))]
fn with_flow(found: List<u32>, flow: &Flow) -> Result<List<u32>, AllocError>
    ensures { IfOk result (λ it. it ≡ found ++ moving.moved_in_flow (plain-Flow flow.now)) }
{
    match flow {
        Flow::Nothing | Flow::Nowhere | Flow::Leave(_) => Ok(found),
        Flow::Act(action) => with_moved(found, &action.act),
        Flow::Items(items, last) => with_sequence(found, items.as_slice(), last.get()),
        Flow::Or(first, second) => {
            let found = with_flow(found, first.get())?;
            with_flow(found, second.get())
        }
        Flow::Passes(_, body) => with_flow(found, body.get()),
    }
}

/// The variables, and those that a sequence moves.
#[cycle(moving)]
#[tactic(auto, using(crate::proofs::MovingLemmas::moving_rules))]
fn with_sequence(found: List<u32>, items: &[Item], last: &Flow) -> Result<List<u32>, AllocError>
    ensures { IfOk result (λ it. it ≡ found ++ moving.moved_in_items (flows.items_of (map plain-Item items.now) (flows.last (plain-Flow last.now)))) }
{
    let found = with_items(found, items)?;
    with_flow(found, last)
}

#[cycle(moving)]
fn with_items(found: List<u32>, items: &[Item]) -> Result<List<u32>, AllocError>
    ensures { IfOk result (λ it. it ≡ found ++ moving.moved_in_each (map plain-Item items.now)) }
{
    let mut all = found;
    for item in items {
        all = with_item(all, item)?;
    }
    Ok(all)
}

#[cycle(moving)]
#[tactic(auto, using(rx_lower_walks::proofs::Rules::flow_rules, crate::proofs::MovingLemmas::moving_rules))]
fn with_item(found: List<u32>, item: &Item) -> Result<List<u32>, AllocError>
    ensures { IfOk result (λ it. it ≡ found ++ moving.moved_in_item (plain-Item item.now)) }
{
    match item {
        Item::Do(flow) => with_flow(found, flow),
        Item::Else(flow) => with_flow(found, flow),
        Item::Ends(_, _) | Item::May => Ok(found),
    }
}

/// The variables that a run moves.
pub(crate) fn moved(alloc: Global, home: &Home<'_>, run: Run) -> Result<List<u32>, AllocError>
    ensures { IfOk result (λ it. it ≡ moving.moved_in (run_actions (plain-Run run) (plain-Home home.now).body)) }
{
    let alone = run_alone(alloc, home.stmts, home.tail, run)?;
    let flow = flow_of(alloc, &alone);
    alone.let_go();
    let flow = flow?;
    let found = with_flow(List::new(alloc), &flow);
    flow.let_go();
    found
}

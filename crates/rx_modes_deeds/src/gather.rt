//! What the actions of a flow do to each variable: of all that the flow names, whether or not some walk holds them.

ghost use Rattle.std.specs.Prelude.{◌≡◌, ℕ, map, IfOk, OnOk};
ghost use Rattle.rx_lower_walks.specs.Flows as flows;
ghost use Rattle.rx_lower_walks.specs.Flows.{order_of, order_of_items};
ghost use Rattle.rx_lower_walks.specs.PlainFlow.{plain-Flow, plain-Item};
ghost use Rattle.rx_lower_walks.specs.Walks.{actions_in};
ghost use Rattle.rx_modes_deeds.specs.Doings as spec;

use crate::deeds::{Deeds, note};
use rx_lower_walks::{Flow, Item};
use std::alloc::{AllocError, Global};

/// Notes the actions of a flow.
#[cycle(gather)]
#[tactic(auto, using(rx_lower_walks::proofs::Rules::flow_rules, crate::proofs::Noting::noted_append))]
fn gather(table: &mut Vec<Deeds>, flow: &Flow) -> Result<(), AllocError>
    ensures { OnOk result (spec.deeds_at table.new.items ≡ spec.all_noted (spec.deeds_at table.old.items) (actions_in (order_of (plain-Flow flow.now)))) }
{
    match flow {
        Flow::Nothing | Flow::Nowhere | Flow::Leave(_) => Ok(()),
        Flow::Act(action) => note(table, action),
        Flow::Items(items, last) => gather_items(table, items.as_slice(), last.get()),
        Flow::Or(first, second) => gather_both(table, first.get(), second.get()),
        Flow::Passes(_, body) => gather(table, body.get()),
    }
}

#[cycle(gather)]
#[tactic(auto, using(crate::proofs::Noting::noted_append))]
fn gather_both(table: &mut Vec<Deeds>, first: &Flow, second: &Flow) -> Result<(), AllocError>
    ensures { OnOk result (spec.deeds_at table.new.items ≡ spec.all_noted (spec.deeds_at table.old.items) (actions_in (order_of (flows.or (plain-Flow first.now) (plain-Flow second.now))))) }
{
    gather(table, first)?;
    gather(table, second)
}

/// Notes the actions of an item.
#[cycle(gather)]
#[tactic(auto, using(rx_lower_walks::proofs::Rules::flow_rules))]
fn gather_item(table: &mut Vec<Deeds>, item: &Item) -> Result<(), AllocError>
    ensures { OnOk result (spec.deeds_at table.new.items ≡ spec.all_noted (spec.deeds_at table.old.items) (spec.item_actions (plain-Item item.now))) }
{
    match item {
        Item::Do(flow) | Item::Else(flow) => gather(table, flow),
        Item::Ends(_, _) | Item::May => Ok(()),
    }
}

/// Notes the actions of a sequence.
#[cycle(gather)]
fn gather_items(table: &mut Vec<Deeds>, items: &[Item], last: &Flow) -> Result<(), AllocError>
    ensures { OnOk result (spec.deeds_at table.new.items ≡ spec.all_noted (spec.deeds_at table.old.items) (actions_in (order_of_items (flows.items_of (map plain-Item items.now) (flows.last (plain-Flow last.now)))))) }
{
    for item in items {
        gather_item(table, item)?;
    }
    gather(table, last)
}

/// What the actions of a flow do, by variable; of variables past the table's end, nothing.
#[tactic(auto, using(crate::proofs::Telling::told))]
pub fn deeds_in(alloc: Global, flow: &Flow) -> Result<Vec<Deeds>, AllocError>
    ensures { IfOk result (λ it. (x : ℕ) → spec.AreDeeds (actions_in (order_of (plain-Flow flow.now))) x (spec.deeds_at it.items x)) }
{
    let mut table = Vec::new(alloc);
    gather(&mut table, flow)?;
    Ok(table)
}

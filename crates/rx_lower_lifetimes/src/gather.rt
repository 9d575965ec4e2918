//! What is noted of a flow: of the actions that some walk holds. On the way it is found where the flow leads, so that nothing
//! is gone over twice.

ghost use Rattle.std.specs.Prelude.{◌≡◌, ◌++◌, map, IfOk, OnOk, if◌then◌else◌};
ghost use Rattle.rx_lower_walks.specs.Flows as flows;
ghost use Rattle.rx_lower_walks.specs.PlainFlow.{plain-Flow, plain-Item};
ghost use Rattle.rx_lower_lifetimes.specs.Held as acts;
ghost use Rattle.rx_lower_lifetimes.specs.Leads as leads;
ghost use Rattle.rx_lower_lifetimes.specs.PlainOf.{plain-Notes, known};

use crate::held::Open;
use crate::notes::{Notes, note};
use crate::onward::{
    Front, Onward, either, finished, goes_on, no_items, push_break, push_others, stops, with_end,
    with_part, with_test, with_tried,
};
use rx_core::List;
use rx_lower_walks::{Flow, Item};
use rx_typed::Decls;
use std::alloc::{AllocError, Global};

/// Notes the actions of a flow, and adds the loops that it breaks. Where it leads.
#[cycle(gather)]
#[tactic(auto, using(rx_lower_walks::proofs::Rules::flow_rules, crate::proofs::Leading::none_broken))]
pub fn gather(
    alloc: Global,
    decls: &Decls,
    variables: &[Open],
    flow: &Flow,
    notes: &mut Notes,
    broken: &mut List<u32>,
) -> Result<Onward, AllocError>
    ensures leads { IfOk result (λ it. it ≡ leads.leads (plain-Flow flow.now)) }
    ensures notes { OnOk result (plain-Notes notes.new ≡ acts.all_noted (known decls.now.items variables.now) (plain-Notes notes.old) (acts.held_acts (plain-Flow flow.now))) }
    ensures broken { OnOk result (broken.new ≡ broken.old ++ leads.broken (plain-Flow flow.now)) }
{
    match flow {
        Flow::Nothing => Ok(goes_on()),
        Flow::Nowhere => Ok(stops()),
        Flow::Act(action) => {
            note(alloc, decls, variables, action, notes)?;
            Ok(goes_on())
        }
        Flow::Items(items, last) => {
            gather_items(
                alloc,
                decls,
                variables,
                items.as_slice(),
                last.get(),
                notes,
                broken,
            )
        }
        Flow::Or(first, second) => {
            gather_both(
                alloc,
                decls,
                variables,
                first.get(),
                second.get(),
                notes,
                broken,
            )
        }
        Flow::Leave(exit) => {
            push_break(*exit, broken)?;
            Ok(stops())
        }
        Flow::Passes(number, body) => {
            gather_passes(alloc, decls, variables, *number, body.get(), notes, broken)
        }
    }
}

#[cycle(gather)]
#[tactic(auto, using(crate::proofs::Noting::noted_append))]
fn gather_both(
    alloc: Global,
    decls: &Decls,
    variables: &[Open],
    first: &Flow,
    second: &Flow,
    notes: &mut Notes,
    broken: &mut List<u32>,
) -> Result<Onward, AllocError>
    ensures leads { IfOk result (λ it. it ≡ leads.leads (flows.or (plain-Flow first.now) (plain-Flow second.now))) }
    ensures notes { OnOk result (plain-Notes notes.new ≡ acts.all_noted (known decls.now.items variables.now) (plain-Notes notes.old) (acts.held_acts (flows.or (plain-Flow first.now) (plain-Flow second.now)))) }
    ensures broken { OnOk result (broken.new ≡ broken.old ++ leads.broken (flows.or (plain-Flow first.now) (plain-Flow second.now))) }
{
    let one = gather(alloc, decls, variables, first, notes, broken)?;
    let other = gather(alloc, decls, variables, second, notes, broken)?;
    Ok(either(one, other))
}

/// The passes of a loop.
#[cycle(gather)]
fn gather_passes(
    alloc: Global,
    decls: &Decls,
    variables: &[Open],
    number: u32,
    body: &Flow,
    notes: &mut Notes,
    broken: &mut List<u32>,
) -> Result<Onward, AllocError>
    ensures leads { IfOk result (λ it. it ≡ leads.leads (flows.passes number (plain-Flow body.now))) }
    ensures notes { OnOk result (plain-Notes notes.new ≡ acts.all_noted (known decls.now.items variables.now) (plain-Notes notes.old) (acts.held_acts (plain-Flow body.now))) }
    ensures broken { OnOk result (broken.new ≡ broken.old ++ leads.broken (flows.passes number (plain-Flow body.now))) }
{
    let mut inner = List::new(alloc);
    gather(alloc, decls, variables, body, notes, &mut inner)?;
    let ahead = push_others(number, inner.as_slice(), broken)?;
    Ok(Onward {
        ahead,
        failing: false,
    })
}

/// Notes the actions of an item, and adds the loops that it breaks. Whether what follows is reached.
#[cycle(gather)]
#[tactic(auto, using(rx_lower_walks::proofs::Rules::flow_rules, crate::proofs::Leading::none_broken))]
fn gather_item(
    alloc: Global,
    decls: &Decls,
    variables: &[Open],
    item: &Item,
    notes: &mut Notes,
    broken: &mut List<u32>,
    front: &mut Front,
) -> Result<bool, AllocError>
    ensures goes { IfOk result (λ it. it ≡ leads.item_goes_on (plain-Item item.now)) }
    ensures notes { OnOk result (plain-Notes notes.new ≡ acts.all_noted (known decls.now.items variables.now) (plain-Notes notes.old) (acts.item_acts (plain-Item item.now))) }
    ensures broken { OnOk result (broken.new ≡ broken.old ++ leads.item_broken (plain-Item item.now)) }
    ensures front { OnOk result ((h : Onward) → leads.finished front.old (leads.item_leads (plain-Item item.now) h) ≡ leads.finished front.new (if leads.item_goes_on (plain-Item item.now) then h else leads.stops)) }
{
    match item {
        Item::Do(flow) => {
            let own = gather(alloc, decls, variables, flow, notes, broken)?;
            *front = with_part(*front, own);
            Ok(own.ahead)
        }
        Item::Ends(_, _) => {
            *front = with_end(*front);
            Ok(true)
        }
        Item::May => {
            *front = with_test(*front);
            Ok(true)
        }
        Item::Else(flow) => {
            let own = gather(alloc, decls, variables, flow, notes, broken)?;
            *front = with_tried(*front, own);
            Ok(own.failing)
        }
    }
}

/// A sequence.
#[cycle(gather)]
fn gather_items(
    alloc: Global,
    decls: &Decls,
    variables: &[Open],
    items: &[Item],
    last: &Flow,
    notes: &mut Notes,
    broken: &mut List<u32>,
) -> Result<Onward, AllocError>
    ensures leads { IfOk result (λ it. it ≡ leads.leads_items (flows.items_of (map plain-Item items.now) (flows.last (plain-Flow last.now)))) }
    ensures notes { OnOk result (plain-Notes notes.new ≡ acts.all_noted (known decls.now.items variables.now) (plain-Notes notes.old) (acts.held_items (flows.items_of (map plain-Item items.now) (flows.last (plain-Flow last.now))))) }
    ensures broken { OnOk result (broken.new ≡ broken.old ++ leads.broken_items (flows.items_of (map plain-Item items.now) (flows.last (plain-Flow last.now)))) }
{
    let mut front = no_items();
    for item in items {
        if !gather_item(alloc, decls, variables, item, notes, broken, &mut front)? {
            return Ok(finished(front, stops()));
        }
    }
    let rest = gather(alloc, decls, variables, last, notes, broken)?;
    Ok(finished(front, rest))
}

//! What flows are to what is around them.

ghost use Rattle.std.specs.Prelude.{◌≡◌, [], ◌++◌, length, IfOk, OnOk, map, List as ListOf};
ghost use Rattle.rx_lower_walks.specs.Flows as flows;
ghost use Rattle.rx_lower_walks.specs.Flows.{Items, item_and, items_of};
ghost use Rattle.rx_lower_walks.specs.PlainFlow.{plain-Flow, plain-Item, plain-Exit};
ghost use Rattle.rx_lower_walks.specs.Sums.{sum, sum_items, opened, no_items};
ghost use Rattle.rx_lower_walks.specs.Rows.{flow_rows, items_rows, past};

use crate::around::Around;
use crate::sums::{
    Row, Sum, Way, acts, do_row, else_row, ends_row, leads, leaving, loop_row, may_row, nowhere,
    or_row,
};
use crate::ways::exit_way;
use crate::{Exit, Flow, Item};
use rx_core::List;
use std::alloc::{AllocError, Global};

/// Declares the variable of an item.
#[tactic(auto, using(crate::proofs::Rules::flow_rules))]
fn open_item(item: &Item, around: &mut Around) -> Result<(), AllocError>
    ensures { OnOk result ((l : Items) → opened l around.new ≡ opened (item_and (plain-Item item.now) l) around.old) }
{
    match item {
        Item::Do(_) => Ok(()),
        Item::Ends(_, variable) => around.open(*variable),
        Item::May => Ok(()),
        Item::Else(_) => Ok(()),
    }
}

fn open_all(items: &[Item], around: &mut Around) -> Result<(), AllocError>
    ensures { OnOk result (around.new ≡ opened (items_of (map plain-Item items.now) no_items) around.old) }
{
    for item in items {
        open_item(item, around)?;
    }
    Ok(())
}

fn leaves(alloc: Global, exit: Exit, around: &Around) -> Result<Sum, AllocError>
    ensures { IfOk result (λ it. it ≡ sum around.now (flows.leave (plain-Exit exit))) }
{
    leaving(alloc, around.count(exit), exit_way(exit))
}

/// How many rows were added behind so many.
fn added(rows: &List<Row>, under: usize) -> usize
    ensures { (front more : ListOf Row) → rows.now ≡ front ++ more → length front ≡ under → result ≡ length more }
{
    rows.len().saturating_sub(under)
}

/// What a flow is; its rows are added.
#[cycle(measure)]
#[tactic(auto, using(crate::proofs::Rules::flow_rules, crate::proofs::Rows::no_more))]
pub fn measure(
    alloc: Global,
    flow: &Flow,
    around: &mut Around,
    rows: &mut List<Row>,
) -> Result<Sum, AllocError>
    ensures sum { IfOk result (λ it. it ≡ sum around.old (plain-Flow flow.now)) }
    ensures rows { OnOk result (rows.new ≡ rows.old ++ flow_rows around.old (plain-Flow flow.now)) }
    ensures around { OnOk result (around.new ≡ around.old) }
{
    match flow {
        Flow::Nothing => leads(alloc, Way::Ahead),
        Flow::Nowhere => Ok(nowhere(alloc)),
        Flow::Act(_) => acts(alloc),
        Flow::Items(items, last) => {
            measure_items(alloc, items.as_slice(), last.get(), around, rows)
        }
        Flow::Or(first, second) => measure_or(alloc, first.get(), second.get(), around, rows),
        Flow::Leave(exit) => leaves(alloc, *exit, around),
        Flow::Passes(number, body) => measure_passes(alloc, *number, body.get(), around, rows),
    }
}

#[cycle(measure)]
fn measure_or(
    alloc: Global,
    first: &Flow,
    second: &Flow,
    around: &mut Around,
    rows: &mut List<Row>,
) -> Result<Sum, AllocError>
    ensures sum { IfOk result (λ it. it ≡ sum around.old (flows.or (plain-Flow first.now) (plain-Flow second.now))) }
    ensures rows { OnOk result (rows.new ≡ rows.old ++ flow_rows around.old (flows.or (plain-Flow first.now) (plain-Flow second.now))) }
    ensures around { OnOk result (around.new ≡ around.old) }
{
    let under = rows.len();
    let rest = measure(alloc, second, around, rows)?;
    let behind = added(rows, under);
    let own = measure(alloc, first, around, rows)?;
    or_row(alloc, own, rest, behind, rows)
}

/// A loop, by its passes.
#[cycle(measure)]
fn measure_passes(
    alloc: Global,
    number: u32,
    body: &Flow,
    around: &mut Around,
    rows: &mut List<Row>,
) -> Result<Sum, AllocError>
    ensures sum { IfOk result (λ it. it ≡ sum around.old (flows.passes number (plain-Flow body.now))) }
    ensures rows { OnOk result (rows.new ≡ rows.old ++ flow_rows around.old (flows.passes number (plain-Flow body.now))) }
    ensures around { OnOk result (around.new ≡ around.old) }
{
    around.enter(number, List::new(alloc), List::new(alloc))?;
    let passes = measure(alloc, body, around, rows)?;
    around.leave();
    loop_row(alloc, number, passes, rows)
}

/// An item in front of what follows it, and its variable ended.
#[cycle(measure)]
#[tactic(auto, using(crate::proofs::Rules::flow_rules))]
fn measure_item(
    alloc: Global,
    item: &Item,
    rest: Sum,
    behind: usize,
    around: &mut Around,
    rows: &mut List<Row>,
) -> Result<Sum, AllocError>
    ensures sum { IfOk result (λ it. (A : Around) (l : Items) → around.old ≡ past (plain-Item item.now) A → rest ≡ sum_items around.old l
        → it ≡ sum_items A (item_and (plain-Item item.now) l)) }
    ensures rows { OnOk result ((A : Around) (l : Items) (front : ListOf Row) → around.old ≡ past (plain-Item item.now) A → rest ≡ sum_items around.old l
        → behind ≡ length (items_rows around.old l) → rows.old ≡ front ++ items_rows around.old l → rows.new ≡ front ++ items_rows A (item_and (plain-Item item.now) l)) }
    ensures around { OnOk result ((A : Around) → around.old ≡ past (plain-Item item.now) A → around.new ≡ A) }
{
    match item {
        Item::Do(flow) => {
            let own = measure(alloc, flow, around, rows)?;
            do_row(alloc, own, rest, behind, rows)
        }
        Item::Ends(_, _) => {
            around.close();
            ends_row(alloc, rest, behind, rows)
        }
        Item::May => may_row(alloc, rest, behind, rows),
        Item::Else(flow) => {
            let own = measure(alloc, flow, around, rows)?;
            else_row(alloc, own, rest, behind, rows)
        }
    }
}

/// A sequence, from its last item to its first.
#[cycle(measure)]
fn measure_items(
    alloc: Global,
    items: &[Item],
    last: &Flow,
    around: &mut Around,
    rows: &mut List<Row>,
) -> Result<Sum, AllocError>
    ensures sum { IfOk result (λ it. it ≡ sum_items around.old (items_of (map plain-Item items.now) (flows.last (plain-Flow last.now)))) }
    ensures rows { OnOk result (rows.new ≡ rows.old ++ items_rows around.old (items_of (map plain-Item items.now) (flows.last (plain-Flow last.now)))) }
    ensures around { OnOk result (around.new ≡ around.old) }
{
    open_all(items, around)?;
    let under = rows.len();
    let mut sum = measure(alloc, last, around, rows)?;
    for turn in 0..items.len() {
        let behind = added(rows, under);
        sum = measure_item(
            alloc,
            &items[items.len() - 1 - turn],
            sum,
            behind,
            around,
            rows,
        )?;
    }
    Ok(sum)
}

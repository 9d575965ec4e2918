//! The sites of flows, in the order of the text.

ghost use Rattle.std.specs.Prelude.{◌≡◌, [], ◌∷◌, ◌++◌, ◌<◌, length, IfOk, OnOk, List as ListOf, map};
ghost use Rattle.rx_lower_walks.specs.Pieces.{distinct};
ghost use Rattle.rx_lower_walks.specs.Flows as flows;
ghost use Rattle.rx_lower_walks.specs.Flows.{Items, item_and, items_of};
ghost use Rattle.rx_lower_walks.specs.PlainFlow.{plain-Action, plain-Flow, plain-Item, plain-Exit};
ghost use Rattle.rx_lower_walks.specs.PlainSite.{plain-Site};
ghost use Rattle.rx_lower_walks.specs.Around.{with_variable, with_loop, exits};
ghost use Rattle.rx_lower_walks.specs.Sums.{round};
ghost use Rattle.rx_lower_walks.specs.Rows.{flow_rows, items_rows, past, own_rows, item_row};
ghost use Rattle.rx_lower_walks.specs.Emitted.{place, entered, emitted, emitted_items, with_open, left_over, left_where};

use crate::around::Around;
use crate::breaks::distinct;
use crate::exits::{entered, exit_node, exit_sites};
use crate::numbers::place;
use crate::site::{Open, Site, Stand, close, dying, push_site};
use crate::sums::Row;
use crate::ways::rounded;
use crate::{Action, Exit, Flow, Item, action_copied};
use rx_core::List;
use std::alloc::{AllocError, Global};

fn emit_act(
    alloc: Global,
    action: &Action,
    on: &[u32],
    out: &mut List<Site>,
) -> Result<(), AllocError>
    ensures { OnOk result (map plain-Site out.new ≡ map plain-Site out.old ++ record { action = plain-Action action.now; next = distinct on.now } ∷ []) }
{
    let next = distinct(alloc, on)?;
    let action = action_copied(alloc, action)?;
    push_site(out, action, next)
}

/// A jump: the variables that it ends.
fn emit_leave(
    alloc: Global,
    exit: Exit,
    at: u32,
    on: &[u32],
    fails: &[u32],
    around: &Around,
    out: &mut List<Site>,
) -> Result<(), AllocError>
    ensures { OnOk result (map plain-Site out.new ≡ map plain-Site out.old ++ emitted around.now (flows.leave (plain-Exit exit)) at on.now fails.now) }
{
    let variables = around.ended(alloc, exit)?;
    let end = exit_sites(alloc, exit, around.loops.as_slice())?;
    dying(
        alloc,
        exit_node(exit),
        variables.as_slice(),
        at,
        end.as_slice(),
        out,
    )
}

/// The first sites of a loop's passes.
fn pass_head(
    alloc: Global,
    number: u32,
    row: &Row,
    at: u32,
    on: &[u32],
    fails: &[u32],
    around: &Around,
) -> Result<List<u32>, AllocError>
    ensures { IfOk result (λ it. it ≡ entered (round number row.now.own.begins) at (exits on.now fails.now around.now.loops)) }
{
    let begins = rounded(alloc, number, row.own.begins.as_slice())?;
    entered(
        alloc,
        begins.as_slice(),
        at,
        on,
        fails,
        around.loops.as_slice(),
    )
}

/// Goes into a loop, whose passes begin with these sites.
fn enter(
    alloc: Global,
    number: u32,
    after: &[u32],
    head: &[u32],
    around: &mut Around,
) -> Result<(), AllocError>
    ensures { OnOk result (around.new ≡ with_loop number after.now head.now around.old) }
{
    let after = List::from_slice(alloc, after)?;
    let head = List::from_slice(alloc, head)?;
    around.enter(number, after, head)
}

/// The front of a sequence.
fn stand_at(alloc: Global, at: u32, on: &[u32], fails: &[u32]) -> Result<Stand, AllocError>
    ensures { IfOk result (λ it. it ≡ record { at = at; on = on.now; fails = fails.now; opens = [] }) }
{
    let on = List::from_slice(alloc, on)?;
    let fails = List::from_slice(alloc, fails)?;
    Ok(Stand {
        at,
        on,
        fails,
        opens: List::new(alloc),
    })
}

/// What follows an item, where it is this part.
fn follows(
    alloc: Global,
    row: &Row,
    next: u32,
    stand: &Stand,
    around: &Around,
) -> Result<List<u32>, AllocError>
    ensures { IfOk result (λ it. it ≡ entered row.now.rest.begins next (exits stand.now.on stand.now.fails around.now.loops)) }
{
    entered(
        alloc,
        row.rest.begins.as_slice(),
        next,
        stand.on.as_slice(),
        stand.fails.as_slice(),
        around.loops.as_slice(),
    )
}

/// A variable that ends where the rest of a sequence does: the rest leads to its end, and no failed test leads out of it.
fn begin_end(
    alloc: Global,
    node: usize,
    variable: u32,
    row: &Row,
    stand: &mut Stand,
    around: &mut Around,
) -> Result<(), AllocError>
    ensures stand { OnOk result (stand.new ≡ record {
      at = stand.old.at;
      on = place stand.old.at row.now.rest.size ∷ [];
      fails = [];
      opens = stand.old.opens ++ record { node = node; variable = variable; reached = row.now.rest.ahead; next = distinct stand.old.on } ∷ [];
    }) }
    ensures around { OnOk result (around.new ≡ with_variable variable around.old) }
{
    let next = distinct(alloc, stand.on.as_slice())?;
    stand.opens.push(Open {
        node,
        variable,
        reached: row.rest.ahead,
        next,
    })?;
    let mut on = List::new(alloc);
    on.push(place(stand.at, row.rest.size))?;
    stand.on = on;
    stand.fails = List::new(alloc);
    around.open(variable)
}

/// The row of a part and what comes behind it, the rows behind, and those of the part.
fn split(rows: &[Row]) -> (&Row, &[Row], &[Row])
    requires { 0 < length rows.now }
    ensures { (behind own : ListOf Row) (row : Row) → rows.now ≡ behind ++ (own ++ row ∷ []) → row.behind ≡ length behind
        → (result.0.now ≡ row) × (result.1.now ≡ behind) × (result.2.now ≡ own) }
{
    let before = rows.len() - 1;
    let row = &rows[before];
    if row.behind > before {
        return (row, &rows[..before], &rows[..before]);
    }
    (row, &rows[..row.behind], &rows[row.behind..before])
}

#[cycle(emit)]
#[tactic(auto, using(crate::proofs::Rules::flow_rules))]
pub fn emit(
    alloc: Global,
    flow: &Flow,
    rows: &[Row],
    at: u32,
    on: &[u32],
    fails: &[u32],
    around: &mut Around,
    out: &mut List<Site>,
) -> Result<(), AllocError>
    requires { rows.now ≡ flow_rows around.old (plain-Flow flow.now) }
    ensures sites { OnOk result (map plain-Site out.new ≡ map plain-Site out.old ++ emitted around.old (plain-Flow flow.now) at on.now fails.now) }
    ensures around { OnOk result (around.new ≡ around.old) }
{
    match flow {
        Flow::Nothing => Ok(()),
        Flow::Nowhere => Ok(()),
        Flow::Act(action) => emit_act(alloc, action, on, out),
        Flow::Items(items, last) => {
            emit_items(
                alloc,
                items.as_slice(),
                last.get(),
                rows,
                at,
                on,
                fails,
                around,
                out,
            )
        }
        Flow::Or(first, second) => {
            emit_or(
                alloc,
                first.get(),
                second.get(),
                rows,
                at,
                on,
                fails,
                around,
                out,
            )
        }
        Flow::Leave(exit) => emit_leave(alloc, *exit, at, on, fails, around, out),
        Flow::Passes(number, body) => {
            emit_passes(alloc, *number, body.get(), rows, at, on, fails, around, out)
        }
    }
}

#[cycle(emit)]
fn emit_or(
    alloc: Global,
    first: &Flow,
    second: &Flow,
    rows: &[Row],
    at: u32,
    on: &[u32],
    fails: &[u32],
    around: &mut Around,
    out: &mut List<Site>,
) -> Result<(), AllocError>
    requires { rows.now ≡ flow_rows around.old (flows.or (plain-Flow first.now) (plain-Flow second.now)) }
    ensures sites { OnOk result (map plain-Site out.new ≡ map plain-Site out.old ++ emitted around.old (flows.or (plain-Flow first.now) (plain-Flow second.now)) at on.now fails.now) }
    ensures around { OnOk result (around.new ≡ around.old) }
{
    let (row, behind, own) = split(rows);
    let next = place(at, row.own.size);
    emit(alloc, first, own, at, on, fails, around, out)?;
    emit(alloc, second, behind, next, on, fails, around, out)
}

#[cycle(emit)]
fn emit_passes(
    alloc: Global,
    number: u32,
    body: &Flow,
    rows: &[Row],
    at: u32,
    on: &[u32],
    fails: &[u32],
    around: &mut Around,
    out: &mut List<Site>,
) -> Result<(), AllocError>
    requires { rows.now ≡ flow_rows around.old (flows.passes number (plain-Flow body.now)) }
    ensures sites { OnOk result (map plain-Site out.new ≡ map plain-Site out.old ++ emitted around.old (flows.passes number (plain-Flow body.now)) at on.now fails.now) }
    ensures around { OnOk result (around.new ≡ around.old) }
{
    let (row, _behind, own) = split(rows);
    let head = pass_head(alloc, number, row, at, on, fails, around)?;
    let nothing = List::new(alloc);
    enter(alloc, number, on, head.as_slice(), around)?;
    emit(
        alloc,
        body,
        own,
        at,
        head.as_slice(),
        nothing.as_slice(),
        around,
        out,
    )?;
    around.leave();
    Ok(())
}

/// An item that what follows in the sequence comes behind.
#[cycle(emit)]
fn emit_do(
    alloc: Global,
    flow: &Flow,
    row: &Row,
    own: &[Row],
    stand: &mut Stand,
    around: &mut Around,
    out: &mut List<Site>,
) -> Result<(), AllocError>
    requires { own.now ≡ flow_rows around.old (plain-Flow flow.now) }
    ensures sites { OnOk result (map plain-Site out.new ≡ map plain-Site out.old ++ emitted around.old (plain-Flow flow.now) stand.old.at
        (entered row.now.rest.begins (place stand.old.at row.now.own.size) (exits stand.old.on stand.old.fails around.old.loops)) stand.old.fails) }
    ensures stand { OnOk result (stand.new ≡ record stand.old { at = place stand.old.at row.now.own.size }) }
    ensures around { OnOk result (around.new ≡ around.old) }
{
    let next = place(stand.at, row.own.size);
    let on = follows(alloc, row, next, stand, around)?;
    emit(
        alloc,
        flow,
        own,
        stand.at,
        on.as_slice(),
        stand.fails.as_slice(),
        around,
        out,
    )?;
    stand.at = next;
    Ok(())
}

/// An item that what follows in the sequence comes behind where a test in it fails.
#[cycle(emit)]
fn emit_else(
    alloc: Global,
    flow: &Flow,
    row: &Row,
    own: &[Row],
    stand: &mut Stand,
    around: &mut Around,
    out: &mut List<Site>,
) -> Result<(), AllocError>
    requires { own.now ≡ flow_rows around.old (plain-Flow flow.now) }
    ensures sites { OnOk result (map plain-Site out.new ≡ map plain-Site out.old ++ emitted around.old (plain-Flow flow.now) stand.old.at
        stand.old.on (entered row.now.rest.begins (place stand.old.at row.now.own.size) (exits stand.old.on stand.old.fails around.old.loops))) }
    ensures stand { OnOk result (stand.new ≡ record stand.old { at = place stand.old.at row.now.own.size }) }
    ensures around { OnOk result (around.new ≡ around.old) }
{
    let next = place(stand.at, row.own.size);
    let fails = follows(alloc, row, next, stand, around)?;
    emit(
        alloc,
        flow,
        own,
        stand.at,
        stand.on.as_slice(),
        fails.as_slice(),
        around,
        out,
    )?;
    stand.at = next;
    Ok(())
}

/// An item, by what it and the items behind it are: whether some walk comes to those.
#[cycle(emit)]
fn emit_item(
    alloc: Global,
    item: &Item,
    row: &Row,
    own: &[Row],
    stand: &mut Stand,
    around: &mut Around,
    out: &mut List<Site>,
) -> Result<bool, AllocError>
    requires { own.now ≡ own_rows around.old (plain-Item item.now) }
    ensures sites { IfOk result (λ goes. (l : Items) → row.now ≡ item_row around.old (plain-Item item.now) l
        → map plain-Site out.old ++ left_over around.old (item_and (plain-Item item.now) l) stand.old ≡ map plain-Site out.new ++ left_where goes around.new l stand.new) }
    ensures past { IfOk result (λ goes. around.new ≡ past (plain-Item item.now) around.old) }
    ensures around { IfOk result (λ goes. (A : Around) → around.old ≡ with_open stand.old.opens A → around.new ≡ with_open stand.new.opens A) }
{
    match item {
        Item::Do(flow) => {
            emit_do(alloc, flow, row, own, stand, around, out)?;
            Ok(row.own.ahead)
        }
        Item::Ends(node, variable) => {
            begin_end(alloc, *node, *variable, row, stand, around)?;
            Ok(true)
        }
        Item::May => Ok(true),
        Item::Else(flow) => {
            emit_else(alloc, flow, row, own, stand, around, out)?;
            Ok(row.own.failing)
        }
    }
}

#[cycle(emit)]
fn emit_items(
    alloc: Global,
    items: &[Item],
    last: &Flow,
    rows: &[Row],
    at: u32,
    on: &[u32],
    fails: &[u32],
    around: &mut Around,
    out: &mut List<Site>,
) -> Result<(), AllocError>
    requires { rows.now ≡ items_rows around.old (items_of (map plain-Item items.now) (flows.last (plain-Flow last.now))) }
    ensures sites { OnOk result (map plain-Site out.new ≡ map plain-Site out.old
        ++ emitted_items around.old (items_of (map plain-Item items.now) (flows.last (plain-Flow last.now))) at on.now fails.now) }
    ensures around { OnOk result (around.new ≡ around.old) }
{
    let mut left = rows;
    let mut stand = stand_at(alloc, at, on, fails)?;
    for item in items {
        let (row, behind, own) = split(left);
        if !emit_item(alloc, item, row, own, &mut stand, around, out)? {
            return close(stand.opens, around, out);
        }
        left = behind;
    }
    emit(
        alloc,
        last,
        left,
        stand.at,
        stand.on.as_slice(),
        stand.fails.as_slice(),
        around,
        out,
    )?;
    close(stand.opens, around, out)
}

//! Where variables and temporaries are live, of each lifetime in their types.

ghost use Rattle.std.specs.Prelude.{◌≡◌, ◌<◌, ◌≤◌, ◌+◌, ℕ, List as ListOf, length, map, IfOk, OnOk};
ghost use Rattle.rx_graph_bits.specs.Rows as bits;
ghost use Rattle.rx_graph.specs.Tables as tables;
ghost use Rattle.rx_lower_walks.specs.Graph as graphs;
ghost use Rattle.rx_lower_walks.specs.PlainFlow.{plain-Root, plain-Temporary};
ghost use Rattle.rx_graph_closure.specs.Filling.{HasExactly, Added};
ghost use Rattle.rx_lower_lifetimes.specs.Answer.{plain-Lifetimes};
ghost use Rattle.rx_facts_tables.specs.Live.{IsLive};
ghost use Rattle.rx_facts_tables.specs.LiveTables.{IsIndex, Lives};
ghost use Rattle.rx_region.specs.Seeds as spec;

use crate::root_type;
use crate::types::lifetimes_of;
use rx_facts_tables::LiveTable;
use rx_graph_bits::Row;
use rx_graph_closure::join_all;
use rx_lower_lifetimes::Lifetimes;
use rx_lower_walks::{Root, Temporary};
use std::alloc::{AllocError, Global};

/// Adds a number where it is wanted.
fn insert_if(row: &mut Row, wanted: bool, number: usize)
    ensures { spec.InsertedIf wanted number row.old row.new }
{
    if wanted {
        row.insert(number);
    }
}

/// The sites where a variable or temporary is live.
fn live_row(
    alloc: Global,
    live: &LiveTable,
    root: Root,
    sites: u32,
    bound: usize,
) -> Result<Row, AllocError>
    requires { IsIndex live.now.index }
    ensures width { IfOk result (λ row. length row ≡ bits.words bound) }
    ensures exact { IfOk result (λ row. (g : ListOf graphs.Site) → Lives g live.now → sites ≡ length g → HasExactly (bits.words bound) row (spec.LiveBefore g (plain-Root root) sites)) }
{
    let mut row = Row::new(alloc, bound)?;
    let number = live.number(root);
    for site in 0..sites {
        let wanted = live.is_live_by(number, site as usize);
        insert_if(&mut row, wanted, site as usize);
    }
    Ok(row)
}

/// Adds the sites where a variable or temporary is live to these lifetimes.
fn add_live(
    alloc: Global,
    rows: &mut [Row],
    live: &LiveTable,
    root: Root,
    lifetimes: &[u32],
    sites: u32,
    bound: usize,
) -> Result<(), AllocError>
    requires index { IsIndex live.now.index }
    requires regular { tables.Regular (length rows.old) (bits.words bound) rows.old }
    ensures { OnOk result (spec.Grows live.now sites (bits.words bound) (λ g. spec.LivedAmong lifetimes.now g (plain-Root root)) rows.old rows.new) }
{
    if lifetimes.is_empty() {
        return Ok(());
    }
    let row = live_row(alloc, live, root, sites, bound)?;
    join_all(rows, lifetimes, &row);
    Ok(())
}

/// Adds the sites where a variable or temporary is live to each lifetime in its type.
fn add_root(
    alloc: Global,
    rows: &mut [Row],
    live: &LiveTable,
    lifetimes: &Lifetimes,
    root: Root,
    sites: u32,
    bound: usize,
) -> Result<(), AllocError>
    requires index { IsIndex live.now.index }
    requires regular { tables.Regular (length rows.old) (bits.words bound) rows.old }
    ensures { OnOk result (spec.Grows live.now sites (bits.words bound) (λ g. spec.Lived (plain-Lifetimes lifetimes.now) g (plain-Root root)) rows.old rows.new) }
{
    match root_type(lifetimes, root) {
        Some(ty) => {
            let list = lifetimes_of(alloc, ty)?;
            add_live(alloc, rows, live, root, list.as_slice(), sites, bound)
        }
        None => Ok(()),
    }
}

/// Those of the first variables.
pub fn add_variables(
    alloc: Global,
    rows: &mut [Row],
    live: &LiveTable,
    lifetimes: &Lifetimes,
    count: u32,
    sites: u32,
    bound: usize,
) -> Result<(), AllocError>
    requires index { IsIndex live.now.index }
    requires regular { tables.Regular (length rows.old) (bits.words bound) rows.old }
    ensures { OnOk result (spec.Grows live.now sites (bits.words bound) (λ g. spec.VariableLived (plain-Lifetimes lifetimes.now) g count) rows.old rows.new) }
{
    for variable in 0..count {
        add_root(
            alloc,
            rows,
            live,
            lifetimes,
            Root::Variable(variable),
            sites,
            bound,
        )?;
    }
    Ok(())
}

/// Those of temporaries.
pub fn add_temporaries(
    alloc: Global,
    rows: &mut [Row],
    live: &LiveTable,
    lifetimes: &Lifetimes,
    temporaries: &[Temporary],
    sites: u32,
    bound: usize,
) -> Result<(), AllocError>
    requires index { IsIndex live.now.index }
    requires regular { tables.Regular (length rows.old) (bits.words bound) rows.old }
    ensures { OnOk result (spec.Grows live.now sites (bits.words bound) (λ g. spec.TemporaryLived (plain-Lifetimes lifetimes.now) g (map plain-Temporary temporaries.now) (length temporaries.now)) rows.old rows.new) }
{
    for k in 0..temporaries.len() {
        add_root(
            alloc,
            rows,
            live,
            lifetimes,
            Root::Temporary(temporaries[k]),
            sites,
            bound,
        )?;
    }
    Ok(())
}

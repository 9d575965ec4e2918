//! Rows of bits from the items of lines.

ghost use Rattle.std.specs.Prelude.{◌≡◌, ◌+◌, ◌*◌, ◌<◌, ◌≤◌, length, IfOk};
ghost use Rattle.rx_cert_tables.specs.Sets.{IsRowOf, AreRows};
ghost use Rattle.rx_cert_tables.specs.Filling.{Ranged, Added};

use rx_cert_lines::{Item, Line};
use rx_core::List;
use rx_graph_bits::Row;
use std::alloc::{AllocError, Global};

/// Adds the numbers from the first on, below the end.
fn add_range(row: &mut Row, first: usize, end: usize)
    requires { first ≤ end }
    ensures { Ranged row.old row.new first end }
{
    for number in first..end {
        row.insert(number);
    }
}

/// Adds what an item holds.
fn add_item(row: &mut Row, item: Item, sites: u32, own: u32)
    requires { sites + own < 64 * length row.old }
    ensures { Added sites own item row.old row.new }
{
    match item {
        Item::Number(_) => (),
        Item::Range(first, last) => {
            let end = (last as usize + 1).min(sites as usize);
            if (first as usize) < end {
                add_range(row, first as usize, end);
            }
        }
        Item::End(end) => {
            if end < own {
                row.insert(sites as usize + end as usize);
            }
        }
    }
}

/// The row of what the items hold, of so many sites and end points behind them.
///
/// # Errors
///
/// Memory runs out.
pub fn row_of(alloc: Global, items: &[Item], sites: u32, own: u32) -> Result<Row, AllocError>
    ensures { IfOk result (λ row. IsRowOf sites own items.now row) }
{
    let mut row = Row::new(alloc, sites as usize + own as usize)?;
    for item in items {
        add_item(&mut row, *item, sites, own);
    }
    Ok(row)
}

/// The rows of lines, one a line.
///
/// # Errors
///
/// Memory runs out.
pub fn rows(alloc: Global, lines: &[Line], sites: u32, own: u32) -> Result<List<Row>, AllocError>
    ensures { IfOk result (λ all. AreRows sites own lines.now all) }
{
    let mut all = Vec::new(alloc);
    for line in lines {
        all.push(row_of(alloc, line.items.as_slice(), sites, own)?)?;
    }
    Ok(List::from_vec(all))
}

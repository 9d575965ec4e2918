//! The items of a set, from its row.

ghost use Rattle.std.specs.Prelude.{◌≡◌, ◌<◌, ◌++◌, ◌∷◌, [], true, if◌then◌else◌, IfOk, OnOk};
ghost use Rattle.rx_graph_bits.specs.Rows.{holds};
ghost use Rattle.rx_cert_tables.specs.Sets.{IsSetOf};
ghost use Rattle.rx_cert_tables.specs.Filling.{IsRun, SitesOf};

use rx_cert_lines::Item;
use rx_core::List;
use rx_graph_bits::Row;
use std::alloc::{AllocError, Global};

/// Where the run of held sites ends that begins here.
fn run_end(row: &Row, first: u32, sites: u32) -> u32
    requires within { first < sites }
    requires held { holds row.now first ≡ true }
    ensures { IsRun row.now first result sites }
{
    let mut end = first + 1;
    while end < sites && row.holds(end as usize) {
        end += 1;
    }
    end
}

/// The runs of held sites.
fn site_items(alloc: Global, row: &Row, sites: u32) -> Result<Vec<Item>, AllocError>
    ensures { IfOk result (λ it. SitesOf row.now sites it.items) }
{
    let mut items = Vec::new(alloc);
    let mut at = 0;
    while at < sites {
        if row.holds(at as usize) {
            let end = run_end(row, at, sites);
            items.push(Item::Range(at, end - 1))?;
            at = end;
        } else {
            at += 1;
        }
    }
    Ok(items)
}

/// Adds an end point that is held.
fn push_end(items: &mut Vec<Item>, held: bool, end: u32) -> Result<(), AllocError>
    ensures { OnOk result (items.new.items ≡ (if held then items.old.items ++ Item.End end ∷ [] else items.old.items)) }
{
    if held {
        items.push(Item::End(end))?;
    }
    Ok(())
}

/// The items of the sites and end points that a row holds: the only ones that make a set and hold just these.
///
/// # Errors
///
/// Memory runs out.
pub fn points(alloc: Global, row: &Row, sites: u32, own: u32) -> Result<List<Item>, AllocError>
    ensures { IfOk result (λ it. IsSetOf sites own row.now it) }
{
    let mut items = site_items(alloc, row, sites)?;
    for end in 0..own {
        push_end(&mut items, row.holds(sites as usize + end as usize), end)?;
    }
    Ok(List::from_vec(items))
}

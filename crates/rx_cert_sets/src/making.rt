//! Rows of sets of points, and of where loans are in scope.

ghost use Rattle.std.specs.Prelude.{◌≡◌, ◌+◌, ◌*◌, ◌<◌, length, IfOk};
ghost use Rattle.rx_graph.specs.Tables.{at as at_row};
ghost use Rattle.rx_region.specs.Solutions.{site as site_point, end as end_point};
ghost use Rattle.rx_region.specs.Tables.{sets_of};
ghost use Rattle.rx_cert_sets.specs.Making.{Marked, Filled, IsPointRow, IsScopeRow, AllRows};

use rx_core::List;
use rx_graph_bits::Row;
use rx_loan::LoanTable;
use rx_region::Regions;
use std::alloc::{AllocError, Global};

/// Adds a number, if it is held.
fn mark(row: &mut Row, number: usize, held: bool)
    ensures { Marked row.old row.new number held }
{
    if held {
        row.insert(number);
    }
}

/// Adds the sites of a lifetime's set.
fn mark_sites(row: &mut Row, regions: &Regions, region: u32, sites: u32)
    ensures { Filled (λ p. sets_of regions.now region (site_point p)) 0 sites row.old row.new }
{
    for site in 0..sites {
        mark(row, site as usize, regions.holds(region, site));
    }
}

/// Adds the end points of a lifetime's set, behind the sites.
fn mark_ends(row: &mut Row, regions: &Regions, region: u32, sites: u32, own: u32)
    ensures { Filled (λ k. sets_of regions.now region (end_point k)) sites own row.old row.new }
{
    for end in 0..own {
        let number = sites as usize + end as usize;
        mark(row, number, regions.holds_end(region, end));
    }
}

/// Adds the sites at which a loan is in scope.
fn mark_scope(row: &mut Row, table: &LoanTable, loan: usize, sites: u32)
    ensures { Filled (λ p. at_row table.now.rows.items loan p) 0 sites row.old row.new }
{
    for site in 0..sites {
        mark(row, site as usize, table.in_scope(loan, site as usize));
    }
}

/// The row of a lifetime's set.
fn region_row(
    alloc: Global,
    regions: &Regions,
    region: u32,
    sites: u32,
    own: u32,
) -> Result<Row, AllocError>
    ensures { IfOk result (λ row. IsPointRow (sets_of regions.now) sites own region row) }
{
    let mut row = Row::new(alloc, sites as usize + own as usize)?;
    mark_sites(&mut row, regions, region, sites);
    mark_ends(&mut row, regions, region, sites, own);
    Ok(row)
}

/// The row of a loan's scope.
fn scope_row(alloc: Global, table: &LoanTable, loan: usize, sites: u32) -> Result<Row, AllocError>
    ensures { IfOk result (λ row. IsScopeRow (at_row table.now.rows.items) sites loan row) }
{
    let mut row = Row::new(alloc, sites as usize)?;
    mark_scope(&mut row, table, loan, sites);
    Ok(row)
}

/// The rows of the sets of so many lifetimes.
pub fn region_rows(
    alloc: Global,
    regions: &Regions,
    count: u32,
    sites: u32,
    own: u32,
) -> Result<List<Row>, AllocError>
    ensures { IfOk result (λ rows. AllRows (IsPointRow (sets_of regions.now) sites own) count rows) }
{
    let mut rows = Vec::new(alloc);
    for region in 0..count {
        rows.push(region_row(alloc, regions, region, sites, own)?)?;
    }
    Ok(List::from_vec(rows))
}

/// The rows of the scopes of so many loans.
pub fn scope_rows(
    alloc: Global,
    table: &LoanTable,
    count: usize,
    sites: u32,
) -> Result<List<Row>, AllocError>
    ensures { IfOk result (λ rows. AllRows (IsScopeRow (at_row table.now.rows.items) sites) count rows) }
{
    let mut rows = Vec::new(alloc);
    for loan in 0..count {
        rows.push(scope_row(alloc, table, loan, sites)?)?;
    }
    Ok(List::from_vec(rows))
}

//! The lines of a function, from its sets and its loans.

ghost use Rattle.std.specs.Prelude.{◌≡◌, ◌++◌, List as ListOf, OnOk};
ghost use Rattle.rx_graph.specs.Tables.{at as at_row};
ghost use Rattle.rx_region.specs.Tables.{sets_of};
ghost use Rattle.rx_cert_lines.specs.Certificates.{lines_text};
ghost use Rattle.rx_cert_lines.specs.declared.line.Line.{Line as LineOf};
ghost use Rattle.rx_cert_sets.specs.Pushed.{ArePushed};

use crate::making::{region_rows, scope_rows};
use rx_cert_tables::{Shape, push_function};
use rx_core::Text;
use rx_loan::LoanTable;
use rx_region::Regions;
use std::alloc::{AllocError, Global};

/// Adds the lines of a function: its numbers, the sets of its lifetimes, and where its loans are in scope.
///
/// # Errors
///
/// Memory runs out.
pub fn push_sets(
    alloc: Global,
    text: &mut Text,
    shape: &Shape,
    regions: &Regions,
    table: &LoanTable,
) -> Result<(), AllocError>
    ensures { OnOk result ((ls : ListOf LineOf) × ArePushed shape.now (sets_of regions.now) (at_row table.now.rows.items) ls × (text.new ≡ text.old ++ lines_text ls)) }
{
    let sets = region_rows(alloc, regions, shape.lifetimes, shape.sites, shape.own)?;
    let scopes = scope_rows(alloc, table, shape.borrows.len(), shape.sites)?;
    push_function(alloc, text, shape, sets.as_slice(), scopes.as_slice())?;
    Ok(())
}

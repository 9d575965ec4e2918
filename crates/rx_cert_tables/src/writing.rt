//! The lines of a function, written.

ghost use Rattle.std.specs.Prelude.{◌≡◌, ◌++◌, ◌∷◌, [], List as ListOf, length, OnOk, IfOk};
ghost use Rattle.rx_cert_lines.specs.Certificates.{lines_text};
ghost use Rattle.rx_cert_lines.specs.declared.line.Line.{Line as LineOf};
ghost use Rattle.rx_cert_tables.specs.Written as spec;

use crate::collecting::points;
use crate::shape::Shape;
use rx_cert_lines::{Head, Item, Line, push_line};
use rx_core::{List, Text};
use rx_graph_bits::Row;
use std::alloc::{AllocError, Global};

fn function_line(alloc: Global, shape: &Shape) -> Result<Line, AllocError>
    ensures { IfOk result (λ l. l ≡ spec.function_line shape.now) }
{
    let items = [
        Item::Number(shape.item),
        Item::Number(shape.sites),
        Item::Number(shape.lifetimes),
    ];
    Ok(Line {
        head: Head::Function,
        items: List::from_slice(alloc, &items)?,
    })
}

fn region_line(alloc: Global, shape: &Shape, row: &Row) -> Result<Line, AllocError>
    ensures { IfOk result (λ l. spec.IsRegionLine shape.now row.now l) }
{
    Ok(Line {
        head: Head::Region,
        items: points(alloc, row, shape.sites, shape.own)?,
    })
}

fn loan_line(alloc: Global, shape: &Shape, borrow: u32, row: &Row) -> Result<Line, AllocError>
    ensures { IfOk result (λ l. spec.IsLoanLine shape.now borrow row.now l) }
{
    let mut items = Vec::new(alloc);
    items.push(Item::Number(borrow))?;
    let points = points(alloc, row, shape.sites, 0)?;
    items.extend_from_slice(points.as_slice())?;
    Ok(Line {
        head: Head::Loan,
        items: List::from_vec(items),
    })
}

fn push_regions(
    alloc: Global,
    text: &mut Text,
    shape: &Shape,
    rows: &[Row],
) -> Result<(), AllocError>
    ensures { OnOk result ((ls : ListOf LineOf) × spec.AreRegionLines shape.now rows.now ls × (text.new ≡ text.old ++ lines_text ls)) }
{
    for row in rows {
        let line = region_line(alloc, shape, row)?;
        push_line(alloc, text, &line)?;
    }
    Ok(())
}

fn push_loans(alloc: Global, text: &mut Text, shape: &Shape, rows: &[Row]) -> Result<(), AllocError>
    requires { length rows.now ≡ length shape.now.borrows }
    ensures { OnOk result ((ls : ListOf LineOf) × spec.AreLoanLines shape.now shape.now.borrows rows.now ls × (text.new ≡ text.old ++ lines_text ls)) }
{
    for at in 0..rows.len() {
        match shape.borrows.get(at) {
            Some(borrow) => {
                let line = loan_line(alloc, shape, *borrow, &rows[at])?;
                push_line(alloc, text, &line)?;
            }
            None => unreachable!(),
        }
    }
    Ok(())
}

/// Adds the lines of a function: its numbers, the sets of its lifetimes, and where its loans are in scope.
///
/// # Errors
///
/// Memory runs out.
pub fn push_function(
    alloc: Global,
    text: &mut Text,
    shape: &Shape,
    regions: &[Row],
    loans: &[Row],
) -> Result<(), AllocError>
    requires { length loans.now ≡ length shape.now.borrows }
    ensures { OnOk result ((ls : ListOf LineOf) × spec.AreWritten shape.now regions.now loans.now ls × (text.new ≡ text.old ++ lines_text ls)) }
{
    let line = function_line(alloc, shape)?;
    push_line(alloc, text, &line)?;
    push_regions(alloc, text, shape, regions)?;
    push_loans(alloc, text, shape, loans)?;
    Ok(())
}

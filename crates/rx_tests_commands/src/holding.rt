//! How a test ends: at a row that doesn't hold.

use rx_tests_tables::{Layout, Outcome, first_wrong};
use std::alloc::Global;
use std::process::Abort;

/// Ends the test, naming the row, unless it holds.
pub fn hold(rt: &impl Abort, outcome: Outcome, row: &str) {
    assert!(rt; outcome == Ok(true), "{row}");
}

/// Ends the test at the first row that doesn't hold.
pub fn all_hold<F: Fn(Global, &str, &str) -> Outcome>(
    rt: &impl Abort,
    alloc: Global,
    table: &str,
    layout: Layout,
    holds: F,
)
    requires { F.IsAlwaysCallable holds }
{
    match first_wrong(alloc, table, layout, holds) {
        Some(row) => hold(rt, Ok(false), row),
        None => {}
    }
}

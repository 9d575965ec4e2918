//! What the tool makes of words and a text, and tables of it.

use crate::run::said::{hold, replied};
use rx_tests_tables::{BLOCKS, Outcome, first_wrong};
use std::alloc::Global;
use std::process::Abort;

/// Of a row, behind whose first line, the words, stand the lines of a text, a line `====`, the status and all that is written, whether
/// this is so: an answer goes to standard output, a refusal to standard error, and the other one is empty.
fn is_made(alloc: Global, line: &str, rest: &str) -> Outcome {
    let (text, want) = rest.split_once("\n====\n").unwrap_or((rest, ""));
    let (status, written) = want.split_once("\n").unwrap_or((want, ""));
    let text = format!(in alloc; "{text}\n")?;
    let written = format!(in alloc; "{written}\n")?;
    let reply = replied(alloc, line, text.as_str(), 4000, 100)?;
    Ok(match status {
        "0" => reply.is(0, written.as_str(), ""),
        "1" => reply.is(1, "", written.as_str()),
        _ => false,
    })
}

/// Ends the test at the first row of which something else is made.
pub fn all_made(rt: &impl Abort, alloc: Global, table: &str) {
    match first_wrong(alloc, table, BLOCKS, is_made) {
        Some(row) => hold(rt, Ok(false), row),
        None => {}
    }
}

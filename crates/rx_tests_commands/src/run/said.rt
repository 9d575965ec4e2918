//! What the tool says of words and a text, and tables of it.

use rx_core::{List, NeverSink, NeverSource, Text};
use rx_modes_policy::{ByCopy, ByReference};
use rx_rem_command::rem;
use rx_tests_tables::{LINES, Outcome, first_wrong};
use std::alloc::{AllocError, Global};
use std::process::Abort;

/// How a command ends.
#[derive(Drop)]
pub struct Reply {
    status: u8,
    out: NeverSink,
    err: NeverSink,
}

/// What is said of words, which are parted by single blanks, and a text, where the sinks have room for so many bytes.
pub fn replied(
    alloc: Global,
    line: &str,
    text: &str,
    out_room: usize,
    err_room: usize,
) -> Result<Reply, AllocError> {
    replied_to(alloc, line, text.as_bytes(), out_room, err_room)
}

/// That of a text by its bytes.
pub fn replied_to(
    alloc: Global,
    line: &str,
    text: &[u8],
    out_room: usize,
    err_room: usize,
) -> Result<Reply, AllocError> {
    let mut words = List::new(alloc);
    for word in line.split(" ") {
        words.push(Text::new(alloc, word)?)?;
    }
    let mut source = NeverSource::new(List::from_slice(alloc, text)?);
    let mut out = NeverSink::new(alloc, out_room)?;
    let mut err = NeverSink::new(alloc, err_room)?;
    let status = rem(
        alloc,
        &words,
        &mut source,
        &mut out,
        &mut err,
        &ByCopy,
        &ByReference,
    )
    .code();
    Ok(Reply { status, out, err })
}

impl Reply {
    /// What is printed.
    pub fn printed(&self) -> &[u8] {
        self.out.held()
    }

    /// Whether it is this status.
    pub fn ends(&self, status: u8) -> bool {
        self.status == status
    }

    /// Whether the status and what is printed are those of another.
    pub fn is_as(&self, other: &Reply) -> bool {
        self.status == other.status && self.out.held() == other.out.held()
    }

    /// Whether it is this status, and exactly these bytes are in the sinks.
    pub fn is(&self, status: u8, out: &str, err: &str) -> bool {
        self.status == status
            && self.out.held() == out.as_bytes()
            && self.err.held() == err.as_bytes()
    }
}

/// Bytes with one blank in place of the blanks and line feeds between two words, and one behind the last word.
pub fn push_words(told: &mut String, bytes: &[u8]) -> Result<(), AllocError> {
    let mut apart = false;
    for byte in bytes {
        if *byte == b' ' || *byte == b'\n' {
            apart = true;
        } else {
            if apart {
                told.push(' ')?;
            }
            apart = false;
            told.push(char::from(*byte))?;
        }
    }
    if !bytes.is_empty() {
        told.push(' ')?;
    }
    Ok(())
}

/// The status, what is printed, a slash and the line, with a blank behind each and blanks alone between words.
fn told(alloc: Global, line: &str, text: &str) -> Result<String, AllocError> {
    let reply = replied(alloc, line, text, 4000, 100)?;
    let mut told = format!(in alloc; "{} ", reply.status)?;
    push_words(&mut told, reply.out.held())?;
    told.push_str("/ ")?;
    push_words(&mut told, reply.err.held())?;
    Ok(told)
}

/// Of a row `WORD.. : TEXT`, whether this is said of it.
fn is_told(alloc: Global, given: &str, want: &str) -> Outcome {
    let (line, text) = given.split_once(": ").unwrap_or((given, ""));
    Ok(told(alloc, line, text)?.as_str().trim_end() == want)
}

/// Ends the test unless it holds, naming what it is of.
pub fn hold(rt: &impl Abort, outcome: Outcome, row: &str) {
    assert!(rt; outcome == Ok(true), "{row}");
}

/// Ends the test at the first row of which something else is said.
pub fn all_told(rt: &impl Abort, alloc: Global, table: &str) {
    match first_wrong(alloc, table, LINES, is_told) {
        Some(row) => hold(rt, Ok(false), row),
        None => {}
    }
}

//! What the command `check` says of a text, and tables of it.

use rx_core::{List, NeverSink, NeverSource, Text};
use rx_modes_policy::{ByCopy, ByReference};
use rx_rem_command::{Status, rem};
use std::alloc::{AllocError, Global};
use std::process::Abort;

/// Whether something holds. Where no memory was found it does not.
pub type Outcome = Result<bool, AllocError>;

/// How a check ends.
#[derive(Drop)]
pub struct Said {
    status: Status,
    out: NeverSink,
    err: NeverSink,
}

/// What the command `check` says of a text.
pub fn checked(alloc: Global, text: &str) -> Result<Said, AllocError> {
    let mut words = List::new(alloc);
    words.push(Text::new(alloc, "check")?)?;
    let mut source = NeverSource::new(List::from_slice(alloc, text.as_bytes())?);
    let mut out = NeverSink::new(alloc, 1000)?;
    let mut err = NeverSink::new(alloc, 1000)?;
    let status = rem(
        alloc,
        &words,
        &mut source,
        &mut out,
        &mut err,
        &ByCopy,
        &ByReference,
    );
    Ok(Said { status, out, err })
}

impl Said {
    /// Whether the text is accepted, and nothing else is written.
    pub fn is_accepted(&self) -> bool {
        self.status == Status::Done
            && self.out.held() == "accepted\n".as_bytes()
            && self.err.held().is_empty()
    }

    /// Whether the text is not accepted, with a line that begins so behind `error: NotAccepted `.
    pub fn begins(&self, alloc: Global, words: &str) -> Outcome {
        let line = format!(in alloc; "error: NotAccepted {words}")?;
        Ok(
            self.status == Status::NotAccepted
                && self.out.held().is_empty()
                && self.err.held().starts_with(line.as_bytes()),
        )
    }

    /// The same of a whole line.
    pub fn is(&self, alloc: Global, words: &str) -> Outcome {
        let line = format!(in alloc; "{words}\n")?;
        Ok(self.begins(alloc, line.as_str())? && self.err.held().len() == line.len() + 19)
    }
}

/// Whether a text is accepted, where `accepted` is wanted, or else has the fault.
pub fn is_said(alloc: Global, text: &str, want: &str) -> Outcome {
    let said = checked(alloc, text)?;
    if want == "accepted" {
        return Ok(said.is_accepted());
    }
    said.is(alloc, want)
}

/// Adds a part to a text so often.
pub fn push_times(text: &mut String, part: &str, count: usize) -> Result<(), AllocError> {
    for _ in 0..count {
        text.push_str(part)?;
    }
    Ok(())
}

/// Ends the test unless it holds, naming what it is of.
pub fn hold(rt: &impl Abort, outcome: Outcome, row: &str) {
    assert!(rt; outcome == Ok(true), "{row}");
}

/// Ends the test at the first row that is not said; a row is a text, ` | ` and what is said of it.
pub fn all_said(rt: &impl Abort, alloc: Global, table: &str) {
    for row in table.split("\n") {
        match row.split_once(" | ") {
            Some((text, want)) => hold(rt, is_said(alloc, text, want), row),
            None => hold(rt, Ok(false), row),
        }
    }
}

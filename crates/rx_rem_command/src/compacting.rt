//! The command `compact`: the text with a short signature of one of its functions.

ghost use Rattle.std.specs.Prelude.{◌≤◌, [], List as ListOf, ℕ, length};
ghost use Rattle.rx_compact_call.specs.Shortened.{CompactCauses};
ghost use Rattle.rx_rem_command.specs.Defined.{Shortened};
ghost use Rattle.rx_rem_command.specs.Replies.{Ending, Found, Reports, sink_state};

use crate::certifying::{refuse_by, refuse_unaccepted};
use crate::checking::refuse_text;
use crate::extraction_line::limit_words;
use crate::reply::{deliver, report_name};
use crate::status::Status;
use rx_compact_call::{CompactFault, compact};
use rx_core::Sink;
use std::alloc::Global;

/// Writes the line of why a text has no short signature of a function, or of want of memory.
fn refuse_short<E: Sink>(
    alloc: Global,
    err: &mut E,
    text: &[u8],
    name: &str,
    fault: &CompactFault,
) -> Status
    requires { CompactCauses fault.now text.now name.now }
    ensures { (status : Status) × (errs : ListOf ℕ) × Found (Shortened text.now name.now) status [] errs
        × Reports (sink_state E.contents E.faults E.standstills err.old) (sink_state E.contents E.faults E.standstills err.new) status errs result }
{
    match fault {
        CompactFault::Syntax(cause) => refuse_text(alloc, err, cause),
        CompactFault::NotAccepted(cause) => refuse_unaccepted(alloc, err, text, cause),
        CompactFault::NoFunction => {
            refuse_by(alloc, err, Status::Refused, "Refused NoFunction", &[])
        }
        CompactFault::Limit { which, count } => {
            let words = limit_words(*which);
            refuse_by(alloc, err, Status::Refused, words, &[*count])
        }
        CompactFault::OutOfMemory => report_name(err, Status::OutOfMemory),
    }
}

/// Writes the text with a short signature of its function of a name, or why there is none.
pub fn compact_text<O: Sink, E: Sink>(
    alloc: Global,
    out: &mut O,
    err: &mut E,
    text: &[u8],
    name: &str,
) -> Status
    requires { length text.now ≤ 1048576 }
    ensures { (status : Status) × (outs : ListOf ℕ) × (errs : ListOf ℕ) × Found (Shortened text.now name.now) status outs errs
        × Ending (sink_state O.contents O.faults O.standstills out.old) (sink_state O.contents O.faults O.standstills out.new)
        (sink_state E.contents E.faults E.standstills err.old) (sink_state E.contents E.faults E.standstills err.new) status outs errs result }
{
    match compact(alloc, text, name) {
        Ok(bytes) => deliver(out, err, bytes.as_str()),
        Err(fault) => refuse_short(alloc, err, text, name, &fault),
    }
}

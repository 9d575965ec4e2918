//! What is written: an answer to standard output, or a line to standard error.

ghost use Rattle.rx_rem_command.specs.Lines.{status_line};
ghost use Rattle.rx_rem_command.specs.Replies.{Reports, Delivers, sink_state};

use crate::status::Status;
use rx_core::{Sink, write_all_of};

/// Writes a line to `err`, and gives the status, or `WriteFault` where the write failed.
pub fn report<E: Sink>(err: &mut E, status: Status, line: &str) -> Status
    ensures { Reports (sink_state E.contents E.faults E.standstills err.old) (sink_state E.contents E.faults E.standstills err.new) status line.now result }
{
    match write_all_of(err, line.as_bytes()) {
        Ok(()) => status,
        Err(_fail) => Status::WriteFault,
    }
}

/// Writes the line that is the status's name alone.
pub fn report_name<E: Sink>(err: &mut E, status: Status) -> Status
    ensures { Reports (sink_state E.contents E.faults E.standstills err.old) (sink_state E.contents E.faults E.standstills err.new) status (status_line status) result }
{
    report(err, status, status.line())
}

/// Writes an answer to `out`. Where that fails, the line of `WriteFault` goes to `err`.
pub fn deliver<O: Sink, E: Sink>(out: &mut O, err: &mut E, bytes: &str) -> Status
    ensures { Delivers (sink_state O.contents O.faults O.standstills out.old) (sink_state O.contents O.faults O.standstills out.new)
        (sink_state E.contents E.faults E.standstills err.old) (sink_state E.contents E.faults E.standstills err.new) bytes.now Status.Done result }
{
    match write_all_of(out, bytes.as_bytes()) {
        Ok(()) => Status::Done,
        Err(_fail) => report_name(err, Status::WriteFault),
    }
}

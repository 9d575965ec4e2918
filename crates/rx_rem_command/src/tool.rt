//! The tool: words and a text in, a status, an answer and a line out.

ghost use Rattle.std.specs.Prelude.{◌≡◌, ◌≤◌, ◌⊎◌, List as ListOf, ℕ, Some, None, length};
ghost use Rattle.rx_rem_command.specs.Asked.{asked};
ghost use Rattle.rx_rem_command.specs.Defined.{AnswersTo};
ghost use Rattle.rx_rem_command.specs.Forms.{Reads, command_of, most_bytes};
ghost use Rattle.rx_rem_command.specs.Replies.{Ending, Found, Replies, sink_state, source_state};

use crate::certifying::{certify_text, verify_certificate};
use crate::checking::check_text;
use crate::compacting::compact_text;
use crate::extracting::extract_text;
use crate::generating::generate;
use crate::reply::report_name;
use crate::running::run_text;
use crate::status::Status;
use crate::words::{Command, Preference, Request, read_words};
use rx_core::{List, ReadFail, Sink, Source, Text, read_all};
use rx_modes_policy::Policy;
use std::alloc::Global;

/// The bytes of a text at most.
const TEXT_LIMIT: usize = 1_048_576;

/// The bytes of a certificate with its text at most.
const CERTIFICATE_LIMIT: usize = 16_777_216;

/// How many bytes are read for a command at most.
fn limit_of(command: Command<'_>) -> usize
    ensures most { result ≡ most_bytes (Some (asked command.entry)) }
    ensures few { result ≤ 16777216 }
{
    match command {
        Command::Verify => CERTIFICATE_LIMIT,
        Command::Extract { .. }
        | Command::Check
        | Command::Certify
        | Command::Compact { .. }
        | Command::Run { .. } => TEXT_LIMIT,
    }
}

/// Does what a command asks for a text.
fn answer<O: Sink, E: Sink, C: Policy, R: Policy>(
    alloc: Global,
    out: &mut O,
    err: &mut E,
    text: &[u8],
    command: Command<'_>,
    copy: &C,
    by_reference: &R,
) -> Status
    requires { length text.now ≤ most_bytes (Some (asked command)) }
    ensures { (status : Status) × (outs : ListOf ℕ) × (errs : ListOf ℕ) × Found (AnswersTo (record { copy = C.choice copy.now; reference = R.choice by_reference.now }) (Some (asked command.entry)) text.now) status outs errs
        × Ending (sink_state O.contents O.faults O.standstills out.old) (sink_state O.contents O.faults O.standstills out.new)
        (sink_state E.contents E.faults E.standstills err.old) (sink_state E.contents E.faults E.standstills err.new) status outs errs result }
{
    match command {
        Command::Extract {
            name,
            selection,
            preference: Preference::Copy,
        } => extract_text(alloc, out, err, text, selection, name, copy),
        Command::Extract {
            name,
            selection,
            preference: Preference::Reference,
        } => extract_text(alloc, out, err, text, selection, name, by_reference),
        Command::Check => check_text(alloc, out, err, text),
        Command::Certify => certify_text(alloc, out, err, text),
        Command::Verify => verify_certificate(alloc, out, err, text),
        Command::Compact { name } => compact_text(alloc, out, err, text, name),
        Command::Run { turns, numbers } => run_text(alloc, out, err, text, turns, numbers),
    }
}

/// Does what the words ask for: reads the text of `source`, where it is asked of one, and writes the answer to `out`, or a line that says why
/// there is none to `err`. It writes to `out` only once all that it writes there is computed. Where the uses of a variable leave open how
/// it is passed, the policy `copy` chooses, or, where the words ask for references, `by_reference`.
pub fn rem<S: Source, O: Sink, E: Sink, C: Policy, R: Policy>(
    alloc: Global,
    words: &List<Text>,
    source: &mut S,
    out: &mut O,
    err: &mut E,
    copy: &C,
    by_reference: &R,
) -> Status
    ensures replies { Replies (record { copy = C.choice copy.now; reference = R.choice by_reference.now }) words.now (source_state S.remaining S.faults source.old) (source_state S.remaining S.faults source.new)
        (sink_state O.contents O.faults O.standstills out.old) (sink_state O.contents O.faults O.standstills out.new)
        (sink_state E.contents E.faults E.standstills err.old) (sink_state E.contents E.faults E.standstills err.new) result }
    ensures unread { (Reads (command_of words.now) → ⊥) → source.new ≡ source.old }
{
    let Some(request) = read_words(words.as_slice()) else {
        return report_name(err, Status::Usage);
    };
    let command = match request {
        Request::OfText(command) => command,
        Request::Generate { count } => return generate(alloc, out, err, count, copy),
    };
    let limit = limit_of(command);
    match read_all(alloc, source, limit) {
        Ok(text) => answer(
            alloc,
            out,
            err,
            text.as_slice(),
            command,
            copy,
            by_reference,
        ),
        Err(ReadFail::ReadFault) => report_name(err, Status::ReadFault),
        Err(ReadFail::TooLong) => report_name(err, Status::TooLong),
        Err(ReadFail::OutOfMemory) => report_name(err, Status::OutOfMemory),
    }
}

//! The commands `certify` and `verify`: the certificate of a text, and whether a certificate is good for its text.

ghost use Rattle.std.specs.Prelude.{◌≤◌, [], List as ListOf, ℕ, length};
ghost use Rattle.rx_tree.specs.Plain.{ProgramTree};
ghost use Rattle.rx_parse_grammar.specs.grammar.Items.{Parses};
ghost use Rattle.rx_cert.specs.Verified.{VerifyCauses};
ghost use Rattle.rx_cert_least.specs.Certified.{CertifyCauses};
ghost use Rattle.rx_rem_command.specs.CertificateLines.{IsProgramOf};
ghost use Rattle.rx_rem_command.specs.CheckLines as lines;
ghost use Rattle.rx_rem_command.specs.Lines.{line_of, with_numbers};
ghost use Rattle.rx_rem_command.specs.Defined.{Certified, Verdict};
ghost use Rattle.rx_rem_command.specs.Replies.{Ending, Found, Refuses, Reports, sink_state};

use crate::checking::{refuse_program, refuse_text};
use crate::extraction_line::limit_words;
use crate::line::line;
use crate::reply::{deliver, report, report_name};
use crate::status::Status;
use rx_cert::{VerifyFault, verify};
use rx_cert_least::{CertifyFault, certify};
use rx_cert_lines::read_certificate;
use rx_check::CheckFault;
use rx_core::{LetGo, Sink};
use rx_parse::parse;
use std::alloc::{AllocError, Global};

/// Writes the line of words and numbers, or of want of memory.
pub(crate) fn refuse_by<E: Sink>(
    alloc: Global,
    err: &mut E,
    status: Status,
    words: &str,
    numbers: &[u64],
) -> Status
    ensures { Refuses (sink_state E.contents E.faults E.standstills err.old) (sink_state E.contents E.faults E.standstills err.new) status (line_of (with_numbers words.now numbers.now)) result }
{
    match line(alloc, words, numbers, "") {
        Ok(line) => report(err, status, line.as_str()),
        Err(AllocError) => report_name(err, Status::OutOfMemory),
    }
}

/// Writes the line of a fault of the program of a text, which is read once more for the names in it; or of want of memory.
pub(crate) fn refuse_unaccepted<E: Sink>(
    alloc: Global,
    err: &mut E,
    text: &[u8],
    fault: &CheckFault,
) -> Status
    ensures { (p : ProgramTree) → Parses text.now p → Refuses (sink_state E.contents E.faults E.standstills err.old) (sink_state E.contents E.faults E.standstills err.new)
        (lines.status_of_check fault.now) (lines.line_of_check p fault.now) result }
{
    match parse(alloc, text) {
        Ok(program) => {
            let status = refuse_program(alloc, err, &program, fault);
            program.let_go();
            status
        }
        // A text with a program is read, unless memory runs out.
        Err(_fault) => report_name(err, Status::OutOfMemory),
    }
}

/// Writes the line of a fault of the program of a certificate's text; or of want of memory.
fn refuse_front<E: Sink>(alloc: Global, err: &mut E, bytes: &[u8], fault: &CheckFault) -> Status
    requires { length bytes.now ≤ 16777216 }
    ensures { (p : ProgramTree) → IsProgramOf bytes.now p → Refuses (sink_state E.contents E.faults E.standstills err.old) (sink_state E.contents E.faults E.standstills err.new)
        (lines.status_of_check fault.now) (lines.line_of_check p fault.now) result }
{
    match read_certificate(alloc, bytes) {
        Ok(certificate) => refuse_unaccepted(alloc, err, certificate.text, fault),
        // A certificate is not misread.
        Err(_misread) => report_name(err, Status::OutOfMemory),
    }
}

/// Writes the line of a fault of a text's certificate, or of want of memory.
fn refuse_certificate<E: Sink>(
    alloc: Global,
    err: &mut E,
    text: &[u8],
    fault: &CertifyFault,
) -> Status
    requires { CertifyCauses fault.now text.now }
    ensures { (status : Status) × (errs : ListOf ℕ) × Found (Certified text.now) status [] errs
        × Reports (sink_state E.contents E.faults E.standstills err.old) (sink_state E.contents E.faults E.standstills err.new) status errs result }
{
    match fault {
        CertifyFault::Syntax(cause) => refuse_text(alloc, err, cause),
        CertifyFault::NotAccepted(cause) => refuse_unaccepted(alloc, err, text, cause),
        CertifyFault::Limit { which, count } => {
            let words = limit_words(*which);
            refuse_by(alloc, err, Status::Refused, words, &[*count])
        }
        CertifyFault::OutOfMemory => report_name(err, Status::OutOfMemory),
    }
}

/// Writes the certificate of a text, or why there is none.
pub fn certify_text<O: Sink, E: Sink>(
    alloc: Global,
    out: &mut O,
    err: &mut E,
    text: &[u8],
) -> Status
    requires { length text.now ≤ 1048576 }
    ensures { (status : Status) × (outs : ListOf ℕ) × (errs : ListOf ℕ) × Found (Certified text.now) status outs errs
        × Ending (sink_state O.contents O.faults O.standstills out.old) (sink_state O.contents O.faults O.standstills out.new)
        (sink_state E.contents E.faults E.standstills err.old) (sink_state E.contents E.faults E.standstills err.new) status outs errs result }
{
    match certify(alloc, text) {
        Ok(bytes) => deliver(out, err, bytes.as_str()),
        Err(fault) => refuse_certificate(alloc, err, text, &fault),
    }
}

/// Writes the line of a fault of bytes that are no certificate which is good for its text, or of want of memory.
fn refuse_verdict<E: Sink>(alloc: Global, err: &mut E, bytes: &[u8], fault: &VerifyFault) -> Status
    requires short { length bytes.now ≤ 16777216 }
    requires cause { VerifyCauses fault.now bytes.now }
    ensures { (status : Status) × (errs : ListOf ℕ) × Found (Verdict bytes.now) status [] errs
        × Reports (sink_state E.contents E.faults E.standstills err.old) (sink_state E.contents E.faults E.standstills err.new) status errs result }
{
    match fault {
        VerifyFault::Form { line } => {
            let words = "NotAccepted Form";
            refuse_by(alloc, err, Status::NotAccepted, words, &[*line as u64])
        }
        VerifyFault::Text(cause) => refuse_text(alloc, err, cause),
        VerifyFault::Front(cause) => refuse_front(alloc, err, bytes, cause),
        VerifyFault::Rule { function, rule } => {
            let numbers = [*function as u64, *rule as u64];
            let words = "NotAccepted Rule";
            refuse_by(alloc, err, Status::NotAccepted, words, &numbers)
        }
        VerifyFault::OutOfMemory => report_name(err, Status::OutOfMemory),
    }
}

/// Writes `accepted` where bytes are a certificate that is good for its text, or why they are not.
pub fn verify_certificate<O: Sink, E: Sink>(
    alloc: Global,
    out: &mut O,
    err: &mut E,
    bytes: &[u8],
) -> Status
    requires { length bytes.now ≤ 16777216 }
    ensures { (status : Status) × (outs : ListOf ℕ) × (errs : ListOf ℕ) × Found (Verdict bytes.now) status outs errs
        × Ending (sink_state O.contents O.faults O.standstills out.old) (sink_state O.contents O.faults O.standstills out.new)
        (sink_state E.contents E.faults E.standstills err.old) (sink_state E.contents E.faults E.standstills err.new) status outs errs result }
{
    match verify(alloc, bytes) {
        Ok(()) => deliver(out, err, "accepted\n"),
        Err(fault) => refuse_verdict(alloc, err, bytes, &fault),
    }
}

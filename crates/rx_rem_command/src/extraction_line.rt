//! The line that says why a run is not extracted.

ghost use Rattle.std.specs.Prelude.{◌≡◌, IfOk};
ghost use Rattle.rx_tree.specs.PlainOf.{plain-Program};
ghost use Rattle.rx_rem_command.specs.ExtractionLines as spec;
ghost use Rattle.rx_rem_command.specs.Lines.{line_of, with_span};

use crate::check_line::{line_of_check, status_of_check};
use crate::line::{line, status_of_syntax, syntax_fault};
use crate::status::Status;
use rx_core::{Span, Text, Which};
use rx_engine::{Fault, Refusal};
use rx_tree::Program;
use std::alloc::{AllocError, Global};

/// The words of a limit that is passed.
pub(crate) fn limit_words(which: Which) -> &'static str
    ensures { result.now ≡ spec.which_words which }
{
    match which {
        Which::Parameters => "Refused Limit Parameters",
        Which::Lifetimes => "Refused Limit Lifetimes",
        Which::Levels => "Refused Limit Levels",
        Which::Parts => "Refused Limit Parts",
        Which::Sites => "Refused Limit Sites",
        Which::Positions => "Refused Limit Positions",
        Which::Bytes => "Refused Limit Bytes",
    }
}

/// The line of the words and a place.
fn line_at(alloc: Global, words: &str, at: Span) -> Result<Text, AllocError>
    ensures { IfOk result (λ l. l ≡ line_of (with_span words.now at)) }
{
    line(alloc, words, &[at.start, at.end], "")
}

fn line_of_refusal(alloc: Global, refusal: &Refusal) -> Result<Text, AllocError>
    ensures { IfOk result (λ l. l ≡ spec.line_of_refusal refusal.now) }
{
    match refusal {
        Refusal::NotARun => line(alloc, "Refused NotARun", &[], ""),
        Refusal::BadName => line(alloc, "Refused BadName", &[], ""),
        Refusal::NameTaken => line(alloc, "Refused NameTaken", &[], ""),
        Refusal::Unreachable { at } => line_at(alloc, "Refused Unreachable", *at),
        Refusal::Endless => line(alloc, "Refused Endless", &[], ""),
        Refusal::MixedInit { var } => line_at(alloc, "Refused MixedInit", *var),
        Refusal::PartlyMoved { var } => line_at(alloc, "Refused PartlyMoved", *var),
        Refusal::Shadowed { var } => line_at(alloc, "Refused Shadowed", *var),
        Refusal::NotMut { var } => line_at(alloc, "Refused NotMut", *var),
        Refusal::Aliased { var } => line_at(alloc, "Refused Aliased", *var),
        Refusal::Limit { which, count } => line(alloc, limit_words(*which), &[*count], ""),
        Refusal::Unfit { .. } => line(alloc, "Refused Unfit", &[], ""),
        Refusal::Region {
            function,
            long,
            short,
        } => {
            let numbers = [*function as u64, *long as u64, *short as u64];
            line(alloc, "Refused Region", &numbers, "")
        }
        Refusal::Loan { borrow, access } => {
            let numbers = [borrow.start, borrow.end, access.start, access.end];
            line(alloc, "Refused Loan", &numbers, "")
        }
        Refusal::Unconfirmed => line(alloc, "Refused Unconfirmed", &[], ""),
    }
}

/// The line of a fault of the extraction of a text with this program.
pub fn line_of_extraction(
    alloc: Global,
    program: &Program,
    fault: &Fault,
) -> Result<Text, AllocError>
    ensures { IfOk result (λ l. l ≡ spec.line_of_extraction (plain-Program program.now) fault.now) }
{
    match fault {
        Fault::Syntax(fault) => syntax_fault(alloc, fault),
        Fault::NotAccepted(fault) => line_of_check(alloc, program, fault),
        Fault::Refused(why) => line_of_refusal(alloc, why),
        Fault::OutOfMemory => line(alloc, "OutOfMemory", &[], ""),
    }
}

/// The status of such a fault.
pub fn status_of_extraction(fault: &Fault) -> Status
    ensures { result ≡ spec.status_of_extraction fault.now }
{
    match fault {
        Fault::Syntax(fault) => status_of_syntax(fault),
        Fault::NotAccepted(fault) => status_of_check(fault),
        Fault::Refused(_) => Status::Refused,
        Fault::OutOfMemory => Status::OutOfMemory,
    }
}

//! The command `check`: whether a text is an accepted program.

ghost use Rattle.std.specs.Prelude.{◌≤◌, ◌⊎◌, List as ListOf, ℕ, length};
ghost use Rattle.rx_tree.specs.PlainOf.{plain-Program};
ghost use Rattle.rx_tree.specs.Size.{IsNumbered};
ghost use Rattle.rx_rem_command.specs.CheckLines as lines;
ghost use Rattle.rx_rem_command.specs.Lines.{status_line, syntax_line, syntax_status};
ghost use Rattle.rx_rem_command.specs.Defined.{Checked};
ghost use Rattle.rx_rem_command.specs.Replies.{Ending, Found, FoundOf, Reports, sink_state};

use crate::check_line::{line_of_check, status_of_check};
use crate::line::{status_of_syntax, syntax_fault};
use crate::reply::{deliver, report, report_name};
use crate::status::Status;
use rx_check::{CheckFault, check};
use rx_core::{LetGo, Sink};
use rx_parse::{SyntaxFault, parse, parsed_programs_are_numbered};
use rx_tree::Program;
use std::alloc::{AllocError, Global};

/// Writes the line of a fault of reading, or of want of memory.
pub(crate) fn refuse_text<E: Sink>(alloc: Global, err: &mut E, fault: &SyntaxFault) -> Status
    ensures { Reports (sink_state E.contents E.faults E.standstills err.old) (sink_state E.contents E.faults E.standstills err.new) (syntax_status fault.now) (syntax_line fault.now) result
        ⊎ Reports (sink_state E.contents E.faults E.standstills err.old) (sink_state E.contents E.faults E.standstills err.new) Status.OutOfMemory (status_line Status.OutOfMemory) result }
{
    match syntax_fault(alloc, fault) {
        Ok(line) => report(err, status_of_syntax(fault), line.as_str()),
        Err(AllocError) => report_name(err, Status::OutOfMemory),
    }
}

/// Writes the line of a fault of a program, or of want of memory.
pub(crate) fn refuse_program<E: Sink>(
    alloc: Global,
    err: &mut E,
    program: &Program,
    fault: &CheckFault,
) -> Status
    ensures { Reports (sink_state E.contents E.faults E.standstills err.old) (sink_state E.contents E.faults E.standstills err.new) (lines.status_of_check fault.now) (lines.line_of_check (plain-Program program.now) fault.now) result
        ⊎ Reports (sink_state E.contents E.faults E.standstills err.old) (sink_state E.contents E.faults E.standstills err.new) Status.OutOfMemory (status_line Status.OutOfMemory) result }
{
    match line_of_check(alloc, program, fault) {
        Ok(line) => report(err, status_of_check(fault), line.as_str()),
        Err(AllocError) => report_name(err, Status::OutOfMemory),
    }
}

/// Checks a program, and writes `accepted` or why it is not.
fn check_program<O: Sink, E: Sink>(
    alloc: Global,
    out: &mut O,
    err: &mut E,
    program: &Program,
) -> Status
    requires { IsNumbered (plain-Program program.now) }
    ensures { (status : Status) × (outs : ListOf ℕ) × (errs : ListOf ℕ) × FoundOf (plain-Program program.now) status outs errs
        × Ending (sink_state O.contents O.faults O.standstills out.old) (sink_state O.contents O.faults O.standstills out.new)
        (sink_state E.contents E.faults E.standstills err.old) (sink_state E.contents E.faults E.standstills err.new) status outs errs result }
{
    match check(alloc, program) {
        Ok(checked) => {
            checked.let_go();
            deliver(out, err, "accepted\n")
        }
        Err(fault) => refuse_program(alloc, err, program, &fault),
    }
}

/// Checks a text, and writes `accepted` or why it is not.
pub fn check_text<O: Sink, E: Sink>(alloc: Global, out: &mut O, err: &mut E, text: &[u8]) -> Status
    requires { length text.now ≤ 1048576 }
    ensures { (status : Status) × (outs : ListOf ℕ) × (errs : ListOf ℕ) × Found (Checked text.now) status outs errs
        × Ending (sink_state O.contents O.faults O.standstills out.old) (sink_state O.contents O.faults O.standstills out.new)
        (sink_state E.contents E.faults E.standstills err.old) (sink_state E.contents E.faults E.standstills err.new) status outs errs result }
{
    parsed_programs_are_numbered();
    match parse(alloc, text) {
        Ok(program) => {
            let status = check_program(alloc, out, err, &program);
            program.let_go();
            status
        }
        Err(fault) => refuse_text(alloc, err, &fault),
    }
}

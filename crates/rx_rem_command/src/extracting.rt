//! The command `extract`: a run of an accepted text becomes a function.

ghost use Rattle.std.specs.Prelude.{◌≤◌, ◌⊎◌, List as ListOf, ℕ, length};
ghost use Rattle.rx_tree.specs.PlainOf.{plain-Program};
ghost use Rattle.rx_parse_grammar.specs.grammar.Items.{Parses};
ghost use Rattle.rx_check.specs.Front.{IsCheckedOf};
ghost use Rattle.rx_rem_command.specs.Defined.{Drawn};
ghost use Rattle.rx_rem_command.specs.ExtractionLines as lines;
ghost use Rattle.rx_rem_command.specs.Lines.{status_line};
ghost use Rattle.rx_rem_command.specs.Replies.{Ending, Found, Reports, sink_state};

use crate::checking::{refuse_program, refuse_text};
use crate::extraction_line::{line_of_extraction, status_of_extraction};
use crate::reply::{deliver, report, report_name};
use crate::status::Status;
use rx_check::{Checked, check};
use rx_core::{LetGo, Sink};
use rx_engine::{Fault, Selection, extract_checked};
use rx_modes_policy::Policy;
use rx_parse::{parse, parsed_programs_are_numbered};
use rx_tree::Program;
use std::alloc::{AllocError, Global};

/// Writes the line of a fault, or of want of memory.
pub(crate) fn refuse<E: Sink>(
    alloc: Global,
    err: &mut E,
    program: &Program,
    fault: &Fault,
) -> Status
    ensures { Reports (sink_state E.contents E.faults E.standstills err.old) (sink_state E.contents E.faults E.standstills err.new) (lines.status_of_extraction fault.now) (lines.line_of_extraction (plain-Program program.now) fault.now) result
        ⊎ Reports (sink_state E.contents E.faults E.standstills err.old) (sink_state E.contents E.faults E.standstills err.new) Status.OutOfMemory (status_line Status.OutOfMemory) result }
{
    match line_of_extraction(alloc, program, fault) {
        Ok(line) => report(err, status_of_extraction(fault), line.as_str()),
        Err(AllocError) => report_name(err, Status::OutOfMemory),
    }
}

/// Extracts the run of a text with this program, which is accepted, and writes the answer or why there is none.
fn extract_run<O: Sink, E: Sink, P: Policy>(
    alloc: Global,
    out: &mut O,
    err: &mut E,
    program: &Program,
    checked: &Checked,
    text: &[u8],
    selection: Selection,
    name: &str,
    policy: &P,
) -> Status
    requires short { length text.now ≤ 1048576 }
    requires parses { Parses text.now (plain-Program program.now) }
    requires checked { IsCheckedOf (plain-Program program.now) checked.now }
    ensures { (status : Status) × (outs : ListOf ℕ) × (errs : ListOf ℕ) × Found (Drawn text.now (record { start = selection.start; end = selection.end; name = name.now; choice = P.choice policy.now })) status outs errs
        × Ending (sink_state O.contents O.faults O.standstills out.old) (sink_state O.contents O.faults O.standstills out.new)
        (sink_state E.contents E.faults E.standstills err.old) (sink_state E.contents E.faults E.standstills err.new) status outs errs result }
{
    match extract_checked(alloc, text, program, checked, selection, name, policy) {
        Ok(answer) => deliver(out, err, answer.text.as_str()),
        Err(fault) => refuse(alloc, err, program, &fault),
    }
}

/// Extracts the run of a text with this program, and writes the answer or why there is none.
fn extract_program<O: Sink, E: Sink, P: Policy>(
    alloc: Global,
    out: &mut O,
    err: &mut E,
    program: &Program,
    text: &[u8],
    selection: Selection,
    name: &str,
    policy: &P,
) -> Status
    requires short { length text.now ≤ 1048576 }
    requires parses { Parses text.now (plain-Program program.now) }
    ensures { (status : Status) × (outs : ListOf ℕ) × (errs : ListOf ℕ) × Found (Drawn text.now (record { start = selection.start; end = selection.end; name = name.now; choice = P.choice policy.now })) status outs errs
        × Ending (sink_state O.contents O.faults O.standstills out.old) (sink_state O.contents O.faults O.standstills out.new)
        (sink_state E.contents E.faults E.standstills err.old) (sink_state E.contents E.faults E.standstills err.new) status outs errs result }
{
    parsed_programs_are_numbered();
    match check(alloc, program) {
        Ok(checked) => {
            let status = extract_run(
                alloc, out, err, program, &checked, text, selection, name, policy,
            );
            checked.let_go();
            status
        }
        Err(fault) => refuse_program(alloc, err, program, &fault),
    }
}

/// Extracts the run of a text, and writes the answer or why there is none.
pub fn extract_text<O: Sink, E: Sink, P: Policy>(
    alloc: Global,
    out: &mut O,
    err: &mut E,
    text: &[u8],
    selection: Selection,
    name: &str,
    policy: &P,
) -> Status
    requires { length text.now ≤ 1048576 }
    ensures { (status : Status) × (outs : ListOf ℕ) × (errs : ListOf ℕ) × Found (Drawn text.now (record { start = selection.start; end = selection.end; name = name.now; choice = P.choice policy.now })) status outs errs
        × Ending (sink_state O.contents O.faults O.standstills out.old) (sink_state O.contents O.faults O.standstills out.new)
        (sink_state E.contents E.faults E.standstills err.old) (sink_state E.contents E.faults E.standstills err.new) status outs errs result }
{
    match parse(alloc, text) {
        Ok(program) => {
            let status = extract_program(alloc, out, err, &program, text, selection, name, policy);
            program.let_go();
            status
        }
        Err(fault) => refuse_text(alloc, err, &fault),
    }
}

//! The command `run`: what the program of a text does.

ghost use Rattle.std.specs.Prelude.{◌≤◌, List as ListOf, ℕ, IfOk, length};
ghost use Rattle.rx_tree.specs.Plain.{ProgramTree};
ghost use Rattle.rx_tree.specs.PlainOf.{plain-Program};
ghost use Rattle.rx_tree.specs.Size.{IsNumbered};
ghost use Rattle.rx_check.specs.Front.{IsCheckedOf};
ghost use Rattle.rx_rem_command.specs.Numbers.{integers_among};
ghost use Rattle.rx_rem_command.specs.Defined.{Ran};
ghost use Rattle.rx_rem_command.specs.RunLines.{end_status, end_line};
ghost use Rattle.rx_engine.specs.Runs.{Does};
ghost use Rattle.rx_rem_command.specs.RunReplies.{FoundRun, Tells};
ghost use Rattle.rx_rem_command.specs.Replies.{Ending, Found, sink_state};

use crate::checking::{refuse_program, refuse_text};
use crate::numbers::integers;
use crate::reply::{report, report_name};
use crate::run_line::{line_of_end, status_of_end};
use crate::status::Status;
use rx_check::{Checked, check};
use rx_core::{LetGo, Sink, Text, write_all_of};
use rx_machine::run as run_accepted;
use rx_meaning::Outcome;
use rx_parse::{parse, parsed_programs_are_numbered};
use rx_tree::Program;
use std::alloc::{AllocError, Global};

/// What an accepted program does in so many turns, where these numbers are its input.
#[tactic(auto, using(crate::proofs::RunLemmas::does))]
fn run(
    alloc: Global,
    checked: &Checked,
    turns: u64,
    numbers: &[Text],
) -> Result<Outcome, AllocError>
    ensures { IfOk result (λ o. (p : ProgramTree) → IsCheckedOf p checked.now → Does p turns (integers_among numbers.now) o) }
{
    let input = integers(alloc, numbers)?;
    let outcome = run_accepted(alloc, checked, input.as_slice(), turns)?;
    Ok(outcome)
}

/// Writes what a run printed to `out`, and then how it ended to `err`.
fn tell<O: Sink, E: Sink>(out: &mut O, err: &mut E, outcome: &Outcome) -> Status
    ensures { Tells (sink_state O.contents O.faults O.standstills out.old) (sink_state O.contents O.faults O.standstills out.new)
        (sink_state E.contents E.faults E.standstills err.old) (sink_state E.contents E.faults E.standstills err.new)
        (end_status outcome.now.end) outcome.now.printed (end_line outcome.now.end) result }
{
    match write_all_of(out, outcome.printed.as_str().as_bytes()) {
        Ok(()) => report(err, status_of_end(outcome.end), line_of_end(outcome.end)),
        Err(_fail) => report_name(err, Status::WriteFault),
    }
}

/// Runs an accepted program, and writes what it does.
fn run_checked<O: Sink, E: Sink>(
    alloc: Global,
    out: &mut O,
    err: &mut E,
    checked: &Checked,
    turns: u64,
    numbers: &[Text],
) -> Status
    ensures { (p : ProgramTree) → IsCheckedOf p checked.now → (status : Status) × (outs : ListOf ℕ) × (errs : ListOf ℕ) × FoundRun p turns (integers_among numbers.now) status outs errs
        × Ending (sink_state O.contents O.faults O.standstills out.old) (sink_state O.contents O.faults O.standstills out.new)
        (sink_state E.contents E.faults E.standstills err.old) (sink_state E.contents E.faults E.standstills err.new) status outs errs result }
{
    match run(alloc, checked, turns, numbers) {
        Ok(outcome) => tell(out, err, &outcome),
        Err(AllocError) => report_name(err, Status::OutOfMemory),
    }
}

/// Runs a program, and writes what it does or why it is not accepted.
fn run_program<O: Sink, E: Sink>(
    alloc: Global,
    out: &mut O,
    err: &mut E,
    program: &Program,
    turns: u64,
    numbers: &[Text],
) -> Status
    requires { IsNumbered (plain-Program program.now) }
    ensures { (status : Status) × (outs : ListOf ℕ) × (errs : ListOf ℕ) × FoundRun (plain-Program program.now) turns (integers_among numbers.now) status outs errs
        × Ending (sink_state O.contents O.faults O.standstills out.old) (sink_state O.contents O.faults O.standstills out.new)
        (sink_state E.contents E.faults E.standstills err.old) (sink_state E.contents E.faults E.standstills err.new) status outs errs result }
{
    match check(alloc, program) {
        Ok(checked) => {
            let status = run_checked(alloc, out, err, &checked, turns, numbers);
            checked.let_go();
            status
        }
        Err(fault) => refuse_program(alloc, err, program, &fault),
    }
}

/// Runs the program of a text, and writes what it does or why it is not accepted.
pub fn run_text<O: Sink, E: Sink>(
    alloc: Global,
    out: &mut O,
    err: &mut E,
    text: &[u8],
    turns: u64,
    numbers: &[Text],
) -> Status
    requires { length text.now ≤ 1048576 }
    ensures { (status : Status) × (outs : ListOf ℕ) × (errs : ListOf ℕ) × Found (Ran text.now turns (integers_among numbers.now)) status outs errs
        × Ending (sink_state O.contents O.faults O.standstills out.old) (sink_state O.contents O.faults O.standstills out.new)
        (sink_state E.contents E.faults E.standstills err.old) (sink_state E.contents E.faults E.standstills err.new) status outs errs result }
{
    parsed_programs_are_numbered();
    match parse(alloc, text) {
        Ok(program) => {
            let status = run_program(alloc, out, err, &program, turns, numbers);
            program.let_go();
            status
        }
        Err(fault) => refuse_text(alloc, err, &fault),
    }
}

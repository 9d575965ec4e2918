//! The command `gen`: a text is made and checked, the run of its last function is extracted, the text and the answer are run, and what
//! they print is told.

ghost use Rattle.std.specs.Prelude.{◌≡◌, ◌≤◌, IfOk, List as ListOf, ℕ, length, codes};
ghost use Rattle.rx_tree.specs.Plain.{ProgramTree};
ghost use Rattle.rx_tree.specs.PlainOf.{plain-Program};
ghost use Rattle.rx_tree.specs.Size.{IsNumbered};
ghost use Rattle.rx_parse_grammar.specs.grammar.Items.{Parses};
ghost use Rattle.rx_check.specs.Front.{IsCheckedOf};
ghost use Rattle.rx_check.specs.Passes.{Accepted};
ghost use Rattle.rx_engine.specs.Runs.{Does};
ghost use Rattle.rx_rem_generated.specs.Generated as spec;
ghost use Rattle.rx_rem_command.specs.Defined.{IsAccepted, Summarised};
ghost use Rattle.rx_rem_command.specs.GeneratedReplies.{Both, FoundBoth};
ghost use Rattle.rx_rem_command.specs.Replies.{Ending, Found, sink_state};

use crate::checking::{refuse_program, refuse_text};
use crate::extracting::refuse;
use crate::reply::{deliver, report_name};
use crate::status::Status;
use rx_check::{CheckFault, Checked, check};
use rx_core::{LetGo, Sink, Text};
use rx_engine::{Selection, extract_checked};
use rx_machine::run as run_accepted;
use rx_meaning::Outcome;
use rx_modes_policy::Policy;
use rx_parse::{SyntaxFault, parse, parsed_programs_are_numbered};
use rx_rem_generated::{generated_text, input, summary};
use rx_tree::Program;
use std::alloc::{AllocError, Global};

/// What a checked program does in so many turns, where its input is the numbers up to this.
#[tactic(auto, using(crate::proofs::RunLemmas::does))]
fn outcome_of(
    alloc: Global,
    checked: &Checked,
    turns: u64,
    count: u64,
) -> Result<Outcome, AllocError>
    requires { count ≤ 1000 }
    ensures { IfOk result (λ o. (p : ProgramTree) → IsCheckedOf p checked.now → Does p turns (spec.input count) o) }
{
    let numbers = input(alloc, count)?;
    let outcome = run_accepted(alloc, checked, numbers.as_slice(), turns)?;
    Ok(outcome)
}

/// Want of memory, which alone can keep an accepted program from being checked.
fn memory_of_check(fault: CheckFault) -> AllocError
    requires { fault ≡ CheckFault.OutOfMemory }
{
    match fault {
        CheckFault::OutOfMemory => AllocError,
        CheckFault::Name(_) => unreachable!(),
        CheckFault::Types(_) => unreachable!(),
        CheckFault::Cover(_) => unreachable!(),
        CheckFault::Lower(_) => unreachable!(),
        CheckFault::Init(_) => unreachable!(),
        CheckFault::Region { .. } => unreachable!(),
        CheckFault::Loan(_) => unreachable!(),
    }
}

/// Want of memory, which alone can keep a program's text from being read.
fn memory_of_text(fault: SyntaxFault) -> AllocError
    requires { fault ≡ SyntaxFault.OutOfMemory }
{
    match fault {
        SyntaxFault::OutOfMemory => AllocError,
        SyntaxFault::Lex(_) => unreachable!(),
        SyntaxFault::Syntax { .. } => unreachable!(),
        SyntaxFault::TooDeep { .. } => unreachable!(),
    }
}

/// What an accepted program does, which is checked first.
fn outcome_of_program(
    alloc: Global,
    program: &Program,
    turns: u64,
    count: u64,
) -> Result<Outcome, AllocError>
    requires few { count ≤ 1000 }
    requires numbered { IsNumbered (plain-Program program.now) }
    requires accepted { Accepted (plain-Program program.now) }
    ensures { IfOk result (λ o. Does (plain-Program program.now) turns (spec.input count) o) }
{
    match check(alloc, program) {
        Ok(checked) => {
            let outcome = outcome_of(alloc, &checked, turns, count);
            checked.let_go();
            outcome
        }
        Err(fault) => Err(memory_of_check(fault)),
    }
}

/// The same of an accepted text, which is read first.
fn outcome_of_text(alloc: Global, text: &str, turns: u64, count: u64) -> Result<Outcome, AllocError>
    requires few { count ≤ 1000 }
    requires short { length text.now ≤ 1048576 }
    requires accepted { IsAccepted text.now }
    ensures { IfOk result (λ o. (p : ProgramTree) → Parses text.now p → Does p turns (spec.input count) o) }
{
    parsed_programs_are_numbered();
    match parse(alloc, text.as_bytes()) {
        Ok(program) => {
            let outcome = outcome_of_program(alloc, &program, turns, count);
            program.let_go();
            outcome
        }
        Err(fault) => Err(memory_of_text(fault)),
    }
}

/// What is told of a text that is checked and of an accepted answer, and of what both print.
fn told_of(
    alloc: Global,
    checked: &Checked,
    text: &str,
    answer: &str,
    count: u64,
) -> Result<Text, AllocError>
    requires few { count ≤ 1000 }
    requires short { length answer.now ≤ 1048576 }
    requires accepted { IsAccepted answer.now }
    ensures { IfOk result (λ t. (p q : ProgramTree) → IsCheckedOf p checked.now → Parses answer.now q → Both count p q text.now answer.now t) }
{
    let turns = 12 * count + 1;
    let first = outcome_of(alloc, checked, turns, count)?;
    let second = outcome_of_text(alloc, answer, 2 * turns, count)?;
    let told = summary(
        alloc,
        text,
        answer,
        first.printed.as_str(),
        second.printed.as_str(),
    )?;
    Ok(told)
}

/// Writes what is told of a text and an answer.
fn tell_both<O: Sink, E: Sink>(
    alloc: Global,
    out: &mut O,
    err: &mut E,
    checked: &Checked,
    text: &str,
    answer: &str,
    count: u64,
) -> Status
    requires few { count ≤ 1000 }
    requires short { length answer.now ≤ 1048576 }
    requires accepted { IsAccepted answer.now }
    ensures { (p q : ProgramTree) → IsCheckedOf p checked.now → Parses answer.now q → (status : Status) × (outs : ListOf ℕ) × (errs : ListOf ℕ) × FoundBoth count p q text.now answer.now status outs errs
        × Ending (sink_state O.contents O.faults O.standstills out.old) (sink_state O.contents O.faults O.standstills out.new)
        (sink_state E.contents E.faults E.standstills err.old) (sink_state E.contents E.faults E.standstills err.new) status outs errs result }
{
    match told_of(alloc, checked, text, answer, count) {
        Ok(told) => deliver(out, err, told.as_str()),
        Err(AllocError) => report_name(err, Status::OutOfMemory),
    }
}

/// Extracts the run of a text with this program, which is accepted, and writes what is told of both, or why there is no answer.
fn generate_run<O: Sink, E: Sink, P: Policy>(
    alloc: Global,
    out: &mut O,
    err: &mut E,
    program: &Program,
    checked: &Checked,
    text: &str,
    selection: Selection,
    count: u64,
    policy: &P,
) -> Status
    requires few { count ≤ 1000 }
    requires short { length text.now ≤ 1048576 }
    requires parses { Parses text.now (plain-Program program.now) }
    requires checked { IsCheckedOf (plain-Program program.now) checked.now }
    ensures { (status : Status) × (outs : ListOf ℕ) × (errs : ListOf ℕ) × Found (Summarised text.now count (record { start = selection.start; end = selection.end; name = codes "step"; choice = P.choice policy.now })) status outs errs
        × Ending (sink_state O.contents O.faults O.standstills out.old) (sink_state O.contents O.faults O.standstills out.new)
        (sink_state E.contents E.faults E.standstills err.old) (sink_state E.contents E.faults E.standstills err.new) status outs errs result }
{
    match extract_checked(
        alloc,
        text.as_bytes(),
        program,
        checked,
        selection,
        "step",
        policy,
    ) {
        Ok(answer) => tell_both(alloc, out, err, checked, text, answer.text.as_str(), count),
        Err(fault) => refuse(alloc, err, program, &fault),
    }
}

/// The same of a program that is checked first.
fn generate_program<O: Sink, E: Sink, P: Policy>(
    alloc: Global,
    out: &mut O,
    err: &mut E,
    program: &Program,
    text: &str,
    selection: Selection,
    count: u64,
    policy: &P,
) -> Status
    requires few { count ≤ 1000 }
    requires short { length text.now ≤ 1048576 }
    requires parses { Parses text.now (plain-Program program.now) }
    ensures { (status : Status) × (outs : ListOf ℕ) × (errs : ListOf ℕ) × Found (Summarised text.now count (record { start = selection.start; end = selection.end; name = codes "step"; choice = P.choice policy.now })) status outs errs
        × Ending (sink_state O.contents O.faults O.standstills out.old) (sink_state O.contents O.faults O.standstills out.new)
        (sink_state E.contents E.faults E.standstills err.old) (sink_state E.contents E.faults E.standstills err.new) status outs errs result }
{
    parsed_programs_are_numbered();
    match check(alloc, program) {
        Ok(checked) => {
            let status = generate_run(
                alloc, out, err, program, &checked, text, selection, count, policy,
            );
            checked.let_go();
            status
        }
        Err(fault) => refuse_program(alloc, err, program, &fault),
    }
}

/// The same of a text that is read first.
fn generate_from<O: Sink, E: Sink, P: Policy>(
    alloc: Global,
    out: &mut O,
    err: &mut E,
    text: &str,
    selection: Selection,
    count: u64,
    policy: &P,
) -> Status
    requires few { count ≤ 1000 }
    requires short { length text.now ≤ 1048576 }
    ensures { (status : Status) × (outs : ListOf ℕ) × (errs : ListOf ℕ) × Found (Summarised text.now count (record { start = selection.start; end = selection.end; name = codes "step"; choice = P.choice policy.now })) status outs errs
        × Ending (sink_state O.contents O.faults O.standstills out.old) (sink_state O.contents O.faults O.standstills out.new)
        (sink_state E.contents E.faults E.standstills err.old) (sink_state E.contents E.faults E.standstills err.new) status outs errs result }
{
    match parse(alloc, text.as_bytes()) {
        Ok(program) => {
            let status = generate_program(
                alloc, out, err, &program, text, selection, count, policy,
            );
            program.let_go();
            status
        }
        Err(fault) => refuse_text(alloc, err, &fault),
    }
}

/// Makes the text of so many functions, and does so with it.
pub fn generate<O: Sink, E: Sink, P: Policy>(
    alloc: Global,
    out: &mut O,
    err: &mut E,
    count: u64,
    policy: &P,
) -> Status
    requires some { 1 ≤ count }
    requires few { count ≤ 1000 }
    ensures { (status : Status) × (outs : ListOf ℕ) × (errs : ListOf ℕ)
        × Found (Summarised (spec.generated count) count (record { start = spec.run_start count; end = spec.run_end count; name = codes "step"; choice = P.choice policy.now })) status outs errs
        × Ending (sink_state O.contents O.faults O.standstills out.old) (sink_state O.contents O.faults O.standstills out.new)
        (sink_state E.contents E.faults E.standstills err.old) (sink_state E.contents E.faults E.standstills err.new) status outs errs result }
{
    match generated_text(alloc, count) {
        Ok(made) => {
            let selection = Selection {
                start: made.start,
                end: made.end,
            };
            generate_from(
                alloc,
                out,
                err,
                made.text.as_str(),
                selection,
                count,
                policy,
            )
        }
        Err(AllocError) => report_name(err, Status::OutOfMemory),
    }
}

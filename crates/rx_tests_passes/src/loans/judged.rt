//! What the check says of a program, as the line of a fault behind initialisation.

ghost use Rattle.rx_tree.specs.PlainOf.{plain-Program};
ghost use Rattle.rx_tree.specs.Size.{IsNumbered};

use rx_check::{CheckFault, LoanFault, check};
use rx_core::{LetGo, Span};
use rx_facts::InitFault;
use rx_parse::{parse, parsed_programs_are_numbered};
use rx_tests_tables::Outcome;
use rx_tree::Program;
use std::alloc::{AllocError, Global};

/// A fault with two places.
fn placed_line(alloc: Global, name: &str, first: Span, second: Span) -> Result<String, AllocError> {
    format!(in alloc;
        "{name} {} {} {} {}",
        first.start, first.end, second.start, second.end
    )
}

fn init_line(alloc: Global, fault: &InitFault) -> Result<String, AllocError> {
    match fault {
        InitFault::Unset { at, .. } => format!(in alloc; "Unset {} {}", at.start, at.end),
        InitFault::Again { at, var } => placed_line(alloc, "Again", *at, *var),
        InitFault::OutOfMemory => String::from_str(alloc, "OutOfMemory"),
    }
}

fn loan_line(alloc: Global, fault: &LoanFault) -> Result<String, AllocError> {
    match fault {
        LoanFault::Loan { borrow, access } => placed_line(alloc, "Loan", *borrow, *access),
        LoanFault::OutOfMemory => String::from_str(alloc, "OutOfMemory"),
    }
}

fn fault_line(alloc: Global, fault: &CheckFault) -> Result<String, AllocError> {
    match fault {
        CheckFault::Init(fault) => init_line(alloc, fault),
        CheckFault::Region {
            function,
            long,
            short,
        } => format!(in alloc; "Region {function} {long} {short}"),
        CheckFault::Loan(fault) => loan_line(alloc, fault),
        CheckFault::Name(_)
        | CheckFault::Types(_)
        | CheckFault::Cover(_)
        | CheckFault::Lower(_)
        | CheckFault::OutOfMemory => String::from_str(alloc, "another fault"),
    }
}

fn program_line(alloc: Global, program: &Program) -> Result<String, AllocError>
    requires { IsNumbered (plain-Program program.now) }
{
    match check(alloc, program) {
        Ok(checked) => {
            checked.let_go();
            String::from_str(alloc, "accepted")
        }
        Err(fault) => fault_line(alloc, &fault),
    }
}

/// The line of a text.
fn line_of(alloc: Global, text: &str) -> Result<String, AllocError> {
    if text.len() > 1_048_576 {
        return String::from_str(alloc, "TooLong");
    }
    parsed_programs_are_numbered();
    match parse(alloc, text.as_bytes()) {
        Ok(program) => {
            let line = program_line(alloc, &program);
            program.let_go();
            line
        }
        Err(_) => String::from_str(alloc, "no program"),
    }
}

/// Whether a text is accepted, where `accepted` is wanted, or else has the fault.
pub fn is_judged(alloc: Global, text: &str, want: &str) -> Outcome {
    Ok(line_of(alloc, text)?.as_str() == want)
}

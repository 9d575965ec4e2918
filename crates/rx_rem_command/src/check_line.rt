//! The line that says why a program is not accepted.

ghost use Rattle.std.specs.Prelude.{◌≡◌, ◌++◌, IfOk, codes};
ghost use Rattle.rx_tree.specs.PlainOf.{plain-Program};
ghost use Rattle.rx_cover.specs.PlainValue.{plain-Value};
ghost use Rattle.rx_cover_values.specs.Shown as print;
ghost use Rattle.rx_rem_command.specs.Lines.{line_of, with_span};
ghost use Rattle.rx_rem_command.specs.CheckLines as spec;

use crate::line::line;
use crate::status::Status;
use rx_check::{CheckFault, LoanFault};
use rx_core::{Span, Text};
use rx_cover::{CoverFault, Value};
use rx_cover_values::shown;
use rx_facts::InitFault;
use rx_lower_lifetimes::LowerFault;
use rx_resolve_names::NameFault;
use rx_tree::Program;
use rx_typeck_solver::Rule;
use rx_typeck_typed::TypeFault;
use std::alloc::{AllocError, Global};

fn rule_text(rule: Rule) -> &'static str
    ensures { result.now ≡ spec.rule_of rule }
{
    match rule {
        Rule::Equal => " Equal",
        Rule::KindOf => " KindOf",
        Rule::Count => " Count",
        Rule::Fields => " Fields",
        Rule::NotPlace => " NotPlace",
        Rule::NotFunction => " NotFunction",
        Rule::CopyOf => " CopyOf",
        Rule::Unused => " Unused",
        Rule::MoveOut => " MoveOut",
        Rule::Main => " Main",
        Rule::Unclear => " Unclear",
        Rule::Parts => " Parts",
        Rule::Lifetimes => " Lifetimes",
        Rule::PatternOf => " PatternOf",
    }
}

fn line_of_name(alloc: Global, fault: &NameFault) -> Result<Text, AllocError>
    ensures { IfOk result (λ l. l ≡ spec.line_of_name fault.now) }
{
    match fault {
        NameFault::Unknown { at } => line(alloc, "NotAccepted Unknown", &[at.start, at.end], ""),
        NameFault::Twice { first, second } => {
            let numbers = [first.start, first.end, second.start, second.end];
            line(alloc, "NotAccepted Twice", &numbers, "")
        }
        NameFault::Label { at } => line(alloc, "NotAccepted Label", &[at.start, at.end], ""),
        NameFault::SelfHolding { at } => {
            line(alloc, "NotAccepted SelfHolding", &[at.start, at.end], "")
        }
        NameFault::OutOfMemory => line(alloc, "OutOfMemory", &[], ""),
    }
}

fn line_of_types(alloc: Global, fault: &TypeFault) -> Result<Text, AllocError>
    ensures { IfOk result (λ l. l ≡ spec.line_of_types fault.now) }
{
    match fault {
        TypeFault::Mismatch { at, rule } => {
            let rest = rule_text(*rule);
            line(alloc, "NotAccepted Mismatch", &[at.start, at.end], rest)
        }
        TypeFault::Mutability { at, var } => {
            let numbers = [at.start, at.end, var.start, var.end];
            line(alloc, "NotAccepted Mutability", &numbers, "")
        }
        TypeFault::Literal { at } => line(alloc, "NotAccepted Literal", &[at.start, at.end], ""),
        TypeFault::Elision { at } => line(alloc, "NotAccepted Elision", &[at.start, at.end], ""),
        TypeFault::OutOfMemory => line(alloc, "OutOfMemory", &[], ""),
    }
}

/// The line of a match that misses a value.
fn line_of_missing(
    alloc: Global,
    program: &Program,
    at: Span,
    value: &Value,
) -> Result<Text, AllocError>
    ensures { IfOk result (λ l. l ≡ line_of (with_span (codes "NotAccepted Missing") at ++ (codes " " ++ print.shown (plain-Program program.now) (plain-Value value.now)))) }
{
    let value = shown(alloc, program, value)?;
    let mut rest = Text::new(alloc, " ")?;
    rest.push(value.as_str())?;
    line(
        alloc,
        "NotAccepted Missing",
        &[at.start, at.end],
        rest.as_str(),
    )
}

fn line_of_cover(alloc: Global, program: &Program, fault: &CoverFault) -> Result<Text, AllocError>
    ensures { IfOk result (λ l. l ≡ spec.line_of_cover (plain-Program program.now) fault.now) }
{
    match fault {
        CoverFault::Missing { at, value } => line_of_missing(alloc, program, *at, value),
        CoverFault::TooWide { at, count } => {
            line(
                alloc,
                "NotAccepted TooWide",
                &[at.start, at.end, *count],
                "",
            )
        }
        CoverFault::OutOfMemory => line(alloc, "OutOfMemory", &[], ""),
    }
}

fn line_of_lower(alloc: Global, fault: &LowerFault) -> Result<Text, AllocError>
    ensures { IfOk result (λ l. l ≡ spec.line_of_lower fault.now) }
{
    match fault {
        LowerFault::TooLarge {
            function,
            sites,
            lifetimes,
        } => {
            let numbers = [*function as u64, *sites, *lifetimes];
            line(alloc, "NotAccepted TooLarge", &numbers, "")
        }
        LowerFault::OutOfMemory => line(alloc, "OutOfMemory", &[], ""),
    }
}

fn line_of_init(alloc: Global, fault: &InitFault) -> Result<Text, AllocError>
    ensures { IfOk result (λ l. l ≡ spec.line_of_init fault.now) }
{
    match fault {
        InitFault::Unset { at, .. } => line(alloc, "NotAccepted Unset", &[at.start, at.end], ""),
        InitFault::Again { at, var } => {
            let numbers = [at.start, at.end, var.start, var.end];
            line(alloc, "NotAccepted Again", &numbers, "")
        }
        InitFault::OutOfMemory => line(alloc, "OutOfMemory", &[], ""),
    }
}

fn line_of_loan(alloc: Global, fault: &LoanFault) -> Result<Text, AllocError>
    ensures { IfOk result (λ l. l ≡ spec.line_of_loan fault.now) }
{
    match fault {
        LoanFault::Loan { borrow, access } => {
            let numbers = [borrow.start, borrow.end, access.start, access.end];
            line(alloc, "NotAccepted Loan", &numbers, "")
        }
        LoanFault::OutOfMemory => line(alloc, "OutOfMemory", &[], ""),
    }
}

/// The line of a fault of a program.
pub fn line_of_check(
    alloc: Global,
    program: &Program,
    fault: &CheckFault,
) -> Result<Text, AllocError>
    ensures { IfOk result (λ l. l ≡ spec.line_of_check (plain-Program program.now) fault.now) }
{
    match fault {
        CheckFault::Name(fault) => line_of_name(alloc, fault),
        CheckFault::Types(fault) => line_of_types(alloc, fault),
        CheckFault::Cover(fault) => line_of_cover(alloc, program, fault),
        CheckFault::Lower(fault) => line_of_lower(alloc, fault),
        CheckFault::Init(fault) => line_of_init(alloc, fault),
        CheckFault::Region {
            function,
            long,
            short,
        } => {
            let numbers = [*function as u64, *long as u64, *short as u64];
            line(alloc, "NotAccepted Region", &numbers, "")
        }
        CheckFault::Loan(fault) => line_of_loan(alloc, fault),
        CheckFault::OutOfMemory => line(alloc, "OutOfMemory", &[], ""),
    }
}

/// The status of a fault.
pub fn status_of_check(fault: &CheckFault) -> Status
    ensures { result ≡ spec.status_of_check fault.now }
{
    match fault {
        CheckFault::OutOfMemory => Status::OutOfMemory,
        _ => Status::NotAccepted,
    }
}

//! The certificate of a text.

ghost use Rattle.std.specs.Prelude.{◌≡◌, ◌≤◌, length, IfOk, MatchResult, IsUtf8};
ghost use Rattle.rx_tree.specs.PlainOf.{plain-Program};
ghost use Rattle.rx_parse_grammar.specs.grammar.Items.{Parses};
ghost use Rattle.rx_facts.specs.Functions.{IsTypedProgram};
ghost use Rattle.rx_facts.specs.Answers.{AreGraphs, AreFacts};
ghost use Rattle.rx_cert_least.specs.Certified as certified;
ghost use Rattle.rx_cert_least.specs.Least.{IsWritten};

use crate::fault::{CertifyFault, of_check, of_text};
use crate::making::push_all;
use rx_check::{Checked, check};
use rx_core::{LetGo, Text, Which};
use rx_facts::{Lowered, ProgramFacts};
use rx_parse::{parse, parsed_programs_are_numbered};
use rx_region_outlives::implied_by_fields;
use rx_tree::Program;
use rx_typeck_typed::Typed;
use std::alloc::{AllocError, Global};

/// The characters of a text.
fn characters(bytes: &[u8]) -> &str
    requires { IsUtf8 bytes.now }
    ensures { result.now ≡ bytes.now }
{
    match str::from_utf8(bytes) {
        Ok(text) => text,
        Err(_) => unreachable!(),
    }
}

/// The certificate of a typed program with its text.
fn written(
    alloc: Global,
    typed: &Typed,
    graphs: &[Lowered],
    facts: &ProgramFacts,
    text: &[u8],
) -> Result<Text, AllocError>
    requires typed { IsTypedProgram typed.now }
    requires graphs { AreGraphs typed.now graphs.now }
    requires facts { AreFacts typed.now facts.now }
    requires text { IsUtf8 text.now }
    ensures { IfOk result (λ it. IsWritten typed.now text.now it) }
{
    let implied = implied_by_fields(alloc, &typed.decls)?;
    let mut bytes = Text::empty(alloc);
    let functions = typed.functions.as_slice();
    let found = facts.functions.as_slice();
    push_all(
        alloc,
        &mut bytes,
        &typed.decls,
        &implied,
        functions,
        graphs,
        found,
    )?;
    bytes.push("text\n")?;
    bytes.push(characters(text))?;
    Ok(bytes)
}

/// The certificate of a program that was checked, with its text.
fn of_checked(alloc: Global, checked: &Checked, text: &[u8]) -> Result<Text, AllocError>
    requires { IsUtf8 text.now }
    ensures { IfOk result (λ it. IsWritten checked.now.front.typed text.now it) }
{
    let front = checked.front();
    let bytes = written(alloc, front.typed(), front.graphs(), front.facts(), text)?;
    Ok(bytes)
}

/// The bytes, if they are not too many.
fn limited(bytes: Text) -> Result<Text, CertifyFault>
    ensures { MatchResult result (λ it. (it ≡ bytes) × (length bytes ≤ certified.most_bytes)) (λ e. certified.IsLimit bytes e) }
{
    let count = bytes.as_str().len();
    if count > 16_777_216 {
        return Err(CertifyFault::Limit {
            which: Which::Bytes,
            count: count as u64,
        });
    }
    Ok(bytes)
}

/// The certificate of a program, that of a text.
fn of_program(alloc: Global, program: &Program, text: &[u8]) -> Result<Text, CertifyFault>
    requires short { length text.now ≤ 1048576 }
    requires parses { Parses text.now (plain-Program program.now) }
    ensures { certified.Answers text.now result }
{
    parsed_programs_are_numbered();
    match check(alloc, program) {
        Ok(checked) => {
            let outcome = of_checked(alloc, &checked, text);
            checked.let_go();
            match outcome {
                Ok(bytes) => limited(bytes),
                Err(_) => Err(CertifyFault::OutOfMemory),
            }
        }
        Err(fault) => Err(of_check(fault)),
    }
}

/// The certificate of a text that is accepted, with the least sets of its lifetimes and the sites at which its loans are in scope under
/// them.
///
/// # Errors
///
/// What is wrong with the text's form; why it is not accepted; that its certificate has more than 16,777,216 bytes, and how many; or
/// memory runs out.
pub fn certify(alloc: Global, text: &[u8]) -> Result<Text, CertifyFault>
    requires { length text.now ≤ 1048576 }
    ensures { certified.Answers text.now result }
{
    match parse(alloc, text) {
        Ok(program) => {
            let outcome = of_program(alloc, &program, text);
            program.let_go();
            outcome
        }
        Err(fault) => Err(of_text(fault)),
    }
}

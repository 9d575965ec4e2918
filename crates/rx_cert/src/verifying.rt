//! Whether bytes are a certificate that is good for its text.

ghost use Rattle.std.specs.Prelude.{◌≡◌, ◌≤◌, length, IfErr, MatchResult};
ghost use Rattle.rx_tree.specs.PlainOf.{plain-Program};
ghost use Rattle.rx_parse_grammar.specs.grammar.Items.{Parses};
ghost use Rattle.rx_facts.specs.Functions.{IsTypedProgram};
ghost use Rattle.rx_facts.specs.Answers.{AreGraphs, AreFacts};
ghost use Rattle.rx_cert.specs.Parts as parts;
ghost use Rattle.rx_cert.specs.Verified.{IsGood, Faults, IsVerified, VerifyCauses};

use crate::fault::{VerifyFault, of_front, of_text};
use crate::fitting::all_fit;
use crate::laws::verified_or_refused;
use crate::rules::keep_rules;
use rx_cert_lines::{Line, Misread, read_certificate};
use rx_check::front;
use rx_core::LetGo;
use rx_facts::{Lowered, ProgramFacts};
use rx_parse::{parse, parsed_programs_are_numbered};
use rx_tree::Program;
use rx_typeck_typed::Typed;
use std::alloc::Global;

/// Whether lines are good for a program that passed.
fn of_passed(
    alloc: Global,
    typed: &Typed,
    graphs: &[Lowered],
    facts: &ProgramFacts,
    lines: &[Line],
) -> Result<(), VerifyFault>
    requires few { length lines.now ≤ 16777216 }
    requires typed { IsTypedProgram typed.now }
    requires graphs { AreGraphs typed.now graphs.now }
    requires facts { AreFacts typed.now facts.now }
    ensures { parts.OfPassed typed.now lines.now result }
{
    match all_fit(alloc, typed, graphs, lines) {
        Ok(()) => keep_rules(alloc, typed, graphs, facts, lines),
        Err(fault) => Err(fault),
    }
}

/// Whether lines are good for a program, that of a text.
fn of_program(
    alloc: Global,
    program: &Program,
    text: &[u8],
    lines: &[Line],
) -> Result<(), VerifyFault>
    requires few { length lines.now ≤ 16777216 }
    requires short { length text.now ≤ 1048576 }
    requires parses { Parses text.now (plain-Program program.now) }
    ensures { MatchResult result (λ _. IsGood lines.now text.now) (λ e. Faults e lines.now text.now) }
{
    parsed_programs_are_numbered();
    match front(alloc, program) {
        Ok(front) => {
            let outcome = of_passed(alloc, front.typed(), front.graphs(), front.facts(), lines);
            front.let_go();
            outcome
        }
        Err(fault) => Err(of_front(fault)),
    }
}

/// Whether lines are good for a text.
fn of_certificate(alloc: Global, text: &[u8], lines: &[Line]) -> Result<(), VerifyFault>
    requires few { length lines.now ≤ 16777216 }
    requires short { length text.now ≤ 1048576 }
    ensures { MatchResult result (λ _. IsGood lines.now text.now) (λ e. Faults e lines.now text.now) }
{
    match parse(alloc, text) {
        Ok(program) => {
            let outcome = of_program(alloc, &program, text, lines);
            program.let_go();
            outcome
        }
        Err(fault) => Err(of_text(fault)),
    }
}

/// Whether bytes are a certificate that is good for its text.
fn of_bytes(alloc: Global, bytes: &[u8]) -> Result<(), VerifyFault>
    requires { length bytes.now ≤ 16777216 }
    ensures { MatchResult result (λ _. IsVerified bytes.now) (λ e. VerifyCauses e bytes.now) }
{
    match read_certificate(alloc, bytes) {
        Ok(certificate) => of_certificate(alloc, certificate.text, certificate.lines.as_slice()),
        Err(Misread::Form { line }) => Err(VerifyFault::Form { line }),
        Err(Misread::OutOfMemory) => Err(VerifyFault::OutOfMemory),
    }
}

/// Whether bytes are a certificate that is good for the text behind its line `text`: the text's functions are those of the lines, and
/// the sets of the lines keep the four rules. Then the text is accepted, whoever made the bytes.
///
/// # Errors
///
/// The first line that isn't of its form or isn't what the text's functions have there; what is wrong with the text up to
/// initialisation; the first function whose sets break a rule, and the first such rule; or memory runs out.
pub fn verify(alloc: Global, bytes: &[u8]) -> Result<(), VerifyFault>
    requires { length bytes.now ≤ 16777216 }
    ensures told { MatchResult result (λ _. IsVerified bytes.now) (λ e. VerifyCauses e bytes.now) }
    // Bytes that are verified are answered so, unless memory runs out.
    ensures complete { IsVerified bytes.now → IfErr result (λ e. e ≡ VerifyFault.OutOfMemory) }
{
    verified_or_refused();
    of_bytes(alloc, bytes)
}

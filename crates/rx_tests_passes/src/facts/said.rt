//! What is found of a function, as a text.

ghost use Rattle.std.specs.Prelude.{◌≡◌, ◌<◌, length};
ghost use Rattle.rx_tree.specs.PlainOf.{plain-Program};
ghost use Rattle.rx_tree.specs.Size.{IsNumbered};
ghost use Rattle.rx_facts_tables.specs.LiveTables.{IsIndex};
ghost use Rattle.rx_facts.specs.Functions.{IsTypedProgram};
ghost use Rattle.rx_facts.specs.Answers.{AreGraphs, AreFacts};

use rx_core::{LetGo, List, Place as Kept, Span, Step};
use rx_facts::{InitFault, Lowered, ProgramFacts, facts, lower_all};
use rx_facts_tables::{Frame, LiveTable};
use rx_lower::trimmed;
use rx_lower_walks::{Place, Root, Temporary};
use rx_parse::{parse, parsed_programs_are_numbered};
use rx_resolve::resolve;
use rx_tree::Program;
use rx_typeck::typecheck;
use rx_typeck_typed::{Typed, TypedFn};
use std::alloc::{AllocError, Global};

/// What is asked of a function.
#[derive(Clone, Copy)]
pub enum Question {
    /// Whether it is initialised.
    Initialised,
    /// Which variables may be set, and may be unset, where it ends.
    Set,
    /// Which variables and temporaries are live at each site.
    Live,
}

/// The text at a span.
fn at(text: &str, span: Span) -> &str {
    match text.get(span.start as usize..span.end as usize) {
        Some(words) => words,
        None => "?",
    }
}

/// The text at the span of a number.
fn words<'t>(text: &'t str, spans: &[Span], number: usize) -> &'t str {
    match spans.get(number) {
        Some(span) => at(text, *span),
        None => "?",
    }
}

fn push_number(
    alloc: Global,
    text: &mut String,
    mark: &str,
    number: usize,
) -> Result<(), AllocError> {
    let word = format!(in alloc; "{mark}{number}")?;
    text.push_str(word.as_str())
}

fn push_step(alloc: Global, text: &mut String, step: Step) -> Result<(), AllocError> {
    match step {
        Step::Field(field) => push_number(alloc, text, ".", field as usize),
        Step::Variant(variant) => push_number(alloc, text, "#", variant as usize),
        Step::Deref(_) => text.push_str("*"),
    }
}

fn unset_text(
    alloc: Global,
    function: &TypedFn,
    source: &str,
    here: Span,
    place: &Kept,
) -> Result<String, AllocError> {
    let mut text = String::from_str(alloc, "unset ")?;
    text.push_str(words(source, function.names.as_slice(), place.var as usize))?;
    for step in place.steps.as_slice() {
        push_step(alloc, &mut text, *step)?;
    }
    text.push_str(" at ")?;
    text.push_str(at(source, here))?;
    Ok(text)
}

fn again_text(
    alloc: Global,
    source: &str,
    here: Span,
    variable: Span,
) -> Result<String, AllocError> {
    let mut text = String::from_str(alloc, "again ")?;
    text.push_str(at(source, variable))?;
    text.push_str(" at ")?;
    text.push_str(at(source, here))?;
    Ok(text)
}

fn fault_text(
    alloc: Global,
    function: &TypedFn,
    source: &str,
    fault: InitFault,
) -> Result<String, AllocError> {
    match fault {
        InitFault::Unset { at, place } => unset_text(alloc, function, source, at, &place),
        InitFault::Again { at, var } => again_text(alloc, source, at, var),
        InitFault::OutOfMemory => String::from_str(alloc, "OutOfMemory"),
    }
}

/// A number in 32 bits, where it fits.
fn small(number: usize) -> u32 {
    if number < 4_294_967_296 {
        number as u32
    } else {
        0
    }
}

fn own(alloc: Global, variable: usize) -> Place {
    Place {
        root: Root::Variable(small(variable)),
        steps: List::new(alloc),
    }
}

/// Of each variable of the first function whether it may be set, and may be unset, at its last site.
fn set_text(
    alloc: Global,
    typed: &Typed,
    source: &str,
    graphs: &[Lowered],
    found: &ProgramFacts,
) -> Result<String, AllocError>
    requires graphs { AreGraphs typed.now graphs.now }
    requires facts { AreFacts typed.now found.now }
    requires some { 0 < length typed.now.functions }
{
    let function = &typed.functions.as_slice()[0];
    let frame = Frame {
        decls: &typed.decls,
        sizes: found.sizes.as_slice(),
        types: trimmed(function.variables.as_slice()),
    };
    let table = &found.functions.as_slice()[0].init;
    let site = graphs[0].graph.sites.len().saturating_sub(1);
    let mut text = String::new(alloc);
    for variable in 0..function.names.len() {
        let place = own(alloc, variable);
        text.push_str(words(source, function.names.as_slice(), variable))?;
        if table.may_be_set(&frame, &place, site) {
            text.push_str(" set")?;
        }
        if table.may_be_unset(&frame, &place, site) {
            text.push_str(" unset")?;
        }
        text.push_str(";")?;
    }
    Ok(text)
}

fn push_live(
    alloc: Global,
    function: &TypedFn,
    source: &str,
    table: &LiveTable,
    site: usize,
    text: &mut String,
) -> Result<(), AllocError>
    requires { IsIndex table.now.index }
{
    for variable in 0..function.names.len() {
        if table.is_live(Root::Variable(small(variable)), site) {
            text.push_str(" ")?;
            text.push_str(words(source, function.names.as_slice(), variable))?;
        }
    }
    for node in 0..function.spans.len() {
        for which in 0..3u32 {
            if table.is_live(Root::Temporary(Temporary { node, which }), site) {
                push_number(alloc, text, " t", node)?;
            }
        }
    }
    text.push_str(";")
}

/// What is live at each site of the first function.
fn live_text(
    alloc: Global,
    typed: &Typed,
    source: &str,
    graphs: &[Lowered],
    found: &ProgramFacts,
) -> Result<String, AllocError>
    requires graphs { AreGraphs typed.now graphs.now }
    requires facts { AreFacts typed.now found.now }
    requires some { 0 < length typed.now.functions }
{
    let function = &typed.functions.as_slice()[0];
    let table = &found.functions.as_slice()[0].live;
    let mut text = String::new(alloc);
    for site in 0..graphs[0].graph.sites.len() {
        push_live(alloc, function, source, table, site, &mut text)?;
    }
    Ok(text)
}

fn found_in(
    alloc: Global,
    typed: &Typed,
    source: &str,
    graphs: &[Lowered],
    found: &ProgramFacts,
    question: Question,
) -> Result<String, AllocError>
    requires graphs { AreGraphs typed.now graphs.now }
    requires facts { AreFacts typed.now found.now }
{
    if typed.functions.len() == 0 {
        return String::from_str(alloc, "no function");
    }
    match question {
        Question::Initialised => String::from_str(alloc, "initialised"),
        Question::Set => set_text(alloc, typed, source, graphs, found),
        Question::Live => live_text(alloc, typed, source, graphs, found),
    }
}

fn typed_text(
    alloc: Global,
    typed: &Typed,
    source: &str,
    question: Question,
) -> Result<String, AllocError>
    requires { IsTypedProgram typed.now }
{
    match lower_all(alloc, typed) {
        Ok(graphs) => match facts(alloc, typed, graphs.as_slice()) {
            Ok(found) => found_in(alloc, typed, source, graphs.as_slice(), &found, question),
            Err(fault) => match typed.functions.get(0) {
                Some(function) => fault_text(alloc, function, source, fault),
                None => String::from_str(alloc, "no function"),
            },
        },
        Err(_) => String::from_str(alloc, "no graph"),
    }
}

fn program_text(
    alloc: Global,
    program: &Program,
    source: &str,
    question: Question,
) -> Result<String, AllocError>
    requires { IsNumbered (plain-Program program.now) }
{
    match resolve(alloc, program) {
        Ok(names) => match typecheck(alloc, program, &names) {
            Ok(typed) => typed_text(alloc, &typed, source, question),
            Err(_) => String::from_str(alloc, "not typed"),
        },
        Err(_) => String::from_str(alloc, "not named"),
    }
}

/// What is found of the first function of a text; or that it isn't typed.
pub fn found_text(alloc: Global, text: &str, question: Question) -> Result<String, AllocError> {
    if text.len() > 1_048_576 {
        return String::from_str(alloc, "TooLong");
    }
    match parse(alloc, text.as_bytes()) {
        Ok(program) => {
            parsed_programs_are_numbered();
            let outcome = program_text(alloc, &program, text, question);
            program.let_go();
            outcome
        }
        Err(_) => String::from_str(alloc, "no program"),
    }
}

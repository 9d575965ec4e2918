//! The graph of a function as a text.

ghost use Rattle.rx_tree.specs.PlainOf.{plain-Program};
ghost use Rattle.rx_tree.specs.Size.{IsNumbered};

use rx_core::{LetGo, List, Step};
use rx_lower_order::flow_of;
use rx_lower_walks::{Act, Action, GraphFault, Made, Place, Root, Site, Temporary, graph};
use rx_parse::{parse, parsed_programs_are_numbered};
use rx_resolve::resolve;
use rx_tree::Program;
use rx_typeck::typecheck;
use rx_typeck_typed::Typed;
use rx_typed::{Making, TypedTree};
use std::alloc::{AllocError, Global};

/// The graph of a function: its order of actions as a flow, and the sites of that flow.
fn sites(alloc: Global, tree: &TypedTree) -> Result<List<Site>, GraphFault> {
    match flow_of(alloc, tree) {
        Ok(flow) => {
            let answer = graph(alloc, &flow);
            flow.let_go();
            answer
        }
        Err(_) => Err(GraphFault::OutOfMemory),
    }
}

fn push_number(
    alloc: Global,
    text: &mut String,
    mark: &str,
    number: usize,
) -> Result<(), AllocError> {
    let word = format!(in alloc; "{mark}{number}")?;
    text.push_str(word.as_str())
}

/// A temporary as `t3`, or `t3'`, `t3''` for the others of its node.
fn push_temporary(
    alloc: Global,
    text: &mut String,
    temporary: Temporary,
) -> Result<(), AllocError> {
    push_number(alloc, text, " t", temporary.node)?;
    for _other in 0..temporary.which {
        text.push_str("'")?;
    }
    Ok(())
}

fn push_step(alloc: Global, text: &mut String, step: Step) -> Result<(), AllocError> {
    match step {
        Step::Field(field) => push_number(alloc, text, ".", field as usize),
        Step::Variant(variant) => push_number(alloc, text, "#", variant as usize),
        Step::Deref(_) => text.push_str("*"),
    }
}

/// A place: a variable's number or a temporary, then its steps: `.0` a field, `#0` a variant's parts, `*` what is led to.
fn push_place(alloc: Global, text: &mut String, place: &Place) -> Result<(), AllocError> {
    match place.root {
        Root::Variable(variable) => push_number(alloc, text, " ", variable as usize)?,
        Root::Temporary(temporary) => push_temporary(alloc, text, temporary)?,
    }
    for step in place.steps.as_slice() {
        push_step(alloc, text, *step)?;
    }
    Ok(())
}

fn push_temporaries(alloc: Global, text: &mut String, all: &[Temporary]) -> Result<(), AllocError> {
    for temporary in all {
        push_temporary(alloc, text, *temporary)?;
    }
    Ok(())
}

fn push_variable(
    alloc: Global,
    text: &mut String,
    word: &str,
    variable: u32,
) -> Result<(), AllocError> {
    text.push_str(word)?;
    push_number(alloc, text, " ", variable as usize)
}

fn push_with_place(
    alloc: Global,
    text: &mut String,
    word: &str,
    place: &Place,
) -> Result<(), AllocError> {
    text.push_str(word)?;
    push_place(alloc, text, place)
}

fn push_write(
    alloc: Global,
    text: &mut String,
    place: &Place,
    from: Temporary,
    way: &[Step],
) -> Result<(), AllocError> {
    push_with_place(alloc, text, "write", place)?;
    push_temporary(alloc, text, from)?;
    for step in way {
        push_step(alloc, text, *step)?;
    }
    Ok(())
}

fn push_with(
    alloc: Global,
    text: &mut String,
    word: &str,
    operands: &[Temporary],
) -> Result<(), AllocError> {
    text.push_str(word)?;
    push_temporaries(alloc, text, operands)
}

/// What is made; a tuple of nothing is a mark, since no text has one.
fn push_built(
    alloc: Global,
    text: &mut String,
    made: Made,
    operands: &[Temporary],
) -> Result<(), AllocError> {
    match made {
        Made::Of(Making::Tuple) if operands.is_empty() => text.push_str("mark"),
        _ => push_with(alloc, text, "build", operands),
    }
}

/// An action: its word, its place, the temporaries that it uses.
fn push_act(alloc: Global, text: &mut String, act: &Act) -> Result<(), AllocError> {
    match act {
        Act::Declare(variable) => push_variable(alloc, text, "declare", *variable),
        Act::Dead(variable) => push_variable(alloc, text, "dead", *variable),
        Act::Read(false, place, _) => push_with_place(alloc, text, "read", place),
        Act::Read(true, place, _) => push_with_place(alloc, text, "move", place),
        Act::Write(place, from, way) => push_write(alloc, text, place, *from, way.as_slice()),
        Act::Borrow(false, place, _) => push_with_place(alloc, text, "share", place),
        Act::Borrow(true, place, _) => push_with_place(alloc, text, "borrow", place),
        Act::Test(place, _) => push_with_place(alloc, text, "test", place),
        Act::Call(_, operands, _) => push_with(alloc, text, "call", operands.as_slice()),
        Act::Build(made, _, operands, _) => push_built(alloc, text, *made, operands.as_slice()),
        Act::Input(_) => text.push_str("input"),
        Act::Print(operand) => push_with(alloc, text, "print", &[*operand]),
        Act::Give(operand) => push_with(alloc, text, "give", &[*operand]),
    }
}

/// An action with its node.
pub fn action_text(alloc: Global, action: &Action) -> Result<String, AllocError> {
    let mut text = format!(in alloc; "{}: ", action.node)?;
    push_act(alloc, &mut text, &action.act)?;
    text.push_str(";")?;
    Ok(text)
}

/// A site behind those before it.
fn push_site(alloc: Global, text: &mut String, site: &Site) -> Result<(), AllocError> {
    if !text.is_empty() {
        text.push_str(" ")?;
    }
    push_act(alloc, text, &site.action.act)?;
    text.push_str(" >")?;
    for next in site.next.as_slice() {
        push_number(alloc, text, " ", *next as usize)?;
    }
    text.push_str(";")
}

fn sites_text(alloc: Global, sites: &[Site]) -> Result<String, AllocError> {
    let mut text = String::new(alloc);
    for site in sites {
        push_site(alloc, &mut text, site)?;
    }
    Ok(text)
}

fn fault_text(alloc: Global, fault: GraphFault) -> Result<String, AllocError> {
    match fault {
        GraphFault::TooLarge(count) => format!(in alloc; "TooLarge {count}"),
        GraphFault::OutOfMemory => String::from_str(alloc, "OutOfMemory"),
    }
}

fn tree_text(alloc: Global, tree: &TypedTree) -> Result<String, AllocError> {
    match sites(alloc, tree) {
        Ok(found) => {
            let text = sites_text(alloc, found.as_slice());
            found.let_go();
            text
        }
        Err(fault) => fault_text(alloc, fault),
    }
}

/// What is said of a typed program.
fn program_text<F: Fn(Global, &Typed) -> Result<String, AllocError>>(
    alloc: Global,
    program: &Program,
    said: F,
) -> Result<String, AllocError>
    requires numbered { IsNumbered (plain-Program program.now) }
    requires callable { F.IsAlwaysCallable said }
{
    match resolve(alloc, program) {
        Ok(names) => match typecheck(alloc, program, &names) {
            Ok(typed) => said(alloc, &typed),
            Err(_) => String::from_str(alloc, "not typed"),
        },
        Err(_) => String::from_str(alloc, "not named"),
    }
}

/// What is said of the typed program of a text; or that it isn't typed.
pub fn typed_text<F: Fn(Global, &Typed) -> Result<String, AllocError>>(
    alloc: Global,
    text: &str,
    said: F,
) -> Result<String, AllocError>
    requires { F.IsAlwaysCallable said }
{
    if text.len() > 1_048_576 {
        return String::from_str(alloc, "TooLong");
    }
    match parse(alloc, text.as_bytes()) {
        Ok(program) => {
            parsed_programs_are_numbered();
            let outcome = program_text(alloc, &program, said);
            program.let_go();
            outcome
        }
        Err(_) => String::from_str(alloc, "no program"),
    }
}

fn first_graph(alloc: Global, typed: &Typed) -> Result<String, AllocError> {
    match typed.functions.get(0) {
        Some(function) => tree_text(alloc, &function.tree),
        None => String::from_str(alloc, "no function"),
    }
}

/// The sites of the first function of a text, each with those that may follow it; or that it isn't typed.
pub fn graph_text(alloc: Global, text: &str) -> Result<String, AllocError> {
    typed_text(alloc, text, first_graph)
}

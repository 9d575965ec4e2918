//! The missing pairs of a text's first function, as a text.

ghost use Rattle.std.specs.Prelude.{◌≤◌, length};
ghost use Rattle.rx_typed_declarations.specs.WellFormed.{WellFormed};
ghost use Rattle.rx_resolve_names.specs.Causes.{Meant};
ghost use Rattle.rx_tree.specs.PlainOf.{plain-Program};
ghost use Rattle.rx_tree.specs.Size.{IsNumbered};

use rx_core::{Bound, LetGo};
use rx_facts_tables::live;
use rx_lower::lower_typed;
use rx_lower_lifetimes::Graph;
use rx_parse::{parse, parsed_programs_are_numbered};
use rx_region::{Given, constraints, known_pairs, missing, solve};
use rx_region_outlives::implied_by_fields;
use rx_resolve::resolve;
use rx_resolve_names::Resolved;
use rx_tree::Program;
use rx_typeck::typecheck;
use rx_typeck_typed::{Typed, TypedFn};
use rx_typed::Decls;
use std::alloc::{AllocError, Global};

fn pair_text(alloc: Global, text: &mut String, pair: Bound) -> Result<(), AllocError> {
    let long = pair.long;
    let short = pair.short;
    let word = format!(in alloc; "{long} {short};")?;
    text.push_str(word.as_str())
}

fn pairs_text(alloc: Global, pairs: &[Bound]) -> Result<String, AllocError> {
    let mut text = String::new(alloc);
    for pair in pairs {
        pair_text(alloc, &mut text, *pair)?;
    }
    Ok(text)
}

/// The missing pairs of a graph with lifetimes.
fn graph_text(alloc: Global, decls: &Decls, graph: &Graph) -> Result<String, AllocError>
    requires well_formed { WellFormed decls.now.items }
    requires few { length graph.now.sites ≤ 16384 }
{
    let sites = graph.sites.as_slice();
    let implied = implied_by_fields(alloc, decls)?;
    let given = Given {
        decls,
        implied: &implied,
        lifetimes: &graph.lifetimes,
    };
    let live = live(alloc, sites)?;
    let outlives = constraints(alloc, &given, sites, &live)?;
    let regions = solve(alloc, &outlives)?;
    let known = known_pairs(alloc, &given)?;
    let pairs = missing(alloc, &regions, &known)?;
    pairs_text(alloc, pairs.as_slice())
}

fn function_text(alloc: Global, decls: &Decls, function: &TypedFn) -> Result<String, AllocError>
    requires { WellFormed decls.now.items }
{
    match lower_typed(alloc, decls, function) {
        Ok(graph) => {
            let text = graph_text(alloc, decls, &graph);
            graph.sites.let_go();
            graph.lifetimes.let_go();
            text
        }
        Err(_) => String::from_str(alloc, "no graph"),
    }
}

fn typed_text(alloc: Global, typed: &Typed) -> Result<String, AllocError>
    requires { WellFormed typed.now.decls.items }
{
    match typed.functions.get(0) {
        Some(function) => function_text(alloc, &typed.decls, function),
        None => String::from_str(alloc, "no function"),
    }
}

fn named_text(alloc: Global, program: &Program, names: &Resolved) -> Result<String, AllocError>
    requires numbered { IsNumbered (plain-Program program.now) }
    requires named { Meant (plain-Program program.now) names.now.items }
{
    match typecheck(alloc, program, names) {
        Ok(typed) => typed_text(alloc, &typed),
        Err(_) => String::from_str(alloc, "not typed"),
    }
}

fn program_text(alloc: Global, program: &Program) -> Result<String, AllocError>
    requires { IsNumbered (plain-Program program.now) }
{
    match resolve(alloc, program) {
        Ok(names) => named_text(alloc, program, &names),
        Err(_) => String::from_str(alloc, "not named"),
    }
}

/// The missing pairs of the first function of a text.
pub fn missing_text(alloc: Global, text: &str) -> Result<String, AllocError> {
    if text.len() > 1_048_576 {
        return String::from_str(alloc, "TooLong");
    }
    match parse(alloc, text.as_bytes()) {
        Ok(program) => {
            parsed_programs_are_numbered();
            let outcome = program_text(alloc, &program);
            program.let_go();
            outcome
        }
        Err(_) => String::from_str(alloc, "no program"),
    }
}

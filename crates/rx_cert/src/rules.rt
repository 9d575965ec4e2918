//! The rules, of one function after the other.

ghost use Rattle.std.specs.Prelude.{◌≡◌, ◌+◌, ◌≤◌, length, take, drop, IfOk};
ghost use Rattle.rx_region_outlives.specs.Implied.{pairs_of};
ghost use Rattle.rx_facts_tables.specs.LiveTables.{Lives};
ghost use Rattle.rx_facts.specs.Functions.{IsTypedProgram, sites_of};
ghost use Rattle.rx_facts.specs.Passing.{Each};
ghost use Rattle.rx_facts.specs.Answers.{IsGraphOf, AreGraphs, AreFacts};
ghost use Rattle.rx_cert_tables.specs.Fitting.{AllFit};
ghost use Rattle.rx_cert.specs.Parts as parts;
ghost use Rattle.rx_cert.specs.Shapes as shapes;

use crate::fault::VerifyFault;
use crate::fitting::{count, from, shape};
use rx_cert_lines::Line;
use rx_cert_rules::first_broken;
use rx_cert_tables::{Shape, rows};
use rx_facts::{FunctionFacts, Lowered, ProgramFacts};
use rx_region::Given;
use rx_region_outlives::{Implied, implied_by_fields};
use rx_typeck_typed::{Typed, TypedFn};
use rx_typed::Decls;
use std::alloc::{AllocError, Global};

/// So many lines from one on.
fn part(lines: &[Line], at: usize, count: usize) -> &[Line]
    requires { at + count ≤ length lines.now }
    ensures { result.now ≡ take count (drop at lines.now) }
{
    &lines[at..at + count]
}

/// The first rule that the sets of a function break, by its lines, which are those of its shape.
fn rule_of(
    alloc: Global,
    decls: &Decls,
    implied: &Implied,
    function: &TypedFn,
    lowered: &Lowered,
    facts: &FunctionFacts,
    lines: &[Line],
    shape: &Shape,
) -> Result<Option<u32>, AllocError>
    requires graph { IsGraphOf decls.now.items function.now lowered.now }
    requires live { Lives (sites_of function.now) facts.now.live }
    requires fit { AllFit (shapes.shape_of decls.now.items function.now) lines.now }
    requires shape { shape.now ≡ shapes.shape_of decls.now.items function.now }
    ensures { IfOk result (λ it. parts.JudgesOf decls.now.items (pairs_of implied.now.items) function.now lines.now it) }
{
    let graph = &lowered.graph;
    let sites = graph.sites.as_slice();
    let count = shape.lifetimes as usize;
    let sets = part(lines, 1, count);
    let regions = rows(alloc, sets, shape.sites, shape.own)?;
    let loans = part(lines, 1 + count, shape.borrows.len());
    let scopes = rows(alloc, loans, shape.sites, 0)?;
    let given = Given {
        decls,
        implied,
        lifetimes: &graph.lifetimes,
    };
    let region_rows = regions.as_slice();
    let scope_rows = scopes.as_slice();
    let found = first_broken(alloc, &given, sites, &facts.live, region_rows, scope_rows)?;
    Ok(found)
}

/// How many lines a function of a shape has, those from one on, where its sets keep the rules.
fn keeps_by(
    alloc: Global,
    decls: &Decls,
    implied: &Implied,
    function: &TypedFn,
    lowered: &Lowered,
    facts: &FunctionFacts,
    lines: &[Line],
    shape: &Shape,
) -> Result<usize, VerifyFault>
    requires few { length lines.now ≤ 16777216 }
    requires graph { IsGraphOf decls.now.items function.now lowered.now }
    requires live { Lives (sites_of function.now) facts.now.live }
    requires fit { AllFit (shapes.shape_of decls.now.items function.now) lines.now }
    requires shape { shape.now ≡ shapes.shape_of decls.now.items function.now }
    ensures { parts.KeepsOne decls.now.items (pairs_of implied.now.items) function.now lines.now result }
{
    match rule_of(
        alloc, decls, implied, function, lowered, facts, lines, shape,
    ) {
        Ok(Some(rule)) => Err(VerifyFault::Rule {
            function: function.item,
            rule,
        }),
        Ok(None) => Ok(count(shape, lines)),
        Err(_) => Err(VerifyFault::OutOfMemory),
    }
}

/// How many lines a function has, those from one on, where its sets keep the rules.
fn keeps_one(
    alloc: Global,
    decls: &Decls,
    implied: &Implied,
    function: &TypedFn,
    lowered: &Lowered,
    facts: &FunctionFacts,
    lines: &[Line],
) -> Result<usize, VerifyFault>
    requires few { length lines.now ≤ 16777216 }
    requires graph { IsGraphOf decls.now.items function.now lowered.now }
    requires live { Lives (sites_of function.now) facts.now.live }
    requires fit { AllFit (shapes.shape_of decls.now.items function.now) lines.now }
    ensures { parts.KeepsOne decls.now.items (pairs_of implied.now.items) function.now lines.now result }
{
    match shape(alloc, function, lowered) {
        Ok(shape) => keeps_by(
            alloc, decls, implied, function, lowered, facts, lines, &shape,
        ),
        Err(_) => Err(VerifyFault::OutOfMemory),
    }
}

/// Whether the sets of each function keep the rules, by the pairs that fields ask.
fn keeps_each(
    alloc: Global,
    decls: &Decls,
    implied: &Implied,
    functions: &[TypedFn],
    graphs: &[Lowered],
    facts: &[FunctionFacts],
    lines: &[Line],
) -> Result<(), VerifyFault>
    requires few { length lines.now ≤ 16777216 }
    requires graphs { Each (IsGraphOf decls.now.items) functions.now graphs.now }
    requires live { Each (λ f x. Lives (sites_of f) x.live) functions.now facts.now }
    requires fit { shapes.AreLinesOf decls.now.items functions.now lines.now }
    ensures { parts.KeepsEach decls.now.items (pairs_of implied.now.items) functions.now lines.now result }
{
    let mut at = 0;
    for i in 0..functions.len() {
        at = match keeps_one(
            alloc,
            decls,
            implied,
            &functions[i],
            &graphs[i],
            &facts[i],
            from(lines, at),
        ) {
            Ok(count) => at + count,
            Err(fault) => return Err(fault),
        };
    }
    Ok(())
}

/// Whether the sets of all functions keep the rules, where the lines are those of the functions.
///
/// # Errors
///
/// The first function whose sets break a rule, and the first such rule; or memory runs out.
pub(crate) fn keep_rules(
    alloc: Global,
    typed: &Typed,
    graphs: &[Lowered],
    facts: &ProgramFacts,
    lines: &[Line],
) -> Result<(), VerifyFault>
    requires few { length lines.now ≤ 16777216 }
    requires typed { IsTypedProgram typed.now }
    requires graphs { AreGraphs typed.now graphs.now }
    requires facts { AreFacts typed.now facts.now }
    requires fit { shapes.Fitting typed.now lines.now }
    ensures { parts.KeepsAll typed.now lines.now result }
{
    match implied_by_fields(alloc, &typed.decls) {
        Ok(implied) => keeps_each(
            alloc,
            &typed.decls,
            &implied,
            typed.functions.as_slice(),
            graphs,
            facts.functions.as_slice(),
            lines,
        ),
        Err(_) => Err(VerifyFault::OutOfMemory),
    }
}

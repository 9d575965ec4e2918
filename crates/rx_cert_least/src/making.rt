//! The lines of functions, with their least sets.

ghost use Rattle.std.specs.Prelude.{◌≤◌, length, map, IfOk, OnOk};
ghost use Rattle.rx_lower_walks.specs.PlainSite.{plain-Site};
ghost use Rattle.rx_region_outlives.specs.Implied.{pairs_of};
ghost use Rattle.rx_facts_tables.specs.LiveTables.{IsIndex, Lives};
ghost use Rattle.rx_region.specs.PlainContext.{plain-Given};
ghost use Rattle.rx_facts.specs.Functions.{sites_of};
ghost use Rattle.rx_facts.specs.Passing.{Each};
ghost use Rattle.rx_facts.specs.Answers.{IsGraphOf};
ghost use Rattle.rx_cert_least.specs.Making as spec;

use rx_cert::shape;
use rx_cert_sets::push_sets;
use rx_core::Text;
use rx_facts::{FunctionFacts, Lowered};
use rx_facts_tables::LiveTable;
use rx_loan::{LoanTable, loans};
use rx_lower_walks::Site;
use rx_region::{Given, Regions, constraints, solve};
use rx_region_outlives::Implied;
use rx_typeck_typed::TypedFn;
use rx_typed::Decls;
use std::alloc::{AllocError, Global};

/// The least sets of a function, and its loans.
fn least(
    alloc: Global,
    given: &Given<'_>,
    sites: &[Site],
    live: &LiveTable,
) -> Result<(Regions, LoanTable), AllocError>
    requires few { length sites.now ≤ 16384 }
    requires index { IsIndex live.now.index }
    ensures { IfOk result (λ it. Lives (map plain-Site sites.now) live.now → spec.AreLeastOf (plain-Given given.now) (map plain-Site sites.now) it.0 it.1) }
{
    let outlives = constraints(alloc, given, sites, live)?;
    let regions = solve(alloc, &outlives)?;
    let table = loans(
        alloc,
        sites,
        given.lifetimes.owned.as_slice(),
        regions.rows(),
    )?;
    Ok((regions, table))
}

/// Adds the lines of a function.
fn push_one(
    alloc: Global,
    text: &mut Text,
    decls: &Decls,
    implied: &Implied,
    function: &TypedFn,
    lowered: &Lowered,
    facts: &FunctionFacts,
) -> Result<(), AllocError>
    requires graph { IsGraphOf decls.now.items function.now lowered.now }
    requires live { Lives (sites_of function.now) facts.now.live }
    ensures { OnOk result (spec.AddsOne decls.now.items (pairs_of implied.now.items) function.now text.old text.new) }
{
    let given = Given {
        decls,
        implied,
        lifetimes: &lowered.graph.lifetimes,
    };
    let sites = lowered.graph.sites.as_slice();
    let shape = shape(alloc, function, lowered)?;
    let found = least(alloc, &given, sites, &facts.live)?;
    push_sets(alloc, text, &shape, &found.0, &found.1)?;
    Ok(())
}

/// Adds the lines of all functions.
pub(crate) fn push_all(
    alloc: Global,
    text: &mut Text,
    decls: &Decls,
    implied: &Implied,
    functions: &[TypedFn],
    graphs: &[Lowered],
    facts: &[FunctionFacts],
) -> Result<(), AllocError>
    requires graphs { Each (IsGraphOf decls.now.items) functions.now graphs.now }
    requires live { Each (λ f x. Lives (sites_of f) x.live) functions.now facts.now }
    ensures { OnOk result (spec.AddsAll decls.now.items (pairs_of implied.now.items) functions.now text.old text.new) }
{
    for i in 0..functions.len() {
        push_one(
            alloc,
            text,
            decls,
            implied,
            &functions[i],
            &graphs[i],
            &facts[i],
        )?;
    }
    Ok(())
}

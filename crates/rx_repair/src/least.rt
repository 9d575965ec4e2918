//! The pairs of its own lifetimes that a function lacks.

ghost use Rattle.std.specs.Prelude.{◌≡◌, ◌≤◌, length, map, IfOk, Some as SomeOf};
ghost use Rattle.std.specs.Option.{IsSome};
ghost use Rattle.rx_lower_walks.specs.PlainSite.{plain-Site};
ghost use Rattle.rx_facts_tables.specs.LiveTables.{IsIndex, Lives};
ghost use Rattle.rx_region.specs.PlainContext.{plain-Given};
ghost use Rattle.rx_lower.specs.Functions.{function_at};
ghost use Rattle.rx_typeck_typed.specs.declared.typed.TypedFn.{TypedFn as FnOf};
ghost use Rattle.rx_repair.specs.Lacking.{AreMissing, Lacks, Needs};

use crate::least_bounds_are_missing;
use rx_check::FrontEnd;
use rx_core::{Bound, List};
use rx_facts_tables::LiveTable;
use rx_lower_walks::Site;
use rx_region::{Given, constraints, known_pairs, missing, solve};
use rx_region_outlives::implied_by_fields;
use std::alloc::{AllocError, Global};

/// The pairs of a function's own lifetimes that are missing, by its sites and what is live there.
fn missing_pairs(
    alloc: Global,
    given: &Given<'_>,
    sites: &[Site],
    live: &LiveTable,
) -> Result<List<Bound>, AllocError>
    requires few { length sites.now ≤ 16384 }
    requires index { IsIndex live.now.index }
    ensures { IfOk result (λ pairs. Lives (map plain-Site sites.now) live.now → AreMissing (plain-Given given.now) (map plain-Site sites.now) pairs) }
{
    least_bounds_are_missing();
    let outlives = constraints(alloc, given, sites, live)?;
    let regions = solve(alloc, &outlives)?;
    let known = known_pairs(alloc, given)?;
    let pairs = missing(alloc, &regions, &known)?;
    Ok(pairs)
}

/// The pairs of its own lifetimes that the function of an item lacks: those of which the least set of `long` has the end of `short`
/// without its being known that `long` outlives `short`, by `long` and then by `short`. Of a function that declares no bounds they
/// are its least bounds: those with which it is accepted if with any.
///
/// # Errors
///
/// Memory runs out.
pub fn least_bounds(
    alloc: Global,
    front: &FrontEnd,
    function: u32,
) -> Result<List<Bound>, AllocError>
    requires { IsSome (function_at front.now.typed.functions function) }
    ensures lacks { IfOk result (λ bounds. (f : FnOf) → function_at front.now.typed.functions function ≡ SomeOf f → Lacks front.now.typed.decls.items f bounds) }
    ensures needs { IfOk result (λ bounds. (f : FnOf) → function_at front.now.typed.functions function ≡ SomeOf f → Needs front.now.typed.decls.items f bounds) }
{
    least_bounds_are_missing();
    let typed = front.typed();
    let implied = implied_by_fields(alloc, &typed.decls)?;
    let graph = front.graph(function);
    let given = Given {
        decls: &typed.decls,
        implied: &implied,
        lifetimes: &graph.lifetimes,
    };
    let pairs = missing_pairs(alloc, &given, graph.sites.as_slice(), front.live(function))?;
    Ok(pairs)
}

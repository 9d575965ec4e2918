//! The least sets of points of all functions.

ghost use Rattle.std.specs.Prelude.{◌≡◌, ◌++◌, ◌∷◌, [], IfOk, IfErr};
ghost use Rattle.rx_region_outlives.specs.Implied.{pairs_of};
ghost use Rattle.rx_facts_tables.specs.LiveTables.{Lives};
ghost use Rattle.rx_facts.specs.Functions.{IsTypedProgram, sites_of};
ghost use Rattle.rx_facts.specs.Passing.{Each};
ghost use Rattle.rx_facts.specs.Answers.{IsGraphOf, AreGraphs, AreFacts};
ghost use Rattle.rx_check.specs.Functions.{LacksPair, AreRegionsOf};
ghost use Rattle.rx_check.specs.Answers.{FunctionRegionsAnswer, EachRegions, RegionsAnswer};
ghost use Rattle.rx_check.specs.declared.regions.FunctionRegions.{FunctionRegions as RegionsOf};

use rx_core::{LetGo, List, keep, pushed};
use rx_facts::{FunctionFacts, Lowered, ProgramFacts};
use rx_region::{Given, RegionFault as PairFault, Regions, check_regions};
use rx_region_outlives::{Implied, implied_by_fields};
use rx_typeck_typed::{Typed, TypedFn};
use rx_typed::Decls;
use std::alloc::Global;

/// The least sets of points of a function's lifetimes.
#[derive(Drop)]
pub struct FunctionRegions {
    pub regions: Regions,
}

/// Why the lifetimes of a program are refused.
#[derive(Drop)]
pub enum RegionFault {
    /// In the function of this item the least set of `long` has the end of `short`, and it is not known that this outlives that.
    Missing {
        function: u32,
        long: u32,
        short: u32,
    },
    OutOfMemory,
}

impl LetGo for FunctionRegions {
    fn let_go(self) {
        let _gone = self;
    }
}

/// The least sets of a function.
fn function_regions(
    alloc: Global,
    decls: &Decls,
    implied: &Implied,
    function: &TypedFn,
    lowered: &Lowered,
    facts: &FunctionFacts,
) -> Result<FunctionRegions, RegionFault>
    requires graph { IsGraphOf decls.now.items function.now lowered.now }
    requires live { Lives (sites_of function.now) facts.now.live }
    ensures { FunctionRegionsAnswer decls.now.items (pairs_of implied.now.items) function.now result }
{
    let given = Given {
        decls,
        implied,
        lifetimes: &lowered.graph.lifetimes,
    };
    match check_regions(alloc, &given, lowered.graph.sites.as_slice(), &facts.live) {
        Ok(regions) => Ok(FunctionRegions { regions }),
        Err(PairFault::Missing { long, short }) => Err(RegionFault::Missing {
            function: function.item,
            long,
            short,
        }),
        Err(PairFault::OutOfMemory) => Err(RegionFault::OutOfMemory),
    }
}

/// The least sets of a function, behind those of others.
fn with_next(
    alloc: Global,
    decls: &Decls,
    implied: &Implied,
    function: &TypedFn,
    lowered: &Lowered,
    facts: &FunctionFacts,
    all: List<FunctionRegions>,
) -> Result<List<FunctionRegions>, RegionFault>
    requires graph { IsGraphOf decls.now.items function.now lowered.now }
    requires live { Lives (sites_of function.now) facts.now.live }
    ensures more { IfOk result (λ new. (x : RegionsOf) × (new ≡ all ++ x ∷ []) × AreRegionsOf decls.now.items (pairs_of implied.now.items) function.now x) }
    ensures refused { IfErr result (λ e. LacksPair decls.now.items (pairs_of implied.now.items) e function.now) }
{
    let outcome = function_regions(alloc, decls, implied, function, lowered, facts);
    let (regions, all) = keep(all, outcome)?;
    match pushed(all, regions) {
        Ok(all) => Ok(all),
        Err(_) => Err(RegionFault::OutOfMemory),
    }
}

/// The least sets of each function, by the pairs that fields ask.
fn each(
    alloc: Global,
    decls: &Decls,
    implied: &Implied,
    functions: &[TypedFn],
    graphs: &[Lowered],
    facts: &[FunctionFacts],
) -> Result<List<FunctionRegions>, RegionFault>
    requires graphs { Each (IsGraphOf decls.now.items) functions.now graphs.now }
    requires live { Each (λ f x. Lives (sites_of f) x.live) functions.now facts.now }
    ensures { EachRegions decls.now.items (pairs_of implied.now.items) functions.now result }
{
    let mut all = List::new(alloc);
    for i in 0..functions.len() {
        all = match with_next(
            alloc,
            decls,
            implied,
            &functions[i],
            &graphs[i],
            &facts[i],
            all,
        ) {
            Ok(more) => more,
            Err(fault) => return Err(fault),
        };
    }
    Ok(all)
}

/// The least sets of all functions, by their graphs and by what is live in them, where none lacks a pair (RFC 2094, "Solving
/// constraints", "Named lifetimes").
///
/// # Errors
///
/// The first function that lacks a pair, and its first pair, by the longer lifetime and then by the shorter; or memory runs out.
pub fn all_regions(
    alloc: Global,
    typed: &Typed,
    graphs: &[Lowered],
    facts: &ProgramFacts,
) -> Result<List<FunctionRegions>, RegionFault>
    requires typed { IsTypedProgram typed.now }
    requires graphs { AreGraphs typed.now graphs.now }
    requires facts { AreFacts typed.now facts.now }
    ensures { RegionsAnswer typed.now result }
{
    match implied_by_fields(alloc, &typed.decls) {
        Ok(implied) => each(
            alloc,
            &typed.decls,
            &implied,
            typed.functions.as_slice(),
            graphs,
            facts.functions.as_slice(),
        ),
        Err(_) => Err(RegionFault::OutOfMemory),
    }
}

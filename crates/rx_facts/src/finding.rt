//! What is live, and what may be set and unset, in all functions.

ghost use Rattle.std.specs.Prelude.{◌≡◌, ◌≢◌, ◌++◌, ◌∷◌, [], IfOk, IfErr};
ghost use Rattle.rx_typed.specs.PlainTypes.{declarations};
ghost use Rattle.rx_typed_declarations.specs.Sizes.{Sized, told};
ghost use Rattle.rx_facts.specs.declared.finding.FunctionFacts.{FunctionFacts as FactsOf};
ghost use Rattle.rx_facts.specs.Functions.{IsTypedProgram, IsUninitialised};
ghost use Rattle.rx_facts.specs.Passing.{Each};
ghost use Rattle.rx_facts.specs.Answers.{IsGraphOf, AreGraphs, AreFactsOf, FunctionAnswers, EachAnswers, FactsAnswer};

use crate::fault::{InitFault, placed};
use crate::lowering::Lowered;
use rx_core::{LetGo, List, keep, pushed};
use rx_facts_tables::{Frame, InitTable, LiveTable, init, live};
use rx_lower::trimmed;
use rx_typeck_typed::{Typed, TypedFn, typed_declarations_are_finite, typed_sizes_are_sized};
use rx_typed::Decls;
use rx_typed_declarations::sizes;
use std::alloc::Global;

/// What is live in a function at each site, and what may be set and unset where a walk comes there.
#[derive(Drop)]
pub struct FunctionFacts {
    pub live: LiveTable,
    pub init: InitTable,
}

/// What is found of all functions, in order.
#[derive(Drop)]
pub struct ProgramFacts {
    /// How many parts each struct and enum has, by its item's number.
    pub sizes: List<u64>,
    pub functions: List<FunctionFacts>,
}

impl LetGo for FunctionFacts {
    fn let_go(self) {
        let _gone = self;
    }
}

/// What is found of a function.
fn function_facts(
    alloc: Global,
    decls: &Decls,
    sizes: &[u64],
    function: &TypedFn,
    lowered: &Lowered,
) -> Result<FunctionFacts, InitFault>
    requires sized { Sized (declarations decls.now.items) (told sizes.now) }
    requires lowered { IsGraphOf decls.now.items function.now lowered.now }
    ensures { FunctionAnswers (declarations decls.now.items) (told sizes.now) function.now result }
{
    let frame = Frame {
        decls,
        sizes,
        types: trimmed(function.variables.as_slice()),
    };
    let sites = lowered.graph.sites.as_slice();
    match init(alloc, &frame, function.mutable.as_slice(), sites) {
        Ok(init) => match live(alloc, sites) {
            Ok(live) => Ok(FunctionFacts { live, init }),
            Err(_) => Err(InitFault::OutOfMemory),
        },
        Err(fault) => Err(placed(fault, function)),
    }
}

/// What is found of a function, behind that of others.
fn with_next(
    alloc: Global,
    decls: &Decls,
    sizes: &[u64],
    function: &TypedFn,
    lowered: &Lowered,
    all: List<FunctionFacts>,
) -> Result<List<FunctionFacts>, InitFault>
    requires sized { Sized (declarations decls.now.items) (told sizes.now) }
    requires lowered { IsGraphOf decls.now.items function.now lowered.now }
    ensures more { IfOk result (λ new. (x : FactsOf) × (new ≡ all ++ x ∷ []) × AreFactsOf (declarations decls.now.items) (told sizes.now) function.now x) }
    ensures refused { IfErr result (λ e. IsUninitialised (declarations decls.now.items) (told sizes.now) e function.now) }
{
    let outcome = function_facts(alloc, decls, sizes, function, lowered);
    let (facts, all) = keep(all, outcome)?;
    match pushed(all, facts) {
        Ok(all) => Ok(all),
        Err(_) => Err(InitFault::OutOfMemory),
    }
}

/// What is found of each function, by the sizes of structs and enums.
fn each(
    alloc: Global,
    decls: &Decls,
    sizes: &[u64],
    functions: &[TypedFn],
    graphs: &[Lowered],
) -> Result<List<FunctionFacts>, InitFault>
    requires sized { Sized (declarations decls.now.items) (told sizes.now) }
    requires graphs { Each (IsGraphOf decls.now.items) functions.now graphs.now }
    ensures { EachAnswers (declarations decls.now.items) (told sizes.now) functions.now result }
{
    let mut all = List::new(alloc);
    for i in 0..functions.len() {
        all = match with_next(alloc, decls, sizes, &functions[i], &graphs[i], all) {
            Ok(more) => more,
            Err(fault) => return Err(fault),
        };
    }
    Ok(all)
}

/// What is found of the functions of a typed program, by the sizes of its structs and enums.
fn all_found(
    alloc: Global,
    typed: &Typed,
    sizes: List<u64>,
    graphs: &[Lowered],
) -> Result<ProgramFacts, InitFault>
    requires sized { Sized (declarations typed.now.decls.items) (told sizes) }
    requires graphs { AreGraphs typed.now graphs.now }
    ensures { FactsAnswer typed.now result }
{
    let functions = typed.functions.as_slice();
    match each(alloc, &typed.decls, sizes.as_slice(), functions, graphs) {
        Ok(functions) => Ok(ProgramFacts { sizes, functions }),
        Err(fault) => Err(fault),
    }
}

/// What is found of all functions, by their graphs, where each is initialised.
///
/// # Errors
///
/// What is wrong with the first function that is not initialised; or memory runs out, also where the variables of a function have
/// more than 2^32 - 1 parts.
pub fn facts(alloc: Global, typed: &Typed, graphs: &[Lowered]) -> Result<ProgramFacts, InitFault>
    requires typed { IsTypedProgram typed.now }
    requires graphs { AreGraphs typed.now graphs.now }
    ensures { FactsAnswer typed.now result }
{
    typed_declarations_are_finite();
    typed_sizes_are_sized();
    match sizes(alloc, &typed.decls) {
        Ok(sizes) => all_found(alloc, typed, sizes, graphs),
        Err(_) => Err(InitFault::OutOfMemory),
    }
}

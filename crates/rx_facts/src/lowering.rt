//! The graphs of all functions.

ghost use Rattle.std.specs.Prelude.{◌≡◌, ◌≢◌, ◌++◌, ◌∷◌, [], IfOk, IfErr};
ghost use Rattle.rx_lower_lifetimes.specs.declared.whole.LowerFault.TheVariants as fault;
ghost use Rattle.rx_facts.specs.Functions.{IsLarge};
ghost use Rattle.rx_facts.specs.Answers.{IsGraphOf, EachLowered, LowerAnswers};

use rx_core::{LetGo, List, keep, pushed};
use rx_lower::lower_typed;
use rx_lower_lifetimes::{Graph, LowerFault};
use rx_typeck_typed::{Typed, TypedFn};
use rx_typed::Decls;
use std::alloc::Global;

/// The graph of a function, with its lifetimes.
#[derive(Drop)]
pub struct Lowered {
    pub graph: Graph,
}

impl LetGo for Lowered {
    fn let_go(self) {
        let _gone = self;
    }
}

/// The graph of a function behind those of others.
fn with_next(
    alloc: Global,
    decls: &Decls,
    function: &TypedFn,
    all: List<Lowered>,
) -> Result<List<Lowered>, LowerFault>
    ensures more { IfOk result (λ new. (g : Lowered) × (new ≡ all ++ g ∷ []) × IsGraphOf decls.now.items function.now g) }
    ensures large { IfErr result (λ e. IsLarge decls.now.items e function.now) }
{
    let (graph, all) = keep(all, lower_typed(alloc, decls, function))?;
    match pushed(all, Lowered { graph }) {
        Ok(all) => Ok(all),
        Err(_) => Err(LowerFault::OutOfMemory),
    }
}

/// The graphs of functions.
fn lower_each(
    alloc: Global,
    decls: &Decls,
    functions: &[TypedFn],
) -> Result<List<Lowered>, LowerFault>
    ensures { EachLowered decls.now.items functions.now result }
{
    let mut all = List::new(alloc);
    for function in functions {
        all = match with_next(alloc, decls, function, all) {
            Ok(more) => more,
            Err(fault) => return Err(fault),
        };
    }
    Ok(all)
}

/// The graphs of all functions, in order, each with its lifetimes.
///
/// # Errors
///
/// The first function with over 16,384 sites or over 65,536 lifetime positions, and both numbers; or memory runs out.
pub fn lower_all(alloc: Global, typed: &Typed) -> Result<List<Lowered>, LowerFault>
    ensures { LowerAnswers typed.now result }
{
    lower_each(alloc, &typed.decls, typed.functions.as_slice())
}

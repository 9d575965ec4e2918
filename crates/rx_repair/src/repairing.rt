//! A program with the least bounds of a new function.

ghost use Rattle.std.specs.Prelude.{◌≡◌, IfOk, Some as SomeOf};
ghost use Rattle.std.specs.Option.{IsSome};
ghost use Rattle.rx_tree.specs.PlainOf.{plain-Program};
ghost use Rattle.rx_lower.specs.Functions.{function_at};
ghost use Rattle.rx_typeck_typed.specs.declared.typed.TypedFn.{TypedFn as FnOf};
ghost use Rattle.rx_repair.specs.Lacking.{Lacks, Needs};
ghost use Rattle.rx_repair.specs.Repaired as spec;

use crate::bounding::repaired;
use crate::least::least_bounds;
use rx_check::FrontEnd;
use rx_core::{Bound, List, keep};
use rx_tree::Program;
use std::alloc::{AllocError, Global};

/// A program whose new function has its least bounds, and these: pairs of its lifetimes by their numbers in its list, by `long` and
/// then by `short`.
#[derive(Drop)]
pub struct Repaired {
    pub program: Program,
    pub bounds: List<Bound>,
}

/// The program with the least bounds of the function of item `new_fn` in its list of lifetimes, by what the passes know of that
/// program. The function is to declare no bounds, and to leave no lifetime of its parameters out.
///
/// # Errors
///
/// Memory runs out.
pub fn repair(
    alloc: Global,
    program: Program,
    new_fn: u32,
    front: &FrontEnd,
) -> Result<Repaired, AllocError>
    requires { IsSome (function_at front.now.typed.functions new_fn) }
    // The bounds are the pairs that the function lacks, its least bounds where it declares none.
    ensures lacks { IfOk result (λ r. (f : FnOf) → function_at front.now.typed.functions new_fn ≡ SomeOf f → Lacks front.now.typed.decls.items f r.bounds) }
    ensures needs { IfOk result (λ r. (f : FnOf) → function_at front.now.typed.functions new_fn ≡ SomeOf f → Needs front.now.typed.decls.items f r.bounds) }
    // The program has them, and all else is as it was, spans too.
    ensures program { IfOk result (λ r. plain-Program r.program ≡ spec.repaired (plain-Program program) new_fn r.bounds) }
{
    let (bounds, program) = keep(program, least_bounds(alloc, front, new_fn))?;
    let outcome = repaired(alloc, program, new_fn as usize, bounds.as_slice());
    let (program, bounds) = keep(bounds, outcome)?;
    Ok(Repaired { program, bounds })
}

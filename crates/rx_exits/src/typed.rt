//! The points of a run of a function of a typed program.

ghost use Rattle.std.specs.Prelude.{◌≡◌, IfOk};
ghost use Rattle.rx_typed.specs.PlainTypes.{declarations};
ghost use Rattle.rx_typed_declarations.specs.Sizes.{Sized, told};
ghost use Rattle.rx_exits_plan.specs.Runs.{Home};
ghost use Rattle.rx_exits.specs.AskedOf.{asked_of};
ghost use Rattle.rx_exits.specs.Points as spec;

use crate::run_points::{RunPoints, points_in};
use rx_exits_plan::Run;
use rx_facts_tables::Frame;
use rx_lower::trimmed;
use rx_typeck_typed::TypedFn;
use rx_typed::Decls;
use std::alloc::{AllocError, Global};

/// What is known where walks come to the points of a run of a function: by what is declared, how many parts each struct and enum
/// has, and the loops around the run, the innermost first.
///
/// # Errors
///
/// Memory runs out; also where all variables have more than 2^32 - 1 parts, or the function with marks has so many sites.
pub fn points<'t>(
    alloc: Global,
    decls: &'t Decls,
    sizes: &'t [u64],
    typed: &'t TypedFn,
    run: Run,
    loops: &[u32],
) -> Result<RunPoints<'t>, AllocError>
    requires { Sized (declarations decls.now.items) (told sizes.now) }
    ensures ready { IfOk result spec.IsReady }
    ensures points { IfOk result (λ p. (h : Home) → h.around.loops ≡ loops.now
        → spec.IsPoints (asked_of (declarations decls.now.items) (told sizes.now) typed.now run h) p) }
{
    let frame = Frame {
        decls,
        sizes,
        types: trimmed(typed.variables.as_slice()),
    };
    points_in(alloc, frame, &typed.tree, run, loops)
}

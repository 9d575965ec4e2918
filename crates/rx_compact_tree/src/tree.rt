//! A program with a short signature of one function.

ghost use Rattle.std.specs.Prelude.{List, IfOk};
ghost use Rattle.rx_tree.specs.PlainOf.{plain-Program};
ghost use Rattle.rx_tree.specs.Size.{IsNumbered};
ghost use Rattle.rx_resolve_names.specs.declared.resolved.ItemNames.{ItemNames};
ghost use Rattle.rx_resolve_names.specs.Causes.{Meant};
ghost use Rattle.rx_typed_declarations.specs.WellFormed.{WellFormed};
ghost use Rattle.rx_typeck_typed.specs.Typing.{IsTyped};
ghost use Rattle.rx_check.specs.Passes.{Fronted};
ghost use Rattle.rx_compact.specs.Compacted.{IsCompacted};

use rx_check::front;
use rx_compact_functions::compacted_program;
use rx_compact_known::{is_single, known_lifetimes};
use rx_tree::Program;
use rx_typeck_typed::Typed;
use std::alloc::{AllocError, Global};

/// The program with a short signature of the function of an item, by its types.
///
/// # Errors
///
/// Memory runs out.
pub fn compacted_by(
    alloc: Global,
    typed: &Typed,
    program: &Program,
    function: u32,
) -> Result<Program, AllocError>
    requires { WellFormed typed.now.decls.items }
    ensures { IfOk result (λ it. (names : List ItemNames) → Meant (plain-Program program.now) names → IsTyped (plain-Program program.now) names typed.now
        → IsCompacted (plain-Program program.now) function (plain-Program it)) }
{
    let known = known_lifetimes(alloc, &typed.decls, function)?;
    let single = is_single(alloc, &typed.decls, function)?;
    compacted_program(alloc, &known, single, program, function)
}

/// The program with a short signature of the function of an item, where the passes up to initialisation accept it: lifetimes that are
/// known to outlive each other are one, and those that elision tells are left out (Rust Reference, "Lifetime bounds", "Lifetime elision
/// in functions"). All else stays, spans too. Of an item that is no function all stays.
///
/// # Errors
///
/// Memory runs out.
pub fn compact_tree(alloc: Global, program: &Program, function: u32) -> Result<Program, AllocError>
    requires numbered { IsNumbered (plain-Program program.now) }
    requires accepted { Fronted (plain-Program program.now) }
    ensures { IfOk result (λ it. IsCompacted (plain-Program program.now) function (plain-Program it)) }
{
    match front(alloc, program) {
        Ok(front) => compacted_by(alloc, front.typed(), program, function),
        // No other fault is answered, as the program is accepted.
        Err(_) => Err(AllocError),
    }
}

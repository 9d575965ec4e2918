//! How deep an extraction is: its text, and the types that are made.

ghost use Rattle.std.specs.Prelude.{◌≡◌, ◌≢◌, [], None as NoneOf, IfOk};
ghost use Rattle.rx_tree.specs.PlainOf.{plain-Program};
ghost use Rattle.rx_lex.specs.Tok.{toks};
ghost use Rattle.rx_parse.specs.declared.fault.SyntaxFault.TheVariants as faults;
ghost use Rattle.rx_hoist_plan.specs.PlainPlan.{plain-Plan};
ghost use Rattle.rx_engine_extraction.specs.Levels as spec;
ghost use Rattle.rx_engine_extraction.specs.Made.{run_of};
ghost use Rattle.rx_engine_extraction.specs.Splicing.{IsIn, IsMadeOf};

use crate::given::Given;
use crate::rendering::{not_read, own_bytes};
use rx_core::LetGo;
use rx_hoist::levels_past;
use rx_hoist_plan::NamedPlan;
use rx_parse::{SyntaxFault, levels};
use rx_tree::Program;
use rx_typed_runs::RunPos;
use std::alloc::{AllocError, Global};

/// The most levels of a text.
const MOST_LEVELS: u32 = 128;

/// A text with a fault has no number of levels that is counted, unless memory ran out.
fn not_counted(fault: SyntaxFault) -> Result<Option<u32>, AllocError>
    ensures { IfOk result (λ o. (o ≡ NoneOf) × (fault ≢ faults.OutOfMemory)) }
{
    match not_read(fault) {
        Ok(_) => Ok(None),
        Err(AllocError) => Err(AllocError),
    }
}

/// The levels of a text of at most 1,024.
fn counted(alloc: Global, text: &str) -> Result<Option<u32>, AllocError>
    ensures { IfOk result (spec.IsCounted text.now) }
{
    match levels(alloc, text.as_bytes()) {
        Ok(count) => Ok(Some(count)),
        Err(fault) => not_counted(fault),
    }
}

/// The levels of the text of an extraction without bounds, where it has one of at most 1,024 levels.
fn text_levels(
    alloc: Global,
    given: &Given<'_, '_>,
    run: &RunPos,
    plan: &NamedPlan,
    program: &Program,
    new_fn: u32,
) -> Result<Option<u32>, AllocError>
    requires there { IsIn given.now run.now }
    requires made { IsMadeOf given.now run.now (plain-Plan plan.now) (plain-Program program.now) new_fn [] }
    ensures { IfOk result (spec.IsDeepIf given.now.text.now (toks given.now.tokens.now.list) (plain-Program given.now.program.now) (run_of run.now) (plain-Plan plan.now)) }
{
    match own_bytes(alloc, given, run, plan, program, new_fn) {
        Ok(Some(text)) => {
            let count = counted(alloc, text.as_str());
            text.let_go();
            count
        }
        Ok(None) => Ok(None),
        Err(AllocError) => Err(AllocError),
    }
}

/// The number of levels that passes the limit: those of the text of an extraction without bounds, or else of a type that is made.
pub(crate) fn too_deep(
    alloc: Global,
    given: &Given<'_, '_>,
    run: &RunPos,
    plan: &NamedPlan,
    program: &Program,
    new_fn: u32,
) -> Result<Option<u64>, AllocError>
    requires there { IsIn given.now run.now }
    requires made { IsMadeOf given.now run.now (plain-Plan plan.now) (plain-Program program.now) new_fn [] }
    ensures { IfOk result (spec.IsTooDeepIf given.now.text.now (toks given.now.tokens.now.list) (plain-Program given.now.program.now) (run_of run.now) (plain-Plan plan.now)) }
{
    let deep = match text_levels(alloc, given, run, plan, program, new_fn) {
        Ok(found) => found.unwrap_or(0),
        Err(AllocError) => return Err(AllocError),
    };
    if deep > MOST_LEVELS {
        return Ok(Some(u64::from(deep)));
    }
    Ok(levels_past(plan))
}

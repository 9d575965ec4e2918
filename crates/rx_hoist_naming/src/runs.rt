//! The run in the typed tree.

ghost use Rattle.std.specs.Prelude.{◌≡◌, IfOk};
ghost use Rattle.rx_tree.specs.PlainOf.{plain-Program};
ghost use Rattle.rx_exits_plan.specs.PlainPlan.{plain-Run};
ghost use Rattle.rx_hoist_nodes.specs.TypedRun as spec;

use rx_exits_plan::Run;
use rx_hoist_finding::node_of;
use rx_tree::Program;
use rx_typed_runs::RunPos;
use std::alloc::{AllocError, Global};

/// How many statements stand from one number to another, which is left out where it is that of the block's tail.
fn statements_from(first: u32, last: u32, tail: bool) -> usize
    ensures { result ≡ spec.statements_from first last tail }
{
    let (first, last) = (first as usize, last as usize);
    if tail {
        last.saturating_sub(first)
    } else {
        (last + 1).saturating_sub(first)
    }
}

/// A run of the text as one of the typed tree of its function: its block by the number of the block's node.
pub fn typed_run(alloc: Global, program: &Program, run: &RunPos) -> Result<Run, AllocError>
    ensures { IfOk result (λ typed. plain-Run typed ≡ spec.typed_run (plain-Program program.now) run.now) }
{
    let found = node_of(alloc, program, run.block.item, run.block.path.as_slice())?;
    Ok(Run {
        block: found.number,
        first: run.first as usize,
        count: statements_from(run.first, run.last, run.tail),
        tail: run.tail,
    })
}

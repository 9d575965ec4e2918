//! What the tree of a function tells of a run.

ghost use Rattle.std.specs.Prelude.{◌≡◌, IfOk};
ghost use Rattle.rx_exits_plan.specs.Asked.{Asked};
ghost use Rattle.rx_exits_plan.specs.PlainPlan.{plain-Run};
ghost use Rattle.rx_exits_plan.specs.PlainSyntax.{plain-Home};
ghost use Rattle.rx_exits.specs.Planning.{IsFacts};

use rx_core::{LetGo, List, keep};
use rx_exits_jumps::{end_scope, jumps};
use rx_exits_occurrences::{Variables, variables_of};
use rx_exits_plan::{Home, Jump, Run};
use std::alloc::{AllocError, Global};

/// The variables of a run, its jumps, and the variables in scope behind it, the last declared first.
#[derive(Drop)]
pub(crate) struct Facts {
    pub(crate) variables: Variables,
    pub(crate) jumps: List<Jump>,
    pub(crate) end: List<u32>,
}

impl LetGo for Facts {
    fn let_go(self) {
        self.variables.let_go();
        self.jumps.let_go();
        self.end.let_go();
    }
}

pub(crate) fn facts_of(alloc: Global, home: &Home<'_>, run: Run) -> Result<Facts, AllocError>
    ensures { IfOk result (λ f. (A : Asked) → A.run ≡ plain-Run run → A.home ≡ plain-Home home.now → IsFacts A f) }
{
    let variables = variables_of(alloc, home, run)?;
    let (jumps, variables) = keep(variables, jumps(alloc, home, run))?;
    let (end, held) = keep((variables, jumps), end_scope(alloc, home, run))?;
    let (variables, jumps) = held;
    Ok(Facts {
        variables,
        jumps,
        end,
    })
}

//! What an extraction goes by.

use crate::refusal::Selection;
use rx_check::FrontEnd;
use rx_exits_plan::{ExitPlan, Home, Run};
use rx_hoist_plan::NamedPlan;
use rx_lex::Tokens;
use rx_modes::ModePlan;
use rx_tree::Program;
use rx_typeck_typed::TypedFn;
use rx_typed_runs::RunPos;

/// An accepted text: its bytes, its tokens, its program, and what the passes know of it.
#[derive(Clone, Copy)]
pub(crate) struct Given<'t, 's> {
    pub text: &'s [u8],
    pub tokens: &'t Tokens<'s>,
    pub program: &'t Program,
    pub front: &'t FrontEnd,
}

/// What is asked for: a range of bytes, and the name of the new function.
#[derive(Clone, Copy)]
pub(crate) struct Request<'t> {
    pub selection: Selection,
    pub name: &'t str,
}

/// A run in the typed tree of its function, and its block.
#[derive(Drop)]
pub(crate) struct Seat<'t> {
    pub run: Run,
    pub home: Home<'t>,
}

/// The plans of a run: what goes in and out, how its params are passed, and both by names.
#[derive(Drop)]
pub(crate) struct Plans {
    pub plan: ExitPlan,
    pub passed: ModePlan,
    pub named: NamedPlan,
}

/// A run, its function, its block there, and its plans.
#[derive(Drop)]
pub(crate) struct Decision<'t> {
    pub run: RunPos,
    pub function: &'t TypedFn,
    pub seat: Seat<'t>,
    pub plans: Plans,
}

/// The program with the call, and the number of the new function's item.
pub(crate) struct NewProgram {
    pub program: Program,
    pub new_fn: u32,
}

/// What is decided of a run, and the program with the call.
pub(crate) struct Hoisting<'t> {
    pub decision: Decision<'t>,
    pub made: NewProgram,
}

//! What a program does.

ghost use Rattle.std.specs.Prelude.{◌≡◌, IfOk};
ghost use Rattle.rx_meaning.specs.Programs.{run as run_of};
ghost use Rattle.rx_machine.specs.Functions.{program_of};

use crate::functions::table;
use rx_check::Checked;
use rx_machine_driver::run as run_machine;
use rx_meaning::Outcome;
use std::alloc::{AllocError, Global};

/// What a program that is accepted does on an input, with a number of turns (one for each call of a function, and for each pass of a
/// loop): the outcome of the meaning. `checked_programs_run` says that the program which is run is that of the text.
///
/// # Errors
///
/// Memory runs out.
pub fn run<'x>(
    alloc: Global,
    program: &'x Checked,
    input: &'x [i64],
    turns: u64,
) -> Result<Outcome, AllocError>
    ensures { IfOk result (λ it. it ≡ run_of (program_of program.now.front.typed program.now.front.main) input.now turns) }
{
    let front = program.front();
    let typed = front.typed();
    let functions = table(
        alloc,
        typed.decls.items.as_slice(),
        typed.functions.as_slice(),
    )?;
    run_machine(alloc, functions.as_slice(), front.main(), input, turns)
}

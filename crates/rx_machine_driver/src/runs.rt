//! Whole runs.

ghost use Rattle.std.specs.Prelude.{◌≡◌, IfOk};
ghost use Rattle.rx_meaning.specs.Programs.{run as run_of};
ghost use Rattle.rx_machine_driver.specs.Fitting.{functions_of};
ghost use Rattle.rx_machine_driver.specs.Running.{EndsSo};

use crate::data::{Machine, Paused, Turn};
use crate::slots::Slots;
use crate::turning::cut_off;
use rx_core::{List, Text};
use rx_machine_values::Memory;
use rx_meaning::{End, Outcome};
use rx_typed::TypedTree;
use std::alloc::{AllocError, Global};

/// What is printed, and how the run ends.
fn finished(machine: Machine, end: End) -> Outcome
    ensures { result ≡ record { printed = machine.entry.printed; end = end } }
{
    let Machine {
        memory: _,
        slots: _,
        frames: _,
        input: _,
        printed,
    } = machine;
    Outcome { printed, end }
}

/// How a run ends where no turn is left.
fn end_of<'a>(functions: &'a [Option<&'a TypedTree>], paused: Paused<'a>) -> End
    ensures { EndsSo (functions_of functions.entry.now) paused.entry result }
{
    match paused {
        Paused::Turn(turn) => cut_off(functions, turn),
        Paused::End(end) => end,
    }
}

/// What a program does on an input, with a number of turns: the functions by their items' numbers, and the item of `main`.
/// Only memory may be wanting.
pub fn run<'x>(
    alloc: Global,
    functions: &'x [Option<&'x TypedTree>],
    main: usize,
    input: &'x [i64],
    turns: u64,
) -> Result<Outcome, AllocError>
    ensures { IfOk result (λ it. it ≡ run_of (record { functions = functions_of functions.now; main = main }) input.now turns) }
{
    let mut machine = Machine {
        memory: Memory::new(alloc),
        slots: Slots::new(alloc),
        frames: List::new(alloc),
        input,
        printed: Text::empty(alloc),
    };
    let mut paused = Paused::Turn(Turn::Calls(main, List::new(alloc)));
    for _turn in 0..turns {
        match paused {
            Paused::Turn(turn) => paused = machine.turn(alloc, functions, turn)?,
            Paused::End(end) => return Ok(finished(machine, end)),
        }
    }
    let end = end_of(functions, paused);
    Ok(finished(machine, end))
}

//! One step, and steps up to the next turn.

ghost use Rattle.std.specs.Prelude.{◌≡◌, ◌<◌, ℕ, IfOk};
ghost use Rattle.rx_meaning.specs.Expressions.{Functions};
ghost use Rattle.rx_meaning.specs.declared.outcome.Outcome.{Outcome as OutcomeOf};
ghost use Rattle.rx_machine_driver.specs.PlainSteps.{plain-Next};
ghost use Rattle.rx_machine_driver.specs.declared.next.Next.TheVariants as next;
ghost use Rattle.rx_machine_driver.specs.Running.{Leads, Reaches, Stands, Pauses};

use crate::data::{Frame, Machine, Paused, Step, Turn};
use crate::{Hole, Next, Work, opened, opened_body};
use rx_core::{LetGo, List};
use rx_machine_values::Value;
use rx_typed::Expr;
use std::alloc::{AllocError, Global};

impl<'a> Machine<'a> {
    /// A part, while a form waits for it.
    fn part(
        &mut self,
        alloc: Global,
        hole: Hole<'a>,
        expr: &'a Expr,
    ) -> Result<Step<'a>, AllocError>
        ensures { IfOk result (λ to. Leads self.old (plain-Next (next.Part hole.entry expr.entry)) self.new to) }
    {
        self.frames.push(Frame::Hole(hole))?;
        Ok(Step::Next(opened(alloc, expr)))
    }

    /// What is done with the values of operands: a value is made, or a call waits for its turn.
    fn finishes(
        &self,
        alloc: Global,
        work: Work<'a>,
        values: List<Value>,
    ) -> Result<Step<'a>, AllocError>
        ensures { IfOk result (λ to. Leads self.now (plain-Next (next.Finishes work.entry values)) self.now to) }
    {
        match work {
            Work::Makes(making, operands) => {
                let step = self.makes(alloc, making, operands, values)?;
                Ok(step)
            }
            Work::Calls(function) => Ok(Step::Turn(Turn::Calls(function as usize, values))),
        }
    }

    /// One step.
    pub fn step(&mut self, alloc: Global, next: Next<'a>) -> Result<Step<'a>, AllocError>
        ensures { IfOk result (λ to. Leads self.old (plain-Next next.entry) self.new to) }
    {
        match next {
            Next::GoesInto(expr) => Ok(Step::Next(opened(alloc, expr))),
            Next::Part(hole, expr) => self.part(alloc, hole, expr),
            Next::Gives(value) => self.give(value),
            Next::Reads(moves, place) => self.reads(alloc, moves, place),
            Next::Borrows(mutable, place) => self.borrows(alloc, mutable, place),
            Next::Shares(value) => Ok(self.shares(value)),
            Next::Writes(place, value) => self.writes(alloc, place, value),
            Next::Prints(value) => {
                let step = self.prints(alloc, &value);
                value.let_go();
                step
            }
            Next::Inputs => Ok(self.inputs()),
            Next::Settles(value) => Ok(self.settles(value)),
            Next::Finishes(work, values) => self.finishes(alloc, work, values),
            Next::RunsBody(rest, last) => Ok(Step::Next(opened_body(rest, last))),
            Next::Tries(subject, arms) => self.tries(alloc, subject, arms),
            Next::Binds(subject, pattern, rest, last) => {
                self.binds(alloc, subject, pattern, rest, last)
            }
            Next::Begins(variables, rest, last) => self.begins(variables, rest, last),
            Next::Loops(mark, number, body) => Ok(Step::Turn(Turn::Loops(mark, number, body))),
            Next::Leaves(exit, value) => Ok(self.leave(exit, value)),
            Next::Decides(truth, value, second) => Ok(self.decides(truth, value, second)),
            Next::Modifies(op, place, value) => self.modifies(alloc, op, place, value),
        }
    }

    /// One step, or several where an expression comes further at once.
    fn advance(&mut self, alloc: Global, next: Next<'a>) -> Result<Step<'a>, AllocError>
        ensures { IfOk result (λ to. Reaches self.old (plain-Next next.entry) self.new to) }
    {
        match next {
            Next::GoesInto(expr) => Ok(self.goes_into(alloc, expr)),
            Next::Part(hole, expr) => self.goes_into_part(alloc, hole, expr),
            other => {
                let step = self.step(alloc, other)?;
                Ok(step)
            }
        }
    }

    /// Steps up to the next turn.
    pub fn until_turn(&mut self, alloc: Global, next: Next<'a>) -> Result<Paused<'a>, AllocError>
        ensures { IfOk result (λ to. (P : Functions) (n t : ℕ) (o : OutcomeOf) → t < n → Stands P n t self.old (plain-Next next.entry) o → Pauses P n t self.new to o) }
    {
        let mut now = next;
        'steps: loop {
            let step = self.advance(alloc, now)?;
            match step {
                Step::Next(next) => now = next,
                Step::Turn(turn) => return Ok(Paused::Turn(turn)),
                Step::End(end) => return Ok(Paused::End(end)),
            }
        }
    }
}

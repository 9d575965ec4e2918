//! What becomes of a value and of a jump, by the innermost frame.

ghost use Rattle.std.specs.Prelude.{◌≡◌, IfOk};
ghost use Rattle.rx_typed.specs.PlainTree.{plain-Mark, plain-Expr};
ghost use Rattle.rx_machine_values.specs.PlainValues.{plain-Value};
ghost use Rattle.rx_machine_driver.specs.declared.next.Next.TheVariants as next;
ghost use Rattle.rx_machine_frames.specs.Stepping.{behind_pass};
ghost use Rattle.rx_machine_driver.specs.PlainSteps.{plain-Exit, plain-Next};
ghost use Rattle.rx_machine_driver.specs.Running.{GivesTo, LeavesCall, LeavesFrame, Leads};

use crate::data::{Frame, Machine, Step};
use crate::slots::Slots;
use crate::{Exit, Next, filled};
use rx_core::LetGo;
use rx_machine_values::Value;
use rx_meaning::End;
use rx_typed::{Expr, Mark};
use std::alloc::AllocError;
use std::mem::replace;

/// A frame gets a value.
fn give_to<'a>(frame: Frame<'a>, value: Value) -> Result<Step<'a>, AllocError>
    ensures { IfOk result (λ to. GivesTo frame.entry (plain-Value value) to) }
{
    match frame {
        Frame::Hole(hole) => {
            let next = filled(hole, value)?;
            Ok(Step::Next(next))
        }
        Frame::Pass(mark, number, body) => {
            value.let_go();
            Ok(Step::Next(Next::Loops(mark, number, body)))
        }
        Frame::Call(slots) => {
            slots.let_go();
            value.let_go();
            Ok(Step::End(End::Wrong))
        }
    }
}

/// A jump leaves a pass of a loop: it ends the loop, or the pass alone, or it goes further out.
#[tactic(auto, using(crate::proofs::StepRules::unit_is))]
fn leave_pass<'a>(mark: &'a Mark, number: u32, body: &'a Expr, exit: Exit, value: Value) -> Next<'a>
    ensures { plain-Next result ≡ behind_pass (plain-Mark mark.entry.now) number (plain-Expr body.entry.now) (plain-Exit exit) (plain-Value value) }
{
    match exit {
        Exit::Breaks(node, wanted) => {
            if wanted == number {
                value.let_go();
                Next::Gives(Value::Unit)
            } else {
                Next::Leaves(Exit::Breaks(node, wanted), value)
            }
        }
        Exit::Continues(node, wanted) => {
            if wanted == number {
                value.let_go();
                Next::Loops(mark, number, body)
            } else {
                Next::Leaves(Exit::Continues(node, wanted), value)
            }
        }
        Exit::Returns(node) => Next::Leaves(Exit::Returns(node), value),
    }
}

impl<'a> Machine<'a> {
    /// The innermost frame gets a value.
    pub fn give(&mut self, value: Value) -> Result<Step<'a>, AllocError>
        ensures { IfOk result (λ to. Leads self.old (plain-Next (next.Gives value)) self.new to) }
    {
        match self.frames.pop() {
            Some(frame) => {
                let step = give_to(frame, value)?;
                Ok(step)
            }
            None => {
                value.let_go();
                Ok(Step::End(End::Ended))
            }
        }
    }

    /// A jump leaves a call, which has its value then.
    fn leave_call(&mut self, slots: Slots, exit: Exit, value: Value) -> Step<'a>
        ensures { LeavesCall self.old slots (plain-Exit exit) (plain-Value value) self.new result }
    {
        match exit {
            Exit::Returns(_) => {
                replace(&mut self.slots, slots).let_go();
                Step::Next(Next::Gives(value))
            }
            Exit::Breaks(_, _) => {
                slots.let_go();
                value.let_go();
                Step::End(End::Wrong)
            }
            Exit::Continues(_, _) => {
                slots.let_go();
                value.let_go();
                Step::End(End::Wrong)
            }
        }
    }

    /// A jump leaves a frame.
    fn leave_frame(&mut self, frame: Frame<'a>, exit: Exit, value: Value) -> Step<'a>
        ensures { LeavesFrame self.old frame.entry (plain-Exit exit) (plain-Value value) self.new result }
    {
        match frame {
            Frame::Hole(hole) => {
                hole.let_go();
                Step::Next(Next::Leaves(exit, value))
            }
            Frame::Pass(mark, number, body) => {
                Step::Next(leave_pass(mark, number, body, exit, value))
            }
            Frame::Call(slots) => self.leave_call(slots, exit, value),
        }
    }

    /// A jump leaves the innermost frame.
    pub fn leave(&mut self, exit: Exit, value: Value) -> Step<'a>
        ensures { Leads self.old (plain-Next (next.Leaves exit value)) self.new result }
    {
        match self.frames.pop() {
            Some(frame) => self.leave_frame(frame, exit, value),
            None => {
                value.let_go();
                Step::End(End::Wrong)
            }
        }
    }
}

//! Turns.

ghost use Rattle.std.specs.Prelude.{◌≡◌, ◌≤◌, ℕ, suc, map, option_map, reverse, IfOk};
ghost use Rattle.rx_typed.specs.PlainTree.{plain-Mark, plain-Expr, plain-TypedTree};
ghost use Rattle.rx_meaning.specs.Values.{element};
ghost use Rattle.rx_meaning.specs.declared.outcome.Outcome.{Outcome as OutcomeOf};
ghost use Rattle.rx_meaning.specs.Expressions.{Functions};
ghost use Rattle.rx_machine_frames.specs.Frames.{loops};
ghost use Rattle.rx_machine_values.specs.PlainValues.{plain-Value};
ghost use Rattle.rx_machine_driver.specs.Fitting.{functions_of, plain-Turn};
ghost use Rattle.rx_machine_driver.specs.Running.{IsFunction, Enters, Turns, Stands, Pauses, IsCutOff};

use crate::Next;
use crate::arriving::{begun, given_value};
use crate::data::{Frame, Machine, Paused, Step, Turn};
use crate::slots::Slots;
use rx_core::{LetGo, List};
use rx_machine_values::Value;
use rx_meaning::End;
use rx_typed::{Expr, Mark, TypedTree};
use std::alloc::{AllocError, Global};
use std::mem::replace;

/// The function of an item.
fn function_at<'a>(functions: &'a [Option<&'a TypedTree>], item: usize) -> Option<&'a TypedTree>
    ensures { IsFunction (element (functions_of functions.entry.now) item) (option_map (λ f. plain-TypedTree f.now) result) }
{
    if item < functions.len() {
        functions[item]
    } else {
        None
    }
}

/// How a run ends that waits for a turn where none is left.
pub fn cut_off<'a>(functions: &'a [Option<&'a TypedTree>], turn: Turn<'a>) -> End
    ensures { IsCutOff (functions_of functions.entry.now) (plain-Turn turn.entry) result }
{
    match turn {
        Turn::Calls(item, arguments) => {
            arguments.let_go();
            match function_at(functions, item) {
                Some(_) => End::Running,
                None => End::Wrong,
            }
        }
        Turn::Loops(_, _, _) => End::Running,
    }
}

/// Arguments, the first of which is the last.
fn turned(arguments: List<Value>) -> List<Value>
    ensures { map plain-Value arguments ≡ reverse (map plain-Value result) }
{
    let mut items = arguments.into_vec();
    items.reverse();
    List::from_vec(items)
}

impl<'a> Machine<'a> {
    /// The body of a call begins, with its parameters written.
    fn enter(
        &mut self,
        alloc: Global,
        callee: &'a TypedTree,
        arguments: List<Value>,
    ) -> Result<Step<'a>, AllocError>
        ensures { IfOk result (λ to. Enters self.old (plain-TypedTree callee.entry.now) (map plain-Value arguments) self.new to) }
    {
        let slots = replace(&mut self.slots, Slots::new(alloc));
        self.frames.push(Frame::Call(slots))?;
        let done = self.fill(callee.params.as_slice(), turned(arguments))?;
        if done {
            Ok(Step::Next(Next::GoesInto(&callee.body)))
        } else {
            Ok(Step::End(End::Wrong))
        }
    }

    /// A pass of a loop begins, and is done where its body is told at once.
    fn pass(
        &mut self,
        alloc: Global,
        mark: &'a Mark,
        number: u32,
        body: &'a Expr,
    ) -> Result<Step<'a>, AllocError>
        ensures { IfOk result (λ to. (P : Functions) → Turns P self.old (loops (plain-Mark mark.entry.now) number (plain-Expr body.entry.now)) self.new to) }
    {
        let reached = self.arrive(body);
        match given_value(reached) {
            Some(value) => {
                value.let_go();
                Ok(Step::Turn(Turn::Loops(mark, number, body)))
            }
            None => {
                self.frames.push(Frame::Pass(mark, number, body))?;
                Ok(Step::Next(begun(alloc, reached)))
            }
        }
    }

    /// What takes a turn begins.
    fn begin(
        &mut self,
        alloc: Global,
        functions: &'a [Option<&'a TypedTree>],
        turn: Turn<'a>,
    ) -> Result<Step<'a>, AllocError>
        ensures { IfOk result (λ to. Turns (functions_of functions.entry.now) self.old (plain-Turn turn.entry) self.new to) }
    {
        match turn {
            Turn::Loops(mark, number, body) => {
                let step = self.pass(alloc, mark, number, body)?;
                Ok(step)
            }
            Turn::Calls(item, arguments) => match function_at(functions, item) {
                Some(callee) => {
                    let step = self.enter(alloc, callee, arguments)?;
                    Ok(step)
                }
                None => {
                    arguments.let_go();
                    Ok(Step::End(End::Wrong))
                }
            },
        }
    }

    /// One turn, and steps up to the next.
    pub fn turn(
        &mut self,
        alloc: Global,
        functions: &'a [Option<&'a TypedTree>],
        turn: Turn<'a>,
    ) -> Result<Paused<'a>, AllocError>
        ensures { IfOk result (λ to. (n t : ℕ) (o : OutcomeOf) → suc t ≤ n
            → Stands (functions_of functions.entry.now) n (suc t) self.old (plain-Turn turn.entry) o → Pauses (functions_of functions.entry.now) n t self.new to o) }
    {
        let step = self.begin(alloc, functions, turn)?;
        match step {
            Step::Next(next) => {
                let paused = self.until_turn(alloc, next)?;
                Ok(paused)
            }
            Step::Turn(turn) => Ok(Paused::Turn(turn)),
            Step::End(end) => Ok(Paused::End(end)),
        }
    }
}

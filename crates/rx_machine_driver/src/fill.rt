//! What is done with the value of an operand.

ghost use Rattle.std.specs.Prelude.{◌≡◌, IfOk, map};
ghost use Rattle.rx_machine_values.specs.PlainValues.{plain-Value};
ghost use Rattle.rx_machine_frames.specs.Frames as frames;
ghost use Rattle.rx_machine_driver.specs.PlainSteps.{plain-Work, plain-Hole, plain-Next, operands_in};

use crate::next::{Exit, Hole, Next, Subject, Work};
use crate::open::operands;
use rx_core::{LetGo, List, pushed};
use rx_machine_values::Value;
use rx_typed::Operand;
use std::alloc::AllocError;

/// One more operand has its value.
#[tactic(auto, using(crate::proofs::StepRules::filled_operand_is))]
fn another<'a>(
    work: Work<'a>,
    done: List<Value>,
    left: &'a [Operand],
    value: Value,
) -> Result<Next<'a>, AllocError>
    ensures { IfOk result (λ to. plain-Next to ≡ frames.filled (frames.operand (plain-Work work.entry) (map plain-Value done) (operands_in left.entry.now)) (plain-Value value)) }
{
    let done = pushed(done, value)?;
    Ok(operands(work, done, left))
}

/// What comes next once the operand that was out has its value.
pub fn filled<'a>(hole: Hole<'a>, value: Value) -> Result<Next<'a>, AllocError>
    ensures { IfOk result (λ to. plain-Next to ≡ frames.filled (plain-Hole hole.entry) (plain-Value value)) }
{
    match hole {
        Hole::Operand(work, done, left) => another(work, done, left, value),
        Hole::Shares => Ok(Next::Shares(value)),
        Hole::FirstOf(truth, second) => Ok(Next::Decides(truth, value, second)),
        Hole::SecondOf => Ok(Next::Settles(value)),
        Hole::Assigns(place) => Ok(Next::Writes(place, value)),
        Hole::Updates(op, place) => Ok(Next::Modifies(op, place, value)),
        Hole::Prints => Ok(Next::Prints(value)),
        Hole::GivesBack(node) => Ok(Next::Leaves(Exit::Returns(node), value)),
        Hole::Scrutinee(node, arms) => Ok(Next::Tries(Subject::Held(node, value), arms)),
        Hole::Statement(rest, last) => {
            value.let_go();
            Ok(Next::RunsBody(rest, last))
        }
        Hole::Initialiser(node, pattern, rest, last) => {
            Ok(Next::Binds(Subject::Held(node, value), pattern, rest, last))
        }
    }
}

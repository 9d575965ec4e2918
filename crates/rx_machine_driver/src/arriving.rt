//! How far an expression comes at once, and what comes next then.

ghost use Rattle.std.specs.Prelude.{◌≡◌, IfOk, IfSome, IfNone};
ghost use Rattle.rx_typed.specs.PlainTree.{plain-Expr};
ghost use Rattle.rx_meaning.specs.Values.{Value as ValueOf};
ghost use Rattle.rx_machine_values.specs.PlainValues.{plain-Value};
ghost use Rattle.rx_machine_direct.specs.Reaching.{gave};
ghost use Rattle.rx_machine_direct.specs.PlainReached.{plain-Reached};
ghost use Rattle.rx_machine_driver.specs.PlainSteps.{plain-Next};
ghost use Rattle.rx_machine_driver.specs.declared.next.Next.TheVariants as next;
ghost use Rattle.rx_machine_driver.specs.Running.{Arrives, Begins, Reaches};

use crate::data::{Frame, Machine, Step};
use crate::{Hole, Next, filled, opened, opened_body};
use rx_machine_direct::{Reached, reach};
use rx_machine_values::Value;
use rx_typed::Expr;
use std::alloc::{AllocError, Global};

/// The value that was given; none only where something is left.
#[tactic(auto, using(crate::proofs::StepRules::unit_is))]
pub fn given_value<'a>(reached: Reached<'a>) -> Option<Value>
    ensures some { IfSome result (λ v. plain-Reached reached.entry ≡ gave (plain-Value v)) }
    ensures none { IfNone result ((v : ValueOf) → plain-Reached reached.entry ≡ gave v → ⊥) }
{
    match reached {
        Reached::Gave(scalar) => Some(scalar.value()),
        Reached::Unit => Some(Value::Unit),
        Reached::Into(_) => None,
        Reached::Statements(_, _) => None,
    }
}

/// What comes next where an expression came so far.
pub fn begun<'a>(alloc: Global, reached: Reached<'a>) -> Next<'a>
    ensures { Begins (plain-Reached reached.entry) (plain-Next result) }
{
    match reached {
        Reached::Gave(scalar) => Next::Gives(scalar.value()),
        Reached::Unit => Next::Gives(Value::Unit),
        Reached::Into(expr) => opened(alloc, expr),
        Reached::Statements(rest, last) => opened_body(rest, last),
    }
}

impl<'a> Machine<'a> {
    /// How far an expression comes by what is told at once, with assignments done on the way.
    pub fn arrive(&mut self, expr: &'a Expr) -> Reached<'a>
        ensures { Arrives self.old (plain-Expr expr.entry.now) self.new (plain-Reached result) }
    {
        reach(expr, self.slots.table.as_slice(), &mut self.memory)
    }

    /// An expression.
    pub fn goes_into(&mut self, alloc: Global, expr: &'a Expr) -> Step<'a>
        ensures { Reaches self.old (plain-Next (next.GoesInto expr.entry)) self.new result }
    {
        let reached = self.arrive(expr);
        Step::Next(begun(alloc, reached))
    }

    /// A part, while a form waits for it; the form itself where its value is told at once.
    pub fn goes_into_part(
        &mut self,
        alloc: Global,
        hole: Hole<'a>,
        expr: &'a Expr,
    ) -> Result<Step<'a>, AllocError>
        ensures { IfOk result (λ to. Reaches self.old (plain-Next (next.Part hole.entry expr.entry)) self.new to) }
    {
        let reached = self.arrive(expr);
        match given_value(reached) {
            Some(value) => {
                let next = filled(hole, value)?;
                Ok(Step::Next(next))
            }
            None => {
                self.frames.push(Frame::Hole(hole))?;
                Ok(Step::Next(begun(alloc, reached)))
            }
        }
    }
}

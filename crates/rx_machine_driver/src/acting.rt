//! What acts do to the machine.

ghost use Rattle.std.specs.Prelude.{◌≡◌, option_map, IfOk};
ghost use Rattle.rx_core.specs.declared.types.Kind.TheVariants.{I64};
ghost use Rattle.rx_typed.specs.PlainTree.{plain-Place, plain-Expr};
ghost use Rattle.rx_meaning.specs.Values as plain;
ghost use Rattle.rx_machine_values.specs.PlainNumber.{plain-Number};
ghost use Rattle.rx_machine_values.specs.PlainValues.{plain-Value};
ghost use Rattle.rx_machine_actions.specs.PlainActs.{plain-Made};
ghost use Rattle.rx_machine_driver.specs.PlainSteps.{plain-Next};
ghost use Rattle.rx_machine_driver.specs.declared.next.Next.TheVariants as next;
ghost use Rattle.rx_machine_driver.specs.declared.next.Work.TheVariants.{Makes as MakesWork};
ghost use Rattle.rx_machine_driver.specs.Running.{IsMade, IsDone, IsDecided, IsWrittenBack, IsModified, Leads};

use crate::data::{Machine, Step};
use crate::places::given;
use crate::{Hole, Next};
use rx_core::{Kind, LetGo, List, Place, keep};
use rx_machine_actions::{Made, equals_truth, made, operated, print, share, write};
use rx_machine_values::{Number, Value};
use rx_meaning::End;
use rx_tree::BinaryOp;
use rx_typed::{Expr, Making, Operand};
use std::alloc::{AllocError, Global};

/// What was made comes next, or the run ends.
fn of_made<'a>(made: Made) -> Step<'a>
    ensures { IsMade (plain-Made made) result }
{
    match made {
        Made::Value(value) => Step::Next(Next::Gives(value)),
        Made::Traps(trap) => Step::End(End::Trapped(trap)),
        Made::Senseless => Step::End(End::Wrong),
    }
}

/// The unit comes next where a write was done.
#[tactic(auto, using(crate::proofs::StepRules::unit_is))]
fn of_write<'a>(done: bool) -> Step<'a>
    ensures { IsDone done result }
{
    if done {
        Step::Next(Next::Gives(Value::Unit))
    } else {
        Step::End(End::Wrong)
    }
}

/// A number of the input.
fn input_number(value: i64) -> Number
    ensures { plain-Number result ≡ plain.number I64 value }
{
    let wide = value as i128;
    let magnitude = if wide < 0 { -wide } else { wide };
    Number {
        kind: Kind::I64,
        negative: wide < 0,
        magnitude: magnitude as u64,
    }
}

impl<'a> Machine<'a> {
    /// A place as a value.
    pub fn reads(
        &self,
        alloc: Global,
        moves: bool,
        place: &'a Place,
    ) -> Result<Step<'a>, AllocError>
        ensures { IfOk result (λ to. Leads self.now (plain-Next (next.Reads moves place.entry)) self.now to) }
    {
        let value = self.value_at(alloc, place.var, place.steps.as_slice())?;
        Ok(given(value))
    }

    /// A reference to a place.
    pub fn borrows(
        &self,
        alloc: Global,
        mutable: bool,
        place: &'a Place,
    ) -> Result<Step<'a>, AllocError>
        ensures { IfOk result (λ to. Leads self.now (plain-Next (next.Borrows mutable place.entry)) self.now to) }
    {
        let value = self.reference_at(alloc, place.var, place.steps.as_slice(), mutable)?;
        Ok(given(value))
    }

    /// A mutable reference becomes shared.
    pub fn shares(&self, value: Value) -> Step<'a>
        ensures { Leads self.now (plain-Next (next.Shares value)) self.now result }
    {
        given(share(value))
    }

    /// A place is written.
    pub fn writes(
        &mut self,
        alloc: Global,
        place: &'a Place,
        value: Value,
    ) -> Result<Step<'a>, AllocError>
        ensures { IfOk result (λ to. Leads self.old (plain-Next (next.Writes place.entry value)) self.new to) }
    {
        match self.slots.get(place.var as usize) {
            Some(slot) => {
                let done = write(alloc, &mut self.memory, slot, place.steps.as_slice(), value)?;
                Ok(of_write(done))
            }
            None => {
                value.let_go();
                Ok(Step::End(End::Wrong))
            }
        }
    }

    /// A value is printed.
    pub fn prints(&mut self, alloc: Global, value: &Value) -> Result<Step<'a>, AllocError>
        ensures { IfOk result (λ to. Leads self.old (plain-Next (next.Prints value.now)) self.new to) }
    {
        let done = print(alloc, &mut self.printed, value)?;
        Ok(of_write(done))
    }

    /// The next number of the input, and 0 past its end.
    #[tactic(auto, using(rx_machine_values::proofs::ValueRules::value_rules))]
    pub fn inputs(&mut self) -> Step<'a>
        ensures { Leads self.old (plain-Next next.Inputs) self.new result }
    {
        match self.input.split_first() {
            None => Step::Next(Next::Gives(Value::Number(input_number(0)))),
            Some((number, rest)) => {
                let number = *number;
                self.input = rest;
                Step::Next(Next::Gives(Value::Number(input_number(number))))
            }
        }
    }

    /// The operand of `&&` or `||` that tells is its value.
    pub fn settles(&self, value: Value) -> Step<'a>
        ensures { Leads self.now (plain-Next (next.Settles value)) self.now result }
    {
        Step::Next(Next::Gives(value))
    }

    /// Operands are made into a value.
    pub fn makes(
        &self,
        alloc: Global,
        making: Making,
        operands: &'a [Operand],
        values: List<Value>,
    ) -> Result<Step<'a>, AllocError>
        ensures { IfOk result (λ to. Leads self.now (plain-Next (next.Finishes (MakesWork making operands.entry) values)) self.now to) }
    {
        let it = made(alloc, making, operands, values)?;
        Ok(of_made(it))
    }

    /// The second operand of `&&` or `||` comes, or the first is the value.
    pub fn decides(&self, truth: bool, value: Value, second: &'a Expr) -> Step<'a>
        ensures { Leads self.now (plain-Next (next.Decides truth value second.entry)) self.now result }
    {
        let holds = equals_truth(&value, truth);
        decided(holds, value, second)
    }

    /// A place is read, and what the operator gives is to be written there.
    pub fn modifies(
        &self,
        alloc: Global,
        op: BinaryOp,
        place: &'a Place,
        value: Value,
    ) -> Result<Step<'a>, AllocError>
        ensures { IfOk result (λ to. Leads self.now (plain-Next (next.Modifies op place.entry value)) self.now to) }
    {
        let read = self.value_at(alloc, place.var, place.steps.as_slice());
        let (left, value) = keep(value, read)?;
        Ok(modified(op, place, left, value))
    }
}

/// The second operand of `&&` or `||` comes, or the first is the value.
fn decided<'a>(holds: Option<bool>, value: Value, second: &'a Expr) -> Step<'a>
    ensures { IsDecided holds (plain-Value value) (plain-Expr second.entry.now) result }
{
    match holds {
        Some(true) => {
            value.let_go();
            Step::Next(Next::Part(Hole::SecondOf, second))
        }
        Some(false) => Step::Next(Next::Gives(value)),
        None => {
            value.let_go();
            Step::End(End::Wrong)
        }
    }
}

/// What is made comes to the place, or the run ends.
fn written_back<'a>(place: &'a Place, made: Made) -> Step<'a>
    ensures { IsWrittenBack (plain-Place place.entry.now) (plain-Made made) result }
{
    match made {
        Made::Value(value) => Step::Next(Next::Writes(place, value)),
        Made::Traps(trap) => Step::End(End::Trapped(trap)),
        Made::Senseless => Step::End(End::Wrong),
    }
}

fn modified<'a>(op: BinaryOp, place: &'a Place, left: Option<Value>, value: Value) -> Step<'a>
    ensures { IsModified op (plain-Place place.entry.now) (option_map plain-Value left) (plain-Value value) result }
{
    match left {
        Some(left) => {
            let made = operated(op, &left, &value);
            left.let_go();
            value.let_go();
            written_back(place, made)
        }
        None => {
            value.let_go();
            Step::End(End::Wrong)
        }
    }
}

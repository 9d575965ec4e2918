//! What stands at places of the text.

ghost use Rattle.std.specs.Prelude.{◌≡◌, true, [], IfOk, option_map};
ghost use Rattle.rx_meaning.specs.Values.{and_then};
ghost use Rattle.rx_meaning.specs.Places.{in_slot, whole_value, reference_to};
ghost use Rattle.rx_machine_values.specs.PlainValues.{plain-Value};
ghost use Rattle.rx_machine_driver.specs.Running.{spot_at, found_at, IsGiven};

use crate::Next;
use crate::data::{Machine, Step};
use rx_core::{List, Step as PlaceStep};
use rx_machine_actions::{Spot, borrow, read};
use rx_machine_values::Value;
use rx_meaning::End;
use std::alloc::{AllocError, Global};

/// The value comes next, or what was done is Wrong.
pub fn given<'a>(value: Option<Value>) -> Step<'a>
    ensures { IsGiven (option_map plain-Value value) result }
{
    match value {
        Some(value) => Step::Next(Next::Gives(value)),
        None => Step::End(End::Wrong),
    }
}

impl<'a> Machine<'a> {
    /// A copy of the value at a place; none where that is Wrong.
    pub fn value_at(
        &self,
        alloc: Global,
        variable: u32,
        steps: &[PlaceStep],
    ) -> Result<Option<Value>, AllocError>
        ensures { IfOk result (λ it. option_map plain-Value it ≡ and_then (found_at self.now variable steps.now) (λ f. whole_value f)) }
    {
        match self.slots.get(variable as usize) {
            Some(slot) => {
                let it = read(alloc, &self.memory, slot, steps)?;
                Ok(it)
            }
            None => Ok(None),
        }
    }

    /// A reference to a place, whatever stands there; none where that is Wrong.
    pub fn reference_at(
        &self,
        alloc: Global,
        variable: u32,
        steps: &[PlaceStep],
        mutable: bool,
    ) -> Result<Option<Value>, AllocError>
        ensures { IfOk result (λ it. option_map plain-Value it ≡ and_then (spot_at self.now variable steps.now) (λ at. reference_to mutable at)) }
    {
        match self.slots.get(variable as usize) {
            Some(slot) => {
                let from = Spot::Slot(slot, List::new(alloc), true);
                let it = borrow(alloc, &self.memory, from, steps, mutable)?;
                Ok(it)
            }
            None => Ok(None),
        }
    }
}

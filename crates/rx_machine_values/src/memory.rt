//! Memory: what stands in each slot.

ghost use Rattle.std.specs.Prelude.{◌≡◌, [], ◌∷◌, ◌++◌, OnOk, IfOk, length, option_map};
ghost use Rattle.rx_meaning.specs.Values as plain;
ghost use Rattle.rx_meaning.specs.Values.{and_then};
ghost use Rattle.rx_machine_values.specs.PlainValues.{plain-Value, plain-Part};
ghost use Rattle.rx_machine_values.specs.PlainMemory.{plain-Memory};
ghost use Rattle.rx_machine_values.specs.Reaching as spec;
ghost use Rattle.rx_machine_values.specs.Writes as writes;

use crate::reading::{Part, at_path, step_from};
use crate::value::{Lack, Value};
use crate::writing::put;
use rx_core::{LetGo, Step};
use std::alloc::{AllocError, Global};
use std::mem::replace;

/// What stands in each slot, by its number from 0.
#[derive(Drop)]
pub struct Memory {
    pub slots: Vec<Value>,
}

impl Memory {
    /// No slots. It takes no memory.
    pub fn new(alloc: Global) -> Memory
        ensures { plain-Memory result ≡ [] }
    {
        Memory {
            slots: Vec::new(alloc),
        }
    }

    /// How many slots there are.
    pub fn len(&self) -> usize
        ensures { result ≡ length self.now.slots.items }
    {
        self.slots.len()
    }

    /// Adds a slot in which nothing was written.
    #[tactic(auto, using(crate::proofs::MemoryLemmas::one_more))]
    pub fn declare(&mut self) -> Result<(), AllocError>
        ensures { OnOk result (plain-Memory self.new ≡ plain-Memory self.old ++ plain.lacking plain.unset ∷ []) }
    {
        match self.slots.push(Value::Lacking(Lack::Unset)) {
            Ok(()) => Ok(()),
            Err(_) => Err(AllocError),
        }
    }

    /// What stands in a slot.
    pub fn slot<'m>(&'m self, number: usize) -> Option<&'m Value>
        ensures { option_map (λ v. plain-Value v.now) result ≡ plain.element (plain-Memory self.now) number }
    {
        if number < self.slots.len() {
            Some(&self.slots[number])
        } else {
            None
        }
    }

    /// What stands in a slot at a path.
    pub fn content<'m>(&'m self, slot: usize, path: &[Step]) -> Option<Part<'m>>
        ensures { option_map plain-Part result ≡ spec.content_at (plain-Memory self.now) slot path.now }
    {
        match self.slot(slot) {
            Some(value) => at_path(value.as_part(), path),
            None => None,
        }
    }

    /// Writes a value in a slot; whether there is one. Else nothing changes.
    pub fn set(&mut self, slot: usize, value: Value) -> bool
        ensures { writes.Wrote (plain-Memory self.old) slot [] (plain-Value value) (plain-Memory self.new) result }
    {
        if slot < self.slots.len() {
            replace(&mut self.slots[slot], value).let_go();
            true
        } else {
            value.let_go();
            false
        }
    }

    /// What a slot would hold with a value at a path in it; none where that leads nowhere.
    fn changed(
        &self,
        alloc: Global,
        slot: usize,
        path: &[Step],
        value: Value,
    ) -> Result<Option<Value>, AllocError>
        ensures { IfOk result (λ it. option_map plain-Value it
            ≡ and_then (plain.element (plain-Memory self.now) slot) (λ u. plain.put path.now (plain-Value value) u)) }
    {
        match self.slot(slot) {
            Some(held) => put(alloc, held, path, value),
            None => {
                value.let_go();
                Ok(None)
            }
        }
    }

    /// Writes a value in a slot at a path; whether that leads somewhere. Else nothing changes.
    pub fn write(
        &mut self,
        alloc: Global,
        slot: usize,
        path: &[Step],
        value: Value,
    ) -> Result<bool, AllocError>
        ensures { IfOk result (λ done. writes.Wrote (plain-Memory self.old) slot path.now (plain-Value value) (plain-Memory self.new) done) }
    {
        match self.changed(alloc, slot, path, value)? {
            Some(changed) => Ok(self.set(slot, changed)),
            None => Ok(false),
        }
    }

    /// What a reference leads to.
    pub fn behind<'m>(&'m self, at: Part<'m>) -> Option<Part<'m>>
        ensures { option_map plain-Part result ≡ spec.behind (plain-Memory self.now) (plain-Part at.entry) }
    {
        match at {
            Part::Pointer(pointer) => self.content(pointer.slot, pointer.path.as_slice()),
            Part::Number(_) => None,
            Part::Truth(_) => None,
            Part::Whole(_) => None,
            Part::Tagged(_, _) => None,
            Part::Lacking(_) => None,
        }
    }

    /// What a step of a place leads to.
    fn stepped<'m>(&'m self, at: Part<'m>, step: Step) -> Option<Part<'m>>
        ensures { option_map plain-Part result ≡ spec.stepped (plain-Memory self.now) step (plain-Part at.entry) }
    {
        match step {
            Step::Deref(_) => self.behind(at),
            Step::Field(_) => step_from(at, step),
            Step::Variant(_) => step_from(at, step),
        }
    }

    /// What stands where the steps of a place lead, from what stands at its root.
    pub fn place<'m>(&'m self, from: Part<'m>, steps: &[Step]) -> Option<Part<'m>>
        ensures { spec.Leads (plain-Memory self.now) steps.now (plain-Part from.entry) (option_map plain-Part result) }
    {
        self.reached(from, steps)
    }

    fn reached<'m>(&'m self, from: Part<'m>, steps: &[Step]) -> Option<Part<'m>>
        ensures { option_map plain-Part result ≡ spec.reached (plain-Memory self.now) steps.now (plain-Part from.entry) }
    {
        let mut at = from;
        for i in 0..steps.len() {
            match self.stepped(at, steps[i]) {
                Some(next) => at = next,
                None => return None,
            }
        }
        Some(at)
    }
}

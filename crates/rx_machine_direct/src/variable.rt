//! Variables with numbers and truth values, by a table of slots.

ghost use Rattle.std.specs.Prelude.{◌≡◌, option_map};
ghost use Rattle.rx_typed.specs.Tree.{variable as variable_root};
ghost use Rattle.rx_machine_values.specs.PlainMemory.{plain-Memory};
ghost use Rattle.rx_machine_direct.specs.Direct as spec;
ghost use Rattle.rx_machine_direct.specs.PlainScalar.{plain-Scalar};
ghost use Rattle.rx_machine_direct.specs.PlainReached.{Wrote};

use crate::scalars::{Scalar, scalar_of};
use rx_core::Place;
use rx_machine_values::Memory;

/// The slot of a variable.
#[tactic(auto, using(crate::proofs::TableLemmas::recorded_index, crate::proofs::TableLemmas::recorded_past))]
pub fn slot_at(slots: &[Option<usize>], variable: usize) -> Option<usize>
    ensures { result ≡ spec.recorded slots.now variable }
{
    if variable < slots.len() {
        slots[variable]
    } else {
        None
    }
}

/// The number or truth value in a slot.
fn in_slot(memory: &Memory, slot: usize) -> Option<Scalar>
    ensures { option_map plain-Scalar result ≡ spec.in_slot (plain-Memory memory.now) slot }
{
    match memory.slot(slot) {
        Some(value) => scalar_of(value),
        None => None,
    }
}

/// The same of a slot that may not be there.
fn in_memory(memory: &Memory, slot: Option<usize>) -> Option<Scalar>
    ensures { option_map plain-Scalar result ≡ spec.in_memory (plain-Memory memory.now) slot }
{
    match slot {
        Some(slot) => in_slot(memory, slot),
        None => None,
    }
}

/// The number or truth value in a variable that is read as a whole.
pub fn at_place(slots: &[Option<usize>], memory: &Memory, place: &Place) -> Option<Scalar>
    ensures { option_map plain-Scalar result
        ≡ spec.at_place slots.now (plain-Memory memory.now) (variable_root place.now.var) place.now.steps }
{
    if place.steps.is_empty() {
        in_memory(memory, slot_at(slots, place.var as usize))
    } else {
        None
    }
}

/// Writes a number or truth value to a slot; whether it is there.
fn store_in(memory: &mut Memory, slot: Option<usize>, scalar: Scalar) -> bool
    ensures { Wrote (spec.stored_in (plain-Memory memory.old) slot (plain-Scalar scalar)) (plain-Memory memory.old) (plain-Memory memory.new) result }
{
    match slot {
        Some(slot) => memory.set(slot, scalar.value()),
        None => false,
    }
}

/// Writes a number or truth value to a variable as a whole; whether that was done.
pub fn store(slots: &[Option<usize>], memory: &mut Memory, place: &Place, scalar: Scalar) -> bool
    ensures { Wrote (spec.stored slots.now (plain-Memory memory.old) (variable_root place.now.var) place.now.steps (plain-Scalar scalar)) (plain-Memory memory.old) (plain-Memory memory.new) result }
{
    if place.steps.is_empty() {
        store_in(memory, slot_at(slots, place.var as usize), scalar)
    } else {
        false
    }
}

//! Where places lead, and what is read, borrowed and written there.

ghost use Rattle.std.specs.Prelude.{◌≡◌, [], true, false, IfOk, option_map};
ghost use Rattle.rx_meaning.specs.Values.{and_then};
ghost use Rattle.rx_meaning.specs.Places as places;
ghost use Rattle.rx_meaning.specs.Places.{in_slot, in_value, whole_value, reference_to as plain_reference};
ghost use Rattle.rx_machine_values.specs.PlainValues.{plain-Value, plain-Part, plain-Pointer};
ghost use Rattle.rx_machine_values.specs.PlainMemory.{plain-Memory};
ghost use Rattle.rx_machine_actions.specs.PlainActs.{plain-Spot, if_set, plain-Way, found_from, one_step, writable_spot, Wrote};

use rx_core::{LetGo, List, Step, keep, pushed};
use rx_machine_values::{
    Memory, Part, Pointer, Value, boxed_pointer, copied_part, is_part_set, step_from,
};
use std::alloc::{AllocError, Global};

/// Where a place leads.
#[derive(Drop)]
pub enum Spot<'v> {
    /// A slot, the path in it, and whether it was come to through mutable references alone.
    Slot(usize, List<Step>, bool),
    /// A part of a value that is held.
    Held(Part<'v>),
}

impl<'v> LetGo for Spot<'v> {
    fn let_go(self) {
        let _gone = self;
    }
}

/// What stands there.
fn content<'m>(memory: &'m Memory, at: &Spot<'m>) -> Option<Part<'m>>
    ensures { option_map plain-Part result ≡ places.content (plain-Memory memory.now) (plain-Spot at.now) }
{
    match at {
        Spot::Slot(slot, path, _) => memory.content(*slot, path.as_slice()),
        Spot::Held(part) => Some(*part),
    }
}

fn may_write(at: &Spot) -> bool
    ensures { result ≡ places.may_write (plain-Spot at.now) }
{
    match at {
        Spot::Slot(_, _, writable) => *writable,
        Spot::Held(_) => true,
    }
}

/// Where a reference leads.
fn at_pointer<'v>(
    alloc: Global,
    pointer: &Pointer,
    writable: bool,
) -> Result<Option<Spot<'v>>, AllocError>
    ensures { IfOk result (λ to. option_map plain-Spot to ≡ places.pointed writable (plain-Pointer pointer.now)) }
{
    let path = List::from_slice(alloc, pointer.path.as_slice())?;
    Ok(Some(Spot::Slot(pointer.slot, path, writable && pointer.mutable)))
}

/// Where the reference leads that stands somewhere.
fn pointed<'v>(alloc: Global, part: Part, writable: bool) -> Result<Option<Spot<'v>>, AllocError>
    ensures { IfOk result (λ to. option_map plain-Spot to ≡ places.pointed writable (plain-Part part.entry)) }
{
    match part {
        Part::Pointer(pointer) => at_pointer(alloc, pointer, writable),
        Part::Number(_) => Ok(None),
        Part::Truth(_) => Ok(None),
        Part::Whole(_) => Ok(None),
        Part::Tagged(_, _) => Ok(None),
        Part::Lacking(_) => Ok(None),
    }
}

/// Where a dereference leads.
fn behind<'v>(
    alloc: Global,
    memory: &'v Memory,
    at: &Spot<'v>,
) -> Result<Option<Spot<'v>>, AllocError>
    ensures { IfOk result (λ to. option_map plain-Spot to
        ≡ and_then (places.content (plain-Memory memory.now) (plain-Spot at.now)) (λ v. places.pointed (places.may_write (plain-Spot at.now)) v)) }
{
    match content(memory, at) {
        Some(part) => pointed(alloc, part, may_write(at)),
        None => Ok(None),
    }
}

fn held_deeper<'v>(part: Part<'v>, step: Step) -> Option<Spot<'v>>
    ensures { option_map plain-Spot result ≡ places.deeper step (in_value (plain-Part part.entry)) }
{
    match step_from(part, step) {
        Some(part) => Some(Spot::Held(part)),
        None => None,
    }
}

/// Where a step to a part leads.
fn deeper<'v>(at: Spot<'v>, step: Step) -> Result<Option<Spot<'v>>, AllocError>
    ensures { IfOk result (λ to. option_map plain-Spot to ≡ places.deeper step (plain-Spot at.entry)) }
{
    match at {
        Spot::Slot(slot, path, writable) => {
            let path = pushed(path, step)?;
            Ok(Some(Spot::Slot(slot, path, writable)))
        }
        Spot::Held(part) => Ok(held_deeper(part, step)),
    }
}

/// Where one step leads.
fn stepped<'v>(
    alloc: Global,
    memory: &'v Memory,
    at: Spot<'v>,
    step: Step,
) -> Result<Option<Spot<'v>>, AllocError>
    ensures { IfOk result (λ to. option_map plain-Spot to ≡ one_step (plain-Memory memory.now) step (plain-Spot at.entry)) }
{
    match step {
        Step::Deref(_) => behind(alloc, memory, &at),
        Step::Field(_) => deeper(at, step),
        Step::Variant(_) => deeper(at, step),
    }
}

/// Where steps lead.
#[tactic(auto, using(crate::proofs::SpotLemmas::follow_step))]
fn followed<'v>(
    alloc: Global,
    memory: &'v Memory,
    from: Spot<'v>,
    steps: &[Step],
) -> Result<Option<Spot<'v>>, AllocError>
    ensures { IfOk result (λ to. option_map plain-Spot to ≡ places.follow (plain-Memory memory.now) steps.now (plain-Spot from.entry)) }
{
    let mut at = from;
    for i in 0..steps.len() {
        match stepped(alloc, memory, at, steps[i])? {
            Some(next) => at = next,
            None => return Ok(None),
        }
    }
    Ok(Some(at))
}

/// A copy of what stands somewhere, where each part of it has a value.
fn copied_if_set(alloc: Global, part: Part) -> Result<Option<Value>, AllocError>
    ensures { IfOk result (λ it. option_map plain-Value it ≡ if_set (plain-Part part.entry)) }
{
    if is_part_set(part) {
        let value = copied_part(alloc, part)?;
        Ok(Some(value))
    } else {
        Ok(None)
    }
}

/// What stands where the steps lead from a slot.
pub fn at_place<'m>(memory: &'m Memory, slot: usize, steps: &[Step]) -> Option<Part<'m>>
    ensures { option_map plain-Part result
        ≡ and_then (places.follow (plain-Memory memory.now) steps.now (in_slot slot [] true)) (λ to. places.content (plain-Memory memory.now) to) }
{
    match memory.slot(slot) {
        Some(value) => memory.place(value.as_part(), steps),
        None => None,
    }
}

/// A copy of the value where the steps lead from a slot; none where that is Wrong.
#[tactic(auto, using(crate::proofs::SpotLemmas::found_whole))]
pub fn read(
    alloc: Global,
    memory: &Memory,
    slot: usize,
    steps: &[Step],
) -> Result<Option<Value>, AllocError>
    ensures { IfOk result (λ it. option_map plain-Value it
        ≡ and_then (found_from (plain-Memory memory.now) (in_slot slot [] true) steps.now) (λ f. whole_value f)) }
{
    match at_place(memory, slot, steps) {
        Some(part) => copied_if_set(alloc, part),
        None => Ok(None),
    }
}

#[tactic(auto, using(rx_machine_values::proofs::ValueRules::value_rules))]
fn reference_to(alloc: Global, at: Spot, mutable: bool) -> Result<Option<Value>, AllocError>
    ensures { IfOk result (λ it. option_map plain-Value it ≡ plain_reference mutable (plain-Spot at.entry)) }
{
    match at {
        Spot::Slot(slot, path, writable) => {
            let pointer = boxed_pointer(
                alloc,
                Pointer {
                    slot,
                    path,
                    mutable: mutable && writable,
                },
            )?;
            Ok(Some(Value::Pointer(pointer)))
        }
        Spot::Held(_) => Ok(None),
    }
}

/// A reference to where the steps lead, whatever stands there; none where that is Wrong.
pub fn borrow(
    alloc: Global,
    memory: &Memory,
    from: Spot,
    steps: &[Step],
    mutable: bool,
) -> Result<Option<Value>, AllocError>
    ensures { IfOk result (λ it. option_map plain-Value it
        ≡ and_then (places.follow (plain-Memory memory.now) steps.now (plain-Spot from.entry)) (λ at. plain_reference mutable at)) }
{
    match followed(alloc, memory, from, steps)? {
        Some(at) => reference_to(alloc, at, mutable),
        None => Ok(None),
    }
}

/// A slot and a path in it.
#[derive(Drop)]
struct Way {
    slot: usize,
    path: List<Step>,
}

/// The way to a spot at which something may be written.
fn writable(at: Spot) -> Option<Way>
    ensures { option_map plain-Way result ≡ writable_spot (plain-Spot at.entry) }
{
    match at {
        Spot::Slot(slot, path, writable) => {
            if writable {
                Some(Way { slot, path })
            } else {
                path.let_go();
                None
            }
        }
        Spot::Held(_) => None,
    }
}

/// The way to where the steps lead from a slot, where something may be written there.
fn way_to(
    alloc: Global,
    memory: &Memory,
    slot: usize,
    steps: &[Step],
) -> Result<Option<Way>, AllocError>
    ensures { IfOk result (λ to. option_map plain-Way to
        ≡ and_then (places.follow (plain-Memory memory.now) steps.now (in_slot slot [] true)) (λ at. writable_spot at)) }
{
    match followed(
        alloc,
        memory,
        Spot::Slot(slot, List::new(alloc), true),
        steps,
    )? {
        Some(at) => Ok(writable(at)),
        None => Ok(None),
    }
}

#[tactic(auto, using(crate::proofs::SpotLemmas::wrote_there, crate::proofs::SpotLemmas::wrote_nowhere))]
fn write_by(
    alloc: Global,
    memory: &mut Memory,
    slot: usize,
    steps: &[Step],
    value: Value,
) -> Result<bool, AllocError>
    ensures { IfOk result (λ done. Wrote (plain-Memory memory.old) slot steps.now (plain-Value value) (plain-Memory memory.new) done) }
{
    let (way, value) = keep(value, way_to(alloc, memory, slot, steps))?;
    match way {
        Some(way) => memory.write(alloc, way.slot, way.path.as_slice(), value),
        None => {
            value.let_go();
            Ok(false)
        }
    }
}

/// Writes a value where the steps lead from a slot; whether that may be. Else nothing changes.
#[tactic(auto, using(crate::proofs::SpotLemmas::wrote_here))]
pub fn write(
    alloc: Global,
    memory: &mut Memory,
    slot: usize,
    steps: &[Step],
    value: Value,
) -> Result<bool, AllocError>
    ensures { IfOk result (λ done. Wrote (plain-Memory memory.old) slot steps.now (plain-Value value) (plain-Memory memory.new) done) }
{
    if steps.is_empty() {
        Ok(memory.set(slot, value))
    } else {
        write_by(alloc, memory, slot, steps, value)
    }
}

#[tactic(auto, using(rx_machine_values::proofs::ValueRules::value_rules))]
fn share_pointer(pointer: Box<Pointer>) -> Option<Value>
    ensures { option_map plain-Value result ≡ and_then (places.pointed true (plain-Pointer pointer.value)) (λ at. plain_reference false at) }
{
    let mut pointer = pointer;
    pointer.mutable = false;
    Some(Value::Pointer(pointer))
}

/// A mutable reference as a shared one; none where the value is no reference.
#[tactic(auto, using(rx_machine_values::proofs::ValueRules::value_rules))]
pub fn share(value: Value) -> Option<Value>
    ensures { option_map plain-Value result ≡ and_then (places.pointed true (plain-Value value)) (λ at. plain_reference false at) }
{
    match value {
        Value::Pointer(pointer) => share_pointer(pointer),
        Value::Number(_) | Value::Truth(_) | Value::Unit | Value::Lacking(_) => None,
        Value::Whole(parts) => {
            Value::Whole(parts).let_go();
            None
        }
        Value::Tagged(tag, parts) => {
            Value::Tagged(tag, parts).let_go();
            None
        }
    }
}

//! What actions do to the paths of each variable, in a table by variable.

ghost use Rattle.std.specs.Prelude.{◌≡◌, ◌<◌, ℕ, ◌==◌, if◌then◌else◌, length, OnOk};
ghost use Rattle.rx_lower_walks.specs.PlainFlow.{plain-Act, plain-Action, plain-Place};
ghost use Rattle.rx_facts_tables.specs.Setting as setting;
ghost use Rattle.rx_modes_deeds.specs.Doings as spec;

use rx_core::Step;
use rx_lower_walks::{Act, Action, Place, Root};
use std::alloc::AllocError;

/// What some actions do to a variable: its own storage is what its paths in front of the first dereference name.
#[derive(Clone, Copy)]
pub struct Deeds {
    /// They move it, or a part of its own storage.
    pub moved: bool,
    /// They assign or mutably borrow some of its own storage.
    pub changed: bool,
    /// They share some of its own storage.
    pub shared: bool,
    /// They borrow some of its own storage mutably.
    pub borrowed_mutably: bool,
    /// They assign or mutably borrow something behind it.
    pub through: bool,
}

fn nothing_done() -> Deeds
    ensures { result ≡ spec.nothing_done }
{
    Deeds {
        moved: false,
        changed: false,
        shared: false,
        borrowed_mutably: false,
        through: false,
    }
}

fn moving() -> Deeds
    ensures { result ≡ spec.moving }
{
    Deeds {
        moved: true,
        changed: false,
        shared: false,
        borrowed_mutably: false,
        through: false,
    }
}

fn writing() -> Deeds
    ensures { result ≡ spec.writing }
{
    Deeds {
        moved: false,
        changed: true,
        shared: false,
        borrowed_mutably: false,
        through: false,
    }
}

fn changing_behind() -> Deeds
    ensures { result ≡ spec.changing_behind }
{
    Deeds {
        moved: false,
        changed: false,
        shared: false,
        borrowed_mutably: false,
        through: true,
    }
}

/// What a borrow does to the storage that it borrows.
fn borrowing(mutable: bool) -> Deeds
    ensures { result ≡ (if mutable then spec.lending else spec.sharing) }
{
    Deeds {
        moved: false,
        changed: mutable,
        shared: !mutable,
        borrowed_mutably: mutable,
        through: false,
    }
}

/// What a borrow does to what stands behind the variable.
fn borrowing_behind(mutable: bool) -> Deeds
    ensures { result ≡ (if mutable then spec.changing_behind else spec.nothing_done) }
{
    if mutable {
        changing_behind()
    } else {
        nothing_done()
    }
}

fn both(one: Deeds, other: Deeds) -> Deeds
    ensures { result ≡ spec.both one other }
{
    Deeds {
        moved: one.moved || other.moved,
        changed: one.changed || other.changed,
        shared: one.shared || other.shared,
        borrowed_mutably: one.borrowed_mutably || other.borrowed_mutably,
        through: one.through || other.through,
    }
}

/// Whether a place is behind a dereference.
fn is_behind(steps: &[Step]) -> bool
    ensures { result ≡ setting.is_behind steps.now }
{
    for step in steps {
        match *step {
            Step::Deref(_) => return true,
            Step::Field(_) | Step::Variant(_) => (),
        }
    }
    false
}

/// Makes the table go as far as a variable.
fn grow(table: &mut Vec<Deeds>, variable: usize) -> Result<(), AllocError>
    ensures within { OnOk result (variable < length table.new.items) }
    ensures same { spec.deeds_at table.new.items ≡ spec.deeds_at table.old.items }
{
    'grow: while table.len() <= variable {
        table.push(nothing_done())?;
    }
    Ok(())
}

/// Notes what is done to a variable.
fn add(table: &mut Vec<Deeds>, variable: usize, done: Deeds) -> Result<(), AllocError>
    ensures { OnOk result (spec.deeds_at table.new.items ≡ (λ x. spec.both (if variable == x then done else spec.nothing_done) (spec.deeds_at table.old.items x))) }
{
    grow(table, variable)?;
    table[variable] = both(done, table[variable]);
    Ok(())
}

/// Notes what is done to a place, by where it is: in front of each dereference, or behind one.
fn note_place(
    table: &mut Vec<Deeds>,
    place: &Place,
    own: Deeds,
    behind: Deeds,
) -> Result<(), AllocError>
    ensures { OnOk result (spec.deeds_at table.new.items ≡ (λ x. spec.both (spec.done_to (plain-Place place.now) own behind x) (spec.deeds_at table.old.items x))) }
{
    match place.root {
        Root::Variable(variable) => {
            let done = if is_behind(place.steps.as_slice()) {
                behind
            } else {
                own
            };
            add(table, variable as usize, done)
        }
        Root::Temporary(_) => Ok(()),
    }
}

/// Notes what an action does.
pub(crate) fn note(table: &mut Vec<Deeds>, action: &Action) -> Result<(), AllocError>
    ensures { OnOk result (spec.deeds_at table.new.items ≡ spec.noted (spec.deeds_at table.old.items) (plain-Action action.now)) }
{
    match &action.act {
        Act::Read(true, place, _) => note_place(table, place, moving(), nothing_done()),
        Act::Write(place, _, _) => note_place(table, place, writing(), changing_behind()),
        Act::Borrow(mutable, place, _) => {
            note_place(
                table,
                place,
                borrowing(*mutable),
                borrowing_behind(*mutable),
            )
        }
        _ => Ok(()),
    }
}

/// What is done to a variable, by a table.
pub fn deeds_of(table: &[Deeds], variable: u32) -> Deeds
    ensures { result ≡ spec.deeds_at table.now variable }
{
    match table.get(variable as usize) {
        Some(done) => *done,
        None => nothing_done(),
    }
}

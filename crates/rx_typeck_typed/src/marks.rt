//! Whether the lifetimes of structs and enums occur.

ghost use Rattle.std.specs.Prelude.{◌≡◌, IfOk, false, true, length, replicate, slice_set};
ghost use Rattle.rx_typeck_typed.specs.Steps as steps;
ghost use Rattle.rx_typeck_typed.specs.Items as items;
ghost use Rattle.rx_typeck_typed.specs.Marks as spec;

use crate::fault::DeclareFault;
use crate::reader::number;
use rx_tree::Ident;
use rx_typeck_solver::Rule;
use std::alloc::{AllocError, Global};

/// A table without a mark.
fn no_marks(alloc: Global, len: usize) -> Result<Vec<bool>, AllocError>
    ensures { IfOk result (λ marks. marks.items ≡ replicate len false) }
{
    let mut marks = Vec::new(alloc);
    for _lifetime in 0..len {
        marks.push(false)?;
    }
    Ok(marks)
}

fn mark(marks: &mut Vec<bool>, lifetime: u32)
    ensures { marks.new.items ≡ slice_set marks.old.items lifetime true }
{
    let place = lifetime as usize;
    if place < marks.len() {
        marks[place] = true;
    }
}

/// Marks these lifetimes.
fn mark_all(marks: &mut Vec<bool>, lifetimes: &[u32])
    ensures { marks.new.items ≡ spec.marked marks.old.items lifetimes.now }
{
    for lifetime in lifetimes {
        mark(marks, *lifetime);
    }
}

/// Whether a declared lifetime, by its number, has a mark.
fn used(marks: &[bool], place: usize, lifetime: &Ident) -> Result<(), DeclareFault>
    ensures { result ≡ spec.used_by marks.now place lifetime.now }
{
    match marks.get(number(place) as usize) {
        Some(true) => Ok(()),
        _ => Err(DeclareFault::Mismatch {
            at: lifetime.span,
            rule: Rule::Unused,
        }),
    }
}

/// Whether each declared lifetime has a mark.
fn all_used_by(marks: &[bool], declared: &[Ident]) -> Result<(), DeclareFault>
    ensures { result ≡ spec.all_used_by marks.now 0 declared.now }
{
    for i in 0..declared.len() {
        used(marks, i, &declared[i])?;
    }
    Ok(())
}

/// Whether each declared lifetime is among others. Linear in the length of both.
#[tactic(auto, using(crate::proofs::MarkLemmas::whole_marked))]
pub(crate) fn all_used(
    alloc: Global,
    declared: &[Ident],
    occurring: &[u32],
) -> Result<(), DeclareFault>
    ensures { steps.Gives (items.all_used 0 declared.now occurring.now) result }
{
    match no_marks(alloc, declared.len()) {
        Ok(marks) => {
            let mut marks = marks;
            mark_all(&mut marks, occurring);
            all_used_by(&marks, declared)
        }
        Err(AllocError) => Err(DeclareFault::OutOfMemory),
    }
}

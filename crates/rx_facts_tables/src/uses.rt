//! What actions use, and what they write as a whole.

ghost use Rattle.std.specs.Prelude.{◌≡◌, ◌++◌, ◌∷◌, [], true, false, map, option_map, IfOk, OnOk};
ghost use Rattle.rx_lower_walks.specs.PlainFlow.{plain-Act, plain-Root, plain-Temporary};
ghost use Rattle.rx_typed.specs.Tree as tree;
ghost use Rattle.rx_facts_tables.specs.Live as spec;

use rx_graph::Few;
use rx_lower_walks::{Act, Place, Root, Temporary};
use std::alloc::{AllocError, Global};

fn temporaries(alloc: Global, operands: &[Temporary]) -> Result<Few<Root>, AllocError>
    ensures { IfOk result (λ it. map plain-Root it ≡ map tree.temporary (map plain-Temporary operands.now)) }
{
    let mut all = Few::new(alloc);
    for operand in operands {
        all.push(Root::Temporary(*operand))?;
    }
    Ok(all)
}

/// What a write uses: its operand, and the place's root where it does not write the whole.
fn written_roots(alloc: Global, place: &Place, from: Temporary) -> Result<Few<Root>, AllocError>
    ensures { IfOk result (λ it. map plain-Root it ≡ tree.temporary (plain-Temporary from) ∷ spec.entered (plain-Root place.now.root) place.now.steps) }
{
    let mut all = Few::one(alloc, Root::Temporary(from));
    if !place.steps.is_empty() {
        all.push(place.root)?;
    }
    Ok(all)
}

/// What an action uses.
pub fn used(alloc: Global, act: &Act) -> Result<Few<Root>, AllocError>
    ensures { IfOk result (λ it. map plain-Root it ≡ spec.used (plain-Act act.now)) }
{
    match act {
        Act::Declare(_) | Act::Dead(_) | Act::Input(_) => Ok(Few::new(alloc)),
        Act::Read(_, place, _) => Ok(Few::one(alloc, place.root)),
        Act::Borrow(_, place, _) => Ok(Few::one(alloc, place.root)),
        Act::Test(place, _) => Ok(Few::one(alloc, place.root)),
        Act::Write(place, from, _) => written_roots(alloc, place, *from),
        Act::Call(_, operands, _) => temporaries(alloc, operands.as_slice()),
        Act::Build(_, _, operands, _) => temporaries(alloc, operands.as_slice()),
        Act::Print(from) => Ok(Few::one(alloc, Root::Temporary(*from))),
        Act::Give(from) => Ok(Few::one(alloc, Root::Temporary(*from))),
    }
}

/// The root of a place, where it has no steps.
fn whole(place: &Place) -> Option<Root>
    ensures { option_map plain-Root result ≡ spec.whole (plain-Root place.now.root) place.now.steps }
{
    if place.steps.is_empty() {
        Some(place.root)
    } else {
        None
    }
}

/// What an action writes as a whole: a variable, or the temporary that it fills.
pub fn written(act: &Act) -> Option<Root>
    ensures { option_map plain-Root result ≡ spec.written (plain-Act act.now) }
{
    match act {
        Act::Write(place, _, _) => whole(place),
        Act::Read(_, _, into) => Some(Root::Temporary(*into)),
        Act::Borrow(_, _, into) => Some(Root::Temporary(*into)),
        Act::Call(_, _, into) => Some(Root::Temporary(*into)),
        Act::Build(_, _, _, into) => Some(Root::Temporary(*into)),
        Act::Input(into) => Some(Root::Temporary(*into)),
        Act::Declare(_) | Act::Dead(_) | Act::Test(_, _) | Act::Print(_) | Act::Give(_) => None,
    }
}

//! Variables and temporaries with their types.

ghost use Rattle.std.specs.Prelude.{◌≡◌, ◌≤◌, ◌<◌, ℕ, map, length, get_or, slice_get, Some, IfOk};
ghost use Rattle.std.specs.Option.{option_copied};
ghost use Rattle.rx_typed.specs.Regions.{region-Ty};
ghost use Rattle.rx_lower_walks.specs.PlainFlow.{plain-Temporary, plain-Place};
ghost use Rattle.rx_typed.specs.Renaming.{unit_region};
ghost use Rattle.rx_typed.specs.Places.{place_type as place_type_of};
ghost use Rattle.rx_lower_lifetimes.specs.declared.held.Held.{Held as HeldOf};
ghost use Rattle.rx_lower_lifetimes.specs.Values as values;
ghost use Rattle.rx_lower_lifetimes.specs.Finding.{place_of};
ghost use Rattle.rx_lower_lifetimes.specs.PlainOf.{plain-Open, plain-Held, known};

use crate::noted::{HasNode, Noted};
use rx_core::{LetGo, List, Step, Ty};
use rx_lower_walks::{Place, Root, Temporary};
use rx_typed::{Decls, place_type};
use std::alloc::{AllocError, Global};

/// A type, in which each lifetime from a number on is open.
#[derive(Drop)]
pub struct Open {
    pub ty: Ty,
    pub from: u32,
}

/// A temporary that is filled, and its type.
#[derive(Drop)]
pub struct Held {
    pub temporary: Temporary,
    pub ty: Ty,
}

impl HasNode for Held {
    ghost node_of = { λ h. h.temporary.node };

    fn node(&self) -> usize {
        self.temporary.node
    }
}

impl HasNode for Temporary {
    ghost node_of = { λ t. t.node };

    fn node(&self) -> usize {
        self.node
    }
}

impl LetGo for Open {
    fn let_go(self) {
        self.ty.let_go();
    }
}

impl LetGo for Held {
    fn let_go(self) {
        self.ty.let_go();
    }
}

/// Where a temporary stands among those that are filled: behind all where it is none of them.
pub fn find(held: &Noted<Held>, temporary: Temporary) -> usize
    ensures { result ≡ place_of (map plain-Held held.now) (plain-Temporary temporary) }
{
    find_from(held.as_slice(), held.start(temporary.node), temporary)
}

/// Where a temporary stands among those that are filled, where none before the first place has its node.
fn find_from(held: &[Held], first: usize, temporary: Temporary) -> usize
    requires within { first ≤ length held.now }
    requires before { (i : ℕ) (one : HeldOf) → i < first → slice_get held.now i ≡ Some one → one.temporary.node ≡ temporary.node → ⊥ }
    ensures { result ≡ place_of (map plain-Held held.now) (plain-Temporary temporary) }
{
    for i in first..held.len() {
        if held[i].temporary.node == temporary.node && held[i].temporary.which == temporary.which {
            return i;
        }
    }
    held.len()
}

#[tactic(auto, using(rx_typed::proofs::TypedRules::region_rules))]
pub fn unit(alloc: Global) -> Ty
    ensures { region-Ty result ≡ unit_region }
{
    Ty::Tuple(List::new(alloc))
}

/// The type of a temporary that is filled.
fn held_at(held: &Noted<Held>, temporary: Temporary) -> Option<&Ty>
    ensures { values.type_found (option_copied result) ≡ values.held_type (map plain-Held held.now) (plain-Temporary temporary) }
{
    let at = find(held, temporary);
    let held = held.as_slice();
    if at < held.len() {
        Some(&held[at].ty)
    } else {
        None
    }
}

/// What stands behind steps from a temporary.
pub fn from_temporary(
    alloc: Global,
    decls: &Decls,
    held: &Noted<Held>,
    temporary: Temporary,
    steps: &[Step],
) -> Result<Ty, AllocError>
    ensures { IfOk result (λ it. region-Ty it ≡ place_type_of decls.now.items (values.held_type (map plain-Held held.now) (plain-Temporary temporary)) steps.now) }
{
    match held_at(held, temporary) {
        Some(ty) => place_type(alloc, decls, ty, steps),
        None => place_type(alloc, decls, &unit(alloc), steps),
    }
}

#[tactic(auto, using(crate::proofs::Finding::variable_there))]
fn from_variable(
    alloc: Global,
    decls: &Decls,
    variables: &[Open],
    variable: u32,
    steps: &[Step],
) -> Result<Ty, AllocError>
    ensures { IfOk result (λ it. region-Ty it ≡ place_type_of decls.now.items (get_or (map plain-Open variables.now) variable values.open_unit).typ steps.now) }
{
    match variables.get(variable as usize) {
        Some(open) => place_type(alloc, decls, &open.ty, steps),
        None => place_type(alloc, decls, &unit(alloc), steps),
    }
}

/// The type of a place; its lifetimes say nothing.
pub fn type_in(
    alloc: Global,
    decls: &Decls,
    variables: &[Open],
    held: &Noted<Held>,
    place: &Place,
) -> Result<Ty, AllocError>
    ensures { IfOk result (λ it. region-Ty it ≡ values.type_in (known decls.now.items variables.now) (map plain-Held held.now) (plain-Place place.now)) }
{
    match place.root {
        Root::Variable(variable) => {
            from_variable(alloc, decls, variables, variable, place.steps.as_slice())
        }
        Root::Temporary(temporary) => {
            from_temporary(alloc, decls, held, temporary, place.steps.as_slice())
        }
    }
}

//! What pairs are told by, and the types of variables, temporaries and places.

ghost use Rattle.std.specs.Prelude.{◌≡◌, ◌≤◌, ◌<◌, ◌+◌, ◌++◌, ℕ, map, drop, length, slice_get, Some, IfOk, OnOk};
ghost use Rattle.std.specs.Option.{option_copied};
ghost use Rattle.rx_typed.specs.Regions.{region-Ty};
ghost use Rattle.rx_typed.specs.Tree.{temporary as temporary_root, variable as variable_root};
ghost use Rattle.rx_lower_walks.specs.declared.actions.Temporary.{Temporary as TemporaryOf};
ghost use Rattle.rx_lower_walks.specs.PlainFlow.{plain-Root, plain-Temporary};
ghost use Rattle.rx_typed.specs.Renaming.{unit_region};
ghost use Rattle.rx_lower_lifetimes.specs.Answer.{plain-Lifetimes};
ghost use Rattle.rx_lower_lifetimes.specs.Values.{type_found};
ghost use Rattle.rx_region.specs.Constraints as spec;
ghost use Rattle.rx_region.specs.PlainContext.{plain-Given};
ghost use Rattle.rx_region.specs.Steps as steps_of;

use rx_core::{Bound, List, Step, Ty};
use rx_lower_lifetimes::{Lifetimes, Noted};
use rx_lower_walks::{Root, Temporary};
use rx_region_outlives::{Implied, add_subtypes};
use rx_typed::{Decls, place_type};
use std::alloc::{AllocError, Global};

/// What is declared, the pairs of each item's lifetimes that its fields ask, and the lifetimes of a function.
#[derive(Clone, Copy)]
pub struct Given<'t> {
    pub decls: &'t Decls,
    pub implied: &'t Implied,
    pub lifetimes: &'t Lifetimes,
}

/// What is behind the first.
pub fn others<T>(items: &[T]) -> &[T]
    ensures { result.now ≡ drop 1 items.now }
{
    match items.split_first() {
        Some((_, others)) => others,
        None => &[],
    }
}

#[tactic(auto, using(rx_typed::proofs::TypedRules::region_rules))]
fn unit(alloc: Global) -> Ty
    ensures { region-Ty result ≡ unit_region }
{
    Ty::Tuple(List::new(alloc))
}

/// Where a temporary stands among these; behind all where it is none of them.
fn find(temporaries: &Noted<Temporary>, temporary: Temporary) -> usize
    ensures { result ≡ steps_of.place_among (map plain-Temporary temporaries.now) (plain-Temporary temporary) }
{
    find_from(
        temporaries.as_slice(),
        temporaries.start(temporary.node),
        temporary,
    )
}

/// Where a temporary stands among these, where none before the first place has its node.
fn find_from(temporaries: &[Temporary], first: usize, temporary: Temporary) -> usize
    requires within { first ≤ length temporaries.now }
    requires before { (i : ℕ) (one : TemporaryOf) → i < first → slice_get temporaries.now i ≡ Some one → one.node ≡ temporary.node → ⊥ }
    ensures { result ≡ steps_of.place_among (map plain-Temporary temporaries.now) (plain-Temporary temporary) }
{
    for i in first..temporaries.len() {
        if temporaries[i].node == temporary.node && temporaries[i].which == temporary.which {
            return i;
        }
    }
    temporaries.len()
}

/// How many variables there are.
pub fn variables(lifetimes: &Lifetimes) -> usize
    ensures { result ≡ spec.variables_of (plain-Lifetimes lifetimes.now) }
{
    let types = lifetimes.types.len();
    let temporaries = lifetimes.temporaries.len();
    if types < temporaries {
        0
    } else {
        types - temporaries
    }
}

/// The type of a variable; one that is none is the unit.
fn variable_type(lifetimes: &Lifetimes, variable: u32) -> Option<&Ty>
    ensures { type_found (option_copied result) ≡ spec.root_type (plain-Lifetimes lifetimes.now) (variable_root variable) }
{
    let place = variable as usize;
    if place < variables(lifetimes) {
        lifetimes.types.get(place)
    } else {
        None
    }
}

/// The type so many places behind the first ones.
fn behind(types: &[Ty], first: usize, place: usize) -> Option<&Ty>
    ensures { type_found (option_copied result) ≡ type_found (slice_get types.now (first + place)) }
{
    if place < types.len() && first < types.len() - place {
        types.get(first + place)
    } else {
        None
    }
}

/// The type of a temporary; one that no site fills is the unit.
fn temporary_type(lifetimes: &Lifetimes, temporary: Temporary) -> Option<&Ty>
    ensures { type_found (option_copied result) ≡ spec.root_type (plain-Lifetimes lifetimes.now) (temporary_root (plain-Temporary temporary)) }
{
    let place = find(&lifetimes.temporaries, temporary);
    behind(lifetimes.types.as_slice(), variables(lifetimes), place)
}

/// The type of a variable or a temporary.
pub fn root_type(lifetimes: &Lifetimes, root: Root) -> Option<&Ty>
    ensures { type_found (option_copied result) ≡ spec.root_type (plain-Lifetimes lifetimes.now) (plain-Root root) }
{
    match root {
        Root::Variable(variable) => variable_type(lifetimes, variable),
        Root::Temporary(temporary) => temporary_type(lifetimes, temporary),
    }
}

impl<'t> Given<'t> {
    /// The type of a temporary.
    pub fn held(&self, temporary: Temporary) -> Option<&Ty>
        ensures { type_found (option_copied result) ≡ spec.held (plain-Given self.now) (plain-Temporary temporary) }
    {
        temporary_type(self.lifetimes, temporary)
    }

    /// The type behind steps from a variable or a temporary.
    pub fn type_at(&self, alloc: Global, root: Root, steps: &[Step]) -> Result<Ty, AllocError>
        ensures { IfOk result (λ it. region-Ty it ≡ spec.type_at (plain-Given self.now) (plain-Root root) steps.now) }
    {
        match root_type(self.lifetimes, root) {
            Some(ty) => place_type(alloc, self.decls, ty, steps),
            None => place_type(alloc, self.decls, &unit(alloc), steps),
        }
    }

    /// Adds what a value of a type asks where one of another is wanted. What has no type is the unit, and asks nothing.
    #[tactic(auto, using(crate::proofs::ConstraintsRules::flow_rules))]
    pub fn add_flow(
        &self,
        pairs: &mut List<Bound>,
        held: Option<&Ty>,
        wanted: Option<&Ty>,
    ) -> Result<(), AllocError>
        ensures { OnOk result (pairs.new ≡ pairs.old ++ spec.flows (plain-Given self.now) (type_found (option_copied held.entry)) (type_found (option_copied wanted.entry))) }
    {
        match held {
            Some(held) => match wanted {
                Some(wanted) => add_subtypes(pairs, self.decls, held, wanted),
                None => Ok(()),
            },
            None => Ok(()),
        }
    }
}

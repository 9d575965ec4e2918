//! What patterns are matched against.

ghost use Rattle.std.specs.Prelude.{◌≡◌, ◌++◌, ◌∷◌, [], IfOk};
ghost use Rattle.rx_typed.specs.PlainTree as typed;
ghost use Rattle.rx_typed.specs.Tree as tree;
ghost use Rattle.rx_lower_walks.specs.Actions as actions;
ghost use Rattle.rx_lower_walks.specs.PlainFlow.{plain-Place, plain-Temporary};
ghost use Rattle.rx_lower_order.specs.PlainParts.{plain-Subject};

use rx_core::{List, Place as OwnPlace, Step};
use rx_lower_walks::{Place, Root, Temporary};
use std::alloc::{AllocError, Global};

/// What a pattern is matched against: a place, or a value in its temporary.
#[derive(Clone, Copy)]
pub enum Subject<'a> {
    InPlace(&'a OwnPlace),
    InTemporary(Temporary),
}

/// The steps of the first list, then those of the second.
fn joined(alloc: Global, first: &[Step], second: &[Step]) -> Result<List<Step>, AllocError>
    ensures { IfOk result (λ it. it ≡ first.now ++ second.now) }
{
    let mut all = List::from_slice(alloc, first)?;
    for step in second {
        all.push(*step)?;
    }
    Ok(all)
}

/// The steps, and one more.
pub fn extended(alloc: Global, steps: &[Step], step: Step) -> Result<List<Step>, AllocError>
    ensures { IfOk result (λ it. it ≡ steps.now ++ step ∷ []) }
{
    let mut all = List::from_slice(alloc, steps)?;
    all.push(step)?;
    Ok(all)
}

/// A variable.
pub fn own(alloc: Global, variable: u32) -> Place
    ensures { plain-Place result ≡ tree.own variable }
{
    Place {
        root: Root::Variable(variable),
        steps: List::new(alloc),
    }
}

/// A temporary.
pub fn held(alloc: Global, temporary: Temporary) -> Place
    ensures { plain-Place result ≡ tree.temporary_place (plain-Temporary temporary) }
{
    Place {
        root: Root::Temporary(temporary),
        steps: List::new(alloc),
    }
}

/// A place of the text.
pub fn place_of(alloc: Global, place: &OwnPlace) -> Result<Place, AllocError>
    ensures { IfOk result (λ it. plain-Place it ≡ typed.plain-Place place.now) }
{
    let steps = List::from_slice(alloc, place.steps.as_slice())?;
    Ok(Place {
        root: Root::Variable(place.var),
        steps,
    })
}

/// The part that these steps lead to.
pub fn part(alloc: Global, subject: Subject<'_>, steps: &[Step]) -> Result<Place, AllocError>
    ensures { IfOk result (λ it. plain-Place it ≡ actions.part (plain-Subject subject.entry) steps.now) }
{
    match subject {
        Subject::InPlace(place) => {
            let steps = joined(alloc, place.steps.as_slice(), steps)?;
            Ok(Place {
                root: Root::Variable(place.var),
                steps,
            })
        }
        Subject::InTemporary(temporary) => {
            let steps = List::from_slice(alloc, steps)?;
            Ok(Place {
                root: Root::Temporary(temporary),
                steps,
            })
        }
    }
}

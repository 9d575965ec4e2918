//! Copies of actions.

ghost use Rattle.std.specs.Prelude.{◌≡◌, IfOk};

use crate::actions::{Act, Action, Check, Made, Place, Temporary};
use rx_core::{LetGo, List, Step, keep};
use std::alloc::{AllocError, Global};

fn place_copied(alloc: Global, place: &Place) -> Result<Place, AllocError>
    ensures { IfOk result (λ it. it ≡ place.now) }
{
    let steps = List::from_slice(alloc, place.steps.as_slice())?;
    Ok(Place {
        root: place.root,
        steps,
    })
}

fn read_copied(
    alloc: Global,
    moves: bool,
    place: &Place,
    into: Temporary,
) -> Result<Act, AllocError>
    ensures { IfOk result (λ it. it ≡ Act.Read moves place.now into) }
{
    let place = place_copied(alloc, place)?;
    Ok(Act::Read(moves, place, into))
}

fn write_copied(
    alloc: Global,
    place: &Place,
    from: Temporary,
    steps: &List<Step>,
) -> Result<Act, AllocError>
    ensures { IfOk result (λ it. it ≡ Act.Write place.now from steps.now) }
{
    let place = place_copied(alloc, place)?;
    let (steps, place) = keep(place, List::from_slice(alloc, steps.as_slice()))?;
    Ok(Act::Write(place, from, steps))
}

fn borrow_copied(
    alloc: Global,
    mutable: bool,
    place: &Place,
    into: Temporary,
) -> Result<Act, AllocError>
    ensures { IfOk result (λ it. it ≡ Act.Borrow mutable place.now into) }
{
    let place = place_copied(alloc, place)?;
    Ok(Act::Borrow(mutable, place, into))
}

fn test_copied(alloc: Global, place: &Place, check: Check) -> Result<Act, AllocError>
    ensures { IfOk result (λ it. it ≡ Act.Test place.now check) }
{
    let place = place_copied(alloc, place)?;
    Ok(Act::Test(place, check))
}

fn call_copied(
    alloc: Global,
    function: u32,
    operands: &List<Temporary>,
    into: Temporary,
) -> Result<Act, AllocError>
    ensures { IfOk result (λ it. it ≡ Act.Call function operands.now into) }
{
    let operands = List::from_slice(alloc, operands.as_slice())?;
    Ok(Act::Call(function, operands, into))
}

fn build_copied(
    alloc: Global,
    made: Made,
    fields: &List<usize>,
    operands: &List<Temporary>,
    into: Temporary,
) -> Result<Act, AllocError>
    ensures { IfOk result (λ it. it ≡ Act.Build made fields.now operands.now into) }
{
    let fields = List::from_slice(alloc, fields.as_slice())?;
    let operands = List::from_slice(alloc, operands.as_slice())?;
    Ok(Act::Build(made, fields, operands, into))
}

fn act_copied(alloc: Global, act: &Act) -> Result<Act, AllocError>
    ensures { IfOk result (λ it. it ≡ act.now) }
{
    match act {
        Act::Declare(variable) => Ok(Act::Declare(*variable)),
        Act::Dead(variable) => Ok(Act::Dead(*variable)),
        Act::Read(moves, place, into) => read_copied(alloc, *moves, place, *into),
        Act::Write(place, from, steps) => write_copied(alloc, place, *from, steps),
        Act::Borrow(mutable, place, into) => borrow_copied(alloc, *mutable, place, *into),
        Act::Test(place, check) => test_copied(alloc, place, *check),
        Act::Call(function, operands, into) => call_copied(alloc, *function, operands, *into),
        Act::Build(made, fields, operands, into) => {
            build_copied(alloc, *made, fields, operands, *into)
        }
        Act::Input(into) => Ok(Act::Input(*into)),
        Act::Print(from) => Ok(Act::Print(*from)),
        Act::Give(from) => Ok(Act::Give(*from)),
    }
}

/// The same action.
pub fn action_copied(alloc: Global, action: &Action) -> Result<Action, AllocError>
    ensures { IfOk result (λ it. it ≡ action.now) }
{
    let act = act_copied(alloc, &action.act)?;
    Ok(Action {
        node: action.node,
        act,
    })
}

//! What is noted of actions: the temporaries that they fill, and how many lifetimes they have of their own.

ghost use Rattle.std.specs.Prelude.{◌≡◌, map, OnOk};
ghost use Rattle.rx_lower_walks.specs.PlainFlow.{plain-Act, plain-Action};
ghost use Rattle.rx_lower_walks.specs.Actions as actions;
ghost use Rattle.rx_lower_lifetimes.specs.Values as values;
ghost use Rattle.rx_lower_lifetimes.specs.Held as acts;
ghost use Rattle.rx_lower_lifetimes.specs.PlainOf.{plain-Held, plain-Notes, known};

use crate::held::{Held, Open, find};
use crate::noted::Noted;
use crate::values::{filled, own_lifetimes, value_type};
use rx_lower_walks::{Act, Action};
use rx_typed::Decls;
use std::alloc::{AllocError, Global};

/// The temporaries that are filled, in the order of the first action that fills each, and how many lifetimes the actions have
/// of their own, 2^64 - 1 where there are more.
#[derive(Drop)]
pub struct Notes {
    pub held: Noted<Held>,
    pub own: u64,
}

/// The temporary that an action fills, where it is the first to fill it.
fn hold(
    alloc: Global,
    decls: &Decls,
    variables: &[Open],
    act: &Act,
    held: &mut Noted<Held>,
) -> Result<(), AllocError>
    ensures { OnOk result (map plain-Held held.new ≡ values.hold (map plain-Held held.old) (actions.filled (plain-Act act.now)) (values.value_type (known decls.now.items variables.now) (map plain-Held held.old) (plain-Act act.now))) }
{
    match filled(act) {
        Some(temporary) => {
            if find(held, temporary) < held.len() {
                return Ok(());
            }
            let ty = value_type(alloc, decls, variables, held, act)?;
            held.push(Held { temporary, ty })
        }
        None => Ok(()),
    }
}

/// Notes an action.
pub fn note(
    alloc: Global,
    decls: &Decls,
    variables: &[Open],
    action: &Action,
    notes: &mut Notes,
) -> Result<(), AllocError>
    ensures { OnOk result (plain-Notes notes.new ≡ acts.noted (known decls.now.items variables.now) (plain-Notes notes.old) (plain-Action action.now)) }
{
    hold(alloc, decls, variables, &action.act, &mut notes.held)?;
    let own = own_lifetimes(decls, &action.act);
    notes.own = notes.own.saturating_add(own as u64);
    Ok(())
}

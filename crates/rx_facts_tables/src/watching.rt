//! The places that writes are inside of.

ghost use Rattle.std.specs.Prelude.{◌≡◌, ◌≤◌, ℕ, ◌<◌, length, map, take, true, IfOk, OnOk};
ghost use Rattle.rx_lower_walks.specs.PlainFlow.{plain-Act};
ghost use Rattle.rx_lower_walks.specs.PlainSite.{plain-Site};
ghost use Rattle.rx_facts_tables.specs.Tables as tables;

use rx_core::{List, Place, Step};
use rx_lower_walks::{Act, Root, Site, same_steps};
use std::alloc::{AllocError, Global};

/// The first steps.
fn front(steps: &[Step], count: usize) -> &[Step]
    requires { count ≤ length steps.now }
    ensures { result.now ≡ take count steps.now }
{
    &steps[..count]
}

/// Whether it is this place of a variable.
#[tactic(auto, using(crate::proofs::Fronts::same_steps_is))]
fn is_place(place: &Place, variable: u32, steps: &[Step]) -> bool
    ensures { result ≡ true → place.now ≡ record { var = variable; steps = steps.now } }
{
    place.var == variable && same_steps(place.steps.as_slice(), steps)
}

/// Whether a place is among those that are watched.
fn is_watched(watched: &[Place], variable: u32, steps: &[Step]) -> bool
    ensures { result ≡ true → tables.Kept watched.now variable steps.now }
{
    for place in watched {
        if is_place(place, variable, steps) {
            return true;
        }
    }
    false
}

/// Watches a place.
fn watch(
    alloc: Global,
    watched: &mut List<Place>,
    variable: u32,
    steps: &[Step],
) -> Result<(), AllocError>
    ensures kept { OnOk result (tables.Kept watched.new variable steps.now) }
    ensures keeps { OnOk result (tables.Keeps watched.old watched.new) }
{
    if is_watched(watched.as_slice(), variable, steps) {
        return Ok(());
    }
    let steps = List::from_slice(alloc, steps)?;
    watched.push(Place {
        var: variable,
        steps,
    })
}

/// Watches what a way to a place of a variable leads through.
fn watch_fronts(
    alloc: Global,
    watched: &mut List<Place>,
    variable: u32,
    steps: &[Step],
) -> Result<(), AllocError>
    ensures kept { OnOk result ((k : ℕ) → k < length steps.now → tables.Kept watched.new variable (take k steps.now)) }
    ensures keeps { OnOk result (tables.Keeps watched.old watched.new) }
{
    for k in 0..steps.len() {
        watch(alloc, watched, variable, front(steps, k))?;
    }
    Ok(())
}

/// Watches the places that an action writes a part of.
fn watch_for(alloc: Global, watched: &mut List<Place>, act: &Act) -> Result<(), AllocError>
    ensures kept { OnOk result (tables.KeepsFor watched.new (plain-Act act.now)) }
    ensures keeps { OnOk result (tables.Keeps watched.old watched.new) }
{
    match act {
        Act::Write(place, _, _) => match place.root {
            Root::Variable(variable) => {
                watch_fronts(alloc, watched, variable, place.steps.as_slice())
            }
            Root::Temporary(_) => Ok(()),
        },
        _ => Ok(()),
    }
}

/// The places that sites write a part of, each once.
pub fn watched(alloc: Global, sites: &[Site]) -> Result<List<Place>, AllocError>
    ensures kept { IfOk result (λ it. tables.KeepsForAll it (map plain-Site sites.now)) }
    ensures few { IfOk result (λ it. length it ≤ 4294967295) }
{
    let mut all = List::new(alloc);
    for site in sites {
        watch_for(alloc, &mut all, &site.action.act)?;
    }
    if all.len() > 4294967295 {
        return Err(AllocError);
    }
    Ok(all)
}

//! How the answer has the variables of the text: a list of them, the newest first.

ghost use Rattle.std.specs.Prelude.{◌≡◌, ◌∷◌, [], not, Some, IfOk, OnOk, option_map};
ghost use Rattle.rx_engine_simulation.specs.Sights as sights;
ghost use Rattle.rx_engine_alike.specs.Likeness.{if_so, is_none};
ghost use Rattle.rx_engine_alike.specs.Variables as variables;
ghost use Rattle.rx_engine_alike.specs.PlainSights.{plain-How, plain-Sight, plain-Seen, plain-Renaming};

use rx_core::LetGo;
use std::alloc::AllocError;

/// What may still be written to a pair of slots.
#[derive(Clone, Copy)]
pub enum Hold {
    /// Nothing.
    Fixed,
    /// By the variable's name alone.
    Shut,
    /// Mutable references may lead there.
    Free,
}

/// How the answer has a variable of the text.
#[derive(Clone, Copy)]
pub enum How {
    /// In the slot of a pair.
    Plain(Hold),
    /// In a slot of its own.
    Special,
    /// Behind a reference, mutable or not, to the slot of a pair.
    Through(Hold, bool),
    /// In a slot with an equal value.
    Copied,
    /// The same, where the reference that it holds is shared.
    Viewed,
    /// Nowhere.
    Absent,
}

/// A variable of the text, and the answer's for it.
#[derive(Clone, Copy)]
pub struct Seen {
    pub variable: u32,
    pub to: u32,
    pub how: How,
}

impl LetGo for Seen {
    fn let_go(self) {}
}

/// How the answer has a variable.
pub fn sight_of(renaming: &[Seen], variable: u32) -> Option<Seen>
    ensures { option_map plain-Sight result ≡ sights.sight_of (plain-Renaming renaming.now) variable }
{
    for seen in renaming {
        if variable == seen.variable {
            return Some(*seen);
        }
    }
    None
}

/// Whether the answer has it.
fn is_seen(renaming: &[Seen], variable: u32) -> bool
    ensures { result ≡ not (is_none (sights.sight_of (plain-Renaming renaming.now) variable)) }
{
    match sight_of(renaming, variable) {
        Some(_) => true,
        None => false,
    }
}

/// Whether no variable of the text has this one.
pub fn is_new(renaming: &[Seen], to: u32) -> bool
    ensures { result ≡ variables.is_new (plain-Renaming renaming.now) to }
{
    for seen in renaming {
        if seen.to == to {
            return false;
        }
    }
    true
}

/// Puts a variable in front of the others.
fn put_in_front(renaming: &mut Vec<Seen>, seen: Seen) -> Result<(), AllocError>
    ensures { OnOk result (plain-Renaming renaming.new.items ≡ plain-Seen seen ∷ plain-Renaming renaming.old.items) }
{
    match renaming.insert(0, seen) {
        Ok(()) => Ok(()),
        Err(_) => Err(AllocError),
    }
}

/// Adds a variable of the text that has none yet, with one of the answer that none has; says whether that is so.
pub fn with_seen(
    renaming: &mut Vec<Seen>,
    variable: u32,
    to: u32,
    how: How,
) -> Result<bool, AllocError>
    ensures { IfOk result (λ it. if_so it (Some (plain-Renaming renaming.new.items))
        ≡ variables.with_seen (plain-Renaming renaming.old.items) variable to (plain-How how)) }
{
    if is_seen(renaming.as_slice(), variable) {
        return Ok(false);
    }
    if is_new(renaming.as_slice(), to) {
        put_in_front(renaming, Seen { variable, to, how })?;
        Ok(true)
    } else {
        Ok(false)
    }
}

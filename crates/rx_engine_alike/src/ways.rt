//! How the answer's place stands to the text's, step by step, and which uses there are alike.

ghost use Rattle.std.specs.Prelude.{◌≡◌, ◌∷◌};
ghost use Rattle.rx_typed.specs.PlainTree.{plain-Place};
ghost use Rattle.rx_engine_simulation.specs.Places as places;
ghost use Rattle.rx_engine_alike.specs.Ways as ways;
ghost use Rattle.rx_engine_alike.specs.PlainSights.{plain-How, plain-Renaming};
ghost use Rattle.rx_engine_alike.specs.PlainWays.{plain-Way, plain-Use};

use crate::sights::{Hold, How, Seen, sight_of};
use rx_core::{Place, Step};

#[derive(Clone, Copy)]
pub enum Way {
    /// The places are not alike.
    Apart,
    /// From a temporary of each.
    FromValue,
    /// From a variable that the answer has behind a shared reference, in front of the dereference of both.
    InFront,
    /// From a variable that is seen so; whether it is its own storage still.
    FromVariable(How, bool),
}

/// What is done in a place.
#[derive(Clone, Copy)]
pub enum Use {
    /// It is read, or tested.
    Looking,
    /// It is borrowed shared.
    Sharing,
    /// It is borrowed mutable.
    Changing,
    Writing,
}

/// Both go to the same part.
pub(crate) fn by_part(way: Way) -> Way
    ensures { plain-Way result ≡ ways.by_part (plain-Way way) }
{
    match way {
        Way::InFront => Way::Apart,
        Way::Apart | Way::FromValue | Way::FromVariable(_, _) => way,
    }
}

/// Both go through a reference.
pub fn by_dereference(way: Way) -> Way
    ensures { plain-Way result ≡ ways.by_dereference (plain-Way way) }
{
    match way {
        Way::InFront => Way::FromVariable(How::Viewed, false),
        Way::FromVariable(how, _) => Way::FromVariable(how, false),
        Way::Apart | Way::FromValue => way,
    }
}

/// A step of each.
pub fn then_step(way: Way, step: Step, other: Step) -> Way
    ensures { plain-Way result ≡ ways.then_step (plain-Way way) step other }
{
    match step {
        Step::Field(field) => match other {
            Step::Field(second) => if field == second {
                by_part(way)
            } else {
                Way::Apart
            },
            Step::Variant(_) | Step::Deref(_) => Way::Apart,
        },
        Step::Variant(variant) => match other {
            Step::Variant(second) => if variant == second {
                by_part(way)
            } else {
                Way::Apart
            },
            Step::Field(_) | Step::Deref(_) => Way::Apart,
        },
        Step::Deref(_) => match other {
            Step::Deref(_) => by_dereference(way),
            Step::Field(_) | Step::Variant(_) => Way::Apart,
        },
    }
}

fn then_steps(way: Way, steps: &[Step], others: &[Step]) -> Way
    ensures { plain-Way result ≡ ways.then_steps (plain-Way way) steps.now others.now }
{
    let mut way = way;
    let mut left = steps;
    let mut right = others;
    while let [step, steps_behind @ ..] = left {
        let [other, others_behind @ ..] = right else {
            return Way::Apart;
        };
        way = then_step(way, *step, *other);
        left = steps_behind;
        right = others_behind;
    }
    match right {
        [] => way,
        [_, ..] => Way::Apart,
    }
}

/// The answer goes through a reference first.
fn behind_steps(way: Way, steps: &[Step], others: &[Step]) -> Way
    ensures { plain-Way result ≡ ways.behind_steps (plain-Way way) steps.now others.now }
{
    match others {
        [Step::Deref(_), behind @ ..] => then_steps(way, steps, behind),
        [Step::Field(_) | Step::Variant(_), ..] => Way::Apart,
        [] => Way::Apart,
    }
}

fn way_seen(how: How, steps: &[Step], others: &[Step]) -> Way
    ensures { plain-Way result ≡ ways.way_seen (plain-How how) steps.now others.now }
{
    match how {
        How::Through(_, _) => behind_steps(Way::FromVariable(how, true), steps, others),
        How::Viewed => then_steps(Way::InFront, steps, others),
        How::Absent => Way::Apart,
        How::Plain(_) | How::Special | How::Copied => {
            then_steps(Way::FromVariable(how, true), steps, others)
        }
    }
}

/// How the answer's place stands to the text's.
pub fn way_of(renaming: &[Seen], place: &Place, other: &Place) -> Way
    ensures { plain-Way result ≡ ways.way_of (plain-Renaming renaming.now) (plain-Place place.now) (plain-Place other.now) }
{
    match sight_of(renaming, place.var) {
        Some(seen) => {
            if seen.to == other.var {
                way_seen(seen.how, place.steps.as_slice(), other.steps.as_slice())
            } else {
                Way::Apart
            }
        }
        None => Way::Apart,
    }
}

fn is_not_copied(how: How) -> bool
    ensures { result ≡ ways.not_copied (plain-How how) }
{
    match how {
        How::Copied => false,
        How::Plain(_) | How::Special | How::Through(_, _) | How::Viewed | How::Absent => true,
    }
}

fn is_freed(how: How) -> bool
    ensures { result ≡ ways.is_freed (plain-How how) }
{
    match how {
        How::Plain(Hold::Free) | How::Through(Hold::Free, _) => true,
        How::Plain(Hold::Fixed | Hold::Shut) | How::Through(Hold::Fixed | Hold::Shut, _) => false,
        How::Special | How::Copied | How::Viewed | How::Absent => false,
    }
}

fn is_mutable(how: How) -> bool
    ensures { result ≡ ways.is_mutable (plain-How how) }
{
    match how {
        How::Through(_, mutable) => mutable,
        How::Viewed => false,
        How::Plain(_) | How::Special | How::Copied | How::Absent => true,
    }
}

fn may_seen(done: Use, how: How, own: bool) -> bool
    ensures { result ≡ ways.may_seen (plain-Use done) (plain-How how) own }
{
    match done {
        Use::Looking => true,
        Use::Sharing => !own || is_not_copied(how),
        Use::Changing => (!own || is_freed(how)) && is_mutable(how),
        Use::Writing => (!own || is_not_copied(how)) && is_mutable(how),
    }
}

/// Whether the use is alike in both.
pub fn may(done: Use, way: Way) -> bool
    ensures { result ≡ ways.may (plain-Use done) (plain-Way way) }
{
    match way {
        Way::Apart | Way::InFront => false,
        Way::FromValue => true,
        Way::FromVariable(how, own) => may_seen(done, how, own),
    }
}

/// Whether places are alike for such a use.
pub fn like_place(renaming: &[Seen], done: Use, place: &Place, other: &Place) -> bool
    ensures { result ≡ ways.like_place (plain-Renaming renaming.now) (plain-Use done) (plain-Place place.now) (plain-Place other.now) }
{
    may(done, way_of(renaming, place, other))
}

/// What a borrow does.
pub fn use_of(mutable: bool) -> Use
    ensures { plain-Use result ≡ places.use_of mutable }
{
    if mutable { Use::Changing } else { Use::Sharing }
}

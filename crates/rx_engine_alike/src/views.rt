//! References of the text that are shared in the answer, and places of it that are read in place of a value.

ghost use Rattle.std.specs.Prelude.{◌≡◌, false};
ghost use Rattle.rx_typed.specs.PlainTree.{plain-Expr, plain-Place, plain-Pattern, plain-Matched};
ghost use Rattle.rx_engine_simulation.specs.Sights.{sight_of};
ghost use Rattle.rx_engine_alike.specs.Forms as forms;
ghost use Rattle.rx_engine_alike.specs.PlainSights.{plain-How, plain-Renaming};
ghost use Rattle.rx_engine_alike.specs.PlainWays.{plain-Way};

use crate::patterns::{binds_value, looks_behind, way_of_matched};
use crate::reading::{borrow_of, read_of};
use crate::sights::{How, Seen, sight_of};
use crate::ways::{Use, Way, like_place};
use rx_core::{Place, Step};
use rx_typed::{Expr, Matched, Pattern};

fn is_viewed(how: How) -> bool
    ensures { result ≡ forms.is_viewed (plain-How how) }
{
    match how {
        How::Viewed => true,
        How::Plain(_) | How::Special | How::Through(_, _) | How::Copied | How::Absent => false,
    }
}

/// Whether the answer has the variable as that one, shared.
fn is_viewed_as(renaming: &[Seen], variable: u32, to: u32) -> bool
    ensures { result ≡ forms.is_viewed_as (sight_of (plain-Renaming renaming.now) variable) to }
{
    match sight_of(renaming, variable) {
        Some(seen) => seen.to == to && is_viewed(seen.how),
        None => false,
    }
}

/// Whether what the variable leads to is asked for again, where the answer has the shared reference.
fn views_shared(renaming: &[Seen], place: &Place, other: &Place) -> bool
    ensures { result ≡ forms.views_place (plain-Renaming renaming.now) false (plain-Place place.now) (plain-Place other.now) }
{
    match place.steps.as_slice() {
        [] => false,
        [step] => match *step {
            Step::Deref(_) => match other.steps.as_slice() {
                [] => is_viewed_as(renaming, place.var, other.var),
                [_, ..] => false,
            },
            Step::Field(_) | Step::Variant(_) => false,
        },
        [step, _, ..] => match *step {
            Step::Deref(_) | Step::Field(_) | Step::Variant(_) => false,
        },
    }
}

pub fn views_place(renaming: &[Seen], mutable: bool, place: &Place, other: &Place) -> bool
    ensures { result ≡ forms.views_place (plain-Renaming renaming.now) mutable (plain-Place place.now) (plain-Place other.now) }
{
    if mutable {
        false
    } else {
        views_shared(renaming, place, other)
    }
}

#[tactic(auto, using(crate::proofs::ReadLemmas::read_rules))]
fn views_exp(renaming: &[Seen], expr: &Expr, other: &Place) -> bool
    ensures { result ≡ forms.views_exp (plain-Renaming renaming.now) (plain-Expr expr.now) (plain-Place other.now) }
{
    match borrow_of(expr) {
        Some((mutable, place)) => views_place(renaming, mutable, place, other),
        None => false,
    }
}

/// Whether the text's value is the answer's, read in this place.
#[tactic(auto, using(crate::proofs::ReadLemmas::read_rules))]
fn is_read_in(renaming: &[Seen], other: &Place, expr: &Expr) -> bool
    ensures { result ≡ forms.is_read_in (plain-Renaming renaming.now) (plain-Place other.now) (plain-Expr expr.now) }
{
    match read_of(expr) {
        Some((_, place)) => like_place(renaming, Use::Looking, place, other),
        None => views_exp(renaming, expr, other),
    }
}

fn is_variable(place: &Place) -> bool
    ensures { result ≡ forms.is_variable (plain-Place place.now).root (plain-Place place.now).steps }
{
    match place.steps.as_slice() {
        [] => true,
        [_, ..] => false,
    }
}

fn looks_behind_place(place: &Place, pattern: &Pattern) -> bool
    ensures { result ≡ forms.looks_behind_place (plain-Place place.now).root (plain-Place place.now).steps (plain-Pattern pattern.now) }
{
    match place.steps.as_slice() {
        [] => looks_behind(place.var, pattern),
        [_, ..] => false,
    }
}

/// Whether a `let` of the answer may look into this place where the text binds that value.
pub fn may_be_read(renaming: &[Seen], expr: &Expr, pattern: &Pattern, place: &Place) -> bool
    ensures { result ≡ forms.may_be_read (plain-Renaming renaming.now) (plain-Expr expr.now) (plain-Pattern pattern.now) (plain-Place place.now) }
{
    is_read_in(renaming, place, expr)
        && ((binds_value(pattern) && is_variable(place))
            || (views_exp(renaming, expr, place) && looks_behind_place(place, pattern)))
}

/// How what a `let` matches stands to each other, with the answer's pattern.
#[tactic(auto, using(rx_typed::proofs::Rules::typed_tree_rules))]
pub fn way_of_let(renaming: &[Seen], matched: &Matched, pattern: &Pattern, other: &Matched) -> Way
    ensures { plain-Way result ≡ forms.way_of_let (plain-Renaming renaming.now) (plain-Matched matched.now) (plain-Pattern pattern.now) (plain-Matched other.now) }
{
    match matched {
        Matched::Place(_, _) => way_of_matched(renaming, matched, other),
        Matched::Value(value) => match other {
            Matched::Place(_, place) => {
                if may_be_read(renaming, value.get(), pattern, place) {
                    Way::FromValue
                } else {
                    Way::Apart
                }
            }
            Matched::Value(_) => Way::FromValue,
        },
    }
}

//! Expressions of the text that have no part which is looked at in turn, and the answer's.

ghost use Rattle.std.specs.Prelude.{◌≡◌, ◌&&◌};
ghost use Rattle.rx_typed.specs.PlainTree.{plain-Expr, plain-Place};
ghost use Rattle.rx_engine_simulation.specs.Jumps.{Jumping};
ghost use Rattle.rx_engine_simulation.specs.Places.{looking, use_of as use_in};
ghost use Rattle.rx_typed.specs.Tree as tree;
ghost use Rattle.rx_engine_alike.specs.Likeness.{provided, when, alike};
ghost use Rattle.rx_engine_alike.specs.Read as read;
ghost use Rattle.rx_engine_alike.specs.Same.{same_bool as same_bools};
ghost use Rattle.rx_engine_alike.specs.Ways.{like_place as like_places};
ghost use Rattle.rx_engine_alike.specs.Forms as forms;
ghost use Rattle.rx_engine_alike.specs.PlainSights.{plain-Renaming};

use crate::reading::{borrow_of, input_of, read_of, unit_of};
use crate::same::same_bool;
use crate::sights::Seen;
use crate::views::views_place;
use crate::ways::{Use, like_place, use_of};
use rx_core::Place;
use rx_typed::Expr;

/// Whether the same place is read.
pub(crate) fn like_read(renaming: &[Seen], place: &Place, other: &Expr) -> bool
    ensures { provided result alike ≡ when (read.as_read (plain-Expr other.now)) (λ r. provided (like_places (plain-Renaming renaming.now) looking (plain-Place place.now) r.2) alike) }
{
    match read_of(other) {
        Some((_, second)) => like_place(renaming, Use::Looking, place, second),
        None => false,
    }
}

/// Whether the same place is borrowed.
fn like_borrowed(renaming: &[Seen], mutable: bool, place: &Place, other: &Expr) -> bool
    ensures { provided result alike ≡ when (read.as_borrow (plain-Expr other.now))
        (λ r. provided (same_bools mutable r.1 && like_places (plain-Renaming renaming.now) (use_in mutable) (plain-Place place.now) r.2) alike) }
{
    match borrow_of(other) {
        Some((second, other_place)) => {
            same_bool(mutable, second) && like_place(renaming, use_of(mutable), place, other_place)
        }
        None => false,
    }
}

/// Whether the same place is borrowed, or the answer reads the reference that is asked for again.
#[tactic(auto, using(crate::proofs::ReadLemmas::borrow_rules))]
pub(crate) fn like_borrow(renaming: &[Seen], mutable: bool, place: &Place, other: &Expr) -> bool
    ensures { (C : forms.Between) (J : Jumping) (m : tree.Mark) → provided result alike
        ≡ forms.like_exp C J (plain-Renaming renaming.now) (tree.borrow m mutable (plain-Place place.now)) (plain-Expr other.now) }
{
    match read_of(other) {
        Some((_, second)) => views_place(renaming, mutable, place, second),
        None => like_borrowed(renaming, mutable, place, other),
    }
}

/// Whether it is the unit.
pub(crate) fn like_unit(other: &Expr) -> bool
    ensures { provided result alike ≡ when (read.as_unit (plain-Expr other.now)) (λ r. alike) }
{
    match unit_of(other) {
        Some(_) => true,
        None => false,
    }
}

/// Whether it reads an input.
pub(crate) fn like_input(other: &Expr) -> bool
    ensures { provided result alike ≡ when (read.as_input (plain-Expr other.now)) (λ r. alike) }
{
    match input_of(other) {
        Some(_) => true,
        None => false,
    }
}

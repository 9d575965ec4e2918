//! The modes that the uses of a variable allow.

ghost use Rattle.std.specs.Prelude.{◌≡◌, true};
ghost use Rattle.rx_modes_policy.specs.Allowed as spec;

use crate::uses::{Mode, Uses};

/// One mode or two: where there is one, it stands in both fields; none where the variable can't be passed.
#[derive(Clone, Copy, Debug, PartialEq, Eq)]
pub struct ModeChoice {
    pub first: Option<Mode>,
    pub last: Option<Mode>,
}

fn one(mode: Mode) -> ModeChoice
    ensures { result ≡ spec.one mode }
{
    ModeChoice {
        first: Some(mode),
        last: Some(mode),
    }
}

fn two(first: Mode, last: Mode) -> ModeChoice
    ensures { result ≡ spec.two first last }
{
    ModeChoice {
        first: Some(first),
        last: Some(last),
    }
}

fn none() -> ModeChoice
    ensures { result ≡ spec.none }
{
    ModeChoice {
        first: None,
        last: None,
    }
}

/// The modes of what is written behind a reference: a reference that is reborrowed or lent mutably, or a value that is
/// given away.
fn allowed_through(uses: &Uses) -> ModeChoice
    requires { uses.now.through ≡ true }
    ensures { result ≡ spec.first_row (spec.rows_through uses.now) }
{
    if uses.mut_ref {
        if !uses.declared_mut {
            one(Mode::Reborrow)
        } else if uses.lent {
            one(Mode::Mut)
        } else if uses.mut_out {
            one(Mode::Mut)
        } else {
            two(Mode::Reborrow, Mode::Mut)
        }
    } else if uses.declared_mut {
        one(Mode::Mut)
    } else if uses.live_out {
        none()
    } else {
        one(Mode::Value)
    }
}

/// The modes of what is read alone.
fn allowed_read(uses: &Uses) -> ModeChoice
    ensures { result ≡ spec.first_row (spec.rows_read uses.now) }
{
    if uses.lent {
        one(Mode::Shared)
    } else if uses.mut_out {
        one(Mode::Shared)
    } else if uses.mut_ref {
        two(Mode::View, Mode::Shared)
    } else if uses.copy {
        two(Mode::Value, Mode::Shared)
    } else {
        one(Mode::Shared)
    }
}

/// The modes of what is moved.
fn allowed_moved(uses: &Uses) -> ModeChoice
    requires { uses.now.moved ≡ true }
    ensures { result ≡ spec.first_row (spec.rows_moved uses.now) }
{
    if !uses.live_out {
        one(Mode::Value)
    } else if uses.declared_mut {
        one(Mode::Value)
    } else {
        none()
    }
}

/// The modes in which a variable with these uses can be passed. It takes no memory.
pub fn allowed(uses: &Uses) -> ModeChoice
    ensures { result ≡ spec.allowed_by uses.now }
{
    if uses.moved {
        allowed_moved(uses)
    } else if uses.written {
        if uses.declared_mut {
            one(Mode::Mut)
        } else {
            none()
        }
    } else if uses.through {
        allowed_through(uses)
    } else {
        allowed_read(uses)
    }
}

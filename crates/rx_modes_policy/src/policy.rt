//! A policy: what chooses among the modes that the uses of a variable allow.

ghost use Rattle.std.specs.Prelude.{◌≡◌};
ghost use Rattle.rx_modes_policy.specs.Allowed as spec;
ghost use Rattle.rx_modes_policy.specs.Members as members;
ghost use Rattle.rx_modes_policy.specs.declared.uses.Mode.{Mode as ModeOf};
ghost use Rattle.rx_modes_policy.specs.declared.uses.Uses.{Uses as UsesOf};

use crate::choices::allowed;
use crate::uses::{Mode, Uses};

/// What chooses a mode for a variable by its uses: one of those that they allow, wherever they allow one.
pub trait Policy {
    /// The mode that is chosen for uses.
    ghost choice: { Self → UsesOf → ModeOf };

    /// The mode for these uses, which allow one.
    fn choose(&self, uses: Uses) -> Mode
        requires { spec.HasMember (spec.allowed_by uses) }
        ensures { result ≡ choice self.now uses };

    ghost members: { (p : Self) (u : UsesOf) → spec.HasMember (spec.allowed_by u) → spec.IsMember (choice p u) (spec.allowed_by u) };
}

/// Takes the first allowed mode: a value where it may be one.
#[derive(Clone, Copy)]
pub struct ByCopy;

/// Takes the last allowed mode: a reference where it may be one.
#[derive(Clone, Copy)]
pub struct ByReference;

impl Policy for ByCopy {
    ghost choice = { λ p u. spec.first_of (spec.allowed_by u) };

    fn choose(&self, uses: Uses) -> Mode {
        match allowed(&uses).first {
            Some(mode) => mode,
            None => Mode::Shared,
        }
    }

    ghost members = { λ p u h. members.first_is_member u h };
}

impl Policy for ByReference {
    ghost choice = { λ p u. spec.last_of (spec.allowed_by u) };

    fn choose(&self, uses: Uses) -> Mode {
        match allowed(&uses).last {
            Some(mode) => mode,
            None => Mode::Shared,
        }
    }

    ghost members = { λ p u h. members.last_is_member u h };
}

//! Sets of heads, in the order in which they came.

ghost use Rattle.std.specs.Prelude.{◌≡◌, OnOk, map};
ghost use Rattle.rx_cover.specs.Heads as spec;
ghost use Rattle.rx_cover.specs.PlainCells.{plain-Head};

use crate::heads::Head;
use indexmap::IndexSet;
use std::alloc::AllocError;

/// Whether a head is one of these.
pub(crate) fn has(heads: &IndexSet<Head>, head: Head) -> bool
    ensures { result ≡ spec.has (map plain-Head heads.now.keys) (plain-Head head) }
{
    heads.contains(&head)
}

/// The place of a head among these, from 0; of another, how many these are.
pub(crate) fn place(heads: &IndexSet<Head>, head: Head) -> usize
    ensures { result ≡ spec.place (map plain-Head heads.now.keys) (plain-Head head) }
{
    match heads.get_index_of(&head) {
        Some(place) => place,
        None => heads.len(),
    }
}

/// Adds a head that is not there yet.
pub(crate) fn add(heads: &mut IndexSet<Head>, head: Head) -> Result<(), AllocError>
    ensures { OnOk result (map plain-Head heads.new.keys ≡ spec.with_one (map plain-Head heads.old.keys) (plain-Head head)) }
{
    match heads.insert(head) {
        Ok(_) => Ok(()),
        Err(_) => Err(AllocError),
    }
}

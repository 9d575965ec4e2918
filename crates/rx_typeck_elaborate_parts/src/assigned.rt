//! The types of the nodes of a function.

ghost use Rattle.std.specs.Prelude.{◌≡◌, slice_get};
ghost use Rattle.std.specs.Option.{option_copied};
ghost use Rattle.rx_typeck_elaborate_parts.specs.Assigning.{joined};

use rx_core::{List, Ty};

/// The types of the nodes of a function, by the numbers of the nodes.
#[derive(Drop)]
pub struct NodeTypes {
    /// The type of each node that has one.
    pub nodes: List<Option<Ty>>,
    /// The type that the place of a node expects, where it expects one.
    pub expected: List<Option<Ty>>,
}

/// The type of this number, where there is one.
pub(crate) fn type_at(types: &List<Option<Ty>>, number: usize) -> Option<&Ty>
    ensures { option_copied result ≡ joined (slice_get types.now number) }
{
    match types.get(number) {
        Some(entry) => match entry {
            Some(ty) => Some(ty),
            None => None,
        },
        None => None,
    }
}

//! What is told of an expression that was walked.

ghost use Rattle.std.specs.Prelude.{◌≡◌, Bool, true, false};
ghost use Rattle.rx_typeck_elaborate_parts.specs.Seeing as seeing;

use rx_typed::{Node, Use};

/// What the rules of what stands round an expression ask of it.
#[derive(Clone, Copy)]
pub struct Seen {
    pub node: Node,
    /// Whether it has no type of its own.
    pub never: bool,
    /// Whether evaluating it always leaves by a jump, or never ends.
    pub diverges: bool,
    pub place: bool,
    /// Whether it is a whole variable.
    pub whole: bool,
    /// The variable in which a place stands.
    pub root: Use,
}

/// A value that is no place.
pub fn value_seen(node: Node, never: bool, diverges: bool) -> Seen
    ensures { result ≡ seeing.value_seen node never diverges }
{
    Seen {
        node,
        never,
        diverges,
        place: false,
        whole: false,
        root: Use {
            number: 0,
            mutable: false,
            known: false,
        },
    }
}

/// A part of a place, in which it stands.
pub fn part_seen(node: Node, place: Seen) -> Seen
    ensures { result ≡ seeing.part_seen node place.diverges place.root }
{
    Seen {
        node,
        never: false,
        diverges: place.diverges,
        place: true,
        whole: false,
        root: place.root,
    }
}

/// A variable.
pub fn variable_seen(node: Node, root: Use) -> Seen
    ensures { result ≡ seeing.variable_seen node root }
{
    Seen {
        node,
        never: false,
        diverges: false,
        place: true,
        whole: true,
        root,
    }
}

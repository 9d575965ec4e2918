//! What patterns are matched with.

ghost use Rattle.std.specs.Prelude.{◌≡◌};
ghost use Rattle.rx_typeck_typed.specs.Demands as demands;
ghost use Rattle.rx_typeck_demand_parts.specs.Matching as matching;

use rx_typeck_elaborate_parts::Seen;
use rx_typeck_solver::Passing;
use rx_typed::{Node, Site};

/// What is matched.
#[derive(Clone, Copy)]
pub enum Matched<'p> {
    Value,
    /// A place: its variable, and the dereferences that it goes through.
    Place(u32, &'p [Passing]),
    /// A place at a coercion site, which is a value where it is reborrowed: its node, and the same.
    Initialiser(Node, u32, &'p [Passing]),
}

/// What is told of a pattern that was walked: its node, and the variable that it is as a whole.
#[derive(Clone, Copy)]
pub struct Declares {
    pub node: Node,
    pub variable: Option<u32>,
}

/// What is matched where a pattern is matched with this.
pub fn as_matched<'p>(seen: Seen, passing: &'p [Passing]) -> Matched<'p>
    ensures { matching.matched_as result ≡ demands.matched_if seen.place seen.node seen.root.number passing.now }
{
    if seen.place {
        match seen.node.site {
            Site::Initialises => Matched::Initialiser(seen.node, seen.root.number, passing),
            _ => Matched::Place(seen.root.number, passing),
        }
    } else {
        Matched::Value
    }
}

//! Flows: orders of actions, with sequences as lists.

use crate::actions::Action;
use rx_core::{Boxed, List};

/// A way out of a part, at the node of its jump.
#[derive(Clone, Copy)]
pub enum Exit {
    /// The jump, and the loop's number.
    Breaks(usize, u32),
    Continues(usize, u32),
    /// `return`, and the end of a body.
    Returns(usize),
}

/// What a part may do, and in which order.
#[cycle(flows)]
#[derive(Drop)]
pub enum Flow {
    /// It goes on without an action.
    Nothing,
    /// It never goes on.
    Nowhere,
    Act(Action),
    /// A sequence, and the flow that it ends in.
    Items(List<Item>, Boxed<Flow>),
    /// One or the other.
    Or(Boxed<Flow>, Boxed<Flow>),
    Leave(Exit),
    /// Any number of passes of a loop, by its number.
    Passes(u32, Boxed<Flow>),
}

/// An item of a sequence.
#[cycle(flows)]
#[derive(Drop)]
pub enum Item {
    /// The flow, then what follows.
    Do(Flow),
    /// A variable that ends where what follows does: at this node, or at the jump's.
    Ends(usize, u32),
    /// What follows, or a test has failed.
    May,
    /// The flow, and what follows comes where a test in it fails.
    Else(Flow),
}

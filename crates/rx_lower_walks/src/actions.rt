//! Actions: what each takes and what it fills.

use rx_core::{List, Step};
use rx_typed::{Constant, Making};

/// Where the value of an operand stands: the operand's node, and which of the few that one node has.
#[derive(Clone, Copy)]
pub struct Temporary {
    pub node: usize,
    pub which: u32,
}

#[derive(Clone, Copy)]
pub enum Root {
    Variable(u32),
    Temporary(Temporary),
}

/// A variable or a temporary, and the steps from it.
#[derive(Drop)]
pub struct Place {
    pub root: Root,
    pub steps: List<Step>,
}

/// What a refutable part of a pattern asks.
#[derive(Clone, Copy)]
pub enum Check {
    /// The tag of this variant.
    HasTag(u32),
    Equals(Constant),
}

/// What operands are made into.
#[derive(Clone, Copy)]
pub enum Made {
    Of(Making),
    /// What `&&` or `||` gave: the last operand.
    Lazy,
}

#[derive(Drop)]
pub enum Act {
    /// A variable begins, unset.
    Declare(u32),
    /// A variable ends.
    Dead(u32),
    /// Whether it moves, the place, the temporary that gets the value.
    Read(bool, Place, Temporary),
    /// The place; the temporary, and the way in it to what is written.
    Write(Place, Temporary, List<Step>),
    /// Whether it is mutable, the place, the temporary that gets the reference.
    Borrow(bool, Place, Temporary),
    /// It holds or fails.
    Test(Place, Check),
    /// The function's item, the arguments, the temporary that gets the answer.
    Call(u32, List<Temporary>, Temporary),
    /// What is made, the field of each operand, the operands, the temporary that gets it.
    Build(Made, List<usize>, List<Temporary>, Temporary),
    Input(Temporary),
    Print(Temporary),
    Give(Temporary),
}

/// An act at its node.
#[derive(Drop)]
pub struct Action {
    pub node: usize,
    pub act: Act,
}

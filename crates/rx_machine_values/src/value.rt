//! Values.

use crate::number::Number;
use rx_core::{LetGo, List, Step};
use std::mem::size_of;

/// Why a part has no value: it was never written; it was moved; its variable has ended.
#[derive(Clone, Copy, PartialEq, Eq)]
pub enum Lack {
    Unset,
    Moved,
    Ended,
}

/// Where a reference leads: a slot, the path in it, and whether it is mutable.
#[derive(Drop)]
pub struct Pointer {
    pub slot: usize,
    pub path: List<Step>,
    pub mutable: bool,
}

/// A node of values in order, in front of its parts. A node has no others in it, so that values of any depth are copied
/// and let go by loops.
#[derive(Drop)]
pub enum Node {
    Number(Number),
    Truth(bool),
    /// A tuple or struct, with how many nodes its fields take, which follow.
    Whole(usize),
    /// A variant by its number, with how many nodes its parts take, which follow.
    Tagged(u32, usize),
    Pointer(Box<Pointer>),
    /// What stands where no value does.
    Lacking(Lack),
}

// A part of a value takes no more.
const _: () = prove!(size_of::<Node>() == 24);

/// Values in order, by their nodes.
#[derive(Drop)]
pub struct Parts {
    pub nodes: List<Node>,
}

/// A value. What holds others is behind a box, so that an integer takes little room.
#[derive(Drop)]
pub enum Value {
    Number(Number),
    Truth(bool),
    /// `()`
    Unit,
    /// A tuple or struct: its fields in order.
    Whole(Box<Parts>),
    /// A variant by its number, with its parts.
    Tagged(u32, Box<Parts>),
    Pointer(Box<Pointer>),
    /// What stands in memory where no value does.
    Lacking(Lack),
}

// An integer in a slot of memory takes no more.
const _: () = prove!(size_of::<Value>() == 24);

impl LetGo for Pointer {
    fn let_go(self) {
        let _gone = self;
    }
}

impl LetGo for Node {
    fn let_go(self) {
        let _gone = self;
    }
}

impl LetGo for Parts {
    fn let_go(self) {
        let _gone = self;
    }
}

impl LetGo for Value {
    fn let_go(self) {
        let _gone = self;
    }
}

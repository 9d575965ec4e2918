//! The nodes of values.

use rx_core::LetGo;

/// A node of a value, in front of its parts: an integer by its sign and magnitude, a truth value, a tuple, struct or
/// variant with how many parts it has, or a reference, which has one.
#[derive(Clone, Copy)]
pub enum Node {
    Int {
        negative: bool,
        magnitude: u64,
    },
    Bool(bool),
    Tuple(usize),
    /// A struct, by its item's number; how many fields it has.
    Made {
        adt: u32,
        fields: usize,
    },
    /// A variant, by its number, of an enum, by its item's; how many parts it has.
    Variant {
        adt: u32,
        variant: u32,
        parts: usize,
    },
    Reference,
}

impl LetGo for Node {
    fn let_go(self) {}
}

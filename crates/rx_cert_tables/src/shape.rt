//! What a function's lines have to be like.

use rx_core::List;

/// A function, as its text has it.
#[derive(Drop)]
pub struct Shape {
    /// Its item number.
    pub item: u32,
    pub sites: u32,
    /// How many lifetimes are its own: each has an end point.
    pub own: u32,
    pub lifetimes: u32,
    /// The sites of the borrows that make loans, in order.
    pub borrows: List<u32>,
}

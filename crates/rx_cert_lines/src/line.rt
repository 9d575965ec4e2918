//! A line of a certificate.

use crate::item::Item;
use rx_core::{LetGo, List};

/// What a line begins with.
#[derive(Clone, Copy)]
pub enum Head {
    /// A function's item number, sites and lifetimes.
    Function,
    /// The set of points of a lifetime.
    Region,
    /// The site of a borrow, and the sites where its loan is in scope.
    Loan,
    /// The bytes of the text follow.
    Text,
}

#[derive(Drop)]
pub struct Line {
    pub head: Head,
    pub items: List<Item>,
}

impl LetGo for Line {
    fn let_go(self) {}
}

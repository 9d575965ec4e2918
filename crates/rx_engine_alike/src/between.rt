//! What a walk is told of both programs.

ghost use Rattle.std.specs.Prelude.{◌≡◌, nat_eq};
ghost use Rattle.rx_engine_alike.specs.Forms as forms;
ghost use Rattle.rx_engine_alike.specs.PlainLikeness.{plain-Items};

use crate::variables::Ways;
use rx_core::List;

/// The items of a text in an answer that has further items behind one of them, so many.
#[derive(Clone, Copy)]
pub struct Items {
    pub item: u32,
    pub made: u32,
}

/// What a walk is told of both programs.
#[derive(Drop)]
pub struct Between {
    /// The items of the answer for those of the text.
    pub items: Items,
    /// How new variables are seen.
    pub ways: Ways,
    /// Functions of the text that give the unit.
    pub units: List<u32>,
    /// In a run, the loops around it.
    pub outside: List<u32>,
    /// The node of the block that is left open.
    pub left_open: Option<usize>,
}

/// Whether this is the answer's item for one of the text.
pub fn is_item(items: Items, function: u32, other: u32) -> bool
    ensures { result ≡ nat_eq (plain-Items items function) other }
{
    if function <= items.item {
        function == other
    } else {
        u64::from(function) + u64::from(items.made) == u64::from(other)
    }
}

/// Whether the block at this node is left open.
pub fn is_open(between: &Between, node: usize) -> bool
    ensures { result ≡ forms.is_open between.now.left_open node }
{
    match between.left_open {
        Some(open) => node == open,
        None => false,
    }
}

//! The item `main` of a program.

ghost use Rattle.std.specs.Prelude.{◌≡◌, map};
ghost use Rattle.rx_tree.specs.PlainOf.{plain-Item, plain-Program};
ghost use Rattle.rx_meaning.specs.Programs.{main_in, is_main as is_main_item};

use rx_core::is_same_text;
use rx_tree::{Item, ItemNode, Program};

/// Whether an item is the function `main`.
fn is_main(item: &Item) -> bool
    ensures { result ≡ is_main_item (plain-Item item.now) }
{
    match &item.node {
        ItemNode::Func(function) => is_same_text(function.name.name.as_str(), "main"),
        ItemNode::Rt(_) => false,
        ItemNode::Struct(_) => false,
        ItemNode::Enum(_) => false,
    }
}

/// The number of the item `main`, or how many items there are where it is missing.
fn main_at(items: &[Item]) -> usize
    ensures { result ≡ main_in (map plain-Item items.now) 0 }
{
    for i in 0..items.len() {
        if is_main(&items[i]) {
            return i;
        }
    }
    items.len()
}

/// The number of the item `main` of a program, or how many items there are where it is missing.
pub fn main_of(program: &Program) -> usize
    ensures { result ≡ main_in (plain-Program program.now) 0 }
{
    main_at(program.items.as_slice())
}

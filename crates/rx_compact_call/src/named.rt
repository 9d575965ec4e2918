//! The function of a name.

ghost use Rattle.std.specs.Prelude.{◌≡◌, ◌<◌, ◌^◌, length, map, option_map};
ghost use Rattle.std.specs.Option.{option_copied};
ghost use Rattle.rx_tree.specs.PlainOf.{plain-Func, plain-Item};
ghost use Rattle.rx_compact_call.specs.Named as spec;
ghost use Rattle.rx_compact_call.specs.Making as making;

use rx_core::is_same_text;
use rx_tree::{Func, Item, ItemNode};

/// A function and the number of its item.
#[derive(Clone, Copy)]
pub(crate) struct Chosen<'p> {
    pub number: u32,
    pub function: &'p Func,
}

/// The function, if it has this name.
fn if_named<'p>(function: &'p Func, name: &str) -> Option<&'p Func>
    ensures { option_map plain-Func (option_copied result) ≡ spec.if_named name.now (plain-Func function.now) }
{
    if is_same_text(function.name.name.as_str(), name) {
        Some(function)
    } else {
        None
    }
}

/// The function of an item, if it has this name.
fn named<'p>(item: &'p Item, name: &str) -> Option<&'p Func>
    ensures { option_map plain-Func (option_copied result) ≡ spec.named name.now (plain-Item item.now) }
{
    match &item.node {
        ItemNode::Func(function) => if_named(function, name),
        ItemNode::Rt(_) => None,
        ItemNode::Struct(_) => None,
        ItemNode::Enum(_) => None,
    }
}

/// The first function of this name, with the number of its item.
pub(crate) fn function_named<'p>(items: &'p [Item], name: &str) -> Option<Chosen<'p>>
    requires { length items.now < 2 ^ 32 }
    ensures { option_map making.plain-Chosen result ≡ spec.function_named name.now 0 (map plain-Item items.now) }
{
    for number in 0..items.len() {
        let item = &items[number];
        match named(item, name) {
            Some(function) => {
                return Some(Chosen {
                    number: number as u32,
                    function,
                });
            }
            None => {}
        }
    }
    None
}

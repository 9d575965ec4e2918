//! A program with other items in place of one.

ghost use Rattle.std.specs.Prelude.{◌≡◌, ◌++◌, suc, IfOk, drop, map, take};
ghost use Rattle.rx_tree.specs.PlainOf.{plain-Item, plain-Program};

use crate::parts::{from_on, in_front};
use rx_core::{List, keep, pushed};
use rx_hoist_made::together;
use rx_tree::{Item, Program};
use rx_tree_operations::CopyTree;
use std::alloc::{AllocError, Global};

/// Copies of items.
fn copied(alloc: Global, items: &[Item]) -> Result<List<Item>, AllocError>
    ensures { IfOk result (λ it. it ≡ items.now) }
{
    let mut all = List::new(alloc);
    for item in items {
        let (next, held) = keep(all, item.copy(alloc))?;
        all = pushed(held, next)?;
    }
    Ok(all)
}

/// A copy of the program with these items in place of the one of a number.
pub(crate) fn with_items(
    alloc: Global,
    program: &Program,
    number: u32,
    new: List<Item>,
) -> Result<Program, AllocError>
    ensures { IfOk result (λ it. plain-Program it ≡ take number (plain-Program program.now)
        ++ (map plain-Item new ++ drop (suc number) (plain-Program program.now))) }
{
    let items = program.items.as_slice();
    let (rest, new) = keep(new, copied(alloc, from_on(items, number as usize + 1)))?;
    let new = together(new, rest)?;
    let (front, new) = keep(new, copied(alloc, in_front(items, number as usize)))?;
    Ok(Program {
        items: together(front, new)?,
    })
}

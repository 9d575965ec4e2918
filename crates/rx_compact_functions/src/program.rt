//! A program with a short signature of one function.

ghost use Rattle.std.specs.Prelude.{◌≡◌, map, IfOk, if◌then◌else◌};
ghost use Rattle.rx_tree.specs.PlainOf.{plain-Func, plain-Item, plain-Program};
ghost use Rattle.rx_compact.specs.Compacted as spec;
ghost use Rattle.rx_compact_known.specs.Knowing.{knows};
ghost use Rattle.rx_compact_lifetimes.specs.Merged as merged_of;

use crate::functions::{elided_function, merged_function};
use crate::merging::mergings;
use rx_compact_known::KnownLifetimes;
use rx_core::{LetGo, List, keep, pushed};
use rx_tree::{Func, Item, ItemNode, Program};
use rx_tree_operations::CopyTree;
use std::alloc::{AllocError, Global};

/// A function with lifetimes that are one where they are equal by what is known.
fn merged(alloc: Global, known: &KnownLifetimes, function: &Func) -> Result<Func, AllocError>
    ensures { IfOk result (λ it. plain-Func it ≡ merged_of.merged (knows known.now) (plain-Func function.now)) }
{
    let rewritings = mergings(alloc, known, function.lifetimes.as_slice())?;
    let merged = merged_function(alloc, rewritings.as_slice(), function);
    rewritings.let_go();
    merged
}

/// A function with a short signature.
fn compacted(
    alloc: Global,
    known: &KnownLifetimes,
    single: bool,
    function: &Func,
) -> Result<Func, AllocError>
    ensures { IfOk result (λ it. plain-Func it ≡ spec.compacted_function (knows known.now) single (plain-Func function.now)) }
{
    let merged = merged(alloc, known, function)?;
    elided_function(alloc, single, merged)
}

/// An item, whose function has a short signature.
fn compacted_item(
    alloc: Global,
    known: &KnownLifetimes,
    single: bool,
    item: &Item,
) -> Result<Item, AllocError>
    ensures { IfOk result (λ it. plain-Item it ≡ spec.compacted_item (knows known.now) single (plain-Item item.now)) }
{
    match &item.node {
        ItemNode::Func(function) => Ok(Item {
            span: item.span,
            node: ItemNode::Func(compacted(alloc, known, single, function)?),
        }),
        _ => item.copy(alloc),
    }
}

/// An item, with a short signature where this is wanted.
fn compacted_if(
    alloc: Global,
    known: &KnownLifetimes,
    single: bool,
    wanted: bool,
    item: &Item,
) -> Result<Item, AllocError>
    ensures { IfOk result (λ it. plain-Item it ≡ (if wanted then spec.compacted_item (knows known.now) single (plain-Item item.now) else plain-Item item.now)) }
{
    if wanted {
        compacted_item(alloc, known, single, item)
    } else {
        item.copy(alloc)
    }
}

/// Items, of which the one of a number has a short signature.
fn compacted_items(
    alloc: Global,
    known: &KnownLifetimes,
    single: bool,
    items: &[Item],
    function: usize,
) -> Result<List<Item>, AllocError>
    ensures { IfOk result (λ it. map plain-Item it ≡ spec.compacted (knows known.now) single (map plain-Item items.now) function) }
{
    let mut all = List::new(alloc);
    for number in 0..items.len() {
        let item = &items[number];
        let outcome = compacted_if(alloc, known, single, number == function, item);
        let (next, held) = keep(all, outcome)?;
        all = pushed(held, next)?;
    }
    Ok(all)
}

/// A copy of a program with a short signature of the function of an item, by what is known of its lifetimes; `single` says whether the
/// types of its parameters have one lifetime.
///
/// # Errors
///
/// Memory runs out.
pub fn compacted_program(
    alloc: Global,
    known: &KnownLifetimes,
    single: bool,
    program: &Program,
    function: u32,
) -> Result<Program, AllocError>
    ensures { IfOk result (λ it. plain-Program it ≡ spec.compacted (knows known.now) single (plain-Program program.now) function) }
{
    let items = compacted_items(
        alloc,
        known,
        single,
        program.items.as_slice(),
        function as usize,
    )?;
    Ok(Program { items })
}

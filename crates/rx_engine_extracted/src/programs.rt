//! Whether an answer's typed program is the text's with a call of a new function in place of the run.

ghost use Rattle.std.specs.Prelude.{◌≡◌, ◌<◌, ◌^◌, nat_eq, Some, ◌&&◌, option_map, IfOk};
ghost use Rattle.rx_typed.specs.PlainTree.{plain-TypedTree};
ghost use Rattle.rx_meaning.specs.Values.{element};
ghost use Rattle.rx_engine_alike.specs.Functions as functions;
ghost use Rattle.rx_engine_alike.specs.Units.{all_are_unit, function_returns_unit as returns_unit_in};
ghost use Rattle.rx_engine_alike.specs.PlainLikeness.{plain-Hole, plain-Items, plain-Likeness};
ghost use Rattle.rx_engine_extracted.specs.Told.{closed_in};
ghost use Rattle.rx_engine_extracted.specs.Programs as spec;
ghost use Rattle.rx_engine_extracted.specs.PlainTold.{plain-Told};
ghost use Rattle.rx_engine_extracted.specs.PlainPrograms.{plain-Tree, plain-Functions, plain-Whole, stays_of, others_from};

use crate::block::{between, block_has_call};
use crate::tail_block::block_has_tail_call;
use crate::told::{Told, closed_of};
use rx_engine_alike::{Hole, Items, Likeness, function_returns_unit, like_function, same_item};
use rx_typed::TypedTree;
use std::alloc::{AllocError, Global};

/// A typed program: each item's function, none of other items, and the item of `main`.
#[derive(Clone, Copy)]
pub struct Whole<'t> {
    pub functions: &'t [Option<&'t TypedTree>],
    pub main: usize,
}

/// The answer's item for one of the text.
fn item_of(items: Items, number: usize) -> usize
    requires { number < 2 ^ 63 }
    ensures { result ≡ plain-Items items number }
{
    if number <= items.item as usize {
        number
    } else {
        number + items.made as usize
    }
}

/// Whether this is the answer's item for one of the text.
fn is_item_of(items: Items, number: usize, other: usize) -> bool
    ensures { result ≡ nat_eq other (plain-Items items number) }
{
    if number <= items.item as usize {
        return other == number;
    }
    match number.checked_add(items.made as usize) {
        Some(sum) => other == sum,
        None => false,
    }
}

/// The function of an item, where there is that item.
#[tactic(auto, using(crate::proofs::ProgramLemmas::element_rules))]
fn entry<'t>(functions: &'t [Option<&'t TypedTree>], number: usize) -> Option<Option<&'t TypedTree>>
    ensures { option_map plain-Tree result ≡ element (plain-Functions functions.entry.now) number }
{
    match functions.get(number) {
        Some(tree) => Some(*tree),
        None => None,
    }
}

/// Whether the block of the run has the call, where the run holds its tail or doesn't.
fn has_call_in(
    alloc: Global,
    told: &Told<'_>,
    closed: &[u32],
    hole: &Hole<'_>,
) -> Result<bool, AllocError>
    requires { closed.now ≡ closed_in (plain-Told told.now) }
    ensures { IfOk result (λ it. it ≡ spec.has_call_in told.now.run.tail (plain-Told told.now) (plain-Hole hole.now)) }
{
    if told.run.tail {
        block_has_tail_call(alloc, told, closed, hole)
    } else {
        block_has_call(alloc, told, closed, hole)
    }
}

/// Whether the block that was left open has the call.
fn has_call(
    alloc: Global,
    told: &Told<'_>,
    closed: &[u32],
    found: &Likeness<'_>,
) -> Result<bool, AllocError>
    requires { closed.now ≡ closed_in (plain-Told told.now) }
    ensures { IfOk result (λ it. it ≡ spec.has_call (plain-Told told.now) (plain-Likeness found.now)) }
{
    match found {
        Likeness::But(hole) => has_call_in(alloc, told, closed, hole),
        Likeness::Unlike | Likeness::Alike => Ok(false),
    }
}

/// Whether the run's function has the call in place of the run.
fn tree_has_call(
    alloc: Global,
    told: &Told<'_>,
    tree: &TypedTree,
    other: &TypedTree,
) -> Result<bool, AllocError>
    ensures { IfOk result (λ it. it ≡ spec.function_has_call (plain-Told told.now) (Some (Some (plain-TypedTree tree.now))) (Some (Some (plain-TypedTree other.now)))) }
{
    let params = told.plan.params.as_slice();
    let closed = closed_of(alloc, told.elsewhere, params, told.modes)?;
    let closed = closed.as_slice();
    let between = between(alloc, told, closed, &[], Some(told.run.block))?;
    let found = like_function(alloc, &between, tree, other)?;
    has_call(alloc, told, closed, &found)
}

/// Whether the function of an item has the call in place of the run.
fn function_has_call(
    alloc: Global,
    told: &Told<'_>,
    text: Option<Option<&TypedTree>>,
    answer: Option<Option<&TypedTree>>,
) -> Result<bool, AllocError>
    ensures { IfOk result (λ it. it ≡ spec.function_has_call (plain-Told told.now) (option_map plain-Tree text.entry) (option_map plain-Tree answer.entry)) }
{
    let Some(Some(tree)) = text else {
        return Ok(false);
    };
    let Some(Some(other)) = answer else {
        return Ok(false);
    };
    tree_has_call(alloc, told, tree, other)
}

/// Whether an item is alike in both.
fn same_entry(
    alloc: Global,
    items: Items,
    text: Option<&TypedTree>,
    answer: Option<Option<&TypedTree>>,
) -> Result<bool, AllocError>
    ensures { IfOk result (λ it. it ≡ functions.same_item (λ f. plain-Items items f) (Some (plain-Tree text.entry)) (option_map plain-Tree answer.entry)) }
{
    match text {
        Some(tree) => match answer {
            Some(Some(other)) => same_item(alloc, items, tree, other),
            Some(None) | None => Ok(false),
        },
        None => match answer {
            Some(Some(_)) => Ok(false),
            Some(None) | None => Ok(true),
        },
    }
}

/// Whether an item is this one, or stays.
fn stays(
    alloc: Global,
    items: Items,
    item: u32,
    number: usize,
    tree: Option<&TypedTree>,
    answer: &[Option<&TypedTree>],
) -> Result<bool, AllocError>
    requires { number < 2 ^ 63 }
    ensures { IfOk result (λ it. it ≡ stays_of (λ f. plain-Items items f) item (plain-Functions answer.now) number (plain-Tree tree.entry)) }
{
    if number == item as usize {
        return Ok(true);
    }
    same_entry(alloc, items, tree, entry(answer, item_of(items, number)))
}

/// Whether all items but this one stay.
fn others_stay(
    alloc: Global,
    told: &Told<'_>,
    item: u32,
    text: &[Option<&TypedTree>],
    answer: &[Option<&TypedTree>],
) -> Result<bool, AllocError>
    ensures { IfOk result (λ it. it ≡ others_from (plain-Told told.now) item answer.now text.now 0) }
{
    for number in 0..text.len() {
        if !stays(alloc, told.items, item, number, text[number], answer)? {
            return Ok(false);
        }
    }
    Ok(true)
}

/// Whether a function of the text leaves by returns of the unit.
pub fn leaves_unit(functions: &[Option<&TypedTree>], units: &[u32], number: u32) -> bool
    ensures { result ≡ returns_unit_in units.now (element (plain-Functions functions.now) number) }
{
    match entry(functions, number as usize) {
        Some(Some(tree)) => function_returns_unit(units, tree),
        Some(None) | None => true,
    }
}

/// Whether each of these functions of the text leaves by returns of the unit.
pub fn all_leave_unit(functions: &[Option<&TypedTree>], units: &[u32], numbers: &[u32]) -> bool
    ensures { result ≡ all_are_unit (plain-Functions functions.now) units.now numbers.now }
{
    for number in numbers {
        if !leaves_unit(functions, units, *number) {
            return false;
        }
    }
    true
}

/// Whether the answer's program is the text's with a call of the new function in place of the run, which is of the function of
/// this item. `Err` is want of memory.
///
/// # Errors
///
/// Memory runs out.
pub fn extracts(
    alloc: Global,
    told: &Told<'_>,
    item: u32,
    text: Whole<'_>,
    answer: Whole<'_>,
) -> Result<bool, AllocError>
    ensures { IfOk result (λ it. it ≡ spec.extracts (plain-Told told.now) item (plain-Whole text.entry) (plain-Whole answer.entry)) }
{
    let number = item as usize;
    let here = entry(text.functions, number);
    let there = entry(answer.functions, item_of(told.items, number));
    if !function_has_call(alloc, told, here, there)? {
        return Ok(false);
    }
    if !others_stay(alloc, told, item, text.functions, answer.functions)? {
        return Ok(false);
    }
    if answer.functions.len() > item_of(told.items, text.functions.len()) {
        return Ok(false);
    }
    let same_main = is_item_of(told.items, text.main, answer.main);
    Ok(same_main && all_leave_unit(text.functions, told.units, told.units))
}

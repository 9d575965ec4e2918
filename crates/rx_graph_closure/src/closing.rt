//! Rows of bits that are closed under pairs.

ghost use Rattle.std.specs.Prelude.{◌≡◌, ◌≤◌, ◌<◌, ℕ, List as ListOf, length, slice_get, Some, IfOk, OnOk};
ghost use Rattle.rx_graph_bits.specs.Rows as bits;
ghost use Rattle.rx_graph.specs.Tables as tables;
ghost use Rattle.rx_core.specs.declared.types.Bound.{Bound as BoundOf};
ghost use Rattle.rx_graph_closure.specs.Closing as spec;

use crate::order::order;
use rx_core::Bound;
use rx_graph_bits::Row;
use std::alloc::{AllocError, Global};

/// So many empty rows, for the numbers below a bound.
///
/// # Errors
///
/// Memory runs out.
#[tactic(auto, using(crate::proofs::Tables::empty_more))]
pub fn empty_rows(alloc: Global, count: usize, bound: usize) -> Result<Vec<Row>, AllocError>
    ensures { IfOk result (λ t. tables.Empty count (bits.words bound) t.items) }
{
    let mut all = Vec::new(alloc);
    'rows: for _row in 0..count {
        let row = Row::new(alloc, bound)?;
        all.push(row)?;
    }
    Ok(all)
}

/// The greater of a number and the one behind a member of pairs.
fn behind(least: usize, member: u32) -> usize
    ensures more { least ≤ result }
    ensures within { member < result }
{
    let member = member as usize;
    if least <= member { member + 1 } else { least }
}

fn behind_pair(least: usize, pair: Bound) -> usize
    ensures more { least ≤ result }
    ensures long { pair.long < result }
    ensures short { pair.short < result }
{
    behind(behind(least, pair.long), pair.short)
}

/// How many rows there are for pairs: at least so many, and more than the number of each member.
pub fn count(pairs: &[Bound], least: usize) -> usize
    ensures more { least ≤ result }
    ensures within { spec.Within pairs.now result }
{
    let mut count = least;
    'pairs: for k in 0..pairs.len() {
        count = behind_pair(count, pairs[k]);
    }
    count
}

/// Adds what the shorter member of a pair has to what the longer has. Whether it grew.
fn join_pair(rows: &mut [Row], pair: Bound, scratch: &mut Row) -> bool
    requires { tables.Regular (length rows.old) (length scratch.old) rows.old }
    ensures grown { (pairs : ListOf BoundOf) → spec.Has pairs pair → spec.Grown pairs (length scratch.old) (λ b. b ≡ pair) rows.old rows.new result }
    ensures width { length scratch.new ≡ length scratch.old }
{
    let long = pair.long as usize;
    let short = pair.short as usize;
    if long < rows.len() && short < rows.len() {
        scratch.assign(&rows[short]);
        rows[long].join(scratch)
    } else {
        false
    }
}

/// The same, by the pair's place.
fn join_at(rows: &mut [Row], pairs: &[Bound], place: usize, scratch: &mut Row) -> bool
    requires { tables.Regular (length rows.old) (length scratch.old) rows.old }
    ensures grown { spec.Grown pairs.now (length scratch.old) (λ b. slice_get pairs.now place ≡ Some b) rows.old rows.new result }
    ensures width { length scratch.new ≡ length scratch.old }
{
    match pairs.get(place) {
        Some(pair) => join_pair(rows, *pair, scratch),
        None => false,
    }
}

/// Pairs in an order, or against it.
fn pass(rows: &mut [Row], pairs: &[Bound], order: &[usize], back: bool, scratch: &mut Row)
    requires { tables.Regular (length rows.old) (length scratch.old) rows.old }
    ensures passed { spec.Passed pairs.now (length scratch.old) rows.old rows.new }
    ensures width { length scratch.new ≡ length scratch.old }
{
    let count = order.len();
    'places: for k in 0..count {
        let place = if back { count - (k + 1) } else { k };
        join_at(rows, pairs, order[place], scratch);
    }
}

/// Each pair once. Whether anything grew.
fn round(rows: &mut [Row], pairs: &[Bound], scratch: &mut Row) -> bool
    requires { tables.Regular (length rows.old) (length scratch.old) rows.old }
    ensures grown { spec.Grown pairs.now (length scratch.old) (spec.Has pairs.now) rows.old rows.new result }
    ensures width { length scratch.new ≡ length scratch.old }
{
    let mut grown = false;
    'places: for k in 0..pairs.len() {
        let more = join_at(rows, pairs, k, scratch);
        grown = grown | more;
    }
    grown
}

/// Rounds until nothing grows, each behind a pass in this order and one against it.
fn settle(rows: &mut [Row], pairs: &[Bound], order: &[usize], scratch: &mut Row)
    requires { tables.Regular (length rows.old) (length scratch.old) rows.old }
    ensures { spec.Settled pairs.now (length scratch.old) rows.old rows.new }
{
    let mut grown = true;
    'rounds: while grown {
        pass(rows, pairs, order, false, scratch);
        pass(rows, pairs, order, true, scratch);
        grown = round(rows, pairs, scratch);
    }
}

/// Closes rows under pairs: each gets the numbers of all that it is longer than, along one pair or more, and no others.
/// A pair of a member without a row adds nothing. The rows are those of so many numbers.
///
/// # Errors
///
/// Memory runs out.
pub fn close(
    alloc: Global,
    rows: &mut [Row],
    pairs: &[Bound],
    bound: usize,
) -> Result<(), AllocError>
    requires { tables.Regular (length rows.old) (bits.words bound) rows.old }
    ensures { OnOk result (spec.Closed pairs.now (bits.words bound) rows.old rows.new) }
{
    let order = order(alloc, pairs, rows.len())?;
    let mut scratch = Row::new(alloc, bound)?;
    settle(rows, pairs, order.as_slice(), &mut scratch);
    Ok(())
}

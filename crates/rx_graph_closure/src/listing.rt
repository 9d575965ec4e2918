//! Pairs for which a test on two tables holds, in order.

ghost use Rattle.std.specs.Prelude.{◌≡◌, ℕ, ◌+◌, ◌-◌, ◌<◌, ◌≤◌, ◌++◌, ◌&&◌, true, false, not, IfOk, OnOk};
ghost use Rattle.rx_graph.specs.Tables as tables;
ghost use Rattle.rx_graph_closure.specs.Listing as spec;

use rx_core::{Bound, List};
use rx_graph_bits::Row;
use std::alloc::{AllocError, Global};

/// Whether the row of a member has a number.
fn has(rows: &[Row], member: u32, number: usize) -> bool
    ensures { result ≡ tables.at rows.now member number }
{
    match rows.get(member as usize) {
        Some(row) => row.holds(number),
        None => false,
    }
}

/// Whether the row of a member has the number so far behind a base, and in another table not this number.
fn is_wanted(rows: &[Row], base: u32, others: &[Row], long: u32, short: u32) -> bool
    ensures { result ≡ (tables.at rows.now long (base + short) && not (tables.at others.now long short)) }
{
    has(rows, long, base as usize + short as usize) && !has(others, long, short as usize)
}

/// Adds a pair where it is wanted.
fn push_if(pairs: &mut List<Bound>, wanted: bool, long: u32, short: u32) -> Result<(), AllocError>
    ensures { OnOk result (pairs.new ≡ pairs.old ++ spec.pair_if wanted long short) }
{
    if wanted {
        pairs.push(Bound { long, short })
    } else {
        Ok(())
    }
}

/// Whether the row of a member has none of the 64 numbers from the one on that stands so far behind a base.
fn has_none(rows: &[Row], base: u32, member: u32, from: u32) -> bool
    ensures { result ≡ true → (j : ℕ) → j < 64 → tables.at rows.now member (base + (from + j)) ≡ false }
{
    let number = base as usize + from as usize;
    match rows.get(member as usize) {
        Some(row) => row.word(number / 64) == 0 && row.word((number + 63) / 64) == 0,
        None => true,
    }
}

/// Adds those of one longer member with the shorter ones from one on and below another.
fn add_each(
    pairs: &mut List<Bound>,
    from: u32,
    until: u32,
    rows: &[Row],
    base: u32,
    others: &[Row],
    long: u32,
) -> Result<(), AllocError>
    ensures { OnOk result (pairs.new ≡ pairs.old ++ spec.pairs_of (λ l k. tables.at rows.now l (base + k) && not (tables.at others.now l k)) long from (until - from)) }
{
    for short in from..until {
        push_if(
            pairs,
            is_wanted(rows, base, others, long, short),
            long,
            short,
        )?;
    }
    Ok(())
}

/// The same, of at most 64 shorter ones. They are passed over where the longer member's row has none of their numbers.
fn add_chunk(
    pairs: &mut List<Bound>,
    from: u32,
    until: u32,
    rows: &[Row],
    base: u32,
    others: &[Row],
    long: u32,
) -> Result<(), AllocError>
    requires { until ≤ from + 64 }
    ensures { OnOk result (pairs.new ≡ pairs.old ++ spec.pairs_of (λ l k. tables.at rows.now l (base + k) && not (tables.at others.now l k)) long from (until - from)) }
{
    if has_none(rows, base, long, from) {
        Ok(())
    } else {
        add_each(pairs, from, until, rows, base, others, long)
    }
}

/// Adds those of one longer member, in chunks of 64 shorter ones.
fn add_of(
    pairs: &mut List<Bound>,
    count: u32,
    rows: &[Row],
    base: u32,
    others: &[Row],
    long: u32,
) -> Result<(), AllocError>
    ensures { OnOk result (pairs.new ≡ pairs.old ++ spec.pairs_of (λ l k. tables.at rows.now l (base + k) && not (tables.at others.now l k)) long 0 count) }
{
    for chunk in 0..count / 64 {
        let from = chunk * 64;
        add_chunk(pairs, from, from + 64, rows, base, others, long)?;
    }
    add_chunk(pairs, count / 64 * 64, count, rows, base, others, long)
}

/// The pairs of the first members for which the row of the longer has the number that stands as far behind a base as the
/// shorter member's, and in another table not the shorter member: by the longer, then by the shorter.
///
/// # Errors
///
/// Memory runs out.
pub fn pairs_where(
    alloc: Global,
    count: u32,
    rows: &[Row],
    base: u32,
    others: &[Row],
) -> Result<List<Bound>, AllocError>
    ensures { IfOk result (λ it. it ≡ spec.pairs_below (λ l k. tables.at rows.now l (base + k) && not (tables.at others.now l k)) count) }
{
    let mut pairs = List::new(alloc);
    for long in 0..count {
        add_of(&mut pairs, count, rows, base, others, long)?;
    }
    Ok(pairs)
}

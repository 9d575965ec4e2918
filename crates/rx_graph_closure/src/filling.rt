//! Tables of rows that are filled.

ghost use Rattle.std.specs.Prelude.{◌≡◌, ◌↔◌, ◌<◌, ◌+◌, ℕ, true, ◌∷◌, [], length, IfOk};
ghost use Rattle.rx_graph_bits.specs.Rows as bits;
ghost use Rattle.rx_graph.specs.Tables as tables;
ghost use Rattle.rx_graph_closure.specs.Filling as spec;

use rx_graph_bits::Row;
use std::alloc::{AllocError, Global};

/// A row of all numbers below one.
///
/// # Errors
///
/// Memory runs out.
pub fn all_below(alloc: Global, count: usize, bound: usize) -> Result<Row, AllocError>
    ensures { IfOk result (λ row. spec.HasExactly (bits.words bound) row (λ i. i < count)) }
{
    let mut row = Row::new(alloc, bound)?;
    'numbers: for k in 0..count {
        row.insert(k);
    }
    Ok(row)
}

/// Joins a row to that of a member, where there is one. Whether it grew.
fn join_at(rows: &mut [Row], member: usize, row: &Row) -> bool
    requires { tables.Regular (length rows.old) (length row.now) rows.old }
    ensures { tables.Spread (length row.now) rows.old rows.new (member ∷ []) row.now result }
{
    if member < rows.len() {
        rows[member].join(row)
    } else {
        false
    }
}

/// Joins a row to those of some members. Whether any of them grew.
pub fn join_all(rows: &mut [Row], members: &[u32], row: &Row) -> bool
    requires { tables.Regular (length rows.old) (length row.now) rows.old }
    ensures { tables.Spread (length row.now) rows.old rows.new members.now row.now result }
{
    let mut grown = false;
    'members: for k in 0..members.len() {
        let more = join_at(rows, members[k] as usize, row);
        grown = grown | more;
    }
    grown
}

/// Joins a row to those of the first members.
pub fn join_first(rows: &mut [Row], count: usize, row: &Row)
    requires { tables.Regular (length rows.old) (length row.now) rows.old }
    ensures { spec.Added (length row.now) rows.old rows.new (λ m i. (m < count) × (bits.holds row.now i ≡ true)) }
{
    'members: for k in 0..count {
        join_at(rows, k, row);
    }
}

/// Adds a number to the row of a member, where there is one.
fn insert_at(rows: &mut [Row], member: usize, number: usize)
    ensures { (w : ℕ) → tables.Regular (length rows.old) w rows.old → spec.Added w rows.old rows.new (λ m i. (m ≡ member) × (i ≡ number)) }
{
    if member < rows.len() {
        rows[member].insert(number);
    }
}

/// Adds to the row of each of the first members the number that stands as far behind this one.
pub fn put_diagonal(rows: &mut [Row], count: u32, base: u32)
    ensures { (w : ℕ) → tables.Regular (length rows.old) w rows.old → spec.Added w rows.old rows.new (λ m i. (m < count) × (i ≡ base + m)) }
{
    'members: for k in 0..count {
        insert_at(rows, k as usize, base as usize + k as usize);
    }
}

fn copy(alloc: Global, row: &Row, bound: usize) -> Result<Row, AllocError>
    requires { length row.now ≡ bits.words bound }
    ensures { IfOk result (λ it. it ≡ row.now) }
{
    let mut one = Row::new(alloc, bound)?;
    one.assign(row);
    Ok(one)
}

/// The same rows.
///
/// # Errors
///
/// Memory runs out.
pub fn copied(alloc: Global, rows: &[Row], bound: usize) -> Result<Vec<Row>, AllocError>
    requires { tables.Regular (length rows.now) (bits.words bound) rows.now }
    ensures { IfOk result (λ it. it.items ≡ rows.now) }
{
    let mut all = Vec::new(alloc);
    'rows: for k in 0..rows.len() {
        let row = copy(alloc, &rows[k], bound)?;
        all.push(row)?;
    }
    Ok(all)
}

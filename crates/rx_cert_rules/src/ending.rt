//! The second rule: ends of the function's own lifetimes in others are known.

ghost use Rattle.std.specs.Prelude.{◌≡◌, ◌↔◌, ◌+◌, ℕ, length, IfOk, OnOk};
ghost use Rattle.rx_graph_bits.specs.Rows.{words};
ghost use Rattle.rx_graph.specs.Tables as tables;
ghost use Rattle.rx_graph_closure.specs.Filling.{Added};
ghost use Rattle.rx_region.specs.Constraints.{Context};
ghost use Rattle.rx_region.specs.Tables.{Knows};
ghost use Rattle.rx_cert_rules.specs.Parts as parts;
ghost use Rattle.rx_cert_rules.specs.Rules.{EndsKnown};
ghost use Rattle.rx_cert_rules.specs.Written.{written};

use crate::rows::has;
use rx_core::Bound;
use rx_graph_bits::Row;
use rx_graph_closure::empty_rows;
use rx_region::Known;
use std::alloc::{AllocError, Global};

/// Adds a number to the row of a member, where there is one.
fn put(rows: &mut [Row], member: usize, number: usize)
    ensures { (w : ℕ) → tables.Regular (length rows.old) w rows.old → Added w rows.old rows.new (λ m i. (m ≡ member) × (i ≡ number)) }
{
    if member < rows.len() {
        rows[member].insert(number);
    }
}

/// Adds pairs to a table.
fn put_all(rows: &mut [Row], pairs: &[Bound], own: u32)
    requires { tables.Empty own (words own) rows.old }
    ensures { parts.IsTableOf pairs.now own rows.new }
{
    'pairs: for k in 0..pairs.len() {
        let pair = pairs[k];
        put(rows, pair.long as usize, pair.short as usize);
    }
}

/// The pairs that are known, as a table.
fn tabled(alloc: Global, known: &Known, own: u32) -> Result<Vec<Row>, AllocError>
    ensures { IfOk result (λ it. parts.IsTableOf known.now.pairs own it.items) }
{
    let mut rows = empty_rows(alloc, own as usize, own as usize)?;
    put_all(rows.as_mut_slice(), known.pairs.as_slice(), own);
    Ok(rows)
}

/// Whether the ends in the set of a lifetime are in a table.
fn ends_in(rows: &[Row], table: &[Row], lifetime: u32, sites: u32, own: u32) -> bool
    ensures { parts.Tells result (parts.EndsIn rows.now table.now sites own lifetime) }
{
    'ends: for end in 0..own {
        if has(rows, lifetime as usize, sites as usize + end as usize)
            && !has(table, lifetime as usize, end as usize)
        {
            return false;
        }
    }
    true
}

/// Whether the ends in the sets of all own lifetimes are in a table.
fn all_ends_in(rows: &[Row], table: &[Row], sites: u32, own: u32) -> bool
    ensures { parts.Tells result (parts.AllEndsIn rows.now table.now sites own) }
{
    'members: for lifetime in 0..own {
        if !ends_in(rows, table, lifetime, sites, own) {
            return false;
        }
    }
    true
}

/// Whether each end of an own lifetime in the set of another is known, by a table of what is.
fn known_by(known: &Known, rows: &[Row], table: &[Row], sites: u32, own: u32) -> bool
    requires { parts.IsTableOf known.now.pairs own table.now }
    ensures { (C : Context) → Knows C known.now → own ≡ C.lifetimes.own → parts.Tells result (EndsKnown C (written sites own rows.now)) }
{
    all_ends_in(rows, table, sites, own)
}

/// Whether each end of an own lifetime in the set of another is known (RFC 2094, "Named lifetimes"), by how many sites and own
/// lifetimes there are.
///
/// # Errors
///
/// Memory runs out.
pub fn ends_known(
    alloc: Global,
    known: &Known,
    rows: &[Row],
    sites: u32,
    own: u32,
) -> Result<bool, AllocError>
    ensures { (C : Context) → Knows C known.now → own ≡ C.lifetimes.own
        → IfOk result (λ it. parts.Tells it (EndsKnown C (written sites own rows.now))) }
{
    let table = tabled(alloc, known, own)?;
    Ok(known_by(known, rows, table.as_slice(), sites, own))
}

//! The first rule: written sets meet all constraints.

ghost use Rattle.std.specs.Prelude.{◌≡◌, ◌+◌, ◌≤◌, length, List as ListOf, IfOk};
ghost use Rattle.rx_graph_bits.specs.Rows.{words};
ghost use Rattle.rx_lower_walks.specs.Graph as graphs;
ghost use Rattle.rx_region.specs.Constraints.{Context};
ghost use Rattle.rx_region.specs.Tables.{Asks};
ghost use Rattle.rx_cert_rules.specs.Parts as parts;
ghost use Rattle.rx_cert_rules.specs.Rules.{Constrained};
ghost use Rattle.rx_cert_rules.specs.Written.{Numbered, Wide, written};

use crate::rows::{contains, has};
use rx_core::Bound;
use rx_graph_bits::Row;
use rx_region::{Outlives, solutions_meet_constraints};
use std::alloc::{AllocError, Global};

/// Whether the row of a lifetime has the sites that it must hold by itself.
fn holds_must(outlives: &Outlives, rows: &[Row], lifetime: u32, sites: u32) -> bool
    ensures { parts.Tells result (parts.HoldsMust outlives.now rows.now sites lifetime) }
{
    'sites: for site in 0..sites {
        if outlives.must_hold(lifetime, site) && !has(rows, lifetime as usize, site as usize) {
            return false;
        }
    }
    true
}

/// Whether the rows of the first lifetimes have the sites that these must hold by themselves.
fn all_hold_must(outlives: &Outlives, rows: &[Row], count: u32, sites: u32) -> bool
    ensures { parts.Tells result (parts.AllHoldMust outlives.now rows.now sites count) }
{
    'members: for lifetime in 0..count {
        if !holds_must(outlives, rows, lifetime, sites) {
            return false;
        }
    }
    true
}

/// Whether each of the function's own lifetimes has its end.
fn all_have_ends(rows: &[Row], sites: u32, own: u32) -> bool
    ensures { parts.Tells result (parts.AllHaveEnds rows.now sites own) }
{
    'members: for lifetime in 0..own {
        if !has(rows, lifetime as usize, sites as usize + lifetime as usize) {
            return false;
        }
    }
    true
}

/// Whether the longer of each pair has all points of the shorter.
fn all_within(scratch: &mut Row, rows: &[Row], pairs: &[Bound], bound: usize) -> bool
    requires { Wide (length scratch.old) rows.now }
    ensures { parts.Tells result (parts.AllWithin rows.now pairs.now bound) }
{
    'pairs: for k in 0..pairs.len() {
        let pair = pairs[k];
        if !contains(
            scratch,
            rows,
            pair.long as usize,
            pair.short as usize,
            bound,
        ) {
            return false;
        }
    }
    true
}

/// Whether the sets of rows meet all constraints (RFC 2094, "Solving constraints"), by how many sites, own lifetimes and lifetimes there
/// are.
///
/// # Errors
///
/// Memory runs out.
pub fn constrained(
    alloc: Global,
    outlives: &Outlives,
    rows: &[Row],
    sites: u32,
    own: u32,
    count: u32,
) -> Result<bool, AllocError>
    requires { Wide (words (sites + own)) rows.now }
    ensures { (C : Context) (g : ListOf graphs.Site) → Asks C g outlives.now → Numbered C → sites ≡ length g → own ≡ C.lifetimes.own
        → count ≡ C.lifetimes.regions → IfOk result (λ it. parts.Tells it (Constrained C g (written sites own rows.now))) }
{
    let bound = sites as usize + own as usize;
    let mut scratch = Row::new(alloc, bound)?;
    solutions_meet_constraints();
    if !all_hold_must(outlives, rows, count, sites) {
        return Ok(false);
    }
    if !all_have_ends(rows, sites, own) {
        return Ok(false);
    }
    Ok(all_within(&mut scratch, rows, outlives.pairs.as_slice(), bound))
}

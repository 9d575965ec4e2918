//! The first rule that written sets of a function break.

ghost use Rattle.std.specs.Prelude.{◌≡◌, ◌≤◌, ◌+◌, length, map, IfOk};
ghost use Rattle.rx_graph_bits.specs.Rows.{words};
ghost use Rattle.rx_lower_walks.specs.PlainSite.{plain-Site};
ghost use Rattle.rx_lower_lifetimes.specs.PlainOwn.{plain-Own};
ghost use Rattle.rx_facts_tables.specs.LiveTables.{IsIndex, Lives};
ghost use Rattle.rx_region.specs.PlainContext.{plain-Given};
ghost use Rattle.rx_loan.specs.Loans.{loans_of};
ghost use Rattle.rx_loan.specs.PlainOf.{plain-Loan};
ghost use Rattle.rx_cert_rules.specs.Verdicts.{Judges, OfLifetimes, OfLoans};
ghost use Rattle.rx_cert_rules.specs.Written.{Numbered, Wide, inside, written};

use crate::access::none_conflicts;
use crate::borrowing::all_loans;
use crate::constraining::constrained;
use crate::ending::ends_known;
use crate::following::{Written, all_follow};
use rx_facts_tables::LiveTable;
use rx_graph_bits::Row;
use rx_loan::Loan;
use rx_lower_lifetimes::Own;
use rx_lower_walks::Site;
use rx_region::{Given, constraints, known_pairs};
use std::alloc::{AllocError, Global};

/// Which of the first two rules the sets of the lifetimes break.
fn lifetimes_broken(
    alloc: Global,
    given: &Given<'_>,
    sites: &[Site],
    live: &LiveTable,
    regions: &[Row],
) -> Result<Option<u32>, AllocError>
    requires few { length sites.now ≤ 16384 }
    requires index { IsIndex live.now.index }
    requires wide { Wide (words (length sites.now + given.now.lifetimes.now.own)) regions.now }
    ensures { Lives (map plain-Site sites.now) live.now → Numbered (plain-Given given.now)
        → IfOk result (λ it. OfLifetimes (plain-Given given.now) (map plain-Site sites.now) (written (length sites.now) given.now.lifetimes.now.own regions.now) it) }
{
    let own = given.lifetimes.own;
    let count = sites.len() as u32;
    let outlives = constraints(alloc, given, sites, live)?;
    if !constrained(
        alloc,
        &outlives,
        regions,
        count,
        own,
        given.lifetimes.regions,
    )? {
        return Ok(Some(1));
    }
    let known = known_pairs(alloc, given)?;
    if !ends_known(alloc, &known, regions, count, own)? {
        return Ok(Some(2));
    }
    Ok(None)
}

/// Which of the others the rows of these loans break.
fn rows_broken(sites: &[Site], rows: &Written<'_>, loans: &[Loan]) -> Option<u32>
    requires { rows.now.sites ≡ length sites.now }
    ensures { OfLoans (map plain-Site sites.now) (inside rows.now.regions.now rows.now.sites) (map plain-Loan loans.now) (inside rows.now.scopes.now rows.now.sites) result }
{
    if !all_follow(sites, rows, loans) {
        return Some(3);
    }
    if !none_conflicts(sites, rows.scopes, loans) {
        return Some(4);
    }
    None
}

/// Which of the others the rows of the loans break.
fn loans_broken(
    alloc: Global,
    sites: &[Site],
    owned: &[Own],
    rows: &Written<'_>,
) -> Result<Option<u32>, AllocError>
    requires few { length sites.now ≤ 16384 }
    requires sites { rows.now.sites ≡ length sites.now }
    ensures { IfOk result (λ it. OfLoans (map plain-Site sites.now) (inside rows.now.regions.now rows.now.sites)
        (loans_of (map plain-Site sites.now) (map plain-Own owned.now)) (inside rows.now.scopes.now rows.now.sites) it) }
{
    let loans = all_loans(alloc, sites, owned)?;
    Ok(rows_broken(sites, rows, loans.as_slice()))
}

/// The number of the first of the four rules that written sets of a function break, by rows of points for its lifetimes and of sites
/// for its loans, in the order of their borrows; none where they keep all.
///
/// # Errors
///
/// Memory runs out.
pub fn first_broken(
    alloc: Global,
    given: &Given<'_>,
    sites: &[Site],
    live: &LiveTable,
    regions: &[Row],
    scopes: &[Row],
) -> Result<Option<u32>, AllocError>
    requires few { length sites.now ≤ 16384 }
    requires index { IsIndex live.now.index }
    requires wide { Wide (words (length sites.now + given.now.lifetimes.now.own)) regions.now }
    ensures { Lives (map plain-Site sites.now) live.now → Numbered (plain-Given given.now)
        → IfOk result (λ it. Judges (plain-Given given.now) (map plain-Site sites.now) (written (length sites.now) given.now.lifetimes.now.own regions.now) (inside scopes.now (length sites.now)) it) }
{
    match lifetimes_broken(alloc, given, sites, live, regions)? {
        Some(rule) => Ok(Some(rule)),
        None => {
            let rows = Written {
                regions,
                scopes,
                sites: sites.len(),
            };
            let found = loans_broken(alloc, sites, given.lifetimes.owned.as_slice(), &rows)?;
            Ok(found)
        }
    }
}

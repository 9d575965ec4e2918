//! The third rule: the sites of a loan go on as long as its lifetime does and nothing ends it.

ghost use Rattle.std.specs.Prelude.{◌≡◌, length, map};
ghost use Rattle.rx_lower_walks.specs.Graph.{site_at};
ghost use Rattle.rx_lower_walks.specs.PlainFlow.{plain-Place};
ghost use Rattle.rx_lower_walks.specs.PlainSite.{plain-Site};
ghost use Rattle.rx_loan.specs.Loans as loans_of;
ghost use Rattle.rx_loan.specs.PlainOf.{plain-Loan};
ghost use Rattle.rx_cert_rules.specs.Parts as parts;
ghost use Rattle.rx_cert_rules.specs.Rules as rules;
ghost use Rattle.rx_cert_rules.specs.Written.{inside};

use crate::borrowing::ends;
use crate::rows::has_site;
use rx_facts_tables::Onward;
use rx_graph::Leads;
use rx_graph_bits::Row;
use rx_loan::Loan;
use rx_lower_walks::{Place, Site};

/// Rows of points by lifetime, of so many sites, and of sites by loan.
#[derive(Clone, Copy)]
pub struct Written<'a> {
    pub regions: &'a [Row],
    pub scopes: &'a [Row],
    pub sites: usize,
}

/// Whether those of some sites that a lifetime has are in a loan's row.
fn some_follow(next: &[u32], rows: &Written<'_>, lifetime: usize, loan: usize) -> bool
    ensures { parts.Tells result (parts.SomeFollow (inside rows.now.regions.now rows.now.sites lifetime) (inside rows.now.scopes.now rows.now.sites loan) next.now) }
{
    'next: for k in 0..next.len() {
        let site = next[k] as usize;
        if has_site(rows.regions, lifetime, site, rows.sites)
            && !has_site(rows.scopes, loan, site, rows.sites)
        {
            return false;
        }
    }
    true
}

/// Whether a site ends loans of a place.
fn ends_at(sites: &[Site], site: usize, place: &Place) -> bool
    ensures { result ≡ loans_of.ends_at (site_at (map plain-Site sites.now) site) (plain-Place place.now) }
{
    match sites.get(site) {
        Some(site) => ends(place, &site.action.act),
        None => false,
    }
}

/// Whether a loan goes on behind a site of its row, unless that ends it.
fn goes_on_at(sites: &[Site], rows: &Written<'_>, number: usize, loan: &Loan, site: usize) -> bool
    ensures { parts.Tells result (parts.GoesOnAt (map plain-Site sites.now) (inside rows.now.regions.now rows.now.sites loan.now.region) (plain-Place loan.now.place) (inside rows.now.scopes.now rows.now.sites number) site) }
{
    if !has_site(rows.scopes, number, site, rows.sites) {
        return true;
    }
    if ends_at(sites, site, &loan.place) {
        return true;
    }
    some_follow(
        Onward { sites }.targets(site),
        rows,
        loan.region as usize,
        number,
    )
}

/// Whether a loan goes on behind all sites of its row.
fn goes_on(sites: &[Site], rows: &Written<'_>, number: usize, loan: &Loan) -> bool
    ensures { parts.Tells result (parts.GoesOn (map plain-Site sites.now) (inside rows.now.regions.now rows.now.sites loan.now.region) (plain-Place loan.now.place) (inside rows.now.scopes.now rows.now.sites number) (length sites.now)) }
{
    'sites: for site in 0..sites.len() {
        if !goes_on_at(sites, rows, number, loan, site) {
            return false;
        }
    }
    true
}

/// Whether a loan's row has each site of its lifetime that follows its borrow, or one of the row that doesn't end it.
fn follows(sites: &[Site], rows: &Written<'_>, number: usize, loan: &Loan) -> bool
    ensures { parts.Tells result (rules.Follows (map plain-Site sites.now) (inside rows.now.regions.now rows.now.sites loan.now.region) (plain-Loan loan.now) (inside rows.now.scopes.now rows.now.sites number)) }
{
    let graph = Onward { sites };
    let next = graph.targets(loan.site as usize);
    if !some_follow(next, rows, loan.region as usize, number) {
        return false;
    }
    goes_on(sites, rows, number, loan)
}

/// Whether the rows of all loans do (RFC 2094, "Loans in scope").
pub fn all_follow(sites: &[Site], rows: &Written<'_>, loans: &[Loan]) -> bool
    ensures { parts.Tells result (rules.LoansFollow (map plain-Site sites.now) (inside rows.now.regions.now rows.now.sites) (map plain-Loan loans.now) (inside rows.now.scopes.now rows.now.sites)) }
{
    'loans: for k in 0..loans.len() {
        if !follows(sites, rows, k, &loans[k]) {
            return false;
        }
    }
    true
}

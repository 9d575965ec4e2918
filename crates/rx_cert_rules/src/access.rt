//! The fourth rule: no access meets a conflicting loan at one of its sites.

ghost use Rattle.std.specs.Prelude.{◌≡◌, ◌<◌, length, map};
ghost use Rattle.rx_lower_walks.specs.PlainFlow.{plain-Act};
ghost use Rattle.rx_lower_walks.specs.PlainSite.{plain-Site};
ghost use Rattle.rx_loan.specs.Accesses as accesses;
ghost use Rattle.rx_loan.specs.PlainOf.{plain-Loan};
ghost use Rattle.rx_cert_rules.specs.Parts as parts;
ghost use Rattle.rx_cert_rules.specs.Rules as rules;
ghost use Rattle.rx_cert_rules.specs.Written.{inside};

use crate::rows::has_site;
use rx_graph_bits::Row;
use rx_loan::{Loan, accessed, conflict};
use rx_lower_walks::{Act, Site};

/// Whether an action accesses what a loan forbids.
fn acts_against(act: &Act, loan: &Loan) -> bool
    ensures { result ≡ accesses.acts_against (plain-Act act.now) (plain-Loan loan.now) }
{
    match accessed(act) {
        Some(access) => conflict(&access, loan),
        None => false,
    }
}

/// Whether the access at a site, if that is of the loan's row, is none that the loan forbids.
fn is_quiet_at(sites: &[Site], scopes: &[Row], number: usize, loan: &Loan, site: usize) -> bool
    requires { site < length sites.now }
    ensures { parts.Tells result (parts.QuietAt (map plain-Site sites.now) (plain-Loan loan.now) (inside scopes.now (length sites.now) number) site) }
{
    if !has_site(scopes, number, site, sites.len()) {
        return true;
    }
    !acts_against(&sites[site].action.act, loan)
}

/// Whether no access meets a loan that forbids it, at the sites of the loan's row.
fn is_quiet(sites: &[Site], scopes: &[Row], number: usize, loan: &Loan) -> bool
    ensures { parts.Tells result (parts.Quiet (map plain-Site sites.now) (plain-Loan loan.now) (inside scopes.now (length sites.now) number) (length sites.now)) }
{
    'sites: for site in 0..sites.len() {
        if !is_quiet_at(sites, scopes, number, loan, site) {
            return false;
        }
    }
    true
}

/// Whether no access meets a conflicting loan at a site of the loan's row (RFC 2094, "Access legality").
pub fn none_conflicts(sites: &[Site], scopes: &[Row], loans: &[Loan]) -> bool
    ensures { parts.Tells result (rules.NoneConflicts (map plain-Site sites.now) (map plain-Loan loans.now) (inside scopes.now (length sites.now))) }
{
    'loans: for k in 0..loans.len() {
        if !is_quiet(sites, scopes, k, &loans[k]) {
            return false;
        }
    }
    true
}

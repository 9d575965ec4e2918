//! Whether some access meets a loan that forbids it.

ghost use Rattle.std.specs.Prelude.{◌≡◌, ◌≤◌, ◌&&◌, ℕ, Bool, List as ListOf, length, map, MatchOption, MatchResult};
ghost use Rattle.rx_graph.specs.Tables.{at};
ghost use Rattle.rx_lower_walks.specs.PlainFlow.{plain-Act};
ghost use Rattle.rx_lower_walks.specs.PlainSite.{plain-Site};
ghost use Rattle.rx_lower_lifetimes.specs.Numbered as numbered;
ghost use Rattle.rx_loan.specs.Accesses as accesses;
ghost use Rattle.rx_loan.specs.Loans as spec;
ghost use Rattle.rx_loan.specs.PlainOf.{plain-Access, plain-Loan};
ghost use Rattle.rx_loan.specs.Tables as tables;

use crate::accesses::{Access, Loan, accessed, conflict};
use crate::table::LoanTable;
use rx_lower_walks::{Act, Site};

/// An access that meets a loan which forbids it: the site of the loan's borrow, and that of the access.
#[derive(Clone, Copy)]
pub struct Conflict {
    pub borrow: u32,
    pub access: u32,
}

/// Whether a loan is in scope at a site and forbids an access.
fn forbids(table: &LoanTable, number: usize, loan: &Loan, access: &Access<'_>, site: usize) -> bool
    ensures { result ≡ (at table.now.rows.items number site && accesses.conflicts (plain-Access access.now) (plain-Loan loan.now)) }
{
    table.in_scope(number, site) && conflict(access, loan)
}

/// The borrow of the first loan in scope at a site that forbids an access.
fn among(table: &LoanTable, access: &Access<'_>, site: usize) -> Option<u32>
    ensures { MatchOption result (tables.NoneForbids table.now (accesses.conflicts (plain-Access access.now)) site) (tables.OneForbids table.now (accesses.conflicts (plain-Access access.now)) site) }
{
    let loans = table.list.as_slice();
    'loans: for k in 0..loans.len() {
        if forbids(table, k, &loans[k], access, site) {
            return Some(loans[k].site);
        }
    }
    None
}

/// The borrow of the first loan in scope at a site that forbids what an action accesses.
fn against(table: &LoanTable, act: &Act, site: usize) -> Option<u32>
    ensures { MatchOption result (tables.NoneForbids table.now (accesses.acts_against (plain-Act act.now)) site) (tables.OneForbids table.now (accesses.acts_against (plain-Act act.now)) site) }
{
    match accessed(act) {
        Some(access) => among(table, &access, site),
        None => None,
    }
}

/// Whether no access meets a loan in scope that forbids it (RFC 2094, "Access legality").
///
/// # Errors
///
/// Some access does: the first site at which one does, and the borrow of the first loan that forbids it.
pub fn legal(sites: &[Site], table: &LoanTable) -> Result<(), Conflict>
    requires { length sites.now ≤ 16384 }
    ensures { (os : ListOf numbered.Own) (R : ℕ → ℕ → Bool) → tables.IsLoanTable (map plain-Site sites.now) os R table.now
        → MatchResult result (λ _. spec.IsLegal (map plain-Site sites.now) R (spec.loans_of (map plain-Site sites.now) os))
        (λ f. tables.IsMet (map plain-Site sites.now) R (spec.loans_of (map plain-Site sites.now) os) f.borrow f.access) }
{
    'sites: for k in 0..sites.len() {
        if let Some(borrow) = against(table, &sites[k].action.act, k) {
            return Err(Conflict {
                borrow,
                access: k as u32,
            });
        }
    }
    Ok(())
}

//! Where loans are in scope.

ghost use Rattle.std.specs.Prelude.{◌≡◌, ◌↔◌, ◌≤◌, ◌<◌, ◌*◌, ℕ, Bool, List as ListOf, true, length, map, IfOk, slice_get, Some};
ghost use Rattle.rx_graph_bits.specs.Rows.{holds as has_bit};
ghost use Rattle.rx_graph.specs.Tables.{at};
ghost use Rattle.rx_lower_walks.specs.Graph as graphs;
ghost use Rattle.rx_lower_walks.specs.PlainFlow.{plain-Place};
ghost use Rattle.rx_lower_walks.specs.PlainSite.{plain-Site};
ghost use Rattle.rx_lower_lifetimes.specs.Numbered as numbered;
ghost use Rattle.rx_lower_lifetimes.specs.PlainOwn.{plain-Own};
ghost use Rattle.rx_loan.specs.Accesses as accesses;
ghost use Rattle.rx_loan.specs.Loans as spec;
ghost use Rattle.rx_loan.specs.PlainOf.{plain-Loan};
ghost use Rattle.rx_loan.specs.Tables as tables;

use crate::accesses::Loan;
use crate::borrows::{all_loans, ends};
use rx_core::List;
use rx_facts_tables::Onward;
use rx_graph_bits::Row;
use rx_graph_reach::reached;
use rx_lower_lifetimes::Own;
use rx_lower_walks::{Place, Site};
use std::alloc::{AllocError, Global};

/// The loans of a function, and the sites at which each is in scope.
#[derive(Drop)]
pub struct LoanTable {
    /// In the order of their borrows.
    pub list: List<Loan>,
    rows: Vec<Row>,
}

impl LoanTable {
    /// Whether a loan, by its number in the list, is in scope at a site: some walk comes there from its borrow, through sites of
    /// its region alone, none of which writes a prefix of its place before.
    pub fn in_scope(&self, loan: usize, site: usize) -> bool
        ensures held { result ≡ at self.now.rows.items loan site }
        ensures exact { (g : ListOf graphs.Site) (os : ListOf numbered.Own) (R : ℕ → ℕ → Bool) (l : accesses.Loan) → tables.IsLoanTable g os R self.now
            → slice_get (spec.loans_of g os) loan ≡ Some l → site < length g → (result ≡ true) ↔ spec.InScope g R l site }
    {
        self.row_holds(loan, site)
    }

    fn row_holds(&self, loan: usize, site: usize) -> bool
        ensures { result ≡ at self.now.rows.items loan site }
    {
        match self.rows.get(loan) {
            Some(row) => row.holds(site),
            None => false,
        }
    }
}

/// Adds a number, if it is to be added.
fn mark(row: &mut Row, number: usize, added: bool)
    ensures { tables.Marks row.old row.new number added }
{
    if added {
        row.insert(number);
    }
}

/// The sites that end loans of a place.
fn stops(alloc: Global, sites: &[Site], place: &Place) -> Result<Row, AllocError>
    ensures { IfOk result (λ it. tables.Stops (map plain-Site sites.now) (plain-Place place.now) it) }
{
    let mut row = Row::new(alloc, sites.len())?;
    'sites: for k in 0..sites.len() {
        mark(&mut row, k, ends(place, &sites[k].action.act));
    }
    Ok(row)
}

/// The sites at which a loan is in scope.
fn scope(alloc: Global, sites: &[Site], regions: &[Row], loan: &Loan) -> Result<Row, AllocError>
    ensures { IfOk result (λ it. tables.Scopes (map plain-Site sites.now) (at regions.now) (plain-Loan loan.now) it) }
{
    let stops = stops(alloc, sites, &loan.place)?;
    match regions.get(loan.region as usize) {
        Some(inside) => {
            let row = reached(alloc, &Onward { sites }, inside, &stops, loan.site as usize)?;
            Ok(row)
        }
        None => {
            let row = Row::new(alloc, sites.len())?;
            Ok(row)
        }
    }
}

/// The sites at which each of these loans is in scope.
fn scopes(
    alloc: Global,
    sites: &[Site],
    regions: &[Row],
    loans: &[Loan],
) -> Result<Vec<Row>, AllocError>
    ensures { IfOk result (λ it. tables.AllScoped (map plain-Site sites.now) (at regions.now) (map plain-Loan loans.now) it.items (length loans.now)) }
{
    let mut rows = Vec::new(alloc);
    'loans: for k in 0..loans.len() {
        let row = scope(alloc, sites, regions, &loans[k])?;
        rows.push(row)?;
    }
    Ok(rows)
}

/// The loans of a function and where each is in scope, under these regions: a row of sites for each lifetime.
///
/// Time is near the sum of the sites and of those at which each loan is in scope; memory is a bit for each loan and site.
///
/// # Errors
///
/// Memory runs out.
pub fn loans(
    alloc: Global,
    sites: &[Site],
    owned: &[Own],
    regions: &[Row],
) -> Result<LoanTable, AllocError>
    requires { length sites.now ≤ 16384 }
    ensures { IfOk result (λ t. tables.IsLoanTable (map plain-Site sites.now) (map plain-Own owned.now) (at regions.now) t) }
{
    let list = all_loans(alloc, sites, owned)?;
    let rows = scopes(alloc, sites, regions, list.as_slice())?;
    Ok(LoanTable { list, rows })
}

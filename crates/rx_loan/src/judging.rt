//! The loans of a function, by sets of points of its lifetimes.

ghost use Rattle.std.specs.Prelude.{◌≡◌, ◌≤◌, length, map, Ok};
ghost use Rattle.rx_lower_walks.specs.PlainSite.{plain-Site};
ghost use Rattle.rx_lower_lifetimes.specs.PlainOwn.{plain-Own};
ghost use Rattle.rx_region.specs.Constraints.{Context};
ghost use Rattle.rx_region.specs.Passing.{RegionAnswer};
ghost use Rattle.rx_loan.specs.Answer as answers;

use crate::{LoanTable, legal, loans};
use rx_lower_lifetimes::Own;
use rx_lower_walks::Site;
use rx_region::Regions;
use std::alloc::Global;

/// Why a function's loans are refused.
#[derive(Drop)]
pub enum BorrowFault {
    /// The first site that accesses what a loan in scope there forbids, and the site of that loan's borrow.
    Loan { borrow: u32, access: u32 },
    OutOfMemory,
}

/// Where each loan of a function is in scope, by its sites, what they have of their own, and the least sets of its lifetimes,
/// which keep to what is known of its own (RFC 2094, "Access legality").
///
/// # Errors
///
/// The first access that meets a conflicting loan in scope; or memory runs out.
pub fn check_loans(
    alloc: Global,
    sites: &[Site],
    owned: &[Own],
    regions: &Regions,
) -> Result<LoanTable, BorrowFault>
    requires few { length sites.now ≤ 16384 }
    ensures { (C : Context) → map plain-Own owned.now ≡ C.lifetimes.owned → RegionAnswer C (map plain-Site sites.now) (Ok regions.now)
        → answers.Judges C (map plain-Site sites.now) result }
{
    match loans(alloc, sites, owned, regions.rows()) {
        Ok(loans) => match legal(sites, &loans) {
            Ok(()) => Ok(loans),
            Err(found) => Err(BorrowFault::Loan {
                borrow: found.borrow,
                access: found.access,
            }),
        },
        Err(_) => Err(BorrowFault::OutOfMemory),
    }
}

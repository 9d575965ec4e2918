//! The loans of a function, and what ends them.

ghost use Rattle.std.specs.Prelude.{◌≡◌, ◌≤◌, ◌++◌, length, map, option_map, IfOk, OnOk};
ghost use Rattle.rx_lower_walks.specs.PlainFlow.{plain-Act, plain-Place};
ghost use Rattle.rx_lower_walks.specs.PlainSite.{plain-Site};
ghost use Rattle.rx_lower_lifetimes.specs.PlainOwn.{plain-Own};
ghost use Rattle.rx_loan.specs.Loans as spec;
ghost use Rattle.rx_loan.specs.PlainOf.{plain-Loan};
ghost use Rattle.rx_loan.specs.Tables.{listed};

use rx_core::List;
use rx_loan::Loan;
use rx_lower_lifetimes::Own;
use rx_lower_walks::{Act, Place, Site, is_prefix};
use std::alloc::{AllocError, Global};

/// Whether an action writes a place, or one that it is in.
pub fn ends(place: &Place, act: &Act) -> bool
    ensures { result ≡ spec.ends (plain-Place place.now) (plain-Act act.now) }
{
    match act {
        Act::Write(written, _, _) => is_prefix(
            written.root,
            written.steps.as_slice(),
            place.root,
            place.steps.as_slice(),
        ),
        Act::Declare(_)
        | Act::Dead(_)
        | Act::Read(_, _, _)
        | Act::Borrow(_, _, _)
        | Act::Test(_, _)
        | Act::Call(_, _, _)
        | Act::Build(_, _, _, _)
        | Act::Input(_)
        | Act::Print(_)
        | Act::Give(_) => false,
    }
}

fn made(
    alloc: Global,
    site: u32,
    region: u32,
    mutable: bool,
    place: &Place,
) -> Result<Loan, AllocError>
    ensures { IfOk result (λ it. plain-Loan it ≡ record { site = site; region = region; mutable = mutable; place = plain-Place place.now }) }
{
    let steps = List::from_slice(alloc, place.steps.as_slice())?;
    Ok(Loan {
        site,
        region,
        mutable,
        place: Place {
            root: place.root,
            steps,
        },
    })
}

fn of_borrow(
    alloc: Global,
    site: u32,
    own: &Own,
    mutable: bool,
    place: &Place,
) -> Result<Option<Loan>, AllocError>
    ensures { IfOk result (λ it. listed (option_map plain-Loan it) ≡ spec.borrow_loan site mutable (plain-Place place.now) (plain-Own own.now)) }
{
    match own {
        Own::Region(region) => Ok(Some(made(alloc, site, *region, mutable, place)?)),
        Own::Nothing | Own::Signature(_) => Ok(None),
    }
}

/// The loan that a site makes.
fn loan_at(alloc: Global, site: u32, act: &Act, own: &Own) -> Result<Option<Loan>, AllocError>
    ensures { IfOk result (λ it. listed (option_map plain-Loan it) ≡ spec.loan_at site (plain-Act act.now) (plain-Own own.now)) }
{
    match act {
        Act::Borrow(mutable, place, _) => of_borrow(alloc, site, own, *mutable, place),
        Act::Declare(_)
        | Act::Dead(_)
        | Act::Read(_, _, _)
        | Act::Write(_, _, _)
        | Act::Test(_, _)
        | Act::Call(_, _, _)
        | Act::Build(_, _, _, _)
        | Act::Input(_)
        | Act::Print(_)
        | Act::Give(_) => Ok(None),
    }
}

fn push_loan(loans: &mut List<Loan>, loan: Option<Loan>) -> Result<(), AllocError>
    ensures { OnOk result (map plain-Loan loans.new ≡ map plain-Loan loans.old ++ listed (option_map plain-Loan loan)) }
{
    match loan {
        Some(loan) => loans.push(loan),
        None => Ok(()),
    }
}

/// The loans of the sites, in their order.
pub fn all_loans(alloc: Global, sites: &[Site], owned: &[Own]) -> Result<List<Loan>, AllocError>
    requires { length sites.now ≤ 16384 }
    ensures { IfOk result (λ it. map plain-Loan it ≡ spec.loans_of (map plain-Site sites.now) (map plain-Own owned.now)) }
{
    let mut loans = List::new(alloc);
    'sites: for k in 0..sites.len() {
        match owned.get(k) {
            Some(own) => {
                let loan = loan_at(alloc, k as u32, &sites[k].action.act, own)?;
                push_loan(&mut loans, loan)?;
            }
            None => return Ok(loans),
        }
    }
    Ok(loans)
}

//! Whether the lines of a certificate are those of a program's functions.

ghost use Rattle.std.specs.Prelude.{◌≡◌, ◌+◌, ◌≤◌, List as ListOf, length, drop, map, IfOk};
ghost use Rattle.rx_lower_walks.specs.PlainSite.{plain-Site};
ghost use Rattle.rx_lower_lifetimes.specs.PlainOwn.{plain-Own};
ghost use Rattle.rx_typed.specs.declared.declarations.Decl.{Decl};
ghost use Rattle.rx_loan.specs.Accesses as accesses;
ghost use Rattle.rx_loan.specs.Loans.{loans_of};
ghost use Rattle.rx_facts.specs.Answers.{IsGraphOf, AreGraphs};
ghost use Rattle.rx_cert_tables.specs.Fitting as lines_of;
ghost use Rattle.rx_cert.specs.Parts as parts;
ghost use Rattle.rx_cert.specs.Shapes as shapes;

use crate::fault::VerifyFault;
use rx_cert_lines::Line;
use rx_cert_rules::all_loans;
use rx_cert_tables::{Shape, misfit};
use rx_core::List;
use rx_facts::Lowered;
use rx_loan::Loan;
use rx_lower_lifetimes::Own;
use rx_lower_walks::Site;
use rx_typeck_typed::{Typed, TypedFn};
use std::alloc::{AllocError, Global};

/// The lines from one on.
pub(crate) fn from(lines: &[Line], at: usize) -> &[Line]
    requires { at ≤ length lines.now }
    ensures { result.now ≡ drop at lines.now }
{
    &lines[at..]
}

/// The sites of the borrows of these loans.
fn sites_of(alloc: Global, loans: &[Loan]) -> Result<List<u32>, AllocError>
    ensures { IfOk result (λ it. it ≡ map (λ l. l.site) loans.now) }
{
    let mut sites = List::new(alloc);
    'loans: for k in 0..loans.len() {
        sites.push(loans[k].site)?;
    }
    Ok(sites)
}

/// The sites of a function's borrows, in order.
fn borrows(alloc: Global, sites: &[Site], owned: &[Own]) -> Result<List<u32>, AllocError>
    requires { length sites.now ≤ 16384 }
    ensures { IfOk result (λ it. it ≡ map (λ (l : accesses.Loan). l.site) (loans_of (map plain-Site sites.now) (map plain-Own owned.now))) }
{
    let loans = all_loans(alloc, sites, owned)?;
    let sites = sites_of(alloc, loans.as_slice())?;
    Ok(sites)
}

/// The shape of a function: its item number, its sites and lifetimes, and the sites of its borrows that make loans.
///
/// # Errors
///
/// Memory runs out.
pub fn shape(alloc: Global, function: &TypedFn, lowered: &Lowered) -> Result<Shape, AllocError>
    requires { length lowered.now.graph.sites ≤ 16384 }
    ensures { (D : ListOf Decl) → IsGraphOf D function.now lowered.now → IfOk result (λ it. it ≡ shapes.shape_of D function.now) }
{
    let graph = &lowered.graph;
    let sites = graph.sites.as_slice();
    let owned = graph.lifetimes.owned.as_slice();
    let borrows = borrows(alloc, sites, owned)?;
    Ok(Shape {
        item: function.item,
        sites: sites.len() as u32,
        own: graph.lifetimes.own,
        lifetimes: graph.lifetimes.regions,
        borrows,
    })
}

/// How many lines a function has, where they are among these.
pub(crate) fn count(shape: &Shape, lines: &[Line]) -> usize
    requires few { length lines.now ≤ 16777216 }
    requires within { lines_of.count shape.now ≤ length lines.now }
    ensures { result ≡ lines_of.count shape.now }
{
    1 + shape.lifetimes as usize + shape.borrows.len()
}

/// The number, from 1, of the line so far behind one.
fn number_of(lines: &[Line], at: usize, place: usize) -> u32
    requires few { length lines.now ≤ 16777216 }
    requires place { at + place ≤ length lines.now }
    ensures { result ≡ at + place + 1 }
{
    (at + place + 1) as u32
}

/// How many lines a shape has, where those from one on are its; or the first that is not.
fn fits_by(shape: &Shape, lines: &[Line], at: usize) -> Result<usize, VerifyFault>
    requires few { length lines.now ≤ 16777216 }
    requires at { at ≤ length lines.now }
    ensures { parts.FitsBy shape.now (drop at lines.now) at result }
{
    match misfit(shape, from(lines, at)) {
        Some(place) => Err(VerifyFault::Form {
            line: number_of(lines, at, place),
        }),
        None => Ok(count(shape, lines)),
    }
}

/// How many lines a function has, where those from one on are its; or the first that is not.
fn fit_one(
    alloc: Global,
    function: &TypedFn,
    lowered: &Lowered,
    lines: &[Line],
    at: usize,
) -> Result<usize, VerifyFault>
    requires few { length lines.now ≤ 16777216 }
    requires at { at ≤ length lines.now }
    requires sites { length lowered.now.graph.sites ≤ 16384 }
    ensures { (D : ListOf Decl) → IsGraphOf D function.now lowered.now → parts.FitsOne D function.now (drop at lines.now) at result }
{
    match shape(alloc, function, lowered) {
        Ok(shape) => fits_by(&shape, lines, at),
        Err(_) => Err(VerifyFault::OutOfMemory),
    }
}

/// Whether the lines are those of the functions, and no more.
///
/// # Errors
///
/// The first line that isn't so, from 1; or memory runs out.
pub(crate) fn all_fit(
    alloc: Global,
    typed: &Typed,
    graphs: &[Lowered],
    lines: &[Line],
) -> Result<(), VerifyFault>
    requires few { length lines.now ≤ 16777216 }
    requires graphs { AreGraphs typed.now graphs.now }
    ensures { parts.AllFit typed.now lines.now result }
{
    let functions = typed.functions.as_slice();
    let mut at = 0;
    for i in 0..functions.len() {
        at = match fit_one(alloc, &functions[i], &graphs[i], lines, at) {
            Ok(count) => at + count,
            Err(fault) => return Err(fault),
        };
    }
    if at < lines.len() {
        return Err(VerifyFault::Form {
            line: number_of(lines, at, 0),
        });
    }
    Ok(())
}

//! The loans of all functions.

ghost use Rattle.std.specs.Prelude.{◌≡◌, ◌≤◌, ◌++◌, ◌∷◌, [], ℕ, List as ListOf, length, map, IfOk, IfErr};
ghost use Rattle.rx_core.specs.declared.types.Bound.{Bound};
ghost use Rattle.rx_typed.specs.declared.declarations.Decl.{Decl};
ghost use Rattle.rx_lower_walks.specs.Graph.{site_at};
ghost use Rattle.rx_lower_walks.specs.PlainSite.{plain-Site};
ghost use Rattle.rx_facts.specs.Functions.{span_of as span_is};
ghost use Rattle.rx_facts.specs.Answers.{IsGraphOf, AreGraphs};
ghost use Rattle.rx_check.specs.Functions.{node_at, AreRegionsOf, AreLoansOf, MeetsLoan};
ghost use Rattle.rx_check.specs.Answers.{AreRegions, FunctionLoansAnswer, LoansAnswer};
ghost use Rattle.rx_check.specs.declared.loans.FunctionLoans.{FunctionLoans as LoansOf};

use crate::regions::FunctionRegions;
use rx_core::{LetGo, List, Span, keep, pushed};
use rx_facts::Lowered;
use rx_loan::{BorrowFault, LoanTable, check_loans};
use rx_lower_walks::Site;
use rx_typeck_typed::{Typed, TypedFn};
use std::alloc::Global;

/// The loans of a function, and where each is in scope.
#[derive(Drop)]
pub struct FunctionLoans {
    pub loans: LoanTable,
}

/// Why the loans of a program are refused.
#[derive(Drop)]
pub enum LoanFault {
    /// Where an access stands that a loan in scope there forbids, and where the loan's borrow does.
    Loan { borrow: Span, access: Span },
    OutOfMemory,
}

impl LetGo for FunctionLoans {
    fn let_go(self) {
        let _gone = self;
    }
}

/// The node of a site.
fn node_of(sites: &[Site], site: u32) -> usize
    ensures { result ≡ node_at (site_at (map plain-Site sites.now) site) }
{
    match sites.get(site as usize) {
        Some(site) => site.action.node,
        None => 0,
    }
}

/// Where a node stands in the text.
fn span_of(spans: &[Span], node: usize) -> Span
    ensures { result ≡ span_is spans.now node }
{
    match spans.get(node) {
        Some(span) => *span,
        None => Span { start: 0, end: 0 },
    }
}

/// The loans of a function, by its least sets.
fn function_loans(
    alloc: Global,
    function: &TypedFn,
    lowered: &Lowered,
    regions: &FunctionRegions,
) -> Result<FunctionLoans, LoanFault>
    requires { length lowered.now.graph.sites ≤ 16384 }
    ensures { (D : ListOf Decl) (P : ℕ → ListOf Bound) → IsGraphOf D function.now lowered.now → AreRegionsOf D P function.now regions.now
        → FunctionLoansAnswer D P function.now result }
{
    let sites = lowered.graph.sites.as_slice();
    let owned = lowered.graph.lifetimes.owned.as_slice();
    match check_loans(alloc, sites, owned, &regions.regions) {
        Ok(loans) => Ok(FunctionLoans { loans }),
        Err(BorrowFault::Loan { borrow, access }) => {
            let spans = function.spans.as_slice();
            Err(LoanFault::Loan {
                borrow: span_of(spans, node_of(sites, borrow)),
                access: span_of(spans, node_of(sites, access)),
            })
        }
        Err(BorrowFault::OutOfMemory) => Err(LoanFault::OutOfMemory),
    }
}

/// The loans of a function, behind those of others.
fn with_next(
    alloc: Global,
    function: &TypedFn,
    lowered: &Lowered,
    regions: &FunctionRegions,
    all: List<FunctionLoans>,
) -> Result<List<FunctionLoans>, LoanFault>
    requires { length lowered.now.graph.sites ≤ 16384 }
    ensures more { IfOk result (λ new. (x : LoansOf) × (new ≡ all ++ x ∷ []) × ((D : ListOf Decl) (P : ℕ → ListOf Bound)
        → IsGraphOf D function.now lowered.now → AreRegionsOf D P function.now regions.now → AreLoansOf D P function.now x)) }
    ensures refused { IfErr result (λ e. (D : ListOf Decl) (P : ℕ → ListOf Bound)
        → IsGraphOf D function.now lowered.now → AreRegionsOf D P function.now regions.now → MeetsLoan D P e function.now) }
{
    let outcome = function_loans(alloc, function, lowered, regions);
    match keep(all, outcome) {
        Ok((loans, all)) => match pushed(all, loans) {
            Ok(all) => Ok(all),
            Err(_) => Err(LoanFault::OutOfMemory),
        },
        Err(fault) => Err(fault),
    }
}

/// The loans of all functions, by their graphs and their least sets, where each is accepted (RFC 2094, "Loans in scope", "Access
/// legality").
///
/// # Errors
///
/// The first function in which an access meets a conflicting loan in scope: where the loan's borrow and the access stand; or memory
/// runs out.
pub fn all_loans(
    alloc: Global,
    typed: &Typed,
    graphs: &[Lowered],
    regions: &[FunctionRegions],
) -> Result<List<FunctionLoans>, LoanFault>
    requires graphs { AreGraphs typed.now graphs.now }
    requires regions { AreRegions typed.now regions.now }
    ensures { LoansAnswer typed.now result }
{
    let functions = typed.functions.as_slice();
    let mut all = List::new(alloc);
    for i in 0..functions.len() {
        all = match with_next(alloc, &functions[i], &graphs[i], &regions[i], all) {
            Ok(more) => more,
            Err(fault) => return Err(fault),
        };
    }
    Ok(all)
}

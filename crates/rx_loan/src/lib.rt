//! Whether the lifetimes and loans of a function are accepted.
#![tactic(auto)]

mod accesses;
mod borrows;
mod forbids;
mod judging;
mod laws;
mod loan_laws;
mod places;
mod table;

pub use accesses::{Access, Loan, accessed, conflict};
pub use forbids::{Conflict, legal};
pub use judging::{BorrowFault, check_loans};
pub use laws::{accepted_or_refused, fewest_are_accepted};
pub use loan_laws::{fewer_sites_are_legal, loans_lie_behind_their_borrows};
pub use table::{LoanTable, loans};

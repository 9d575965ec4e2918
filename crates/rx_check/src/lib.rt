//! The checker of the whole language: which programs are accepted, and why others are not.
#![tactic(auto)]

mod fault;
mod front_end;
mod laws;
mod loans;
mod loans_laws;
mod main_item;
mod passes;
mod regions;

pub use fault::CheckFault;
pub use front_end::{Checked, FrontEnd};
pub use laws::{causes_are_one, passed_or_faulty};
pub use loans::{FunctionLoans, LoanFault, all_loans};
pub use loans_laws::{any_pairs_serve, one_judgement};
pub use passes::{check, covers, front};
pub use regions::{FunctionRegions, RegionFault, all_regions};

//! Short signatures: lifetimes that are known to outlive each other become one, and those that elision tells are left out.
#![tactic(auto)]

mod eliding;
mod laws;
mod lists;
mod occurrences;
mod rewriting;
mod types;

pub use eliding::{
    Signature, elided_signature, elisions, kept, rewritten_optional, rewritten_parameters,
};
pub use laws::{all_but_lifetimes_stays, first_lifetimes_stay};
pub use lists::{has_name, is_declared, joined_list, renamed_list};
pub use occurrences::{is_in_bounds, is_once, result_allows};
pub use rewriting::Rewriting;
pub use types::{becomes, rewritten_lifetime, rewritten_type};

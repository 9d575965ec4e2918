//! Laws of short signatures.
#![tactic(auto)]

mod laws;

pub use laws::{
    merged_lifetimes_stay, merged_signatures_know_the_same, rewritten_functions_are_numbered,
    rewritten_functions_resolve, rewritten_functions_stay, short_lists_have_a_meaning,
    short_signatures_are_rewritten, short_signatures_keep_items, short_signatures_resolve,
};

//! The least bounds of a function's lifetimes, the program that has them, and laws on renamed lifetimes.
#![tactic(auto)]

mod bounding;
mod bounds_laws;
mod laws;
mod least;
mod renaming_laws;
mod repair_laws;
mod repairing;

pub use bounds_laws::{
    accepted_where_least_bounds_follow, callers_are_accepted, fewer_pairs_ask_less,
    least_bounds_are_missing, least_bounds_serve, least_sets_exist, own_bounds_ask_nothing,
};
pub use laws::{items_get_their_types, verdicts_are_kept};
pub use least::least_bounds;
pub use renaming_laws::{
    renamings_change_no_verdict, typed_functions_fit, typed_verdicts_are_kept,
    values_have_the_types_of_temporaries,
};
pub use repair_laws::{
    functions_without_bounds_declare_none, lifetimes_are_distinct, repaired_is_extraction,
    repaired_programs_are_numbered,
};
pub use repairing::{Repaired, repair};

//! Laws of where the call of an extraction stands: what is known there.
#![tactic(auto)]

mod laws;

pub use laws::{
    calls_fit_where_runs_begin, calls_stand_where_runs_begin, ends_fit_where_runs_begin,
    ends_stand_by_the_text, functions_with_a_call_have_types, new_items_declare_what_calls_ask,
    numbered_functions_with_a_call_have_types, variables_of_a_call_stand,
    variables_of_an_end_stand, what_a_call_passes_is_settled,
};

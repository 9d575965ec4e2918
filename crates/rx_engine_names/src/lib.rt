//! Laws of what the names of a program mean in its extraction.
#![tactic(auto)]

mod laws;

pub use laws::{
    blocks_are_reached, blocks_are_replaced, blocks_stand_alone, calls_are_made, calls_hand_out,
    calls_stand, changed_functions_are_alike, declared_names_are_identifiers, ends_are_replaced,
    exits_stand, extraction_is_inserted, extractions_are_alike, extractions_have_meanings,
    functions_stay, items_stay, moved_runs_are_alike, names_have_meanings, new_functions_are_alike,
    new_functions_are_found, new_items_have_meanings, no_cycles_are_made,
    pinned_functions_are_alike, pinned_functions_resolve, runs_are_reached, runs_stand,
    selected_runs_are_ready, unused_names_are_free, ways_are_kept,
};

//! Laws of functions whose demands come in blocks from those of a text.
#![tactic(auto)]

mod laws;

pub use laws::{
    additions_stand_for_nothing, carried_is_valid, changed_sites_stand, copies_are_blocks,
    fronts_are_outlined_alike, integers_of_the_text_settle_a_part, integers_settle_types,
    pairs_can_be_undone, parameters_are_fixed, parts_are_typed_alike, parts_are_valid,
    references_stand_for_variables, references_that_fit_are_fixed, renumbered_are_met,
    renumbered_are_valid, runs_are_blocks, runs_are_typed_alike, runs_are_valid,
    signed_parts_are_typed_alike, suffixes_stand_for_literals, what_fits_is_fixed,
    what_is_given_fits, what_is_made_is_added, what_is_not_told_is_free, what_is_settled_is_fixed,
    what_is_written_is_fixed,
};

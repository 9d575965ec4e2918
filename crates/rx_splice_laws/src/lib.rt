//! Laws of the edits that make the text of an extraction.
#![tactic(auto)]

mod laws;

pub use laws::{
    done_parts_are_read, done_runs_are_read, front_bodies_are_read, front_parts_are_read,
    kept_parts_are_read, let_runs_are_read, lines_begin_otherwise, new_bodies_are_read,
    new_functions_are_read, new_items_are_read, open_runs_are_read, parts_are_spliced,
    pinned_bodies_are_read, pinned_bodies_are_spliced, run_lines_are_read, runs_are_spliced,
    spliced_runs_are_read, texts_go_on, value_parts_are_read, variant_runs_are_read,
    whole_bodies_are_read,
};

//! A typed program and the one that an extraction makes of it, by their trees: they do the same, up to the turns.
#![tactic(auto)]

mod histories_laws;
mod laws;

pub use histories_laws::{
    ends_stand_once, entry_reads_change_no_run, entry_reads_change_no_walk,
    histories_come_to_marks, histories_do_not_tell_what_a_test_gave, jumps_lead_to_one_place,
    locals_are_not_living, marks_change_no_run, nothing_is_living_behind_what_is_given,
    outs_are_living, outs_are_written, params_are_written_and_living, plans_give_what_calls_ask,
    running_texts_are_entered_so, running_texts_are_left_so, set_variables_were_written,
    single_jumps_stand_once, sole_actions_lead_to_one_place, special_variables_are_untouched,
    tailed_texts_are_entered_so, tailed_texts_are_left_so, walks_go_on_alike,
    what_is_not_handed_out_is_not_living,
};
pub use laws::{
    alike_items_are_the_same, extracted_programs_run_alike, extracted_tails_run_alike,
    outs_may_be_assigned,
};

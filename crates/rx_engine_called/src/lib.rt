//! What the text says where the call stands, by the plan by numbers: laws.
#![tactic(auto)]

mod laws;

pub use laws::{
    calls_have_names, named_plans_hand_out, plans_give_call_names, texts_say_where_calls_stand,
    texts_tell_of_plans, variables_end_where_jumps_lead, variables_that_end_are_not_live,
    written_out_runs_say_the_same,
};

//! Laws of what an extraction makes where the new function is called, in the forms that the law on runs asks.
#![tactic(auto)]

mod laws;

pub use laws::{
    allowed_modes_fit, calls_for_runs_are_made, calls_for_tails_are_made, chosen_renamings_serve,
    made_calls_meet_what_is_asked, named_plans_agree, new_functions_begin_in_turn,
    new_functions_end_in_shapes, new_functions_end_tails_in_shapes, new_functions_give_values,
    new_functions_hand_out, new_functions_return_jumps, new_functions_return_values,
    sights_are_chosen,
};

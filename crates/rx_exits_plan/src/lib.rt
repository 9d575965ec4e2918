//! The points, the plan and the block of a run that is to become a function.
#![tactic(auto)]

mod around;
mod bound;
mod laws;
mod marks_laws;
mod parts;
mod plan;
mod statements;

pub use around::{Around, cut, push_all, push_params, reversed};
pub use bound::push_bound;
pub use laws::{cases_are_one, plans_are_one, variables_are_params_or_locals};
pub use marks_laws::{
    marks_are_held_where_walks_come, marks_are_in_the_block_of_the_run, marks_change_no_walk,
};
pub use parts::{Home, Jump};
pub use plan::{Exit, ExitOuts, ExitPlan, Run};
pub use statements::{behind, in_front, inside, last_value, push_all_declared, push_declared};

//! Whether typed trees are alike, by their form: a walk over both.
#![tactic(auto)]

mod between;
mod forms;
mod functions;
mod giving;
mod jumping;
mod leaves;
mod leaving;
mod likeness;
mod parts;
mod pattern_reading;
mod patterns;
mod reading;
mod returning;
mod same;
mod sights;
mod statements;
mod units;
mod variables;
mod views;
mod ways;

pub use between::{Between, Items, is_item, is_open};
pub use forms::like_exp;
pub use functions::{is_like_itself, like_function, plainly, same_item, whole_jumps};
pub use giving::{
    gives_bare, gives_variant, is_own, is_unit, leads_from, number_of, numbers_of, takes, takes_all,
};
pub use jumping::{
    Jumping, Leaving, LoopPair, Pack, Returning, in_loop, is_apart, is_loop, loop_of, pack_among,
    pack_of, same_exit, stays_in,
};
pub use leaving::{bound_in_block, gives_pack, part_of_variant};
pub use likeness::{Hole, Likeness, both, is_alike, where_so};
pub use parts::{Bound, Part};
pub use patterns::{
    all_borrow, binds_value, like_bindings, like_tests, looks_behind, way_of_matched,
};
pub use reading::{
    assign_of, block_of, borrow_of, build_of, call_of, choose_of, give_of, jump_of, read_of,
};
pub use same::{like_making, same_bool, same_constant, same_operator};
pub use sights::{Hold, How, Seen, is_new, sight_of, with_seen};
pub use statements::{like_let, like_stmt, like_stmts};
pub use units::{function_returns_unit, gives_unit, returns_unit};
pub use variables::{Ways, is_in, like_declared, like_params, with_new};
pub use views::{may_be_read, views_place, way_of_let};
pub use ways::{Use, Way, by_dereference, like_place, may, then_step, use_of, way_of};

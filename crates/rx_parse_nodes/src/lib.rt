//! The nodes of expressions by their parts.
#![tactic(auto)]

mod conditions;
mod nodes;

pub use conditions::{Test, fits, holds, if_else_of, if_of, while_of};
pub use nodes::{
    assign_of, bare_return, bare_variant, binary_of, block_of, bool_value, borrow_of, break_of,
    call_of, continue_of, deref, field_of, field_value_of, input_of, int_value, invert, label_of,
    loop_of, match_of, negate, part_of, print_of, return_of, short_field, start_of, struct_of,
    tuple_of, update_of, variable, variant_of,
};

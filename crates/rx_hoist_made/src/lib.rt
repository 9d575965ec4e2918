//! What an extraction is made of: fresh names, types as they are written, nodes, and the values that exits hand out.
#![tactic(auto)]

mod bound;
mod exits;
mod handed;
mod lifetimes;
mod made;
mod names;
mod parts;
mod row;
mod statements;
mod type_counts;
mod written_types;

pub use bound::{binds, is_declared};
pub use exits::{enum_name, exit_name, has_enum, has_exit, is_unit, outs_of};
pub use handed::{Handed, count, handed_by, handed_on};
pub use lifetimes::copied_lifetimes;
pub use made::{
    all_variables, all_written, binding, followed_by_variables, joined, present, variable,
    variables, variant, variant_pattern, written,
};
pub use names::{fresh_names, fresh_variable, is_among};
pub use parts::{Parts, RunParts, block_of, last_of, together};
pub use row::Row;
pub use statements::{assignment, declared, done, let_typed, let_value};
pub use type_counts::{enum_positions, signature_positions};
pub use written_types::{elided, full, named, reference, tuple};

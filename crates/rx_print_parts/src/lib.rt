//! The canonical text of what has no expression in it: types, patterns, structs, enums and the heads of functions.
#![tactic(auto)]

mod declarations;
mod margin;
mod patterns;
mod signatures;
mod types;
mod words;

pub use declarations::{push_enum, push_struct};
pub use margin::Margin;
pub use patterns::push_pattern;
pub use signatures::{push_angles, push_called, push_signature};
pub use types::push_annotation;
pub use words::{
    comma, kind_text, operator_text, push_decimal, push_mutable, push_number, truth_text,
    tuple_end, update_text,
};

//! Values as data, and what is done with them.
#![tactic(auto)]

mod copying;
mod memory;
mod number;
mod reading;
mod value;
mod writing;

pub use copying::{boxed_pointer, copied_part, parts_of};
pub use memory::Memory;
pub use number::{Calculated, Number, computed, negated};
pub use reading::{Part, at_path, field_from, is_part_set, step_from};
pub use value::{Lack, Node, Parts, Pointer, Value};
pub use writing::put;

//! What an extraction makes: the new items, and the call in place of the run.
#![tactic(auto)]

mod arms;
mod body;
mod call;
mod enums;
mod function;
mod receiving;

pub use body::{handing_on, is_followed, is_open, new_body, stays_last, tuple_of};
pub use call::replacement;
pub use enums::new_enum;
pub use function::new_function;

//! Sets that contain one another along pairs: the least that contain what they did before. Tables of such sets as rows of bits.
#![tactic(auto)]

mod closing;
mod filling;
mod listing;
mod order;

pub use closing::{close, count, empty_rows};
pub use filling::{all_below, copied, join_all, join_first, put_diagonal};
pub use listing::pairs_where;

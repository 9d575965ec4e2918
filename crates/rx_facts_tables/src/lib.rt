//! Which functions are initialised, what may be set where, and what is live where.
#![tactic(auto)]

mod acts;
mod counting;
mod facts;
mod frames;
mod index;
mod judging;
mod onward;
mod places;
mod steps;
mod table;
mod tracking;
mod turning;
mod uses;
mod watching;
mod whole;

pub use counting::parts_of;
pub use facts::Kind;
pub use frames::{Frame, Layout, Located, Range, Spot};
pub use index::Index;
pub use onward::Onward;
pub use places::{layout, range};
pub use table::{LiveTable, live, live_marked};
pub use tracking::{ahead, along};
pub use turning::{Back, turned};
pub use whole::{InitFault, InitTable, init};

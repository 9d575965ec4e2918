//! Items and files of the whole language, read from a cursor.
#![tactic(auto)]

mod derives;
mod fields;
mod items;
mod lifetimes;

pub use items::file;

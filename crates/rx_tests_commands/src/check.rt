//! The command `check`: a fault of each pass, with its places and values, and programs that are accepted.

mod borrowed;
mod covered;
mod faults;
mod large;
mod said;
mod values;
mod whole;
mod wide;

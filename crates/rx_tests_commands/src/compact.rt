//! The command `compact`: worked examples, signatures with what they become, and texts that get none.

mod signatures;
mod worked;

//! The command `run`: its words, what programs print, how they end, and writes that fail.

mod forms;
mod large;
mod programs;
pub mod said;
mod scalars;
mod sinks;
mod whole;
mod words;

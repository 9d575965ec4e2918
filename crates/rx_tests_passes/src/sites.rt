//! Graphs of functions: texts with their sites, walks beside paths, and the limits.

mod agreement;
mod graphs;
mod lowered;
mod paths;
pub mod said;
pub mod walks;

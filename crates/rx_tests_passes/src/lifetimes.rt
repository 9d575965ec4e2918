//! Lifetimes: functions with the pairs that are missing.

mod pairs;
mod said;

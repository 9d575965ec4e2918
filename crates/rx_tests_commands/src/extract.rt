//! The command `extract`: what becomes of texts, and why others are refused.

mod again;
mod chosen;
mod hostile;
mod kept;
mod layouts;
mod least;
mod limits;
mod modes;
mod others;
mod plans;
pub mod said;
mod worked;

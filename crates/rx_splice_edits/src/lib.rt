//! The edits of a file's text by which a run of statements becomes a function: what stands outside keeps its bytes.
#![tactic(auto)]

mod decided;
mod indent;
mod moving;
mod parts;
mod pinning;
mod run;
mod run_end;
mod text;
mod tokens;

pub use text::{Made, Place, spliced_text};

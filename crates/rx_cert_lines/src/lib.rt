//! The lines of certificates, read and written.
#![tactic(auto)]

mod certificate;
mod forms;
mod item;
mod laws;
mod line;
mod reader;
mod word;
mod write;

pub use certificate::{Certificate, Misread, read_certificate};
pub use item::Item;
pub use laws::{
    certificates_are_unique, lines_are_unique, misread_bytes_are_no_certificate,
    misread_lines_are_unique,
};
pub use line::{Head, Line};
pub use reader::read_line;
pub use write::push_line;

//! What parts are told by, and where they are.

use rx_core::{List, Ty};
use rx_typed::Decls;

/// What is declared, how many parts each struct and enum has, by its item, and the types of a function's variables.
#[derive(Clone, Copy)]
pub struct Frame<'t> {
    pub decls: &'t Decls,
    pub sizes: &'t [u64],
    pub types: &'t [Option<Ty>],
}

/// The number of the first part of each variable, and how many parts all have.
#[derive(Drop)]
pub struct Layout {
    pub starts: List<u64>,
    pub total: u64,
}

/// What steps lead to: what has a type, the fields of a variant, or nothing.
#[derive(Clone, Copy)]
pub enum Spot<'t> {
    Whole(&'t Ty),
    Fields(&'t [Ty]),
    Nowhere,
}

/// The number of its first part, and what is there.
#[derive(Clone, Copy)]
pub struct Located<'t> {
    pub first: u64,
    pub spot: Spot<'t>,
}

/// Parts with numbers that follow one another: the first, and how many.
#[derive(Clone, Copy)]
pub struct Range {
    pub first: u64,
    pub count: u64,
}

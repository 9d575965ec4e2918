//! Spans, positions, kinds, types, places, bounds and edits.

use crate::boxed::Boxed;
use crate::list::List;
use crate::text::Text;

/// A range of bytes of a text, the end not included.
#[derive(Clone, Copy, Debug, PartialEq, Eq)]
pub struct Span {
    pub start: u64,
    pub end: u64,
}

/// A node of a program: an item, and the way from it by numbers of children, from 0.
#[derive(Drop)]
pub struct Position {
    pub item: u32,
    pub path: List<u32>,
}

/// The integer types of the language.
#[derive(Clone, Copy, Debug, PartialEq, Eq)]
pub enum Kind {
    U8,
    U32,
    U64,
    I32,
    I64,
}

/// A type. The unit is the empty tuple. A `u32` is a lifetime's number, or in `Adt` an item's.
#[derive(Drop)]
pub enum Ty {
    Int(Kind),
    Bool,
    Tuple(List<Ty>),
    Shared(u32, Boxed<Ty>),
    Mut(u32, Boxed<Ty>),
    Adt(u32, List<u32>),
}

/// One step from a place to a part of it. `Deref(true)` goes through a `&mut`.
#[derive(Clone, Copy, Debug, PartialEq, Eq)]
pub enum Step {
    Field(u32),
    Variant(u32),
    Deref(bool),
}

/// A variable or temporary, and the steps from it.
#[derive(Drop)]
pub struct Place {
    pub var: u32,
    pub steps: List<Step>,
}

/// `long` outlives `short`: two lifetimes by their numbers.
#[derive(Clone, Copy, Debug, PartialEq, Eq)]
pub struct Bound {
    pub long: u32,
    pub short: u32,
}

/// A text that stands in place of a span.
#[derive(Drop)]
pub struct Edit {
    pub span: Span,
    pub text: Text,
}

#[derive(Drop)]
pub struct Edits {
    pub list: List<Edit>,
}

/// What passes a limit.
#[derive(Clone, Copy, Debug, PartialEq, Eq)]
pub enum Which {
    Parameters,
    Lifetimes,
    Levels,
    Parts,
    Sites,
    Positions,
    Bytes,
}

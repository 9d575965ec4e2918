//! The types of small programs, found by trying all assignments of a handful of types.

mod meeting;
mod search;
mod shapes;
mod texts;

//! Nodes of a function by their numbers, and what their places ask of their values.

use rx_core::Span;

/// What the place of an expression makes of its value (Rust Reference, "Place expressions and value expressions",
/// "Coercion sites").
#[derive(Clone, Copy)]
pub enum Site {
    /// A value is wanted, of any type.
    Value,
    /// A place is wanted: the operand of a borrow, a dereference or a field step, the left side of an assignment.
    Place,
    /// What a `match` or a `let` without a type looks into: a place stays one.
    Scrutinee,
    /// A coercion site: a value of an expected type.
    Expects,
    /// The initialiser of a `let` with a type: a coercion site at which a place stays one if it isn't coerced.
    Initialises,
    /// The right side of an assignment before which the variable waits for its type: it has its own type, and a place of
    /// type `&mut T` is reborrowed.
    Reborrows,
}

/// A node: its number in its function, in the order of the text, from that of the function's item, 0; its span.
#[derive(Clone, Copy)]
pub struct Node {
    pub number: usize,
    pub span: Span,
    pub site: Site,
}

/// A variable where it is named: its number, whether it is declared `mut`, and whether its type is known by here.
#[derive(Clone, Copy)]
pub struct Use {
    pub number: u32,
    pub mutable: bool,
    pub known: bool,
}

/// How the type of a variable is known where the text has come to.
#[derive(Clone, Copy)]
pub enum Stage {
    Known,
    /// The first assignment that ends gives it; the number and span of the pattern that declares the variable.
    Waits(usize, Span),
    /// Its pattern gives it, by facts that come behind.
    Given,
}

/// A variable that was declared: whether `mut`, and how its type is known.
#[derive(Clone, Copy)]
pub struct Declaration {
    pub mutable: bool,
    pub stage: Stage,
}

//! The types of the typed tree. Nodes are those of the syntax tree by their numbers, in the order of the text.

use rx_core::{Boxed, Kind, List, Place, Ty};
use rx_tree::BinaryOp;

/// An integer, by its kind, whether it is negative and its magnitude, or a truth value.
#[derive(Clone, Copy)]
pub enum Constant {
    Integer(Kind, bool, u64),
    Truth(bool),
}

/// How a binding takes what it is matched with (Rust Reference, "Binding modes").
#[derive(Clone, Copy)]
pub enum Mode {
    /// Whether it moves.
    Value(bool),
    /// Whether the reference is mutable.
    Reference(bool),
}

/// The node, and the type of its value where it is not Never, after a coercion.
#[derive(Drop)]
pub struct Mark {
    pub node: usize,
    pub ty: Option<Ty>,
}

#[cycle(patterns)]
#[derive(Drop)]
pub enum Pattern {
    /// `_`
    Any,
    /// The node, the variable and the mode.
    Bind(usize, u32, Mode),
    /// The node, and an integer or a truth value.
    Exactly(usize, Constant),
    /// A tuple or struct.
    Parts(List<Subpattern>),
    /// The node, the enum's item, whether it has more than one variant, and the variant.
    Variant(usize, u32, bool, u32, List<Subpattern>),
    /// What a reference leads to; whether it is mutable.
    Behind(bool, Boxed<Pattern>),
}

/// A pattern for a field, by the field's number.
#[cycle(patterns)]
#[derive(Drop)]
pub struct Subpattern {
    pub field: usize,
    pub pattern: Pattern,
}

/// What operands are made into.
#[derive(Clone, Copy)]
pub enum Making {
    Constant(Constant),
    Negation,
    Inversion,
    /// All operators of two operands but `&&` and `||`.
    Operation(BinaryOp),
    /// A tuple.
    Tuple,
    /// A struct, by its item.
    Struct(u32),
    /// The enum's item and the variant.
    Variant(u32, u32),
}

/// A value.
#[cycle(tree)]
#[derive(Drop)]
pub struct Expr {
    pub mark: Mark,
    pub form: Form,
}

#[cycle(tree)]
#[derive(Drop)]
pub enum Form {
    /// A place as a value: copied, or moved.
    Read(bool, Place),
    /// `&p`, `&mut p`; a place of type `&mut T` at a coercion site is `&mut *p`, or `&*p`.
    Borrow(bool, Place),
    /// A value of type `&mut T`, no place, where `&T` is expected.
    Share(Boxed<Expr>),
    /// Operands as written, and what is made of them.
    Build(Making, List<Operand>),
    /// `()`, and the missing value of a block, branch or `return`.
    Unit,
    /// `a && b` with true, `a || b` with false.
    Lazily(bool, Boxed<Expr>, Boxed<Expr>),
    Assign(Place, Boxed<Expr>),
    /// `p op= e`
    Update(BinaryOp, Place, Boxed<Expr>),
    /// The function's item, and the arguments.
    Call(u32, List<Operand>),
    Input,
    Print(Boxed<Expr>),
    /// The statements, and the tail or the unit.
    Block(List<Stmt>, Boxed<Expr>),
    /// `match`; `if c`: `match c { true => .., _ => .. }`; `if let P = s`: `match s { P => .., _ => .. }`.
    Choose(Matched, List<Arm>),
    /// The loop's number; `while c b`: `loop { if c b else { break } }`; `while let` likewise.
    Loop(u32, Boxed<Expr>),
    /// `break` and `continue`: the loop's number, whether its next pass begins.
    Jump(u32, bool),
    /// `return`, and the end of a function's body.
    Give(Boxed<Expr>),
}

/// A value for a field or parameter, by its number.
#[cycle(tree)]
#[derive(Drop)]
pub struct Operand {
    pub field: usize,
    pub value: Expr,
}

/// What is matched: a place that is not coerced, with the mark of its node, or a value.
#[cycle(tree)]
#[derive(Drop)]
pub enum Matched {
    Place(Mark, Place),
    Value(Boxed<Expr>),
}

#[cycle(tree)]
#[derive(Drop)]
pub struct Arm {
    pub pattern: Pattern,
    pub body: Expr,
}

#[cycle(tree)]
#[derive(Drop)]
pub enum Stmt {
    Runs(Expr),
    /// A `let` without an initialiser: the statement's node, the variables from left to right.
    Declares(usize, List<u32>),
    /// `let P = e;`: the statement's node.
    Lets(usize, Pattern, Matched),
}

/// A parameter: the node of its type, its variable.
#[derive(Clone, Copy)]
pub struct Param {
    pub node: usize,
    pub variable: u32,
}

/// A function: its parameters, and its body's block, which leaves by `Give`.
#[derive(Drop)]
pub struct TypedTree {
    pub params: List<Param>,
    pub body: Expr,
}

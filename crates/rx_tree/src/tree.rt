//! The types of the trees (Rust Reference, "Items", "Statements and expressions", "Patterns", "Types").
//! A span goes from the first to the last token of the node's production; parentheses leave no node.

ghost use Rattle.std.specs.Prelude.{◌≡◌, IfOk};

use rx_core::{Boxed, Kind, List, Name, Span};
use std::alloc::{AllocError, Global};

/// A name, label or lifetime where it stands.
#[derive(Drop)]
pub struct Ident {
    pub span: Span,
    pub name: Name,
}

impl Ident {
    /// The same name, with its span.
    pub fn copy(&self, alloc: Global) -> Result<Ident, AllocError>
        ensures { IfOk result (λ it. it ≡ self.now) }
    {
        Ok(Ident {
            span: self.span,
            name: self.name.copy(alloc)?,
        })
    }
}

#[cycle(types)]
#[derive(Drop)]
pub struct TypeText {
    pub span: Span,
    pub node: TypeNode,
}

/// A type as it is written.
#[cycle(types)]
#[derive(Drop)]
pub enum TypeNode {
    Kind(Kind),
    Bool,
    Tuple(List<TypeText>),
    /// The lifetime, whether it is mutable, and what it points to.
    Ref(Option<Ident>, bool, Boxed<TypeText>),
    /// The name, and its lifetimes where a list of them is written; `None` in the list is `'_`.
    Named(Ident, Option<List<Option<Ident>>>),
}

#[cycle(patterns)]
#[derive(Drop)]
pub struct Pattern {
    pub span: Span,
    pub node: PatternNode,
}

#[cycle(patterns)]
#[derive(Drop)]
pub enum PatternNode {
    Wild,
    /// The name, and whether it is mutable.
    Bind(Ident, bool),
    /// Whether it is negative, the magnitude and the suffix.
    Int(bool, u64, Option<Kind>),
    Bool(bool),
    Tuple(List<Pattern>),
    /// The enum, the variant and the parts.
    Variant(Ident, Ident, List<Pattern>),
    Make(Ident, List<FieldPattern>),
}

#[cycle(patterns)]
#[derive(Drop)]
pub struct FieldPattern {
    pub field: Ident,
    pub pattern: Pattern,
}

/// The operators of two operands that give a value.
#[derive(Clone, Copy, Debug, PartialEq, Eq)]
pub enum BinaryOp {
    Or,
    And,
    Eq,
    Ne,
    Lt,
    Le,
    Gt,
    Ge,
    Add,
    Sub,
    Mul,
    Div,
    Rem,
}

/// The operators of `p op= e`.
#[derive(Clone, Copy, Debug, PartialEq, Eq)]
pub enum UpdateOp {
    Add,
    Sub,
    Mul,
    Div,
    Rem,
}

#[cycle(tree)]
#[derive(Drop)]
pub struct Block {
    pub span: Span,
    pub stmts: List<Stmt>,
    pub tail: Option<Boxed<Expr>>,
}

#[cycle(tree)]
#[derive(Drop)]
pub struct Stmt {
    pub span: Span,
    pub node: StmtNode,
}

#[cycle(tree)]
#[derive(Drop)]
pub enum StmtNode {
    /// The pattern, its type and its initialiser, where they are written.
    Let(Pattern, Option<TypeText>, Option<Expr>),
    /// The expression, and whether a `;` follows.
    Eval(Expr, bool),
}

#[cycle(tree)]
#[derive(Drop)]
pub struct Expr {
    pub span: Span,
    pub node: ExprNode,
}

#[cycle(tree)]
#[derive(Drop)]
pub struct FieldExpr {
    pub field: Ident,
    pub value: Expr,
}

#[cycle(tree)]
#[derive(Drop)]
pub struct Arm {
    pub pattern: Pattern,
    pub body: Expr,
}

#[cycle(tree)]
#[derive(Drop)]
pub enum ExprNode {
    Int(u64, Option<Kind>),
    Bool(bool),
    Tuple(List<Expr>),
    Var(Name),
    Field(Boxed<Expr>, Ident),
    /// A part of a tuple, by its index from 0.
    Part(Boxed<Expr>, u64),
    Deref(Boxed<Expr>),
    Neg(Boxed<Expr>),
    Not(Boxed<Expr>),
    /// Whether it is mutable, and the place.
    Borrow(bool, Boxed<Expr>),
    Binary(BinaryOp, Boxed<Expr>, Boxed<Expr>),
    Assign(Boxed<Expr>, Boxed<Expr>),
    Update(UpdateOp, Boxed<Expr>, Boxed<Expr>),
    Call(Ident, List<Expr>),
    NextInput,
    /// The enum, the variant, and its arguments where parentheses are written.
    Variant(Ident, Ident, Option<List<Expr>>),
    Make(Ident, List<FieldExpr>),
    Print(Boxed<Expr>),
    Block(Boxed<Block>),
    /// The condition, the body, and what follows `else`.
    If(Boxed<Expr>, Boxed<Block>, Option<Boxed<Expr>>),
    /// The pattern, the scrutinee, the body, and what follows `else`.
    IfLet(Pattern, Boxed<Expr>, Boxed<Block>, Option<Boxed<Expr>>),
    Match(Boxed<Expr>, List<Arm>),
    Loop(Option<Ident>, Boxed<Block>),
    While(Option<Ident>, Boxed<Expr>, Boxed<Block>),
    /// The label, the pattern, the scrutinee and the body.
    WhileLet(Option<Ident>, Pattern, Boxed<Expr>, Boxed<Block>),
    Break(Option<Ident>),
    Continue(Option<Ident>),
    Return(Option<Boxed<Expr>>),
}

#[derive(Drop)]
pub struct Program {
    pub items: List<Item>,
}

#[derive(Drop)]
pub struct Item {
    pub span: Span,
    pub node: ItemNode,
}

#[derive(Clone, Copy, Debug, PartialEq, Eq)]
pub enum Derive {
    Clone,
    Copy,
}

#[derive(Drop)]
pub struct Field {
    pub name: Ident,
    pub typ: TypeText,
}

#[derive(Drop)]
pub struct Struct {
    pub name: Ident,
    pub derives: List<Derive>,
    pub lifetimes: List<Ident>,
    pub fields: List<Field>,
}

#[derive(Drop)]
pub struct EnumVariant {
    pub name: Ident,
    pub types: List<TypeText>,
}

#[derive(Drop)]
pub struct Enum {
    pub name: Ident,
    pub derives: List<Derive>,
    pub lifetimes: List<Ident>,
    pub variants: List<EnumVariant>,
}

/// A lifetime parameter, and the lifetimes that it is declared to outlive.
#[derive(Drop)]
pub struct BoundLifetime {
    pub name: Ident,
    pub bounds: List<Ident>,
}

#[derive(Drop)]
pub struct Param {
    pub name: Ident,
    pub mutable: bool,
    pub typ: TypeText,
}

#[derive(Drop)]
pub struct Func {
    pub name: Ident,
    pub lifetimes: List<BoundLifetime>,
    pub params: List<Param>,
    pub result: Option<TypeText>,
    pub body: Block,
}

#[derive(Drop)]
pub enum ItemNode {
    /// `mod rt;`, with the span of its `rt`.
    Rt(Span),
    Struct(Struct),
    Enum(Enum),
    Func(Func),
}

//! Syntax trees of the language, each node with its span, and what they mean to contracts: plain trees.
#![tactic(auto)]

mod held;
mod tree;

pub use tree::{
    Arm, BinaryOp, Block, BoundLifetime, Derive, Enum, EnumVariant, Expr, ExprNode, Field,
    FieldExpr, FieldPattern, Func, Ident, Item, ItemNode, Param, Pattern, PatternNode, Program,
    Stmt, StmtNode, Struct, TypeNode, TypeText, UpdateOp,
};

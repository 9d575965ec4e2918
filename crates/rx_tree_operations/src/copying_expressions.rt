//! Copies of expressions, statements and blocks.

ghost use Rattle.std.specs.Prelude.{◌≡◌, IfOk};

use crate::copying::{CopyTree, both, copy_optional, copy_pattern};
use rx_core::{Boxed, List, keep, pushed};
use rx_tree::{Arm, Block, Expr, ExprNode, FieldExpr, Stmt, StmtNode};
use std::alloc::{AllocError, Global};

impl CopyTree for Expr {
    fn copy(&self, alloc: Global) -> Result<Expr, AllocError> {
        copy_expression(alloc, self)
    }
}

impl CopyTree for Block {
    fn copy(&self, alloc: Global) -> Result<Block, AllocError> {
        copy_block(alloc, self)
    }
}

impl CopyTree for Stmt {
    fn copy(&self, alloc: Global) -> Result<Stmt, AllocError> {
        copy_statement(alloc, self)
    }
}

#[cycle(copy_expressions)]
fn copy_expression(alloc: Global, expr: &Expr) -> Result<Expr, AllocError>
    ensures { IfOk result (λ it. it ≡ expr.now) }
{
    Ok(Expr {
        span: expr.span,
        node: copy_node(alloc, &expr.node)?,
    })
}

#[cycle(copy_expressions)]
fn boxed(alloc: Global, expr: &Boxed<Expr>) -> Result<Boxed<Expr>, AllocError>
    ensures { IfOk result (λ it. it ≡ expr.now) }
{
    Boxed::new(alloc, copy_expression(alloc, expr.get())?)
}

#[cycle(copy_expressions)]
fn body(alloc: Global, block: &Boxed<Block>) -> Result<Boxed<Block>, AllocError>
    ensures { IfOk result (λ it. it ≡ block.now) }
{
    Boxed::new(alloc, copy_block(alloc, block.get())?)
}

#[cycle(copy_expressions)]
fn listed(alloc: Global, exprs: &List<Expr>) -> Result<List<Expr>, AllocError>
    ensures { IfOk result (λ it. it ≡ exprs.now) }
{
    let mut all = List::new(alloc);
    for expr in exprs.as_slice() {
        let (next, held) = keep(all, copy_expression(alloc, expr))?;
        all = pushed(held, next)?;
    }
    Ok(all)
}

#[cycle(copy_expressions)]
fn fields(alloc: Global, fields: &List<FieldExpr>) -> Result<List<FieldExpr>, AllocError>
    ensures { IfOk result (λ it. it ≡ fields.now) }
{
    let mut all = List::new(alloc);
    for field in fields.as_slice() {
        let (next, held) = keep(all, copy_field(alloc, field))?;
        all = pushed(held, next)?;
    }
    Ok(all)
}

#[cycle(copy_expressions)]
fn arms(alloc: Global, arms: &List<Arm>) -> Result<List<Arm>, AllocError>
    ensures { IfOk result (λ it. it ≡ arms.now) }
{
    let mut all = List::new(alloc);
    for arm in arms.as_slice() {
        let (next, held) = keep(all, copy_arm(alloc, arm))?;
        all = pushed(held, next)?;
    }
    Ok(all)
}

#[cycle(copy_expressions)]
fn statements(alloc: Global, stmts: &List<Stmt>) -> Result<List<Stmt>, AllocError>
    ensures { IfOk result (λ it. it ≡ stmts.now) }
{
    let mut all = List::new(alloc);
    for stmt in stmts.as_slice() {
        let (next, held) = keep(all, copy_statement(alloc, stmt))?;
        all = pushed(held, next)?;
    }
    Ok(all)
}

#[cycle(copy_expressions)]
fn copy_field(alloc: Global, field: &FieldExpr) -> Result<FieldExpr, AllocError>
    ensures { IfOk result (λ it. it ≡ field.now) }
{
    let (name, value) = both(
        field.field.copy(alloc),
        copy_expression(alloc, &field.value),
    )?;
    Ok(FieldExpr { field: name, value })
}

#[cycle(copy_expressions)]
fn copy_arm(alloc: Global, arm: &Arm) -> Result<Arm, AllocError>
    ensures { IfOk result (λ it. it ≡ arm.now) }
{
    let (pattern, body) = both(
        copy_pattern(alloc, &arm.pattern),
        copy_expression(alloc, &arm.body),
    )?;
    Ok(Arm { pattern, body })
}

#[cycle(copy_expressions)]
pub(crate) fn copy_block(alloc: Global, block: &Block) -> Result<Block, AllocError>
    ensures { IfOk result (λ it. it ≡ block.now) }
{
    match &block.tail {
        Some(tail) => {
            let (stmts, tail) = both(statements(alloc, &block.stmts), boxed(alloc, tail))?;
            Ok(Block {
                span: block.span,
                stmts,
                tail: Some(tail),
            })
        }
        None => Ok(Block {
            span: block.span,
            stmts: statements(alloc, &block.stmts)?,
            tail: None,
        }),
    }
}

#[cycle(copy_expressions)]
fn copy_statement(alloc: Global, stmt: &Stmt) -> Result<Stmt, AllocError>
    ensures { IfOk result (λ it. it ≡ stmt.now) }
{
    Ok(Stmt {
        span: stmt.span,
        node: copy_statement_node(alloc, &stmt.node)?,
    })
}

#[cycle(copy_expressions)]
fn copy_statement_node(alloc: Global, node: &StmtNode) -> Result<StmtNode, AllocError>
    ensures { IfOk result (λ it. it ≡ node.now) }
{
    match node {
        StmtNode::Let(pattern, typ, None) => {
            let (pattern, typ) = both(copy_pattern(alloc, pattern), copy_optional(alloc, typ))?;
            Ok(StmtNode::Let(pattern, typ, None))
        }
        StmtNode::Let(pattern, typ, Some(init)) => {
            let (declared, init) = both(
                both(copy_pattern(alloc, pattern), copy_optional(alloc, typ)),
                copy_expression(alloc, init),
            )?;
            let (pattern, typ) = declared;
            Ok(StmtNode::Let(pattern, typ, Some(init)))
        }
        StmtNode::Eval(expr, semi) => Ok(StmtNode::Eval(copy_expression(alloc, expr)?, *semi)),
    }
}

#[cycle(copy_expressions)]
fn copy_node(alloc: Global, node: &ExprNode) -> Result<ExprNode, AllocError>
    ensures { IfOk result (λ it. it ≡ node.now) }
{
    match node {
        ExprNode::Int(value, kind) => Ok(ExprNode::Int(*value, *kind)),
        ExprNode::Bool(value) => Ok(ExprNode::Bool(*value)),
        ExprNode::Tuple(parts) => Ok(ExprNode::Tuple(listed(alloc, parts)?)),
        ExprNode::Var(name) => Ok(ExprNode::Var(name.copy(alloc)?)),
        ExprNode::Field(base, name) => {
            let (base, name) = both(boxed(alloc, base), name.copy(alloc))?;
            Ok(ExprNode::Field(base, name))
        }
        ExprNode::Part(base, index) => Ok(ExprNode::Part(boxed(alloc, base)?, *index)),
        ExprNode::Deref(base) => Ok(ExprNode::Deref(boxed(alloc, base)?)),
        ExprNode::Neg(base) => Ok(ExprNode::Neg(boxed(alloc, base)?)),
        ExprNode::Not(base) => Ok(ExprNode::Not(boxed(alloc, base)?)),
        ExprNode::Borrow(mutable, place) => Ok(ExprNode::Borrow(*mutable, boxed(alloc, place)?)),
        ExprNode::Binary(op, left, right) => {
            let (left, right) = both(boxed(alloc, left), boxed(alloc, right))?;
            Ok(ExprNode::Binary(*op, left, right))
        }
        ExprNode::Assign(place, value) => {
            let (place, value) = both(boxed(alloc, place), boxed(alloc, value))?;
            Ok(ExprNode::Assign(place, value))
        }
        ExprNode::Update(op, place, value) => {
            let (place, value) = both(boxed(alloc, place), boxed(alloc, value))?;
            Ok(ExprNode::Update(*op, place, value))
        }
        ExprNode::Call(name, args) => {
            let (name, args) = both(name.copy(alloc), listed(alloc, args))?;
            Ok(ExprNode::Call(name, args))
        }
        ExprNode::NextInput => Ok(ExprNode::NextInput),
        ExprNode::Variant(adt, variant, None) => {
            let (adt, variant) = both(adt.copy(alloc), variant.copy(alloc))?;
            Ok(ExprNode::Variant(adt, variant, None))
        }
        ExprNode::Variant(adt, variant, Some(args)) => {
            let (names, args) = both(
                both(adt.copy(alloc), variant.copy(alloc)),
                listed(alloc, args),
            )?;
            let (adt, variant) = names;
            Ok(ExprNode::Variant(adt, variant, Some(args)))
        }
        ExprNode::Make(name, all) => {
            let (name, all) = both(name.copy(alloc), fields(alloc, all))?;
            Ok(ExprNode::Make(name, all))
        }
        ExprNode::Print(expr) => Ok(ExprNode::Print(boxed(alloc, expr)?)),
        ExprNode::Block(block) => Ok(ExprNode::Block(body(alloc, block)?)),
        ExprNode::If(test, then, None) => {
            let (test, then) = both(boxed(alloc, test), body(alloc, then))?;
            Ok(ExprNode::If(test, then, None))
        }
        ExprNode::If(test, then, Some(other)) => {
            let (parts, other) = both(
                both(boxed(alloc, test), body(alloc, then)),
                boxed(alloc, other),
            )?;
            let (test, then) = parts;
            Ok(ExprNode::If(test, then, Some(other)))
        }
        ExprNode::IfLet(pattern, scrutinee, then, None) => {
            let (pattern, parts) = both(
                copy_pattern(alloc, pattern),
                both(boxed(alloc, scrutinee), body(alloc, then)),
            )?;
            let (scrutinee, then) = parts;
            Ok(ExprNode::IfLet(pattern, scrutinee, then, None))
        }
        ExprNode::IfLet(pattern, scrutinee, then, Some(other)) => {
            let (test, blocks) = both(
                both(copy_pattern(alloc, pattern), boxed(alloc, scrutinee)),
                both(body(alloc, then), boxed(alloc, other)),
            )?;
            let (pattern, scrutinee) = test;
            let (then, other) = blocks;
            Ok(ExprNode::IfLet(pattern, scrutinee, then, Some(other)))
        }
        ExprNode::Match(scrutinee, all) => {
            let (scrutinee, all) = both(boxed(alloc, scrutinee), arms(alloc, all))?;
            Ok(ExprNode::Match(scrutinee, all))
        }
        ExprNode::Loop(label, block) => {
            let (label, block) = both(copy_optional(alloc, label), body(alloc, block))?;
            Ok(ExprNode::Loop(label, block))
        }
        ExprNode::While(label, test, block) => {
            let (head, block) = both(
                both(copy_optional(alloc, label), boxed(alloc, test)),
                body(alloc, block),
            )?;
            let (label, test) = head;
            Ok(ExprNode::While(label, test, block))
        }
        ExprNode::WhileLet(label, pattern, scrutinee, block) => {
            let (head, parts) = both(
                both(copy_optional(alloc, label), copy_pattern(alloc, pattern)),
                both(boxed(alloc, scrutinee), body(alloc, block)),
            )?;
            let (label, pattern) = head;
            let (scrutinee, block) = parts;
            Ok(ExprNode::WhileLet(label, pattern, scrutinee, block))
        }
        ExprNode::Break(label) => Ok(ExprNode::Break(copy_optional(alloc, label)?)),
        ExprNode::Continue(label) => Ok(ExprNode::Continue(copy_optional(alloc, label)?)),
        ExprNode::Return(None) => Ok(ExprNode::Return(None)),
        ExprNode::Return(Some(value)) => Ok(ExprNode::Return(Some(boxed(alloc, value)?))),
    }
}

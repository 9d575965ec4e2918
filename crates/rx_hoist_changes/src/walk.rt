//! A walk over a tree that copies it, where special places become something else.

ghost use Rattle.std.specs.Prelude.{◌≡◌, ◌++◌, map, option_map, IfOk, OnOk};
ghost use Rattle.rx_tree.specs.PlainOf.{plain-Expr, plain-Block, plain-Pattern, plain-Stmt, plain-Arm, plain-FieldExpr, expressions_of, optional_of, optional_list_of, field_expressions_of, arms_of, statements_of};
ghost use Rattle.rx_hoist_extraction.specs.Names.{bound, bound_by, behind_all};
ghost use Rattle.rx_hoist_extraction.specs.Changed as changed;

use crate::jumps::Loops;
use crate::made::{
    arm as arm_of, assign, binary, borrow, branch, branch_fitting, call, cases, deref, eval, field,
    field_value, invert, let_statement, make, negate, nested, part, print, repeated, tuple, update,
    variant, while_fitting, while_true,
};
use crate::scope::Names;
use crate::special::Places;
use rx_core::{Boxed, List, keep, pushed};
use rx_tree::{Arm, Block, Expr, ExprNode, FieldExpr, Stmt, StmtNode};
use rx_tree_operations::CopyTree;
use std::alloc::{AllocError, Global};

/// What becomes of an expression, where these names are bound since the beginning and this stands round it.
#[cycle(changed)]
pub(crate) fn expression<'t, P: Places>(
    alloc: Global,
    places: &P,
    own: &Names<'t>,
    around: &Loops<'t>,
    expr: &'t Expr,
) -> Result<Expr, AllocError>
    ensures { IfOk result (λ it. plain-Expr it ≡ changed.changed (P.changes places.now) own.now around.now (plain-Expr expr.now)) }
{
    let span = expr.span;
    match &expr.node {
        ExprNode::Int(value, kind) => Ok(Expr {
            span,
            node: ExprNode::Int(*value, places.suffix(span, *kind)),
        }),
        ExprNode::Bool(value) => Ok(Expr {
            span,
            node: ExprNode::Bool(*value),
        }),
        ExprNode::Tuple(parts) => tuple(span, listed(alloc, places, own, around, parts.as_slice())),
        ExprNode::Var(name) => places.variable(alloc, own, span, name),
        ExprNode::Field(base, name) => field(
            alloc,
            span,
            expression(alloc, places, own, around, base.get()),
            name.copy(alloc),
        ),
        ExprNode::Part(base, index) => part(
            alloc,
            span,
            expression(alloc, places, own, around, base.get()),
            *index,
        ),
        ExprNode::Deref(base) => deref(
            alloc,
            span,
            expression(alloc, places, own, around, base.get()),
        ),
        ExprNode::Neg(base) => negate(
            alloc,
            span,
            expression(alloc, places, own, around, base.get()),
        ),
        ExprNode::Not(base) => invert(
            alloc,
            span,
            expression(alloc, places, own, around, base.get()),
        ),
        ExprNode::Borrow(mutable, place) => borrow(
            alloc,
            span,
            *mutable,
            expression(alloc, places, own, around, place.get()),
        ),
        ExprNode::Binary(op, left, right) => binary(
            alloc,
            span,
            *op,
            expression(alloc, places, own, around, left.get()),
            expression(alloc, places, own, around, right.get()),
        ),
        ExprNode::Assign(place, value) => assign(
            alloc,
            span,
            expression(alloc, places, own, around, place.get()),
            expression(alloc, places, own, around, value.get()),
        ),
        ExprNode::Update(op, place, value) => update(
            alloc,
            span,
            *op,
            expression(alloc, places, own, around, place.get()),
            expression(alloc, places, own, around, value.get()),
        ),
        ExprNode::Call(name, args) => call(
            span,
            name.copy(alloc),
            listed(alloc, places, own, around, args.as_slice()),
        ),
        ExprNode::NextInput => Ok(Expr {
            span,
            node: ExprNode::NextInput,
        }),
        ExprNode::Variant(adt, name, args) => variant(
            span,
            adt.copy(alloc),
            name.copy(alloc),
            arguments(alloc, places, own, around, args),
        ),
        ExprNode::Make(name, all) => make(
            span,
            name.copy(alloc),
            fields(alloc, places, own, around, all.as_slice()),
        ),
        ExprNode::Print(value) => print(
            alloc,
            span,
            expression(alloc, places, own, around, value.get()),
        ),
        ExprNode::Block(inner) => nested(
            alloc,
            span,
            block(alloc, places, own, around, inner.get()),
        ),
        ExprNode::If(test, then, other) => branch(
            alloc,
            span,
            expression(alloc, places, own, around, test.get()),
            block(alloc, places, own, around, then.get()),
            optional(alloc, places, own, around, other),
        ),
        ExprNode::IfLet(pattern, scrutinee, then, other) => {
            let inner = own.with(alloc, pattern)?;
            branch_fitting(
                alloc,
                span,
                pattern.copy(alloc),
                expression(alloc, places, own, around, scrutinee.get()),
                block(alloc, places, &inner, around, then.get()),
                optional(alloc, places, own, around, other),
            )
        }
        ExprNode::Match(scrutinee, all) => cases(
            alloc,
            span,
            expression(alloc, places, own, around, scrutinee.get()),
            arms(alloc, places, own, around, all.as_slice()),
        ),
        ExprNode::Loop(label, body) => {
            let inner = around.with_loop(alloc, label)?;
            repeated(
                alloc,
                span,
                label.copy(alloc),
                block(alloc, places, own, &inner, body.get()),
            )
        }
        ExprNode::While(label, test, body) => {
            let inner = around.with_loop(alloc, label)?;
            let tested = inner.with_test(alloc)?;
            while_true(
                alloc,
                span,
                label.copy(alloc),
                expression(alloc, places, own, &tested, test.get()),
                block(alloc, places, own, &inner, body.get()),
            )
        }
        ExprNode::WhileLet(label, pattern, scrutinee, body) => {
            let inner = around.with_loop(alloc, label)?;
            let tested = inner.with_test(alloc)?;
            let names = own.with(alloc, pattern)?;
            while_fitting(
                alloc,
                span,
                label.copy(alloc),
                pattern.copy(alloc),
                expression(alloc, places, own, &tested, scrutinee.get()),
                block(alloc, places, &names, &inner, body.get()),
            )
        }
        ExprNode::Break(label) => places.break_at(alloc, around, span, label),
        ExprNode::Continue(label) => places.continue_at(alloc, around, span, label),
        ExprNode::Return(value) => {
            let value = optional(alloc, places, own, around, value)?;
            places.return_at(alloc, span, value)
        }
    }
}

/// What becomes of an expression that may be there.
#[cycle(changed)]
pub(crate) fn optional<'t, P: Places>(
    alloc: Global,
    places: &P,
    own: &Names<'t>,
    around: &Loops<'t>,
    expr: &'t Option<Boxed<Expr>>,
) -> Result<Option<Boxed<Expr>>, AllocError>
    ensures { IfOk result (λ it. optional_of (option_map plain-Expr it) ≡ changed.changed_optional (P.changes places.now) own.now around.now (optional_of (option_map plain-Expr expr.now))) }
{
    match expr {
        Some(expr) => {
            let inner = expression(alloc, places, own, around, expr.get())?;
            Ok(Some(Boxed::new(alloc, inner)?))
        }
        None => Ok(None),
    }
}

/// What becomes of an initialiser that may be there.
#[cycle(changed)]
fn initialiser<'t, P: Places>(
    alloc: Global,
    places: &P,
    own: &Names<'t>,
    around: &Loops<'t>,
    expr: &'t Option<Expr>,
) -> Result<Option<Expr>, AllocError>
    ensures { IfOk result (λ it. optional_of (option_map plain-Expr it) ≡ changed.changed_optional (P.changes places.now) own.now around.now (optional_of (option_map plain-Expr expr.now))) }
{
    match expr {
        Some(expr) => Ok(Some(expression(alloc, places, own, around, expr)?)),
        None => Ok(None),
    }
}

/// What becomes of the arguments of a variant, where parentheses are written.
#[cycle(changed)]
fn arguments<'t, P: Places>(
    alloc: Global,
    places: &P,
    own: &Names<'t>,
    around: &Loops<'t>,
    exprs: &'t Option<List<Expr>>,
) -> Result<Option<List<Expr>>, AllocError>
    ensures { IfOk result (λ it. optional_list_of (option_map (map plain-Expr) it) ≡ changed.changed_arguments (P.changes places.now) own.now around.now (optional_list_of (option_map (map plain-Expr) exprs.now))) }
{
    match exprs {
        Some(given) => {
            let mut all = List::new(alloc);
            for expr in given.as_slice() {
                let (next, held) = keep(all, expression(alloc, places, own, around, expr))?;
                all = pushed(held, next)?;
            }
            Ok(Some(all))
        }
        None => Ok(None),
    }
}

#[cycle(changed)]
fn listed<'t, P: Places>(
    alloc: Global,
    places: &P,
    own: &Names<'t>,
    around: &Loops<'t>,
    exprs: &'t [Expr],
) -> Result<List<Expr>, AllocError>
    ensures { IfOk result (λ it. expressions_of (map plain-Expr it) ≡ changed.changed_all (P.changes places.now) own.now around.now (expressions_of (map plain-Expr exprs.now))) }
{
    let mut all = List::new(alloc);
    for expr in exprs {
        let (next, held) = keep(all, expression(alloc, places, own, around, expr))?;
        all = pushed(held, next)?;
    }
    Ok(all)
}

#[cycle(changed)]
fn fields<'t, P: Places>(
    alloc: Global,
    places: &P,
    own: &Names<'t>,
    around: &Loops<'t>,
    fields: &'t [FieldExpr],
) -> Result<List<FieldExpr>, AllocError>
    ensures { IfOk result (λ it. field_expressions_of (map plain-FieldExpr it) ≡ changed.changed_fields (P.changes places.now) own.now around.now (field_expressions_of (map plain-FieldExpr fields.now))) }
{
    let mut all = List::new(alloc);
    for field in fields {
        let (next, held) = keep(all, one_field(alloc, places, own, around, field))?;
        all = pushed(held, next)?;
    }
    Ok(all)
}

#[cycle(changed)]
fn one_field<'t, P: Places>(
    alloc: Global,
    places: &P,
    own: &Names<'t>,
    around: &Loops<'t>,
    field: &'t FieldExpr,
) -> Result<FieldExpr, AllocError>
    ensures { IfOk result (λ it. plain-FieldExpr it ≡ (field.now.field, changed.changed (P.changes places.now) own.now around.now (plain-Expr field.now.value))) }
{
    field_value(
        field.field.copy(alloc),
        expression(alloc, places, own, around, &field.value),
    )
}

#[cycle(changed)]
fn arms<'t, P: Places>(
    alloc: Global,
    places: &P,
    own: &Names<'t>,
    around: &Loops<'t>,
    arms: &'t [Arm],
) -> Result<List<Arm>, AllocError>
    ensures { IfOk result (λ it. arms_of (map plain-Arm it) ≡ changed.changed_arms (P.changes places.now) own.now around.now (arms_of (map plain-Arm arms.now))) }
{
    let mut all = List::new(alloc);
    for arm in arms {
        let (next, held) = keep(all, one_arm(alloc, places, own, around, arm))?;
        all = pushed(held, next)?;
    }
    Ok(all)
}

#[cycle(changed)]
fn one_arm<'t, P: Places>(
    alloc: Global,
    places: &P,
    own: &Names<'t>,
    around: &Loops<'t>,
    arm: &'t Arm,
) -> Result<Arm, AllocError>
    ensures { IfOk result (λ it. plain-Arm it ≡ (plain-Pattern arm.now.pattern, changed.changed (P.changes places.now) (bound (plain-Pattern arm.now.pattern) ++ own.now) around.now (plain-Expr arm.now.body))) }
{
    let inner = own.with(alloc, &arm.pattern)?;
    arm_of(
        arm.pattern.copy(alloc),
        expression(alloc, places, &inner, around, &arm.body),
    )
}

/// What becomes of a block, where these names are bound since the beginning and this stands round it.
///
/// # Errors
///
/// Memory runs out.
#[cycle(changed)]
pub fn block<'t, P: Places>(
    alloc: Global,
    places: &P,
    own: &Names<'t>,
    around: &Loops<'t>,
    block: &'t Block,
) -> Result<Block, AllocError>
    ensures { IfOk result (λ it. plain-Block it ≡ changed.changed_body (P.changes places.now) own.now around.now (plain-Block block.now)) }
{
    let mut inner = own.copy(alloc)?;
    let stmts = statements(alloc, places, &mut inner, around, block.stmts.as_slice())?;
    let (tail, stmts) = keep(stmts, optional(alloc, places, &inner, around, &block.tail))?;
    places.block(
        alloc,
        block,
        Block {
            span: block.span,
            stmts,
            tail,
        },
    )
}

/// What becomes of statements, behind which their names are bound too.
#[cycle(changed)]
pub(crate) fn statements<'t, P: Places>(
    alloc: Global,
    places: &P,
    own: &mut Names<'t>,
    around: &Loops<'t>,
    stmts: &'t [Stmt],
) -> Result<List<Stmt>, AllocError>
    ensures made { IfOk result (λ it. statements_of (map plain-Stmt it) ≡ changed.changed_statements (P.changes places.now) own.old around.now (statements_of (map plain-Stmt stmts.now))) }
    ensures own { OnOk result (own.new ≡ behind_all own.old (statements_of (map plain-Stmt stmts.now))) }
{
    let mut all = List::new(alloc);
    for stmt in stmts {
        let (next, held) = keep(all, next_statement(alloc, places, own, around, stmt))?;
        all = pushed(held, next)?;
    }
    Ok(all)
}

/// What becomes of a statement, behind which its names are bound too.
#[cycle(changed)]
fn next_statement<'t, P: Places>(
    alloc: Global,
    places: &P,
    own: &mut Names<'t>,
    around: &Loops<'t>,
    stmt: &'t Stmt,
) -> Result<Stmt, AllocError>
    ensures made { IfOk result (λ it. plain-Stmt it ≡ changed.changed_statement (P.changes places.now) own.old around.now (plain-Stmt stmt.now)) }
    ensures own { OnOk result (own.new ≡ bound_by (plain-Stmt stmt.now) ++ own.old) }
{
    let next = statement(alloc, places, own, around, stmt)?;
    let (_, next) = keep(next, own.enter_statement(stmt))?;
    Ok(next)
}

#[cycle(changed)]
fn statement<'t, P: Places>(
    alloc: Global,
    places: &P,
    own: &Names<'t>,
    around: &Loops<'t>,
    stmt: &'t Stmt,
) -> Result<Stmt, AllocError>
    ensures { IfOk result (λ it. plain-Stmt it ≡ changed.changed_statement (P.changes places.now) own.now around.now (plain-Stmt stmt.now)) }
{
    match &stmt.node {
        StmtNode::Let(pattern, typ, init) => let_statement(
            stmt.span,
            pattern.copy(alloc),
            places.let_type(alloc, pattern, typ),
            initialiser(alloc, places, own, around, init),
        ),
        StmtNode::Eval(expr, semi) => eval(
            stmt.span,
            expression(alloc, places, own, around, expr),
            *semi,
        ),
    }
}

//! A walk over a tree, in the order of the text, that writes the edits at its special places.

ghost use Rattle.std.specs.Prelude.{◌≡◌, ◌++◌, false, map, option_map, OnOk};
ghost use Rattle.rx_tree.specs.PlainOf.{plain-Expr, plain-Block, plain-Stmt, plain-Arm, plain-FieldExpr, plain-Pattern, expressions_of, optional_of, optional_list_of, field_expressions_of, arms_of, statements_of};
ghost use Rattle.rx_hoist_extraction.specs.Names.{bound, bound_by, behind_all};
ghost use Rattle.rx_splice_laws.specs.Edits.{written};
ghost use Rattle.rx_splice_laws.specs.EditsOf as edits;

use crate::list::EditList;
use crate::special::Places;
use rx_core::{Boxed, List, Span};
use rx_hoist_changes::{Loops, Names};
use rx_tree::{Arm, Block, Expr, ExprNode, FieldExpr, Ident, Stmt, StmtNode};
use std::alloc::{AllocError, Global};

/// Whether a field is written without `:`: a variable stands in its place.
#[tactic(auto, using(rx_tree::proofs::Rules::expression_rules))]
fn is_short(name: &Ident, value: &Expr) -> bool
    ensures { result ≡ edits.is_short name.now (plain-Expr value.now) }
{
    match &value.node {
        ExprNode::Var(_) => name.span.start == value.span.start,
        ExprNode::Int(_, _)
        | ExprNode::Bool(_)
        | ExprNode::Tuple(_)
        | ExprNode::Field(_, _)
        | ExprNode::Part(_, _)
        | ExprNode::Deref(_)
        | ExprNode::Neg(_)
        | ExprNode::Not(_)
        | ExprNode::Borrow(_, _)
        | ExprNode::Binary(_, _, _)
        | ExprNode::Assign(_, _)
        | ExprNode::Update(_, _, _)
        | ExprNode::Call(_, _)
        | ExprNode::NextInput
        | ExprNode::Variant(_, _, _)
        | ExprNode::Make(_, _)
        | ExprNode::Print(_)
        | ExprNode::Block(_)
        | ExprNode::If(_, _, _)
        | ExprNode::IfLet(_, _, _, _)
        | ExprNode::Match(_, _)
        | ExprNode::Loop(_, _)
        | ExprNode::While(_, _, _)
        | ExprNode::WhileLet(_, _, _, _)
        | ExprNode::Break(_)
        | ExprNode::Continue(_)
        | ExprNode::Return(_) => false,
    }
}

/// The edits of an expression, where these names are bound since the beginning and this stands round it. It may be the value of a field
/// without `:`.
#[cycle(edits)]
pub fn expression<'t, P: Places>(
    alloc: Global,
    out: &mut EditList,
    places: &P,
    own: &Names<'t>,
    around: &Loops<'t>,
    short: bool,
    expr: &'t Expr,
) -> Result<(), AllocError>
    ensures { OnOk result (out.new ≡ out.old ++ map written (edits.edits (P.edits places.now) own.now around.now short (plain-Expr expr.now))) }
{
    let span = expr.span;
    match &expr.node {
        ExprNode::Int(_, suffix) => places.number(alloc, out, span, *suffix),
        ExprNode::Var(name) => places.variable(alloc, out, own, short, span, name),
        ExprNode::Bool(_) => Ok(()),
        ExprNode::NextInput => Ok(()),
        ExprNode::Tuple(parts) => listed(alloc, out, places, own, around, parts.as_slice()),
        ExprNode::Call(_, args) => listed(alloc, out, places, own, around, args.as_slice()),
        ExprNode::Variant(_, _, args) => arguments(alloc, out, places, own, around, args),
        ExprNode::Make(_, all) => fields(alloc, out, places, own, around, all.as_slice()),
        ExprNode::Field(base, _) => expression(alloc, out, places, own, around, false, base.get()),
        ExprNode::Part(base, _) => expression(alloc, out, places, own, around, false, base.get()),
        ExprNode::Deref(base) => expression(alloc, out, places, own, around, false, base.get()),
        ExprNode::Neg(base) => expression(alloc, out, places, own, around, false, base.get()),
        ExprNode::Not(base) => expression(alloc, out, places, own, around, false, base.get()),
        ExprNode::Borrow(_, place) => expression(
            alloc,
            out,
            places,
            own,
            around,
            false,
            place.get(),
        ),
        ExprNode::Print(value) => expression(alloc, out, places, own, around, false, value.get()),
        ExprNode::Binary(_, left, right) => {
            expression(alloc, out, places, own, around, false, left.get())?;
            expression(alloc, out, places, own, around, false, right.get())
        }
        ExprNode::Assign(place, value) => {
            expression(alloc, out, places, own, around, false, place.get())?;
            expression(alloc, out, places, own, around, false, value.get())
        }
        ExprNode::Update(_, place, value) => {
            expression(alloc, out, places, own, around, false, place.get())?;
            expression(alloc, out, places, own, around, false, value.get())
        }
        ExprNode::Block(inner) => block(alloc, out, places, own, around, inner.get()),
        ExprNode::If(test, then, other) => {
            expression(alloc, out, places, own, around, false, test.get())?;
            block(alloc, out, places, own, around, then.get())?;
            optional(alloc, out, places, own, around, other)
        }
        ExprNode::IfLet(pattern, scrutinee, then, other) => {
            expression(alloc, out, places, own, around, false, scrutinee.get())?;
            let inner = own.with(alloc, pattern)?;
            block(alloc, out, places, &inner, around, then.get())?;
            optional(alloc, out, places, own, around, other)
        }
        ExprNode::Match(scrutinee, all) => {
            expression(alloc, out, places, own, around, false, scrutinee.get())?;
            arms(alloc, out, places, own, around, all.as_slice())
        }
        ExprNode::Loop(label, body) => {
            let inner = around.with_loop(alloc, label)?;
            block(alloc, out, places, own, &inner, body.get())
        }
        ExprNode::While(label, test, body) => {
            let inner = around.with_loop(alloc, label)?;
            let tested = inner.with_test(alloc)?;
            expression(alloc, out, places, own, &tested, false, test.get())?;
            block(alloc, out, places, own, &inner, body.get())
        }
        ExprNode::WhileLet(label, pattern, scrutinee, body) => {
            let inner = around.with_loop(alloc, label)?;
            let tested = inner.with_test(alloc)?;
            expression(alloc, out, places, own, &tested, false, scrutinee.get())?;
            let names = own.with(alloc, pattern)?;
            block(alloc, out, places, &names, &inner, body.get())
        }
        ExprNode::Break(label) => places.break_at(alloc, out, around, span, label),
        ExprNode::Continue(label) => places.continue_at(alloc, out, around, span, label),
        ExprNode::Return(value) => returned(alloc, out, places, own, around, span, value),
    }
}

/// The edits of a `return`.
#[cycle(edits)]
fn returned<'t, P: Places>(
    alloc: Global,
    out: &mut EditList,
    places: &P,
    own: &Names<'t>,
    around: &Loops<'t>,
    span: Span,
    value: &'t Option<Boxed<Expr>>,
) -> Result<(), AllocError>
    ensures { OnOk result (out.new ≡ out.old ++ map written (edits.return_edits (P.edits places.now) own.now around.now span (optional_of (option_map plain-Expr value.now)))) }
{
    match value {
        Some(value) => {
            places.before_operand(alloc, out, span)?;
            expression(alloc, out, places, own, around, false, value.get())?;
            places.behind_operand(alloc, out, span)
        }
        None => places.return_at(alloc, out, span),
    }
}

/// The edits of an expression that may be there.
#[cycle(edits)]
fn optional<'t, P: Places>(
    alloc: Global,
    out: &mut EditList,
    places: &P,
    own: &Names<'t>,
    around: &Loops<'t>,
    expr: &'t Option<Boxed<Expr>>,
) -> Result<(), AllocError>
    ensures { OnOk result (out.new ≡ out.old ++ map written (edits.optional_edits (P.edits places.now) own.now around.now (optional_of (option_map plain-Expr expr.now)))) }
{
    match expr {
        Some(expr) => expression(alloc, out, places, own, around, false, expr.get()),
        None => Ok(()),
    }
}

/// The edits of an initialiser that may be there.
#[cycle(edits)]
fn initialiser<'t, P: Places>(
    alloc: Global,
    out: &mut EditList,
    places: &P,
    own: &Names<'t>,
    around: &Loops<'t>,
    expr: &'t Option<Expr>,
) -> Result<(), AllocError>
    ensures { OnOk result (out.new ≡ out.old ++ map written (edits.optional_edits (P.edits places.now) own.now around.now (optional_of (option_map plain-Expr expr.now)))) }
{
    match expr {
        Some(expr) => expression(alloc, out, places, own, around, false, expr),
        None => Ok(()),
    }
}

/// The edits of the arguments of a variant, where parentheses are written.
#[cycle(edits)]
fn arguments<'t, P: Places>(
    alloc: Global,
    out: &mut EditList,
    places: &P,
    own: &Names<'t>,
    around: &Loops<'t>,
    exprs: &'t Option<List<Expr>>,
) -> Result<(), AllocError>
    ensures { OnOk result (out.new ≡ out.old ++ map written (edits.argument_edits (P.edits places.now) own.now around.now (optional_list_of (option_map (map plain-Expr) exprs.now)))) }
{
    match exprs {
        Some(given) => {
            for expr in given.as_slice() {
                expression(alloc, out, places, own, around, false, expr)?;
            }
            Ok(())
        }
        None => Ok(()),
    }
}

#[cycle(edits)]
fn listed<'t, P: Places>(
    alloc: Global,
    out: &mut EditList,
    places: &P,
    own: &Names<'t>,
    around: &Loops<'t>,
    exprs: &'t [Expr],
) -> Result<(), AllocError>
    ensures { OnOk result (out.new ≡ out.old ++ map written (edits.all_edits (P.edits places.now) own.now around.now (expressions_of (map plain-Expr exprs.now)))) }
{
    for expr in exprs {
        expression(alloc, out, places, own, around, false, expr)?;
    }
    Ok(())
}

/// The edits of a field of a struct literal.
#[cycle(edits)]
fn one_field<'t, P: Places>(
    alloc: Global,
    out: &mut EditList,
    places: &P,
    own: &Names<'t>,
    around: &Loops<'t>,
    field: &'t FieldExpr,
) -> Result<(), AllocError>
    ensures { OnOk result (out.new ≡ out.old ++ map written (edits.edits (P.edits places.now) own.now around.now (edits.is_short field.now.field (plain-Expr field.now.value)) (plain-Expr field.now.value))) }
{
    let short = is_short(&field.field, &field.value);
    expression(alloc, out, places, own, around, short, &field.value)
}

#[cycle(edits)]
fn fields<'t, P: Places>(
    alloc: Global,
    out: &mut EditList,
    places: &P,
    own: &Names<'t>,
    around: &Loops<'t>,
    fields: &'t [FieldExpr],
) -> Result<(), AllocError>
    ensures { OnOk result (out.new ≡ out.old ++ map written (edits.field_edits (P.edits places.now) own.now around.now (field_expressions_of (map plain-FieldExpr fields.now)))) }
{
    for field in fields {
        one_field(alloc, out, places, own, around, field)?;
    }
    Ok(())
}

/// The edits of an arm, in whose body the names of its pattern are bound.
#[cycle(edits)]
fn one_arm<'t, P: Places>(
    alloc: Global,
    out: &mut EditList,
    places: &P,
    own: &Names<'t>,
    around: &Loops<'t>,
    arm: &'t Arm,
) -> Result<(), AllocError>
    ensures { OnOk result (out.new ≡ out.old ++ map written (edits.edits (P.edits places.now) (bound (plain-Pattern arm.now.pattern) ++ own.now) around.now false (plain-Expr arm.now.body))) }
{
    let inner = own.with(alloc, &arm.pattern)?;
    expression(alloc, out, places, &inner, around, false, &arm.body)
}

#[cycle(edits)]
fn arms<'t, P: Places>(
    alloc: Global,
    out: &mut EditList,
    places: &P,
    own: &Names<'t>,
    around: &Loops<'t>,
    arms: &'t [Arm],
) -> Result<(), AllocError>
    ensures { OnOk result (out.new ≡ out.old ++ map written (edits.arm_edits (P.edits places.now) own.now around.now (arms_of (map plain-Arm arms.now)))) }
{
    for arm in arms {
        one_arm(alloc, out, places, own, around, arm)?;
    }
    Ok(())
}

/// The edits of a block.
#[cycle(edits)]
pub fn block<'t, P: Places>(
    alloc: Global,
    out: &mut EditList,
    places: &P,
    own: &Names<'t>,
    around: &Loops<'t>,
    block: &'t Block,
) -> Result<(), AllocError>
    ensures { OnOk result (out.new ≡ out.old ++ map written (edits.body_edits (P.edits places.now) own.now around.now (plain-Block block.now))) }
{
    let mut inner = own.copy(alloc)?;
    statements(
        alloc,
        out,
        places,
        &mut inner,
        around,
        block.stmts.as_slice(),
    )?;
    optional(alloc, out, places, &inner, around, &block.tail)
}

/// The edits of statements, behind which their names are bound too.
#[cycle(edits)]
pub fn statements<'t, P: Places>(
    alloc: Global,
    out: &mut EditList,
    places: &P,
    own: &mut Names<'t>,
    around: &Loops<'t>,
    stmts: &'t [Stmt],
) -> Result<(), AllocError>
    ensures made { OnOk result (out.new ≡ out.old ++ map written (edits.all_statement_edits (P.edits places.now) own.old around.now (statements_of (map plain-Stmt stmts.now)))) }
    ensures own { OnOk result (own.new ≡ behind_all own.old (statements_of (map plain-Stmt stmts.now))) }
{
    for stmt in stmts {
        statement(alloc, out, places, own, around, stmt)?;
        own.enter_statement(stmt)?;
    }
    Ok(())
}

/// The edits of a statement.
#[cycle(edits)]
fn statement<'t, P: Places>(
    alloc: Global,
    out: &mut EditList,
    places: &P,
    own: &Names<'t>,
    around: &Loops<'t>,
    stmt: &'t Stmt,
) -> Result<(), AllocError>
    ensures { OnOk result (out.new ≡ out.old ++ map written (edits.statement_edits (P.edits places.now) own.now around.now (plain-Stmt stmt.now))) }
{
    match &stmt.node {
        StmtNode::Let(pattern, typ, init) => {
            places.let_type(alloc, out, pattern, typ)?;
            initialiser(alloc, out, places, own, around, init)
        }
        StmtNode::Eval(expr, _) => expression(alloc, out, places, own, around, false, expr),
    }
}

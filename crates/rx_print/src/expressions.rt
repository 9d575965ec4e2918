//! The canonical text of expressions.

ghost use Rattle.std.specs.Prelude.{◌≡◌, ◌++◌, [], ◌∷◌, not, ◌&&◌, true, false, OnOk, map};
ghost use Rattle.rx_tree.specs.PlainOf.{plain-Pattern, plain-Expr, plain-FieldExpr, plain-Block, expressions_of, field_expressions_of};
ghost use Rattle.rx_print_spelling.specs.Pieces.{flat, enclosed, separated, tuple_of, arguments_of, fields_of};
ghost use Rattle.rx_print_spelling.specs.Expressions.{label_pieces, is_borrow, pieces, each, each_field};
ghost use Rattle.rx_print_parts.specs.Parts.{next_of};
ghost use Rattle.rx_print.specs.ExpressionParts.{jump_pieces, path_pieces, member_pieces, part_pieces, unary_pieces, borrowed_pieces, pointer_pieces, binary_pieces, assigned_pieces, call_pieces, variant_pieces, make_pieces, field_pieces, print_pieces, if_pieces, if_else_pieces, fitted_pieces, if_let_pieces, if_let_else_pieces, loop_pieces, while_pieces, while_let_pieces};

use crate::blocks::{push_block, push_match};
use rx_core::Text;
use rx_print_parts::{
    Margin, comma, operator_text, push_decimal, push_mutable, push_number, push_pattern,
    truth_text, tuple_end, update_text,
};
use rx_print_places::{
    COMPARISON, DISJUNCTION, POSTFIX, UNARY, is_borrow, left_strength, right_strength, too_weak,
    unfit,
};
use rx_tree::{BinaryOp, Block, Expr, ExprNode, FieldExpr, Ident, Pattern};
use std::alloc::{AllocError, Global};

/// Adds the label before a loop, where one is written.
#[tactic(auto, using(rx_print_parts::proofs::Rules::text_rules))]
fn push_label(out: &mut Text, label: &Option<Ident>) -> Result<(), AllocError>
    ensures { OnOk result (out.new ≡ out.old ++ flat (label_pieces label.now)) }
{
    match label {
        Some(l) => {
            out.push(l.name.as_str())?;
            out.push(": ")
        }
        None => Ok(()),
    }
}

/// Adds a `break` or a `continue`, and the label behind it.
#[tactic(auto, using(rx_print_parts::proofs::Rules::text_rules))]
fn push_jump(out: &mut Text, jump: &str, label: &Option<Ident>) -> Result<(), AllocError>
    ensures { OnOk result (out.new ≡ out.old ++ flat (jump_pieces jump.now label.now)) }
{
    out.push(jump)?;
    match label {
        Some(l) => {
            out.push(" ")?;
            out.push(l.name.as_str())
        }
        None => Ok(()),
    }
}

/// Adds the name of a variant.
#[tactic(auto, using(rx_print_parts::proofs::Rules::text_rules))]
fn push_path(out: &mut Text, name: &Ident, variant: &Ident) -> Result<(), AllocError>
    ensures { OnOk result (out.new ≡ out.old ++ flat (path_pieces name.now variant.now)) }
{
    out.push(name.name.as_str())?;
    out.push("::")?;
    out.push(variant.name.as_str())
}

/// Whether the `&` of a borrow and that of what it borrows are one mark.
fn joins(mutable: bool, e: &Expr) -> bool
    ensures { result ≡ (not mutable && is_borrow (plain-Expr e.now)) }
{
    !mutable && is_borrow(e)
}

/// Adds an expression between two texts, in parentheses or not.
#[cycle(expressions)]
#[tactic(auto, using(rx_print_parts::proofs::Rules::text_rules))]
pub fn push_between(
    alloc: Global,
    out: &mut Text,
    margin: &Margin,
    before: &str,
    within: bool,
    e: &Expr,
    after: &str,
) -> Result<(), AllocError>
    ensures { OnOk result (out.new ≡ out.old ++ (before.now ++ (flat (enclosed within (pieces false margin.now (plain-Expr e.now))) ++ after.now))) }
{
    out.push(before)?;
    if within {
        out.push("(")?;
        push_expression(alloc, out, margin, false, e)?;
        out.push(")")?;
        return out.push(after);
    }
    push_expression(alloc, out, margin, false, e)?;
    out.push(after)
}

/// Adds a field of an expression.
#[cycle(expressions)]
#[tactic(auto, using(rx_print_parts::proofs::Rules::text_rules))]
fn push_member(
    alloc: Global,
    out: &mut Text,
    margin: &Margin,
    e: &Expr,
    name: &Ident,
) -> Result<(), AllocError>
    ensures { OnOk result (out.new ≡ out.old ++ flat (member_pieces margin.now (plain-Expr e.now) name.now)) }
{
    push_between(alloc, out, margin, "", too_weak(POSTFIX, e), e, ".")?;
    out.push(name.name.as_str())
}

/// Adds a part of a tuple.
#[cycle(expressions)]
#[tactic(auto, using(rx_print_parts::proofs::Rules::text_rules))]
fn push_part(
    alloc: Global,
    out: &mut Text,
    margin: &Margin,
    tuple: &Expr,
    index: u64,
) -> Result<(), AllocError>
    ensures { OnOk result (out.new ≡ out.old ++ flat (part_pieces margin.now (plain-Expr tuple.now) index)) }
{
    push_between(alloc, out, margin, "", too_weak(POSTFIX, tuple), tuple, ".")?;
    push_decimal(alloc, out, index)
}

/// Adds an operator and its operand.
#[cycle(expressions)]
#[tactic(auto, using(rx_print_parts::proofs::Rules::text_rules))]
fn push_unary(
    alloc: Global,
    out: &mut Text,
    margin: &Margin,
    operator: &str,
    e: &Expr,
) -> Result<(), AllocError>
    ensures { OnOk result (out.new ≡ out.old ++ flat (unary_pieces margin.now operator.now (plain-Expr e.now))) }
{
    push_between(alloc, out, margin, operator, too_weak(UNARY, e), e, "")
}

/// Adds what stands behind the `&` of a borrow.
#[cycle(expressions)]
#[tactic(auto, using(rx_print_parts::proofs::Rules::text_rules))]
fn push_borrowed(
    alloc: Global,
    out: &mut Text,
    margin: &Margin,
    mutable: bool,
    e: &Expr,
) -> Result<(), AllocError>
    ensures { OnOk result (out.new ≡ out.old ++ flat (borrowed_pieces margin.now mutable (plain-Expr e.now))) }
{
    push_mutable(out, mutable)?;
    push_between(alloc, out, margin, "", too_weak(UNARY, e), e, "")
}

/// Adds a borrow, or two whose `&` are one mark.
#[cycle(expressions)]
#[tactic(auto, using(rx_print_parts::proofs::Rules::text_rules))]
fn push_pointer(
    alloc: Global,
    out: &mut Text,
    margin: &Margin,
    joined: bool,
    mutable: bool,
    e: &Expr,
) -> Result<(), AllocError>
    ensures { OnOk result (out.new ≡ out.old ++ flat (pointer_pieces margin.now joined mutable (plain-Expr e.now))) }
{
    if joined {
        out.push("&&")?;
        return push_expression(alloc, out, margin, true, e);
    }
    out.push("&")?;
    push_borrowed(alloc, out, margin, mutable, e)
}

/// Adds an operator and its two operands.
#[cycle(expressions)]
#[tactic(auto, using(rx_print_parts::proofs::Rules::text_rules))]
fn push_binary(
    alloc: Global,
    out: &mut Text,
    margin: &Margin,
    op: BinaryOp,
    a: &Expr,
    b: &Expr,
) -> Result<(), AllocError>
    ensures { OnOk result (out.new ≡ out.old ++ flat (binary_pieces margin.now op (plain-Expr a.now) (plain-Expr b.now))) }
{
    let left = too_weak(left_strength(op), a);
    let right = too_weak(right_strength(op), b);
    push_between(alloc, out, margin, "", left, a, " ")?;
    out.push(operator_text(op))?;
    push_between(alloc, out, margin, " ", right, b, "")
}

/// Adds an assignment with this mark.
#[cycle(expressions)]
#[tactic(auto, using(rx_print_parts::proofs::Rules::text_rules))]
fn push_assigned(
    alloc: Global,
    out: &mut Text,
    margin: &Margin,
    mark: &str,
    a: &Expr,
    b: &Expr,
) -> Result<(), AllocError>
    ensures { OnOk result (out.new ≡ out.old ++ flat (assigned_pieces margin.now mark.now (plain-Expr a.now) (plain-Expr b.now))) }
{
    push_between(alloc, out, margin, "", too_weak(DISJUNCTION, a), a, " ")?;
    out.push(mark)?;
    push_between(alloc, out, margin, " ", false, b, "")
}

/// Adds an expression, behind a comma where it follows another.
#[cycle(expressions)]
#[tactic(auto, using(rx_print_parts::proofs::Rules::text_rules))]
fn push_next(
    alloc: Global,
    out: &mut Text,
    margin: &Margin,
    follows: bool,
    e: &Expr,
) -> Result<(), AllocError>
    ensures { OnOk result (out.new ≡ out.old ++ flat (next_of follows (pieces false margin.now (plain-Expr e.now)))) }
{
    out.push(comma(follows))?;
    push_expression(alloc, out, margin, false, e)
}

/// Adds expressions, with a comma between each two.
#[cycle(expressions)]
fn push_each(
    alloc: Global,
    out: &mut Text,
    margin: &Margin,
    list: &[Expr],
) -> Result<(), AllocError>
    ensures { OnOk result (out.new ≡ out.old ++ flat (separated (each margin.now (expressions_of (map plain-Expr list.now))))) }
{
    let mut follows = false;
    for e in list {
        push_next(alloc, out, margin, follows, e)?;
        follows = true;
    }
    Ok(())
}

/// Adds a tuple.
#[cycle(expressions)]
fn push_tuple(
    alloc: Global,
    out: &mut Text,
    margin: &Margin,
    list: &[Expr],
) -> Result<(), AllocError>
    ensures { OnOk result (out.new ≡ out.old ++ flat (tuple_of (each margin.now (expressions_of (map plain-Expr list.now))))) }
{
    out.push("(")?;
    push_each(alloc, out, margin, list)?;
    out.push(tuple_end(list.len() == 1))
}

/// Adds expressions in parentheses.
#[cycle(expressions)]
#[tactic(auto, using(rx_print_parts::proofs::Rules::text_rules))]
fn push_arguments(
    alloc: Global,
    out: &mut Text,
    margin: &Margin,
    list: &[Expr],
) -> Result<(), AllocError>
    ensures { OnOk result (out.new ≡ out.old ++ flat (arguments_of (each margin.now (expressions_of (map plain-Expr list.now))))) }
{
    out.push("(")?;
    push_each(alloc, out, margin, list)?;
    out.push(")")
}

/// Adds a call of a function.
#[cycle(expressions)]
#[tactic(auto, using(rx_print_parts::proofs::Rules::text_rules))]
fn push_call(
    alloc: Global,
    out: &mut Text,
    margin: &Margin,
    name: &Ident,
    list: &[Expr],
) -> Result<(), AllocError>
    ensures { OnOk result (out.new ≡ out.old ++ flat (call_pieces margin.now name.now (expressions_of (map plain-Expr list.now)))) }
{
    out.push(name.name.as_str())?;
    push_arguments(alloc, out, margin, list)
}

/// Adds a variant with arguments.
#[cycle(expressions)]
#[tactic(auto, using(rx_print_parts::proofs::Rules::text_rules))]
fn push_variant(
    alloc: Global,
    out: &mut Text,
    margin: &Margin,
    name: &Ident,
    variant: &Ident,
    list: &[Expr],
) -> Result<(), AllocError>
    ensures { OnOk result (out.new ≡ out.old ++ flat (variant_pieces margin.now name.now variant.now (expressions_of (map plain-Expr list.now)))) }
{
    push_path(out, name, variant)?;
    push_arguments(alloc, out, margin, list)
}

/// Adds a field of a struct literal, behind a comma where it follows another.
#[cycle(expressions)]
#[tactic(auto, using(rx_tree::proofs::Rules::field_expression_by_parts, rx_print_parts::proofs::Rules::text_rules))]
fn push_field(
    alloc: Global,
    out: &mut Text,
    margin: &Margin,
    follows: bool,
    field: &FieldExpr,
) -> Result<(), AllocError>
    ensures { OnOk result (out.new ≡ out.old ++ flat (next_of follows (field_pieces margin.now (plain-FieldExpr field.now)))) }
{
    out.push(comma(follows))?;
    out.push(field.field.name.as_str())?;
    out.push(": ")?;
    push_expression(alloc, out, margin, false, &field.value)
}

/// Adds fields, with a comma between each two.
#[cycle(expressions)]
fn push_fields(
    alloc: Global,
    out: &mut Text,
    margin: &Margin,
    list: &[FieldExpr],
) -> Result<(), AllocError>
    ensures { OnOk result (out.new ≡ out.old ++ flat (separated (each_field margin.now (field_expressions_of (map plain-FieldExpr list.now))))) }
{
    let mut follows = false;
    for field in list {
        push_field(alloc, out, margin, follows, field)?;
        follows = true;
    }
    Ok(())
}

/// Adds fields in braces.
#[cycle(expressions)]
fn push_braces(
    alloc: Global,
    out: &mut Text,
    margin: &Margin,
    list: &[FieldExpr],
) -> Result<(), AllocError>
    ensures { OnOk result (out.new ≡ out.old ++ flat (fields_of (each_field margin.now (field_expressions_of (map plain-FieldExpr list.now))))) }
{
    if list.is_empty() {
        return out.push("{}");
    }
    out.push("{ ")?;
    push_fields(alloc, out, margin, list)?;
    out.push(" }")
}

/// Adds a struct literal.
#[cycle(expressions)]
#[tactic(auto, using(rx_print_parts::proofs::Rules::text_rules))]
fn push_make(
    alloc: Global,
    out: &mut Text,
    margin: &Margin,
    name: &Ident,
    list: &[FieldExpr],
) -> Result<(), AllocError>
    ensures { OnOk result (out.new ≡ out.old ++ flat (make_pieces margin.now name.now (field_expressions_of (map plain-FieldExpr list.now)))) }
{
    out.push(name.name.as_str())?;
    out.push(" ")?;
    push_braces(alloc, out, margin, list)
}

/// Adds a `println!` of an expression.
#[cycle(expressions)]
fn push_print(alloc: Global, out: &mut Text, margin: &Margin, e: &Expr) -> Result<(), AllocError>
    ensures { OnOk result (out.new ≡ out.old ++ flat (print_pieces margin.now (plain-Expr e.now))) }
{
    push_between(alloc, out, margin, "println!(\"{}\", ", false, e, ")")
}

/// Adds an `if` without what follows `else`.
#[cycle(expressions)]
#[tactic(auto, using(rx_print_parts::proofs::Rules::text_rules))]
fn push_if(
    alloc: Global,
    out: &mut Text,
    margin: &Margin,
    condition: &Expr,
    body: &Block,
) -> Result<(), AllocError>
    ensures { OnOk result (out.new ≡ out.old ++ flat (if_pieces margin.now (plain-Expr condition.now) (plain-Block body.now))) }
{
    push_between(
        alloc,
        out,
        margin,
        "if ",
        unfit(DISJUNCTION, condition),
        condition,
        " ",
    )?;
    push_block(alloc, out, margin, body)
}

/// Adds an `if` with what follows `else`.
#[cycle(expressions)]
#[tactic(auto, using(rx_print_parts::proofs::Rules::text_rules))]
fn push_if_else(
    alloc: Global,
    out: &mut Text,
    margin: &Margin,
    condition: &Expr,
    body: &Block,
    e: &Expr,
) -> Result<(), AllocError>
    ensures { OnOk result (out.new ≡ out.old ++ flat (if_else_pieces margin.now (plain-Expr condition.now) (plain-Block body.now) (plain-Expr e.now))) }
{
    push_if(alloc, out, margin, condition, body)?;
    push_between(alloc, out, margin, " else ", false, e, "")
}

/// Adds a pattern, and the expression that is to fit it.
#[cycle(expressions)]
#[tactic(auto, using(rx_print_parts::proofs::Rules::text_rules))]
fn push_fitted(
    alloc: Global,
    out: &mut Text,
    margin: &Margin,
    pattern: &Pattern,
    e: &Expr,
) -> Result<(), AllocError>
    ensures { OnOk result (out.new ≡ out.old ++ flat (fitted_pieces margin.now (plain-Pattern pattern.now) (plain-Expr e.now))) }
{
    out.push("let ")?;
    push_pattern(alloc, out, pattern)?;
    push_between(alloc, out, margin, " = ", unfit(COMPARISON, e), e, "")
}

/// Adds an `if let` without what follows `else`.
#[cycle(expressions)]
#[tactic(auto, using(rx_print_parts::proofs::Rules::text_rules))]
fn push_if_let(
    alloc: Global,
    out: &mut Text,
    margin: &Margin,
    pattern: &Pattern,
    e: &Expr,
    body: &Block,
) -> Result<(), AllocError>
    ensures { OnOk result (out.new ≡ out.old ++ flat (if_let_pieces margin.now (plain-Pattern pattern.now) (plain-Expr e.now) (plain-Block body.now))) }
{
    out.push("if ")?;
    push_fitted(alloc, out, margin, pattern, e)?;
    out.push(" ")?;
    push_block(alloc, out, margin, body)
}

/// Adds an `if let` with what follows `else`.
#[cycle(expressions)]
#[tactic(auto, using(rx_print_parts::proofs::Rules::text_rules))]
fn push_if_let_else(
    alloc: Global,
    out: &mut Text,
    margin: &Margin,
    pattern: &Pattern,
    e: &Expr,
    body: &Block,
    other: &Expr,
) -> Result<(), AllocError>
    ensures { OnOk result (out.new ≡ out.old ++ flat (if_let_else_pieces margin.now (plain-Pattern pattern.now) (plain-Expr e.now) (plain-Block body.now) (plain-Expr other.now))) }
{
    push_if_let(alloc, out, margin, pattern, e, body)?;
    push_between(alloc, out, margin, " else ", false, other, "")
}

/// Adds a `loop`.
#[cycle(expressions)]
#[tactic(auto, using(rx_print_parts::proofs::Rules::text_rules))]
fn push_loop(
    alloc: Global,
    out: &mut Text,
    margin: &Margin,
    label: &Option<Ident>,
    body: &Block,
) -> Result<(), AllocError>
    ensures { OnOk result (out.new ≡ out.old ++ flat (loop_pieces margin.now label.now (plain-Block body.now))) }
{
    push_label(out, label)?;
    out.push("loop ")?;
    push_block(alloc, out, margin, body)
}

/// Adds a `while`.
#[cycle(expressions)]
#[tactic(auto, using(rx_print_parts::proofs::Rules::text_rules))]
fn push_while(
    alloc: Global,
    out: &mut Text,
    margin: &Margin,
    label: &Option<Ident>,
    condition: &Expr,
    body: &Block,
) -> Result<(), AllocError>
    ensures { OnOk result (out.new ≡ out.old ++ flat (while_pieces margin.now label.now (plain-Expr condition.now) (plain-Block body.now))) }
{
    push_label(out, label)?;
    push_between(
        alloc,
        out,
        margin,
        "while ",
        unfit(DISJUNCTION, condition),
        condition,
        " ",
    )?;
    push_block(alloc, out, margin, body)
}

/// Adds a `while let`.
#[cycle(expressions)]
#[tactic(auto, using(rx_print_parts::proofs::Rules::text_rules))]
fn push_while_let(
    alloc: Global,
    out: &mut Text,
    margin: &Margin,
    label: &Option<Ident>,
    pattern: &Pattern,
    e: &Expr,
    body: &Block,
) -> Result<(), AllocError>
    ensures { OnOk result (out.new ≡ out.old ++ flat (while_let_pieces margin.now label.now (plain-Pattern pattern.now) (plain-Expr e.now) (plain-Block body.now))) }
{
    push_label(out, label)?;
    out.push("while ")?;
    push_fitted(alloc, out, margin, pattern, e)?;
    out.push(" ")?;
    push_block(alloc, out, margin, body)
}

/// Adds an expression, whose first line stands at this margin. The `&` of a borrow may be written already, as the
/// second half of a mark `&&`.
#[cycle(expressions)]
#[tactic(auto, using(rx_tree::proofs::Rules::expression_rules, rx_print_parts::proofs::Rules::end_rules))]
pub fn push_expression(
    alloc: Global,
    out: &mut Text,
    margin: &Margin,
    second: bool,
    e: &Expr,
) -> Result<(), AllocError>
    ensures { OnOk result (out.new ≡ out.old ++ flat (pieces second margin.now (plain-Expr e.now))) }
{
    match &e.node {
        ExprNode::Int(value, suffix) => push_number(alloc, out, *value, suffix),
        ExprNode::Bool(value) => out.push(truth_text(*value)),
        ExprNode::Tuple(list) => push_tuple(alloc, out, margin, list.as_slice()),
        ExprNode::Var(name) => out.push(name.as_str()),
        ExprNode::Field(a, name) => push_member(alloc, out, margin, a.get(), name),
        ExprNode::Part(a, index) => push_part(alloc, out, margin, a.get(), *index),
        ExprNode::Deref(a) => push_unary(alloc, out, margin, "*", a.get()),
        ExprNode::Neg(a) => push_unary(alloc, out, margin, "-", a.get()),
        ExprNode::Not(a) => push_unary(alloc, out, margin, "!", a.get()),
        ExprNode::Borrow(mutable, a) => {
            if second {
                return push_borrowed(alloc, out, margin, *mutable, a.get());
            }
            let joined = joins(*mutable, a.get());
            push_pointer(alloc, out, margin, joined, *mutable, a.get())
        }
        ExprNode::Binary(op, a, b) => push_binary(alloc, out, margin, *op, a.get(), b.get()),
        ExprNode::Assign(a, b) => push_assigned(alloc, out, margin, "=", a.get(), b.get()),
        ExprNode::Update(op, a, b) => {
            push_assigned(alloc, out, margin, update_text(*op), a.get(), b.get())
        }
        ExprNode::Call(name, list) => push_call(alloc, out, margin, name, list.as_slice()),
        ExprNode::NextInput => out.push("rt::next()"),
        ExprNode::Variant(name, variant, list) => match list {
            None => push_path(out, name, variant),
            Some(list) => push_variant(alloc, out, margin, name, variant, list.as_slice()),
        },
        ExprNode::Make(name, list) => push_make(alloc, out, margin, name, list.as_slice()),
        ExprNode::Print(a) => push_print(alloc, out, margin, a.get()),
        ExprNode::Block(body) => push_block(alloc, out, margin, body.get()),
        ExprNode::If(condition, body, other) => match other {
            None => push_if(alloc, out, margin, condition.get(), body.get()),
            Some(a) => push_if_else(alloc, out, margin, condition.get(), body.get(), a.get()),
        },
        ExprNode::IfLet(pattern, a, body, other) => match other {
            None => push_if_let(alloc, out, margin, pattern, a.get(), body.get()),
            Some(b) => push_if_let_else(alloc, out, margin, pattern, a.get(), body.get(), b.get()),
        },
        ExprNode::Match(a, list) => push_match(alloc, out, margin, a.get(), list.as_slice()),
        ExprNode::Loop(label, body) => push_loop(alloc, out, margin, label, body.get()),
        ExprNode::While(label, condition, body) => push_while(
            alloc,
            out,
            margin,
            label,
            condition.get(),
            body.get(),
        ),
        ExprNode::WhileLet(label, pattern, a, body) => push_while_let(
            alloc,
            out,
            margin,
            label,
            pattern,
            a.get(),
            body.get(),
        ),
        ExprNode::Break(label) => push_jump(out, "break", label),
        ExprNode::Continue(label) => push_jump(out, "continue", label),
        ExprNode::Return(value) => match value {
            None => out.push("return"),
            Some(a) => push_between(alloc, out, margin, "return ", false, a.get(), ""),
        },
    }
}

//! Where an expression needs parentheses.

ghost use Rattle.std.specs.Prelude.{◌≡◌, nat_lt};
ghost use Rattle.rx_tree.specs.PlainOf.{plain-Expr};
ghost use Rattle.rx_print_spelling.specs.Places.{weakness, too_weak, shown, is_open, unfit, is_like, is_block, begins, goes_on};
ghost use Rattle.rx_print_spelling.specs.Expressions.{is_borrow};

use crate::strengths::{
    DISJUNCTION, JUMP, POSTFIX, Strength, UNARY, left_strength, right_strength, strength,
};
use rx_tree::{Expr, ExprNode};

/// How weakly an expression holds together.
#[tactic(auto, using(crate::proofs::Passed::weakness_rules))]
fn weakness(e: &Expr) -> Strength
    ensures { result ≡ weakness (plain-Expr e.now) }
{
    match &e.node {
        ExprNode::Deref(_) | ExprNode::Neg(_) | ExprNode::Not(_) | ExprNode::Borrow(..) => UNARY,
        ExprNode::Binary(op, _, _) => strength(*op),
        ExprNode::Assign(..) | ExprNode::Update(..) => JUMP,
        ExprNode::Break(_) | ExprNode::Continue(_) | ExprNode::Return(_) => JUMP,
        _ => POSTFIX,
    }
}

/// Whether an expression stands in parentheses at a place that takes so weak ones.
pub fn too_weak(place: Strength, e: &Expr) -> bool
    ensures { result ≡ too_weak place (plain-Expr e.now) }
{
    place < weakness(e)
}

/// Whether a struct literal stands open in an operand.
#[cycle(open)]
fn is_open_at(place: Strength, e: &Expr) -> bool
    ensures { result ≡ shown (too_weak place (plain-Expr e.now)) (is_open (plain-Expr e.now)) }
{
    if too_weak(place, e) {
        return false;
    }
    is_open(e)
}

/// Whether a struct literal stands outside parentheses and braces.
#[cycle(open)]
#[tactic(auto, using(crate::proofs::Passed::open_rules))]
fn is_open(e: &Expr) -> bool
    ensures { result ≡ is_open (plain-Expr e.now) }
{
    match &e.node {
        ExprNode::Make(..) => true,
        ExprNode::Field(base, _) => is_open_at(POSTFIX, base.get()),
        ExprNode::Part(base, _) => is_open_at(POSTFIX, base.get()),
        ExprNode::Deref(base) => is_open_at(UNARY, base.get()),
        ExprNode::Neg(base) => is_open_at(UNARY, base.get()),
        ExprNode::Not(base) => is_open_at(UNARY, base.get()),
        ExprNode::Borrow(_, base) => is_open_at(UNARY, base.get()),
        ExprNode::Binary(op, a, b) => {
            is_open_at(left_strength(*op), a.get()) || is_open_at(right_strength(*op), b.get())
        }
        _ => false,
    }
}

/// Whether what is tested stands in parentheses: a condition or what a match looks at, whose place takes a disjunction,
/// or what a pattern is to fit, whose place takes a comparison.
pub fn unfit(place: Strength, e: &Expr) -> bool
    ensures { result ≡ unfit place (plain-Expr e.now) }
{
    too_weak(place, e) || is_open(e)
}

/// Whether an expression ends in a block.
#[tactic(auto, using(crate::proofs::Passed::like_rules))]
fn is_like(e: &Expr) -> bool
    ensures { result ≡ is_like (plain-Expr e.now) }
{
    match &e.node {
        ExprNode::Block(_) | ExprNode::If(..) | ExprNode::IfLet(..) | ExprNode::Match(..) => true,
        ExprNode::Loop(..) | ExprNode::While(..) | ExprNode::WhileLet(..) => true,
        _ => false,
    }
}

/// Whether an expression is a block.
#[tactic(auto, using(crate::proofs::Passed::block_rules))]
pub fn is_block(e: &Expr) -> bool
    ensures { result ≡ is_block (plain-Expr e.now) }
{
    match &e.node {
        ExprNode::Block(_) => true,
        _ => false,
    }
}

/// Whether an expression is a borrow.
#[tactic(auto, using(crate::proofs::Passed::borrow_rules))]
pub fn is_borrow(e: &Expr) -> bool
    ensures { result ≡ is_borrow (plain-Expr e.now) }
{
    match &e.node {
        ExprNode::Borrow(..) => true,
        _ => false,
    }
}

/// Whether the first word of an operand is that of an expression that ends in a block.
#[cycle(first)]
fn begins_at(place: Strength, e: &Expr) -> bool
    ensures { result ≡ shown (too_weak place (plain-Expr e.now)) (begins (plain-Expr e.now)) }
{
    if too_weak(place, e) {
        return false;
    }
    begins(e)
}

/// Whether the first word is that of an expression that ends in a block.
#[cycle(first)]
#[tactic(auto, using(crate::proofs::Passed::begin_rules))]
fn begins(e: &Expr) -> bool
    ensures { result ≡ begins (plain-Expr e.now) }
{
    match &e.node {
        ExprNode::Block(_) | ExprNode::If(..) | ExprNode::IfLet(..) | ExprNode::Match(..) => true,
        ExprNode::Loop(..) | ExprNode::While(..) | ExprNode::WhileLet(..) => true,
        ExprNode::Field(base, _) => begins_at(POSTFIX, base.get()),
        ExprNode::Part(base, _) => begins_at(POSTFIX, base.get()),
        ExprNode::Binary(op, a, _) => begins_at(left_strength(*op), a.get()),
        ExprNode::Assign(a, _) => begins_at(DISJUNCTION, a.get()),
        ExprNode::Update(_, a, _) => begins_at(DISJUNCTION, a.get()),
        _ => false,
    }
}

/// Whether an expression stands in parentheses as a statement, the tail of a block, or the body of an arm.
pub fn goes_on(e: &Expr) -> bool
    ensures { result ≡ goes_on (plain-Expr e.now) }
{
    !is_like(e) && begins(e)
}

//! The heads and the parts of expressions: one match over their forms, for what treats every form alike.

ghost use Rattle.std.specs.Prelude.{◌≡◌, Some, None, option_map, map};
ghost use Rattle.rx_tree.specs.Plain.{absent, present};
ghost use Rattle.rx_tree.specs.PlainOf.{plain-Pattern, plain-Expr, expressions_of, optional_of, plain-FieldExpr, field_expressions_of, plain-Arm, arms_of, plain-Block};
ghost use Rattle.rx_tree_operations.specs.Parts as spec;
ghost use Rattle.rx_tree_operations.specs.PlainParts.{plain-Head, plain-Parts};

use rx_core::{Boxed, Kind, List, Name};
use rx_tree::{Arm, BinaryOp, Block, Expr, ExprNode, FieldExpr, Ident, Pattern, UpdateOp};

/// What is no tree in an expression. Forms are known by a number.
#[derive(Clone, Copy)]
pub(crate) struct Head<'t> {
    pub form: u8,
    pub number: u64,
    pub truth: bool,
    pub kind: Option<Kind>,
    pub operator: BinaryOp,
    pub update: UpdateOp,
    pub name: Option<&'t Name>,
    pub second: Option<&'t Name>,
}

/// An expression's head, and its parts: those that its form lacks are absent or empty.
#[derive(Clone, Copy)]
pub(crate) struct Parts<'t> {
    pub head: Head<'t>,
    pub pattern: Option<&'t Pattern>,
    pub first: Option<&'t Expr>,
    pub block: Option<&'t Block>,
    pub second: Option<&'t Expr>,
    pub list: &'t [Expr],
    pub fields: &'t [FieldExpr],
    pub arms: &'t [Arm],
}

fn valued<'t>(form: u8, number: u64, truth: bool, kind: Option<Kind>) -> Head<'t>
    ensures { plain-Head result ≡ spec.valued form number truth kind }
{
    Head {
        form,
        number,
        truth,
        kind,
        operator: BinaryOp::Or,
        update: UpdateOp::Add,
        name: None,
        second: None,
    }
}

fn bare<'t>(form: u8) -> Head<'t>
    ensures { plain-Head result ≡ spec.bare form }
{
    valued(form, 0, false, None)
}

fn operated<'t>(form: u8, operator: BinaryOp, update: UpdateOp) -> Head<'t>
    ensures { plain-Head result ≡ spec.operated form operator update }
{
    Head {
        form,
        number: 0,
        truth: false,
        kind: None,
        operator,
        update,
        name: None,
        second: None,
    }
}

fn named<'t>(form: u8, name: Option<&'t Name>, second: Option<&'t Name>) -> Head<'t>
    ensures { plain-Head result ≡ spec.named form (option_map (λ n. n.now) name.entry)
        (option_map (λ n. n.now) second.entry) }
{
    Head {
        form,
        number: 0,
        truth: false,
        kind: None,
        operator: BinaryOp::Or,
        update: UpdateOp::Add,
        name,
        second,
    }
}

fn labelled<'t>(form: u8, label: &'t Option<Ident>) -> Head<'t>
    ensures { plain-Head result ≡ spec.named form (spec.label_of label.now) None }
{
    match label {
        Some(label) => named(form, Some(&label.name), None),
        None => named(form, None, None),
    }
}

fn held<'t>(
    head: Head<'t>,
    pattern: Option<&'t Pattern>,
    first: Option<&'t Expr>,
    block: Option<&'t Block>,
    second: Option<&'t Expr>,
) -> Parts<'t>
    ensures { plain-Parts result ≡ spec.held (plain-Head head.entry)
        (option_map (λ q. plain-Pattern q.now) pattern.entry)
        (optional_of (option_map (λ e. plain-Expr e.now) first.entry)) (option_map (λ b. plain-Block b.now) block.entry)
        (optional_of (option_map (λ e. plain-Expr e.now) second.entry)) }
{
    Parts {
        head,
        pattern,
        first,
        block,
        second,
        list: &[],
        fields: &[],
        arms: &[],
    }
}

fn alone<'t>(head: Head<'t>) -> Parts<'t>
    ensures { plain-Parts result ≡ spec.alone (plain-Head head.entry) }
{
    held(head, None, None, None, None)
}

fn of_one<'t>(head: Head<'t>, expr: &'t Boxed<Expr>) -> Parts<'t>
    ensures { plain-Parts result ≡ spec.of_one (plain-Head head.entry) (plain-Expr expr.now) }
{
    held(head, None, Some(expr.get()), None, None)
}

fn one<'t>(form: u8, expr: &'t Boxed<Expr>) -> Parts<'t>
    ensures { plain-Parts result ≡ spec.of_one (spec.bare form) (plain-Expr expr.now) }
{
    of_one(bare(form), expr)
}

fn of_two<'t>(head: Head<'t>, left: &'t Boxed<Expr>, right: &'t Boxed<Expr>) -> Parts<'t>
    ensures { plain-Parts result ≡ spec.of_two (plain-Head head.entry) (plain-Expr left.now) (plain-Expr right.now) }
{
    held(head, None, Some(left.get()), None, Some(right.get()))
}

fn with_block<'t>(head: Head<'t>, block: &'t Boxed<Block>) -> Parts<'t>
    ensures { plain-Parts result ≡ spec.held (plain-Head head.entry) None absent (Some (plain-Block block.now)) absent }
{
    held(head, None, None, Some(block.get()), None)
}

fn tested<'t>(
    head: Head<'t>,
    pattern: Option<&'t Pattern>,
    test: &'t Boxed<Expr>,
    block: &'t Boxed<Block>,
    other: Option<&'t Expr>,
) -> Parts<'t>
    ensures { plain-Parts result ≡ spec.held (plain-Head head.entry)
        (option_map (λ q. plain-Pattern q.now) pattern.entry) (present (plain-Expr test.now))
        (Some (plain-Block block.now)) (optional_of (option_map (λ e. plain-Expr e.now) other.entry)) }
{
    held(head, pattern, Some(test.get()), Some(block.get()), other)
}

fn listed<'t>(head: Head<'t>, list: &'t List<Expr>) -> Parts<'t>
    ensures { plain-Parts result ≡ spec.listed (plain-Head head.entry) (expressions_of (map plain-Expr list.now)) }
{
    Parts {
        head,
        pattern: None,
        first: None,
        block: None,
        second: None,
        list: list.as_slice(),
        fields: &[],
        arms: &[],
    }
}

fn fielded<'t>(head: Head<'t>, fields: &'t List<FieldExpr>) -> Parts<'t>
    ensures { plain-Parts result ≡ spec.fielded (plain-Head head.entry)
        (field_expressions_of (map plain-FieldExpr fields.now)) }
{
    Parts {
        head,
        pattern: None,
        first: None,
        block: None,
        second: None,
        list: &[],
        fields: fields.as_slice(),
        arms: &[],
    }
}

fn cased<'t>(head: Head<'t>, scrutinee: &'t Boxed<Expr>, arms: &'t List<Arm>) -> Parts<'t>
    ensures { plain-Parts result ≡ spec.cased (plain-Head head.entry) (plain-Expr scrutinee.now)
        (arms_of (map plain-Arm arms.now)) }
{
    Parts {
        head,
        pattern: None,
        first: Some(scrutinee.get()),
        block: None,
        second: None,
        list: &[],
        fields: &[],
        arms: arms.as_slice(),
    }
}

/// What stands behind an optional part.
fn part<'t>(expr: &'t Option<Boxed<Expr>>) -> Option<&'t Expr>
    ensures { optional_of (option_map (λ e. plain-Expr e.now) result) ≡ optional_of (option_map plain-Expr expr.now) }
{
    match expr {
        Some(expr) => Some(expr.get()),
        None => None,
    }
}

/// The head and the parts of an expression.
#[tactic(auto, using(rx_tree::proofs::Rules::expression_rules))]
pub(crate) fn parts_of<'t>(expr: &'t Expr) -> Parts<'t>
    ensures { plain-Parts result ≡ spec.parts (plain-Expr expr.now) }
{
    match &expr.node {
        ExprNode::Int(value, kind) => alone(valued(0, *value, false, *kind)),
        ExprNode::Bool(value) => alone(valued(1, 0, *value, None)),
        ExprNode::Tuple(list) => listed(bare(2), list),
        ExprNode::Var(name) => alone(named(3, Some(name), None)),
        ExprNode::Field(e, name) => of_one(named(4, Some(&name.name), None), e),
        ExprNode::Part(e, index) => of_one(valued(5, *index, false, None), e),
        ExprNode::Deref(e) => one(6, e),
        ExprNode::Neg(e) => one(7, e),
        ExprNode::Not(e) => one(8, e),
        ExprNode::Borrow(mutable, e) => of_one(valued(9, 0, *mutable, None), e),
        ExprNode::Binary(op, l, r) => of_two(operated(10, *op, UpdateOp::Add), l, r),
        ExprNode::Assign(l, r) => of_two(bare(11), l, r),
        ExprNode::Update(op, l, r) => of_two(operated(12, BinaryOp::Or, *op), l, r),
        ExprNode::Call(name, list) => listed(named(13, Some(&name.name), None), list),
        ExprNode::NextInput => alone(bare(14)),
        ExprNode::Variant(adt, variant, list) => match list {
            None => alone(named(15, Some(&adt.name), Some(&variant.name))),
            Some(list) => listed(named(16, Some(&adt.name), Some(&variant.name)), list),
        },
        ExprNode::Make(name, fields) => fielded(named(17, Some(&name.name), None), fields),
        ExprNode::Print(e) => one(18, e),
        ExprNode::Block(b) => with_block(bare(19), b),
        ExprNode::If(e, b, other) => tested(bare(20), None, e, b, part(other)),
        ExprNode::IfLet(p, e, b, other) => tested(bare(21), Some(p), e, b, part(other)),
        ExprNode::Match(e, arms) => cased(bare(22), e, arms),
        ExprNode::Loop(label, b) => with_block(labelled(23, label), b),
        ExprNode::While(label, e, b) => tested(labelled(24, label), None, e, b, None),
        ExprNode::WhileLet(label, p, e, b) => tested(labelled(25, label), Some(p), e, b, None),
        ExprNode::Break(label) => alone(labelled(26, label)),
        ExprNode::Continue(label) => alone(labelled(27, label)),
        ExprNode::Return(e) => held(bare(28), None, part(e), None, None),
    }
}

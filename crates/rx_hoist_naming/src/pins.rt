//! What is written out where some variable is loose.

ghost use Rattle.std.specs.Prelude.{◌≡◌, ◌<◌, ◌^◌, ◌++◌, length, map, option_map, IfOk, OnOk};
ghost use Rattle.std.specs.Option.{option_copied};
ghost use Rattle.rx_tree.specs.PlainOf.{plain-Expr, plain-Stmt, optional_of};
ghost use Rattle.rx_tree.specs.Positions.{an_expression, a_statement};
ghost use Rattle.rx_tree.specs.Spans.{expression_span};
ghost use Rattle.rx_tree_operations.specs.NodeOf.{plain-Node};
ghost use Rattle.rx_typed.specs.Elaborated.{kind_in};
ghost use Rattle.rx_typed.specs.PlainTypes.{plain-Ty};
ghost use Rattle.rx_typeck_elaborate_parts.specs.Assigning.{shape_of};
ghost use Rattle.rx_exits_plan.specs.Occurrences.{has_number as has_number_of};
ghost use Rattle.rx_hoist_plan.specs.PlainPlan.{plain-Pins};
ghost use Rattle.rx_hoist_plan.specs.declared.plan.KindPin.{KindPin as KindPinOf};
ghost use Rattle.rx_hoist_plan.specs.declared.plan.TypePin.{TypePin as TypePinOf};
ghost use Rattle.rx_hoist_naming.specs.Pinning as spec;

use crate::types::bare_or_unit;
use rx_core::{Kind, List, Span, Ty};
use rx_hoist_plan::{KindPin, Pins, TypePin};
use rx_tree::{Expr, ExprNode, Stmt, StmtNode};
use rx_tree_operations::Node;
use rx_typeck_typed::TypedFn;
use std::alloc::{AllocError, Global};

#[tactic(auto, using(rx_typed::proofs::TypedRules::typ_rules))]
fn kind_of_type(ty: &Ty) -> Kind
    ensures { result ≡ kind_in (plain-Ty ty.now) }
{
    match ty {
        Ty::Int(kind) => *kind,
        Ty::Bool | Ty::Tuple(_) | Ty::Shared(_, _) | Ty::Mut(_, _) | Ty::Adt(_, _) => Kind::I32,
    }
}

fn kind_of(ty: Option<&Ty>) -> Kind
    ensures { result ≡ kind_in (shape_of (option_copied ty.entry)) }
{
    match ty {
        Some(ty) => kind_of_type(ty),
        None => Kind::I32,
    }
}

/// Where a literal without a suffix stands.
#[tactic(auto, using(rx_tree::proofs::Rules::expression_rules))]
fn open_literal(expr: &Expr) -> Option<Span>
    ensures { result ≡ spec.open_literal (an_expression (plain-Expr expr.now)) }
{
    match &expr.node {
        ExprNode::Int(_, suffix) => match suffix {
            Some(_) => None,
            None => Some(expr.span),
        },
        ExprNode::Bool(_) | ExprNode::Tuple(_) | ExprNode::Var(_) => None,
        ExprNode::Field(_, _) | ExprNode::Part(_, _) | ExprNode::Deref(_) => None,
        ExprNode::Neg(_) | ExprNode::Not(_) | ExprNode::Borrow(_, _) => None,
        ExprNode::Binary(_, _, _) | ExprNode::Assign(_, _) => None,
        ExprNode::Update(_, _, _) | ExprNode::Call(_, _) | ExprNode::NextInput => None,
        ExprNode::Variant(_, _, _) | ExprNode::Make(_, _) | ExprNode::Print(_) => None,
        ExprNode::Block(_) | ExprNode::If(_, _, _) | ExprNode::IfLet(_, _, _, _) => None,
        ExprNode::Match(_, _) | ExprNode::Loop(_, _) | ExprNode::While(_, _, _) => None,
        ExprNode::WhileLet(_, _, _, _) | ExprNode::Break(_) => None,
        ExprNode::Continue(_) | ExprNode::Return(_) => None,
    }
}

fn literal_at(node: Node<'_>) -> Option<Span>
    ensures { result ≡ spec.open_literal (plain-Node node.entry) }
{
    match node {
        Node::Expr(expr) => open_literal(expr),
        Node::Item(_) => None,
        Node::TypeText(_) => None,
        Node::Block(_) => None,
        Node::Stmt(_) => None,
        Node::Pattern(_) => None,
    }
}

/// Adds the kind of a literal that stands here, by its node's number.
fn add_kind(
    function: &TypedFn,
    number: usize,
    place: Option<Span>,
    pins: &mut Vec<KindPin>,
) -> Result<(), AllocError>
    ensures { OnOk result (map (λ (k : KindPinOf). (k.span, k.kind)) pins.new.items
        ≡ map (λ (k : KindPinOf). (k.span, k.kind)) pins.old.items ++ spec.kind_pin function.now number place) }
{
    if let Some(span) = place {
        let kind = kind_of(function.node_type(number));
        pins.push(KindPin { span, kind })?;
    }
    Ok(())
}

/// The kinds of the literals without a suffix, of the nodes of a function in the order of the text.
fn kind_pins(
    alloc: Global,
    function: &TypedFn,
    nodes: &[Node<'_>],
) -> Result<List<KindPin>, AllocError>
    ensures { IfOk result (λ all. map (λ (k : KindPinOf). (k.span, k.kind)) all ≡ spec.kind_pins function.now 0 (map plain-Node nodes.now)) }
{
    let mut pins = Vec::new(alloc);
    for number in 0..nodes.len() {
        add_kind(function, number, literal_at(nodes[number]), &mut pins)?;
    }
    Ok(List::from_vec(pins))
}

fn has_number(number: usize, numbers: &[usize]) -> bool
    ensures { result ≡ has_number_of number numbers.now }
{
    for other in numbers {
        if number == *other {
            return true;
        }
    }
    false
}

/// Whether a part of the text stands in another.
fn stands_in(part: Span, whole: Span) -> bool
    ensures { result ≡ spec.stands_in part whole }
{
    whole.start <= part.start && part.end <= whole.end
}

/// Whether a run stands in an expression.
#[tactic(auto, using(rx_typeck_elaborate_parts::proofs::Next::span_is))]
fn is_round(run: Span, expr: &Expr) -> bool
    ensures { result ≡ spec.stands_in run (expression_span (plain-Expr expr.now)) }
{
    stands_in(run, expr.span)
}

/// Whether no value tells the type of a `let`, and its initialiser is not round the run.
fn is_open(run: Span, diverging: &[usize], number: usize, init: &Option<Expr>) -> bool
    ensures { result ≡ spec.is_open run diverging.now number (optional_of (option_map plain-Expr init.now)) }
{
    match init {
        Some(init) => has_number(number, diverging) && !is_round(run, init),
        None => true,
    }
}

/// Where the pattern of a `let` stands that has no type and is open.
#[tactic(auto, using(rx_tree::proofs::Rules::statement_rules, rx_typeck_elaborate_parts::proofs::Next::pattern_span_is))]
fn open_pattern(run: Span, diverging: &[usize], number: usize, stmt: &Stmt) -> Option<Span>
    ensures { result ≡ spec.open_pattern run diverging.now number (a_statement (plain-Stmt stmt.now)) }
{
    match &stmt.node {
        StmtNode::Let(pattern, typ, init) => match typ {
            Some(_) => None,
            None => {
                if is_open(run, diverging, number, init) {
                    Some(pattern.span)
                } else {
                    None
                }
            }
        },
        StmtNode::Eval(_, _) => None,
    }
}

fn pattern_at(run: Span, diverging: &[usize], number: usize, node: Node<'_>) -> Option<Span>
    ensures { result ≡ spec.open_pattern run diverging.now number (plain-Node node.entry) }
{
    match node {
        Node::Stmt(stmt) => open_pattern(run, diverging, number, stmt),
        Node::Item(_) => None,
        Node::TypeText(_) => None,
        Node::Block(_) => None,
        Node::Expr(_) => None,
        Node::Pattern(_) => None,
    }
}

/// Adds the type of a pattern that stands here, by the number of its `let`'s node.
fn add_type(
    alloc: Global,
    function: &TypedFn,
    number: usize,
    place: Option<Span>,
    pins: &mut Vec<TypePin>,
) -> Result<(), AllocError>
    requires { number < 2 ^ 63 }
    ensures { OnOk result (map (λ (t : TypePinOf). (t.span, plain-Ty t.ty)) pins.new.items
        ≡ map (λ (t : TypePinOf). (t.span, plain-Ty t.ty)) pins.old.items ++ spec.type_pin function.now number place) }
{
    if let Some(span) = place {
        let ty = bare_or_unit(alloc, function.node_type(number + 1))?;
        pins.push(TypePin { span, ty })?;
    }
    Ok(())
}

/// The types of the patterns of open `let`s without a type, of the nodes of a function in the order of the text.
fn type_pins(
    alloc: Global,
    function: &TypedFn,
    run: Span,
    diverging: &[usize],
    nodes: &[Node<'_>],
) -> Result<List<TypePin>, AllocError>
    requires { length nodes.now < 2 ^ 63 }
    ensures { IfOk result (λ all. map (λ (t : TypePinOf). (t.span, plain-Ty t.ty)) all ≡ spec.type_pins function.now run diverging.now 0 (map plain-Node nodes.now)) }
{
    let mut pins = Vec::new(alloc);
    for number in 0..nodes.len() {
        let place = pattern_at(run, diverging, number, nodes[number]);
        add_type(alloc, function, number, place, &mut pins)?;
    }
    Ok(List::from_vec(pins))
}

/// The pins of a function, of whose nodes in the order of the text it is told.
fn pins(
    alloc: Global,
    function: &TypedFn,
    run: Span,
    diverging: &[usize],
    nodes: &[Node<'_>],
) -> Result<Pins, AllocError>
    requires { length nodes.now < 2 ^ 63 }
    ensures { IfOk result (λ it. plain-Pins it ≡ spec.pins function.now run diverging.now (map plain-Node nodes.now)) }
{
    let kinds = kind_pins(alloc, function, nodes)?;
    let types = type_pins(alloc, function, run, diverging, nodes)?;
    Ok(Pins { kinds, types })
}

/// The pins of a function where some variable is loose.
pub(crate) fn pins_if(
    alloc: Global,
    loose: &[u32],
    function: &TypedFn,
    run: Span,
    diverging: &[usize],
    nodes: &[Node<'_>],
) -> Result<Option<Pins>, AllocError>
    requires { length nodes.now < 2 ^ 63 }
    ensures { IfOk result (λ it. option_map plain-Pins it ≡ spec.pins_if loose.now function.now run diverging.now (map plain-Node nodes.now)) }
{
    match loose {
        [] => Ok(None),
        [_, ..] => Ok(Some(pins(alloc, function, run, diverging, nodes)?)),
    }
}

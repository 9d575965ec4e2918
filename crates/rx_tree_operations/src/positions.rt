//! The nodes of a program by their positions.

ghost use Rattle.std.specs.Prelude.{◌≡◌, [], ◌∷◌, map, option_map, slice_get};
ghost use Rattle.rx_tree.specs.PlainOf.{plain-TypeText, types_of, plain-Pattern, patterns_of, plain-FieldPattern, field_patterns_of, plain-Expr, expressions_of, plain-FieldExpr, field_expressions_of, plain-Arm, arms_of, plain-Block, plain-Stmt, statements_of, plain-Field, plain-EnumVariant, plain-Param, plain-Func, plain-Item, plain-Program};
ghost use Rattle.rx_tree.specs.Positions.{type_nodes, pattern_nodes, field_pattern_nodes, expression_nodes, field_nodes, arm_nodes, statement_nodes, declared_nodes, variant_nodes, parameter_nodes, type_children, pattern_children, expression_children, block_children, statement_children, function_children, item_children, children, node_at};
ghost use Rattle.rx_tree_operations.specs.NodeOf.{plain-Node};
ghost use Rattle.rx_tree_operations.specs.Parts.{part_nodes, from_first, from_block, from_second, from_list, from_fields};
ghost use Rattle.rx_tree_operations.specs.PlainParts.{plain-Parts};

use crate::parts::{Parts, parts_of};
use rx_core::Position;
use rx_tree::{
    Arm, Block, EnumVariant, Expr, Field, FieldExpr, FieldPattern, Func, Item, ItemNode, Param,
    Pattern, PatternNode, Program, Stmt, StmtNode, TypeNode, TypeText,
};

/// A node of a tree.
#[derive(Clone, Copy)]
pub enum Node<'t> {
    Item(&'t Item),
    TypeText(&'t TypeText),
    Block(&'t Block),
    Stmt(&'t Stmt),
    Expr(&'t Expr),
    Pattern(&'t Pattern),
}

/// The node at a position, where it names one. The first number is an item's, each further one that of a
/// child, counted from 0 in the order of the text.
pub fn at<'t>(program: &'t Program, position: &Position) -> Option<Node<'t>>
    ensures { option_map plain-Node result ≡ node_at (plain-Program program.now) position.now.item position.now.path }
{
    let mut node = match program.items.get(position.item as usize) {
        Some(item) => Node::Item(item),
        None => return None,
    };
    for number in position.path.as_slice() {
        node = match child(node, *number as usize) {
            Some(next) => next,
            None => return None,
        };
    }
    Some(node)
}

/// The child of that number, counted from 0 in the order of the text.
pub fn child<'t>(node: Node<'t>, number: usize) -> Option<Node<'t>>
    ensures { option_map plain-Node result ≡ slice_get (children (plain-Node node.entry)) number }
{
    match node {
        Node::Item(item) => child_of_item(item, number),
        Node::TypeText(typ) => child_of_type(typ, number),
        Node::Block(block) => child_of_block(block, number),
        Node::Stmt(stmt) => child_of_statement(stmt, number),
        Node::Expr(expr) => child_of_expression(expr, number),
        Node::Pattern(pattern) => child_of_pattern(pattern, number),
    }
}

/// An only child.
fn one<'t>(first: Node<'t>, number: usize) -> Option<Node<'t>>
    ensures { option_map plain-Node result ≡ slice_get (plain-Node first.entry ∷ []) number }
{
    if number == 0 { Some(first) } else { None }
}

/// One of two children.
fn two<'t>(first: Node<'t>, second: Node<'t>, number: usize) -> Option<Node<'t>>
    ensures { option_map plain-Node result ≡ slice_get (plain-Node first.entry ∷ plain-Node second.entry ∷ []) number }
{
    if number == 0 {
        Some(first)
    } else {
        one(second, number - 1)
    }
}

/// One of three children.
fn three<'t>(first: Node<'t>, second: Node<'t>, third: Node<'t>, number: usize) -> Option<Node<'t>>
    ensures { option_map plain-Node result
        ≡ slice_get (plain-Node first.entry ∷ plain-Node second.entry ∷ plain-Node third.entry ∷ []) number }
{
    if number == 0 {
        Some(first)
    } else {
        two(second, third, number - 1)
    }
}

fn type_in<'t>(types: &'t [TypeText], number: usize) -> Option<Node<'t>>
    ensures { option_map plain-Node result ≡ slice_get (type_nodes (types_of (map plain-TypeText types.now))) number }
{
    if number < types.len() {
        Some(Node::TypeText(&types[number]))
    } else {
        None
    }
}

#[tactic(auto, using(rx_tree::proofs::Rules::type_rules))]
fn child_of_type<'t>(typ: &'t TypeText, number: usize) -> Option<Node<'t>>
    ensures { option_map plain-Node result ≡ slice_get (type_children (plain-TypeText typ.now)) number }
{
    match &typ.node {
        TypeNode::Kind(_) => None,
        TypeNode::Bool => None,
        TypeNode::Tuple(types) => type_in(types.as_slice(), number),
        TypeNode::Ref(_, _, inner) => one(Node::TypeText(inner.get()), number),
        TypeNode::Named(_, _) => None,
    }
}

fn pattern_in<'t>(patterns: &'t [Pattern], number: usize) -> Option<Node<'t>>
    ensures { option_map plain-Node result ≡ slice_get (pattern_nodes (patterns_of (map plain-Pattern patterns.now))) number }
{
    if number < patterns.len() {
        Some(Node::Pattern(&patterns[number]))
    } else {
        None
    }
}

fn field_pattern_in<'t>(fields: &'t [FieldPattern], number: usize) -> Option<Node<'t>>
    ensures { option_map plain-Node result
        ≡ slice_get (field_pattern_nodes (field_patterns_of (map plain-FieldPattern fields.now))) number }
{
    if number < fields.len() {
        let field = &fields[number];
        Some(Node::Pattern(&field.pattern))
    } else {
        None
    }
}

#[tactic(auto, using(rx_tree::proofs::Rules::pattern_rules))]
fn child_of_pattern<'t>(pattern: &'t Pattern, number: usize) -> Option<Node<'t>>
    ensures { option_map plain-Node result ≡ slice_get (pattern_children (plain-Pattern pattern.now)) number }
{
    match &pattern.node {
        PatternNode::Wild => None,
        PatternNode::Bind(_, _) => None,
        PatternNode::Int(_, _, _) => None,
        PatternNode::Bool(_) => None,
        PatternNode::Tuple(parts) => pattern_in(parts.as_slice(), number),
        PatternNode::Variant(_, _, parts) => pattern_in(parts.as_slice(), number),
        PatternNode::Make(_, fields) => field_pattern_in(fields.as_slice(), number),
    }
}

fn expression_in<'t>(exprs: &'t [Expr], number: usize) -> Option<Node<'t>>
    ensures { option_map plain-Node result ≡ slice_get (expression_nodes (expressions_of (map plain-Expr exprs.now))) number }
{
    if number < exprs.len() {
        Some(Node::Expr(&exprs[number]))
    } else {
        None
    }
}

fn field_in<'t>(fields: &'t [FieldExpr], number: usize) -> Option<Node<'t>>
    ensures { option_map plain-Node result
        ≡ slice_get (field_nodes (field_expressions_of (map plain-FieldExpr fields.now))) number }
{
    if number < fields.len() {
        let field = &fields[number];
        Some(Node::Expr(&field.value))
    } else {
        None
    }
}

/// A part of the arms: of each its pattern, then its body.
fn arm_part<'t>(arms: &'t [Arm], number: usize) -> Option<Node<'t>>
    ensures { option_map plain-Node result ≡ slice_get (arm_nodes (arms_of (map plain-Arm arms.now))) number }
{
    let at = number / 2;
    if at < arms.len() {
        let arm = &arms[at];
        two(
            Node::Pattern(&arm.pattern),
            Node::Expr(&arm.body),
            number % 2,
        )
    } else {
        None
    }
}

fn from_fields<'t>(parts: Parts<'t>, number: usize) -> Option<Node<'t>>
    ensures { option_map plain-Node result ≡ slice_get (from_fields (plain-Parts parts.entry)) number }
{
    let fields = parts.fields;
    if number < fields.len() {
        field_in(fields, number)
    } else {
        arm_part(parts.arms, number - fields.len())
    }
}

fn from_list<'t>(parts: Parts<'t>, number: usize) -> Option<Node<'t>>
    ensures { option_map plain-Node result ≡ slice_get (from_list (plain-Parts parts.entry)) number }
{
    let list = parts.list;
    if number < list.len() {
        expression_in(list, number)
    } else {
        from_fields(parts, number - list.len())
    }
}

fn from_second<'t>(parts: Parts<'t>, number: usize) -> Option<Node<'t>>
    ensures { option_map plain-Node result ≡ slice_get (from_second (plain-Parts parts.entry)) number }
{
    match parts.second {
        Some(part) => {
            if number == 0 {
                Some(Node::Expr(part))
            } else {
                from_list(parts, number - 1)
            }
        }
        None => from_list(parts, number),
    }
}

fn from_block<'t>(parts: Parts<'t>, number: usize) -> Option<Node<'t>>
    ensures { option_map plain-Node result ≡ slice_get (from_block (plain-Parts parts.entry)) number }
{
    match parts.block {
        Some(part) => {
            if number == 0 {
                Some(Node::Block(part))
            } else {
                from_second(parts, number - 1)
            }
        }
        None => from_second(parts, number),
    }
}

fn from_first<'t>(parts: Parts<'t>, number: usize) -> Option<Node<'t>>
    ensures { option_map plain-Node result ≡ slice_get (from_first (plain-Parts parts.entry)) number }
{
    match parts.first {
        Some(part) => {
            if number == 0 {
                Some(Node::Expr(part))
            } else {
                from_block(parts, number - 1)
            }
        }
        None => from_block(parts, number),
    }
}

/// A part of an expression, in the order of the text.
fn part_in<'t>(parts: Parts<'t>, number: usize) -> Option<Node<'t>>
    ensures { option_map plain-Node result ≡ slice_get (part_nodes (plain-Parts parts.entry)) number }
{
    match parts.pattern {
        Some(part) => {
            if number == 0 {
                Some(Node::Pattern(part))
            } else {
                from_first(parts, number - 1)
            }
        }
        None => from_first(parts, number),
    }
}

fn child_of_expression<'t>(expr: &'t Expr, number: usize) -> Option<Node<'t>>
    ensures { option_map plain-Node result ≡ slice_get (expression_children (plain-Expr expr.now)) number }
{
    part_in(parts_of(expr), number)
}

fn statement_in<'t>(stmts: &'t [Stmt], number: usize) -> Option<Node<'t>>
    ensures { option_map plain-Node result ≡ slice_get (statement_nodes (statements_of (map plain-Stmt stmts.now))) number }
{
    if number < stmts.len() {
        Some(Node::Stmt(&stmts[number]))
    } else {
        None
    }
}

/// A child of a block: its statements, then its tail.
fn child_of_block<'t>(block: &'t Block, number: usize) -> Option<Node<'t>>
    ensures { option_map plain-Node result ≡ slice_get (block_children (plain-Block block.now)) number }
{
    let stmts = block.stmts.as_slice();
    if number < stmts.len() {
        return statement_in(stmts, number);
    }
    match &block.tail {
        Some(tail) => one(Node::Expr(tail.get()), number - stmts.len()),
        None => None,
    }
}

#[tactic(auto, using(rx_tree::proofs::Rules::let_rules))]
fn child_of_statement<'t>(stmt: &'t Stmt, number: usize) -> Option<Node<'t>>
    ensures { option_map plain-Node result ≡ slice_get (statement_children (plain-Stmt stmt.now)) number }
{
    match &stmt.node {
        StmtNode::Let(pattern, typ, init) => {
            let pattern = Node::Pattern(pattern);
            match typ {
                Some(typ) => match init {
                    Some(init) => three(pattern, Node::TypeText(typ), Node::Expr(init), number),
                    None => two(pattern, Node::TypeText(typ), number),
                },
                None => match init {
                    Some(init) => two(pattern, Node::Expr(init), number),
                    None => one(pattern, number),
                },
            }
        }
        StmtNode::Eval(expr, _) => one(Node::Expr(expr), number),
    }
}

fn declared_in<'t>(fields: &'t [Field], number: usize) -> Option<Node<'t>>
    ensures { option_map plain-Node result ≡ slice_get (declared_nodes (map plain-Field fields.now)) number }
{
    if number < fields.len() {
        let field = &fields[number];
        Some(Node::TypeText(&field.typ))
    } else {
        None
    }
}

fn parameter_in<'t>(params: &'t [Param], number: usize) -> Option<Node<'t>>
    ensures { option_map plain-Node result ≡ slice_get (parameter_nodes (map plain-Param params.now)) number }
{
    if number < params.len() {
        let param = &params[number];
        Some(Node::TypeText(&param.typ))
    } else {
        None
    }
}

/// A type of the variants, counted through all of them.
fn variant_part<'t>(variants: &'t [EnumVariant], number: usize) -> Option<Node<'t>>
    ensures { option_map plain-Node result ≡ slice_get (variant_nodes (map plain-EnumVariant variants.now)) number }
{
    let mut left = number;
    for variant in variants {
        let types = variant.types.as_slice();
        if left < types.len() {
            return type_in(types, left);
        }
        left -= types.len();
    }
    None
}

/// A child of a function: the types of its parameters, its result's type, its body.
fn child_of_function<'t>(func: &'t Func, number: usize) -> Option<Node<'t>>
    ensures { option_map plain-Node result ≡ slice_get (function_children (plain-Func func.now)) number }
{
    let params = func.params.as_slice();
    if number < params.len() {
        return parameter_in(params, number);
    }
    let body = Node::Block(&func.body);
    match &func.result {
        Some(typ) => two(Node::TypeText(typ), body, number - params.len()),
        None => one(body, number - params.len()),
    }
}

fn child_of_item<'t>(item: &'t Item, number: usize) -> Option<Node<'t>>
    ensures { option_map plain-Node result ≡ slice_get (item_children (plain-Item item.now)) number }
{
    match &item.node {
        ItemNode::Rt(_) => None,
        ItemNode::Struct(item) => declared_in(item.fields.as_slice(), number),
        ItemNode::Enum(item) => variant_part(item.variants.as_slice(), number),
        ItemNode::Func(func) => child_of_function(func, number),
    }
}

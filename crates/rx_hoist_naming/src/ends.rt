//! The value of a run, and whether its last statement gives none.

ghost use Rattle.std.specs.Prelude.{◌≡◌, ◌<◌, ◌^◌, option_map, IfOk};
ghost use Rattle.rx_tree.specs.PlainOf.{plain-Stmt};
ghost use Rattle.rx_tree.specs.Positions.{a_statement};
ghost use Rattle.rx_tree_operations.specs.NodeOf.{plain-Node};
ghost use Rattle.rx_typed.specs.PlainTypes.{plain-Ty};
ghost use Rattle.rx_hoist_naming.specs.NamedPlan as spec;

use crate::types::passed;
use rx_core::Ty;
use rx_tree::{Stmt, StmtNode};
use rx_tree_operations::Node;
use rx_typeck_typed::TypedFn;
use std::alloc::{AllocError, Global};

/// The type of the tail of this number, where the run has a value.
pub(crate) fn value_if(
    alloc: Global,
    has_value: bool,
    function: &TypedFn,
    number: usize,
) -> Result<Option<Ty>, AllocError>
    ensures { IfOk result (λ it. option_map plain-Ty it ≡ spec.value_if has_value function.now number) }
{
    if has_value {
        let ty = passed(alloc, function.coercion(number), function.node_type(number))?;
        Ok(Some(ty))
    } else {
        Ok(None)
    }
}

fn lacks_type(function: &TypedFn, number: usize) -> bool
    ensures { result ≡ spec.lacks_type function.now number }
{
    match function.node_type(number) {
        Some(_) => false,
        None => true,
    }
}

/// Whether a statement of this number gives no value.
#[tactic(auto, using(rx_tree::proofs::Rules::statement_rules))]
fn is_never_statement(function: &TypedFn, stmt: &Stmt, number: usize) -> bool
    requires { number < 2 ^ 63 }
    ensures { result ≡ spec.is_never function.now (Some (a_statement (plain-Stmt stmt.now))) number }
{
    match &stmt.node {
        StmtNode::Eval(_, _) => lacks_type(function, number + 1),
        StmtNode::Let(_, _, _) => false,
    }
}

/// Whether a node of this number, a statement or a block's tail, gives no value.
pub(crate) fn is_never(function: &TypedFn, node: Option<Node<'_>>, number: usize) -> bool
    requires { number < 2 ^ 63 }
    ensures { result ≡ spec.is_never function.now (option_map plain-Node node.entry) number }
{
    match node {
        Some(Node::Expr(_)) => lacks_type(function, number),
        Some(Node::Stmt(stmt)) => is_never_statement(function, stmt, number),
        Some(Node::Item(_)) => false,
        Some(Node::TypeText(_)) => false,
        Some(Node::Block(_)) => false,
        Some(Node::Pattern(_)) => false,
        None => false,
    }
}

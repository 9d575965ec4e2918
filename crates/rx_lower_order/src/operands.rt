//! What is told of operands.

ghost use Rattle.std.specs.Prelude.{◌≡◌, IfOk, map};
ghost use Rattle.rx_typed.specs.Tree as tree;
ghost use Rattle.rx_typed.specs.PlainTree.{plain-Expr, plain-Matched, plain-Operand, operands_of};
ghost use Rattle.rx_lower_walks.specs.Actions as actions;
ghost use Rattle.rx_lower_walks.specs.PlainFlow.{plain-Temporary};
ghost use Rattle.rx_lower_order.specs.PlainParts.{plain-Subject};

use crate::subject::Subject;
use rx_core::List;
use rx_lower_walks::Temporary;
use rx_typed::{Expr, Matched, Operand};
use std::alloc::{AllocError, Global};

/// The node of an expression.
#[tactic(auto, using(crate::proofs::Marks::expr_mark))]
pub fn node_of(expr: &Expr) -> usize
    ensures { result ≡ (tree.mark_of (plain-Expr expr.now)).node }
{
    expr.mark.node
}

/// The temporary of an operand.
#[tactic(auto, using(crate::proofs::Marks::expr_mark))]
pub fn temporary_of(expr: &Expr) -> Temporary
    ensures { plain-Temporary result ≡ tree.temporary_of (plain-Expr expr.now) }
{
    Temporary {
        node: expr.mark.node,
        which: 0,
    }
}

/// What the patterns of a match are matched against.
#[tactic(auto, using(rx_typed::proofs::Rules::typed_tree_rules))]
pub fn subject_of<'a>(matched: &'a Matched) -> Subject<'a>
    ensures { plain-Subject result ≡ actions.subject (plain-Matched matched.now) }
{
    match matched {
        Matched::Place(_, place) => Subject::InPlace(place),
        Matched::Value(expr) => Subject::InTemporary(temporary_of(expr.get())),
    }
}

#[tactic(auto, using(rx_typed::proofs::Rules::typed_tree_rules))]
fn operand_temporary(operand: &Operand) -> Temporary
    ensures { plain-Temporary result ≡ tree.temporary_of (plain-Operand operand.now).1 }
{
    temporary_of(&operand.value)
}

#[tactic(auto, using(rx_typed::proofs::Rules::typed_tree_rules))]
fn operand_field(operand: &Operand) -> usize
    ensures { result ≡ (plain-Operand operand.now).0 }
{
    operand.field
}

/// The temporaries of operands.
pub(crate) fn temporaries_of(
    alloc: Global,
    operands: &[Operand],
) -> Result<List<Temporary>, AllocError>
    ensures { IfOk result (λ it. map plain-Temporary it ≡ tree.temporaries_of (operands_of (map plain-Operand operands.now))) }
{
    let mut all = List::new(alloc);
    for operand in operands {
        all.push(operand_temporary(operand))?;
    }
    Ok(all)
}

/// The fields of operands.
pub(crate) fn fields_of(alloc: Global, operands: &[Operand]) -> Result<List<usize>, AllocError>
    ensures { IfOk result (λ it. it ≡ tree.fields_of (operands_of (map plain-Operand operands.now))) }
{
    let mut all = Vec::new(alloc);
    for operand in operands {
        all.push(operand_field(operand))?;
    }
    Ok(List::from_vec(all))
}

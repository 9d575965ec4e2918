//! The types that answer all demands.

ghost use Rattle.std.specs.Prelude.{IfOk, IfErr};
ghost use Rattle.rx_core.specs.declared.types.Span as span;
ghost use Rattle.rx_typeck_solver.specs.Valid.{Asked};
ghost use Rattle.rx_typeck_solver.specs.Ordered.{Orderly};
ghost use Rattle.rx_typeck_solver.specs.Stepping.{known};
ghost use Rattle.rx_typeck_solver.specs.Solving.{task_of, IsSolved, IsUnsolved, UnclearAt};

use crate::arena::Arena;
use crate::classes::flatten;
use crate::demands::take_demands;
use crate::facts::{Broken, Demand, Rule};
use crate::last::{unclear_class, unclear_literal};
use crate::tables::Tables;
use rx_core::{List, Span};
use rx_typed::Decls;
use std::alloc::Global;

/// The types of variables, nodes and expectations.
#[derive(Drop)]
pub struct Solved {
    pub(crate) arena: Arena,
    pub(crate) tables: Tables,
}

/// Why no types answer all demands.
#[derive(Clone, Copy, Debug, PartialEq, Eq)]
pub enum Unsolved {
    /// A node breaks a rule.
    Broken {
        node: usize,
        span: Span,
        broken: Broken,
    },
    /// Memory ran out.
    OutOfMemory,
}

/// The span of the first demand at a node, at which something is asked.
fn span_at(demands: &List<Demand>, node: usize) -> Span
    requires { (at : span.Span) × Asked demands.now node at }
    ensures { Asked demands.now node result }
{
    for demand in demands.as_slice() {
        if demand.node == node {
            return demand.span;
        }
    }
    unreachable!()
}

/// It isn't clear which type is meant at a node, at which something is asked.
fn unclear(demands: &List<Demand>, node: usize) -> Unsolved
    requires { (at : span.Span) × Asked demands.now node at }
    ensures { UnclearAt demands.now node result }
{
    Unsolved::Broken {
        node,
        span: span_at(demands, node),
        broken: Broken::Mismatch(Rule::Unclear),
    }
}

/// Finds the types of all that the demands tell of: those that meet all demands, by the types that a program declares
/// and the parts that its structs and enums have (one where the list is too short). `literals` are the nodes of the
/// integer literals without a suffix: their types are i32 where more than one would do.
///
/// # Errors
///
/// A node breaks a rule where some demands can be met, and not these and the rule's demands at the node; and where all
/// can be met, but not by the types of one assignment alone, it isn't clear which type is meant at the node.
pub fn solve(
    alloc: Global,
    decls: &Decls,
    sizes: &List<u64>,
    demands: &List<Demand>,
    literals: &List<usize>,
) -> Result<Solved, Unsolved>
    requires { Orderly (task_of demands.now literals.now) }
    ensures solved { IfOk result (λ solved. IsSolved (known decls.now.items sizes.now) (task_of demands.now literals.now) solved) }
    ensures unsolved { IfErr result (λ unsolved. IsUnsolved (known decls.now.items sizes.now) (task_of demands.now literals.now) unsolved) }
{
    let mut arena = Arena::new(alloc);
    let mut tables = Tables::new(alloc);
    let failed = match take_demands(alloc, &mut arena, &mut tables, &decls.items, sizes, demands) {
        Ok(failed) => failed,
        Err(_) => return Err(Unsolved::OutOfMemory),
    };
    if let Some(failure) = failed {
        return Err(Unsolved::Broken {
            node: failure.node,
            span: failure.span,
            broken: failure.broken,
        });
    }
    flatten(&mut tables.classes.parents);
    if let Some(node) = unclear_literal(&arena, &tables, literals) {
        return Err(unclear(demands, node));
    }
    let open = match unclear_class(alloc, &arena, &tables, literals) {
        Ok(open) => open,
        Err(_) => return Err(Unsolved::OutOfMemory),
    };
    match open {
        Some(node) => Err(unclear(demands, node)),
        None => Ok(Solved { arena, tables }),
    }
}

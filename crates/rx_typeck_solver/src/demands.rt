//! All demands in turn.

ghost use Rattle.std.specs.Prelude.{◌≡◌, IfOk};
ghost use Rattle.rx_typeck_solver.specs.Solver as solver;
ghost use Rattle.rx_typeck_solver.specs.Tabled.{state_of, Fits, Sized};
ghost use Rattle.rx_typeck_solver.specs.Stepping.{known};
ghost use Rattle.rx_typeck_solver.specs.Ends.{Ended};

use crate::arena::Arena;
use crate::facts::{Broken, Demand};
use crate::tables::Tables;
use crate::take::take_all;
use rx_core::{List, Span};
use rx_typed::Decl;
use std::alloc::{AllocError, Global};

/// What is broken, and where.
#[derive(Clone, Copy, Debug, PartialEq, Eq)]
pub(crate) struct Failure {
    pub(crate) node: usize,
    pub(crate) span: Span,
    pub(crate) broken: Broken,
}

/// Takes demands in turn: the first that fails, if one does.
pub(crate) fn take_demands(
    alloc: Global,
    arena: &mut Arena,
    tables: &mut Tables,
    items: &List<Decl>,
    sizes: &List<u64>,
    demands: &List<Demand>,
) -> Result<Option<Failure>, AllocError>
    requires fits { Fits arena.old.entries.items tables.old }
    requires sized { Sized sizes.now arena.old.entries.items }
    requires reads { solver.solve (known items.now sizes.now) demands.now (state_of arena.old.entries.items tables.old) ≡ solver.Lacking → ⊥ }
    ensures { IfOk result (λ failure. Ended sizes.now arena.new.entries.items tables.new (solver.solve (known items.now sizes.now) demands.now (state_of arena.old.entries.items tables.old)) failure) }
{
    for demand in demands.as_slice() {
        match take_all(alloc, arena, tables, items, sizes, &demand.facts) {
            Ok(goes) => {
                if !goes {
                    return Ok(Some(Failure {
                        node: demand.node,
                        span: demand.span,
                        broken: demand.broken,
                    }));
                }
            }
            Err(_) => return Err(AllocError),
        }
    }
    Ok(None)
}

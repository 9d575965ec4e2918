//! What facts read: the shapes of subjects, and the dereferences that are gone through at nodes.

ghost use Rattle.std.specs.Prelude.{◌≡◌, ◌<◌, [], Some, IfOk, IsSome};
ghost use Rattle.rx_typed.specs.Types as types;
ghost use Rattle.rx_typeck_solver.specs.Facts as facts_of;
ghost use Rattle.rx_typeck_solver.specs.Solver.{terms_at, passed_at};
ghost use Rattle.rx_typeck_solver.specs.Cells.{term, Formable, IsTerm};
ghost use Rattle.rx_typeck_solver.specs.Tabled.{index_of, table_of, Fits};
ghost use Rattle.rx_typeck_solver.specs.Reading as read_of;

use crate::arena::{Arena, Form};
use crate::facts::{Passing, Subject};
use crate::tables::Tables;
use rx_core::List;
use std::alloc::{AllocError, Global};

/// What is asked of a list of dereferences: whether there is none, and whether all are of mutable references.
#[derive(Clone, Copy, Debug, PartialEq, Eq)]
pub(crate) struct Passed {
    pub(crate) none: bool,
    pub(crate) mutable: bool,
}

/// The entries of subjects.
pub(crate) fn entries(
    alloc: Global,
    tables: &Tables,
    of: &List<Subject>,
) -> Result<Vec<usize>, AllocError>
    requires { IsSome (terms_at (index_of tables.now) of.now) }
    ensures { IfOk result (λ all. terms_at (index_of tables.now) of.now ≡ Some all.items) }
{
    let mut all = Vec::new(alloc);
    for of in of.as_slice() {
        match tables.shape(*of) {
            Some(entry) => match all.push(entry) {
                Ok(()) => (),
                Err(_) => return Err(AllocError),
            },
            None => unreachable!(),
        }
    }
    Ok(all)
}

fn both(a: Passed, b: Passed) -> Passed
    ensures { result ≡ read_of.both a b }
{
    Passed {
        none: a.none && b.none,
        mutable: a.mutable && b.mutable,
    }
}

fn nothing_passed() -> Passed
    ensures none { result ≡ read_of.summed [] }
{
    Passed {
        none: true,
        mutable: true,
    }
}

/// The dereferences through all references of an entry.
fn through(arena: &Arena, entry: usize) -> Passed
    requires term { IsTerm arena.now.entries.items entry }
    requires formed { Formable arena.now.entries.items }
    ensures { result ≡ read_of.summed (types.references (term arena.now.entries.items entry)) }
{
    let mut at = entry;
    let mut sum = nothing_passed();
    while let Form::Reference(mutable, to) = arena.form(at) {
        sum = both(
            sum,
            Passed {
                none: false,
                mutable,
            },
        );
        at = to;
    }
    sum
}

/// The dereferences of an entry: all, or the outermost alone.
fn gone(arena: &Arena, entry: usize, all: bool) -> Passed
    requires term { IsTerm arena.now.entries.items entry }
    requires formed { Formable arena.now.entries.items }
    ensures { result ≡ read_of.summed (facts_of.gone_through all (term arena.now.entries.items entry)) }
{
    if all {
        return through(arena, entry);
    }
    match arena.form(entry) {
        Form::Reference(mutable, _) => Passed {
            none: false,
            mutable,
        },
        _ => nothing_passed(),
    }
}

/// The dereferences at nodes.
pub(crate) fn dereferences(arena: &Arena, tables: &Tables, at: &List<Passing>) -> Passed
    requires fits { Fits arena.now.entries.items tables.now }
    requires known { IsSome (passed_at (table_of arena.now.entries.items tables.now) at.now) }
    ensures { read_of.sum_at (table_of arena.now.entries.items tables.now) at.now ≡ Some result }
{
    let mut sum = nothing_passed();
    for passing in at.as_slice() {
        match tables.shape(Subject::Node(passing.node)) {
            Some(entry) => sum = both(sum, gone(arena, entry, passing.all)),
            None => unreachable!(),
        }
    }
    sum
}

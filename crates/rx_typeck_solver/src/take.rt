//! One fact, and the facts of a demand.

ghost use Rattle.std.specs.Prelude.{◌≡◌, IfOk, IsSome};
ghost use Rattle.rx_typeck_solver.specs.Solver as solver;
ghost use Rattle.rx_typeck_solver.specs.Tabled.{table_of, state_of, Fits, Sized};
ghost use Rattle.rx_typeck_solver.specs.Stepping.{known, Stepped};

use crate::arena::Arena;
use crate::facts::{Fact, Op, Passing, Subject, Test};
use crate::made::made;
use crate::reading::{dereferences, entries};
use crate::tables::{Tables, integer, integer_behind, learn};
use crate::tests::holds;
use rx_core::List;
use rx_typed::Decl;
use std::alloc::{AllocError, Global};

/// The subject has the type that is made of the others.
fn equals(
    alloc: Global,
    arena: &mut Arena,
    tables: &mut Tables,
    items: &List<Decl>,
    sizes: &List<u64>,
    of: Subject,
    op: &Op,
    others: &List<Subject>,
    passings: &List<Passing>,
) -> Result<bool, AllocError>
    requires fits { Fits arena.old.entries.items tables.old }
    requires sized { Sized sizes.now arena.old.entries.items }
    requires others { IsSome (solver.terms_at (table_of arena.old.entries.items tables.old) others.now) }
    requires passings { IsSome (solver.passed_at (table_of arena.old.entries.items tables.old) passings.now) }
    ensures { IfOk result (λ goes. Stepped sizes.now arena.new.entries.items tables.new (solver.equals (known items.now sizes.now) op.now of (solver.terms_at (table_of arena.old.entries.items tables.old) others.now) (solver.passed_at (table_of arena.old.entries.items tables.old) passings.now) (state_of arena.old.entries.items tables.old)) goes) }
{
    let ts = match entries(alloc, tables, others) {
        Ok(ts) => ts,
        Err(_) => return Err(AllocError),
    };
    let passed = dereferences(arena, tables, passings);
    match made(alloc, arena, items, sizes, op, &ts, passed) {
        Ok(made) => match made {
            Some(entry) => learn(arena, tables, of, entry),
            None => Ok(false),
        },
        Err(_) => Err(AllocError),
    }
}

/// The types pass the test.
fn passes(
    alloc: Global,
    arena: &Arena,
    tables: &Tables,
    items: &List<Decl>,
    sizes: &List<u64>,
    test: &Test,
    of: &List<Subject>,
    pattern: &List<Passing>,
    place: &List<Passing>,
) -> Result<bool, AllocError>
    requires fits { Fits arena.now.entries.items tables.now }
    requires sized { Sized sizes.now arena.now.entries.items }
    requires of { IsSome (solver.terms_at (table_of arena.now.entries.items tables.now) of.now) }
    requires pattern { IsSome (solver.passed_at (table_of arena.now.entries.items tables.now) pattern.now) }
    requires place { IsSome (solver.passed_at (table_of arena.now.entries.items tables.now) place.now) }
    ensures { IfOk result (λ goes. Stepped sizes.now arena.now.entries.items tables.now (solver.passes (known items.now sizes.now) test.now (solver.terms_at (table_of arena.now.entries.items tables.now) of.now) (solver.passed_at (table_of arena.now.entries.items tables.now) pattern.now) (solver.passed_at (table_of arena.now.entries.items tables.now) place.now) (state_of arena.now.entries.items tables.now)) goes) }
{
    let ts = match entries(alloc, tables, of) {
        Ok(ts) => ts,
        Err(_) => return Err(AllocError),
    };
    let pattern = dereferences(arena, tables, pattern);
    let place = dereferences(arena, tables, place);
    Ok(holds(arena, items, sizes, test, &ts, pattern, place))
}

/// Takes a fact. Whether it can be met.
pub(crate) fn take(
    alloc: Global,
    arena: &mut Arena,
    tables: &mut Tables,
    items: &List<Decl>,
    sizes: &List<u64>,
    fact: &Fact,
) -> Result<bool, AllocError>
    requires fits { Fits arena.old.entries.items tables.old }
    requires sized { Sized sizes.now arena.old.entries.items }
    requires reads { solver.take (known items.now sizes.now) fact.now (state_of arena.old.entries.items tables.old) ≡ solver.Stuck → ⊥ }
    ensures { IfOk result (λ goes. Stepped sizes.now arena.new.entries.items tables.new (solver.take (known items.now sizes.now) fact.now (state_of arena.old.entries.items tables.old)) goes) }
{
    match fact {
        Fact::Equals(of, op, others, passings) => {
            equals(
                alloc, arena, tables, items, sizes, *of, op, others, passings,
            )
        }
        Fact::Integer(node, kinds) => integer(arena, tables, *node, *kinds),
        Fact::IntegerBehind(node, kinds) => Ok(integer_behind(arena, tables, *node, *kinds)),
        Fact::Passes(test, of, pattern, place) => {
            passes(alloc, arena, tables, items, sizes, test, of, pattern, place)
        }
        Fact::Never => Ok(false),
    }
}

/// Takes facts in turn. Whether all can be met.
pub(crate) fn take_all(
    alloc: Global,
    arena: &mut Arena,
    tables: &mut Tables,
    items: &List<Decl>,
    sizes: &List<u64>,
    facts: &List<Fact>,
) -> Result<bool, AllocError>
    requires fits { Fits arena.old.entries.items tables.old }
    requires sized { Sized sizes.now arena.old.entries.items }
    requires reads { solver.take_all (known items.now sizes.now) facts.now (state_of arena.old.entries.items tables.old) ≡ solver.Stuck → ⊥ }
    ensures { IfOk result (λ goes. Stepped sizes.now arena.new.entries.items tables.new (solver.take_all (known items.now sizes.now) facts.now (state_of arena.old.entries.items tables.old)) goes) }
{
    for fact in facts.as_slice() {
        match take(alloc, arena, tables, items, sizes, fact) {
            Ok(goes) => {
                if !goes {
                    return Ok(false);
                }
            }
            Err(_) => return Err(AllocError),
        }
    }
    Ok(true)
}

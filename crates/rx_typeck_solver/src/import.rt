//! Declared types in the arena.

ghost use Rattle.std.specs.Prelude.{map, IfOk};
ghost use Rattle.rx_typed.specs.Types as types;
ghost use Rattle.rx_typed.specs.PlainTypes.{plain-Ty};
ghost use Rattle.rx_typeck_solver.specs.Cells.{one, many, term, Formable};
ghost use Rattle.rx_typeck_solver.specs.Tabled.{Sized};
ghost use Rattle.rx_typeck_solver.specs.Reading.{AllTerms};
ghost use Rattle.rx_typeck_solver.specs.Growing.{Grown, GrownAll, closed, closed_all};

use crate::arena::Arena;
use rx_core::{List, Ty};
use std::alloc::{AllocError, Global};

/// The list of these entries.
pub(crate) fn listed(
    arena: &mut Arena,
    sizes: &List<u64>,
    entries: &[usize],
) -> Result<usize, AllocError>
    requires formed { Formable arena.old.entries.items }
    requires sized { Sized sizes.now arena.old.entries.items }
    requires terms { AllTerms arena.old.entries.items entries.now }
    ensures { IfOk result (λ i. Grown sizes.now arena.old.entries.items arena.new.entries.items i (many (types.shapes_of (map (term arena.old.entries.items) entries.now)))) }
{
    let mut list = match arena.nothing() {
        Ok(list) => list,
        Err(_) => return Err(AllocError),
    };
    let mut left = entries.len();
    while left > 0 {
        left -= 1;
        list = match arena.and(entries[left], list) {
            Ok(list) => list,
            Err(_) => return Err(AllocError),
        };
    }
    Ok(list)
}

/// A declared type.
#[cycle(import)]
pub(crate) fn import(
    alloc: Global,
    arena: &mut Arena,
    sizes: &List<u64>,
    ty: &Ty,
) -> Result<usize, AllocError>
    requires formed { Formable arena.old.entries.items }
    requires sized { Sized sizes.now arena.old.entries.items }
    ensures { IfOk result (λ i. Grown sizes.now arena.old.entries.items arena.new.entries.items i (one (closed (plain-Ty ty.now)))) }
{
    match ty {
        Ty::Int(kind) => arena.fixed(*kind),
        Ty::Bool => arena.boolean(),
        Ty::Tuple(parts) => {
            let parts = match import_all(alloc, arena, sizes, parts) {
                Ok(parts) => parts,
                Err(_) => return Err(AllocError),
            };
            tuple_of(arena, sizes, &parts)
        }
        Ty::Shared(_, to) => match import(alloc, arena, sizes, to.get()) {
            Ok(to) => arena.reference(false, to),
            Err(_) => Err(AllocError),
        },
        Ty::Mut(_, to) => match import(alloc, arena, sizes, to.get()) {
            Ok(to) => arena.reference(true, to),
            Err(_) => Err(AllocError),
        },
        Ty::Adt(item, _) => arena.named(sizes, *item),
    }
}

/// Declared types.
#[cycle(import)]
fn import_all(
    alloc: Global,
    arena: &mut Arena,
    sizes: &List<u64>,
    all: &List<Ty>,
) -> Result<Vec<usize>, AllocError>
    requires formed { Formable arena.old.entries.items }
    requires sized { Sized sizes.now arena.old.entries.items }
    ensures { IfOk result (λ is. GrownAll sizes.now arena.old.entries.items arena.new.entries.items is.items (closed_all all.now)) }
{
    let mut entries = Vec::new(alloc);
    for ty in all.as_slice() {
        let entry = match import(alloc, arena, sizes, ty) {
            Ok(entry) => entry,
            Err(_) => return Err(AllocError),
        };
        match entries.push(entry) {
            Ok(()) => (),
            Err(_) => return Err(AllocError),
        }
    }
    Ok(entries)
}

/// The tuple of these entries.
pub(crate) fn tuple_of(
    arena: &mut Arena,
    sizes: &List<u64>,
    entries: &[usize],
) -> Result<usize, AllocError>
    requires formed { Formable arena.old.entries.items }
    requires sized { Sized sizes.now arena.old.entries.items }
    requires terms { AllTerms arena.old.entries.items entries.now }
    ensures { IfOk result (λ i. Grown sizes.now arena.old.entries.items arena.new.entries.items i (one (types.tuple_of (types.shapes_of (map (term arena.old.entries.items) entries.now))))) }
{
    match listed(arena, sizes, entries) {
        Ok(list) => arena.tuple(list),
        Err(_) => Err(AllocError),
    }
}

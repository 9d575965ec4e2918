//! Types made of others.

ghost use Rattle.std.specs.Prelude.{◌≡◌, ◌<◌, map, ℕ, List as ListOf, Bool, Some, IfOk, option_map, length, slice_get};
ghost use Rattle.std.specs.Option.{option_copied};
ghost use Rattle.rx_typed.specs.Types as types;
ghost use Rattle.rx_typed.specs.PlainTypes.{plain-Ty, declarations};
ghost use Rattle.rx_typeck_solver.specs.Facts as facts_of;
ghost use Rattle.rx_typeck_solver.specs.Solver.{Fixed};
ghost use Rattle.rx_typeck_solver.specs.Cells.{cell, term, term_in, shapes_in, Formable, IsTerm, IsList};
ghost use Rattle.rx_typeck_solver.specs.Tabled.{Sized};
ghost use Rattle.rx_typeck_solver.specs.Reading.{AllTerms, summed};
ghost use Rattle.rx_typeck_solver.specs.Growing.{MadeAs, MadeIs, only_one, named_in, coerce_form, found_of};

use crate::arena::{Arena, Form};
use crate::facts::Op;
use crate::import::{import, tuple_of};
use crate::lookup::{field_named, fields_of, parameters_of, parts_of, result_of, ty_at};
use crate::reading::Passed;
use crate::tables::peeled;
use rx_core::{List, Name, Ty};
use rx_typed::Decl;
use std::alloc::{AllocError, Global};

/// The only entry of a list.
pub(crate) fn only_one(entries: &[usize]) -> Option<usize>
    ensures { result ≡ only_one entries.now }
{
    if entries.len() == 1 {
        Some(entries[0])
    } else {
        None
    }
}

/// A declared type, if there is one.
fn declared(
    alloc: Global,
    arena: &mut Arena,
    sizes: &List<u64>,
    ty: Option<&Ty>,
) -> Result<Option<usize>, AllocError>
    requires formed { Formable arena.old.entries.items }
    requires sized { Sized sizes.now arena.old.entries.items }
    ensures { IfOk result (λ o. MadeAs sizes.now arena.old.entries.items arena.new.entries.items o (facts_of.fixed Fixed (option_map plain-Ty (option_copied ty.entry)))) }
{
    match ty {
        None => Ok(None),
        Some(ty) => match import(alloc, arena, sizes, ty) {
            Ok(entry) => Ok(Some(entry)),
            Err(_) => Err(AllocError),
        },
    }
}

/// What a reference leads to.
fn pointee(arena: &Arena, of: usize) -> Option<usize>
    requires formed { Formable arena.now.entries.items }
    requires term { IsTerm arena.now.entries.items of }
    ensures { MadeIs arena.now.entries.items result (facts_of.pointee (term arena.now.entries.items of)) }
{
    match arena.form(of) {
        Form::Reference(_, to) => Some(to),
        _ => None,
    }
}

/// The number of a struct or enum that may stand behind references.
fn item_behind(arena: &Arena, of: usize) -> Option<u32>
    requires formed { Formable arena.now.entries.items }
    requires term { IsTerm arena.now.entries.items of }
    ensures { result ≡ named_in (types.peeled (term arena.now.entries.items of)) }
{
    match arena.form(peeled(arena, of)) {
        Form::Named(item) => Some(item),
        _ => None,
    }
}

/// The place of a list's entry by its number from 0, of the lists of the arena.
fn nth(arena: &Arena, list: usize, number: u64) -> Option<usize>
    requires formed { Formable arena.now.entries.items }
    requires list { IsList arena.now.entries.items list }
    ensures { MadeIs arena.now.entries.items result (slice_get (types.shapes_listed (shapes_in (cell arena.now.entries.items list))) number) }
{
    let mut at = list;
    let mut left = number;
    while let Form::And(first, others) = arena.form(at) {
        if left == 0 {
            return Some(first);
        }
        left -= 1;
        at = others;
    }
    None
}

/// A part of a tuple that may stand behind references.
pub(crate) fn part_behind(arena: &Arena, of: usize, number: u64) -> Option<usize>
    requires formed { Formable arena.now.entries.items }
    requires term { IsTerm arena.now.entries.items of }
    ensures { MadeIs arena.now.entries.items result (facts_of.part_of number (types.peeled (term arena.now.entries.items of))) }
{
    match arena.form(peeled(arena, of)) {
        Form::Tuple(list) => nth(arena, list, number),
        _ => None,
    }
}

/// A field of a struct that may stand behind references.
fn field_behind<'d>(arena: &Arena, items: &'d List<Decl>, of: usize, name: &Name) -> Option<&'d Ty>
    requires formed { Formable arena.now.entries.items }
    requires term { IsTerm arena.now.entries.items of }
    ensures { facts_of.fixed Fixed (option_map plain-Ty (option_copied result)) ≡ facts_of.field_of Fixed (declarations items.now) name.now (types.peeled (term arena.now.entries.items of)) }
{
    match item_behind(arena, of) {
        Some(item) => field_named(fields_of(items, item), name),
        None => None,
    }
}

/// What a coercion leads to, where there is one.
fn coercion(own: Form, expected: Form) -> Option<usize>
    ensures { result ≡ coerce_form own expected }
{
    match own {
        Form::Reference(mutable, _) => match expected {
            Form::Reference(still, to) => { if mutable && !still { Some(to) } else { None } }
            _ => None,
        },
        _ => None,
    }
}

/// The own type that a coercion asks of a value at a place.
fn coerced(
    arena: &mut Arena,
    sizes: &List<u64>,
    own: usize,
    expected: usize,
) -> Result<Option<usize>, AllocError>
    requires formed { Formable arena.old.entries.items }
    requires sized { Sized sizes.now arena.old.entries.items }
    requires own { IsTerm arena.old.entries.items own }
    requires expected { IsTerm arena.old.entries.items expected }
    ensures { IfOk result (λ o. MadeAs sizes.now arena.old.entries.items arena.new.entries.items o (Some (facts_of.coerced (term arena.old.entries.items own) (term arena.old.entries.items expected)))) }
{
    match coercion(arena.form(own), arena.form(expected)) {
        Some(to) => match arena.reference(true, to) {
            Ok(entry) => Ok(Some(entry)),
            Err(_) => Err(AllocError),
        },
        None => Ok(Some(expected)),
    }
}

/// A reference to the only one, if it is the only one.
fn referring(
    arena: &mut Arena,
    sizes: &List<u64>,
    mutable: bool,
    ts: &[usize],
) -> Result<Option<usize>, AllocError>
    requires formed { Formable arena.old.entries.items }
    requires sized { Sized sizes.now arena.old.entries.items }
    requires terms { AllTerms arena.old.entries.items ts.now }
    ensures { IfOk result (λ o. MadeAs sizes.now arena.old.entries.items arena.new.entries.items o (facts_of.of_one (λ t. Some (types.reference mutable t)) (map (term arena.old.entries.items) ts.now))) }
{
    match only_one(ts) {
        Some(to) => match arena.reference(mutable, to) {
            Ok(entry) => Ok(Some(entry)),
            Err(_) => Err(AllocError),
        },
        None => Ok(None),
    }
}

/// The type of a binding: behind a reference where references were gone through.
fn bound(
    arena: &mut Arena,
    sizes: &List<u64>,
    passed: Passed,
    ts: &[usize],
) -> Result<Option<usize>, AllocError>
    requires formed { Formable arena.old.entries.items }
    requires sized { Sized sizes.now arena.old.entries.items }
    requires terms { AllTerms arena.old.entries.items ts.now }
    ensures { IfOk result (λ o. (ms : ListOf Bool) → passed ≡ summed ms → MadeAs sizes.now arena.old.entries.items arena.new.entries.items o (facts_of.of_one (λ t. Some (facts_of.bound ms t)) (map (term arena.old.entries.items) ts.now))) }
{
    if passed.none {
        Ok(only_one(ts))
    } else {
        referring(arena, sizes, passed.mutable, ts)
    }
}

/// What the only one leads to.
fn pointed(arena: &Arena, ts: &[usize]) -> Option<usize>
    requires formed { Formable arena.now.entries.items }
    requires terms { AllTerms arena.now.entries.items ts.now }
    ensures { MadeIs arena.now.entries.items result (facts_of.of_one facts_of.pointee (map (term arena.now.entries.items) ts.now)) }
{
    match only_one(ts) {
        Some(of) => pointee(arena, of),
        None => None,
    }
}

/// A part of the only one.
fn part(arena: &Arena, number: u64, ts: &[usize]) -> Option<usize>
    requires formed { Formable arena.now.entries.items }
    requires terms { AllTerms arena.now.entries.items ts.now }
    ensures { MadeIs arena.now.entries.items result (facts_of.of_one (λ t. facts_of.part_of number (types.peeled t)) (map (term arena.now.entries.items) ts.now)) }
{
    match only_one(ts) {
        Some(of) => part_behind(arena, of, number),
        None => None,
    }
}

/// A field of the only one.
fn field<'d>(arena: &Arena, items: &'d List<Decl>, name: &Name, ts: &[usize]) -> Option<&'d Ty>
    requires formed { Formable arena.now.entries.items }
    requires terms { AllTerms arena.now.entries.items ts.now }
    ensures { facts_of.fixed Fixed (option_map plain-Ty (option_copied result)) ≡ facts_of.of_one (λ t. facts_of.field_of Fixed (declarations items.now) name.now (types.peeled t)) (map (term arena.now.entries.items) ts.now) }
{
    match only_one(ts) {
        Some(of) => field_behind(arena, items, of, name),
        None => None,
    }
}

/// The own type that a coercion asks, of a value's and that of its place.
fn coerced_pair(
    arena: &mut Arena,
    sizes: &List<u64>,
    ts: &[usize],
) -> Result<Option<usize>, AllocError>
    requires formed { Formable arena.old.entries.items }
    requires sized { Sized sizes.now arena.old.entries.items }
    requires terms { AllTerms arena.old.entries.items ts.now }
    ensures { IfOk result (λ o. MadeAs sizes.now arena.old.entries.items arena.new.entries.items o (facts_of.of_two (λ t u. Some (facts_of.coerced t u)) (map (term arena.old.entries.items) ts.now))) }
{
    if ts.len() == 2 {
        coerced(arena, sizes, ts[0], ts[1])
    } else {
        Ok(None)
    }
}

/// The entry that was made.
fn found(entry: Result<usize, AllocError>) -> Result<Option<usize>, AllocError>
    ensures { result ≡ found_of entry }
{
    match entry {
        Ok(entry) => Ok(Some(entry)),
        Err(_) => Err(AllocError),
    }
}

/// The type that is made of others, and of dereferences, if there is one.
pub(crate) fn made(
    alloc: Global,
    arena: &mut Arena,
    items: &List<Decl>,
    sizes: &List<u64>,
    op: &Op,
    ts: &[usize],
    passed: Passed,
) -> Result<Option<usize>, AllocError>
    requires formed { Formable arena.old.entries.items }
    requires sized { Sized sizes.now arena.old.entries.items }
    requires terms { AllTerms arena.old.entries.items ts.now }
    ensures { IfOk result (λ o. (ms : ListOf Bool) → passed ≡ summed ms → MadeAs sizes.now arena.old.entries.items arena.new.entries.items o (facts_of.made Fixed (declarations items.now) op.now (map (term arena.old.entries.items) ts.now) ms)) }
{
    match op {
        Op::Same => Ok(only_one(ts)),
        Op::Pointee => Ok(pointed(arena, ts)),
        Op::Referring(mutable) => referring(arena, sizes, *mutable, ts),
        Op::Tuple => found(tuple_of(arena, sizes, ts)),
        Op::Field(name) => declared(alloc, arena, sizes, field(arena, items, name, ts)),
        Op::Part(number) => Ok(part(arena, *number, ts)),
        Op::Integer(kind) => found(arena.fixed(*kind)),
        Op::Truth => found(arena.boolean()),
        Op::Unit => found(tuple_of(arena, sizes, &[])),
        Op::Item(item) => found(arena.named(sizes, *item)),
        Op::Parameter(item, number) => declared(
            alloc,
            arena,
            sizes,
            ty_at(parameters_of(items, *item), *number),
        ),
        Op::Result(item) => declared(alloc, arena, sizes, result_of(items, *item)),
        Op::FieldOf(item, name) => declared(
            alloc,
            arena,
            sizes,
            field_named(fields_of(items, *item), name),
        ),
        Op::PartOf(item, variant, number) => {
            declared(
                alloc,
                arena,
                sizes,
                ty_at(parts_of(items, *item, *variant), *number),
            )
        }
        Op::Bound => bound(arena, sizes, passed, ts),
        Op::Coerced => coerced_pair(arena, sizes, ts),
    }
}

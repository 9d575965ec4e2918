//! Tests of types whose integer types aren't known.

ghost use Rattle.std.specs.Prelude.{◌≡◌, ◌<◌, ◌&&◌, map, IfSome, length, nat_eq, nat_le, slice_get};
ghost use Rattle.rx_typed.specs.Types as types;
ghost use Rattle.rx_typed.specs.PlainTypes.{declarations};
ghost use Rattle.rx_typeck_solver.specs.Facts as facts_of;
ghost use Rattle.rx_typeck_solver.specs.Cells.{cell, term, shapes_in, Formed, Formable, IsTerm, IsList, parts_at, levels_at};
ghost use Rattle.rx_typeck_solver.specs.Reading.{AllTerms};
ghost use Rattle.rx_typeck_solver.specs.Growing as growing;
ghost use Rattle.rx_typeck_solver.specs.Looks as looks;

use crate::arena::{Arena, Form};
use crate::lookup::derives_copy;
use crate::made::only_one;
use crate::tables::peeled;
use rx_core::List;
use rx_typed::Decl;

/// The only entry of a list of shapes.
pub(crate) fn only_term(arena: &Arena, ts: &[usize]) -> Option<usize>
    requires terms { AllTerms arena.now.entries.items ts.now }
    ensures value { result ≡ growing.only_one ts.now }
    ensures term { IfSome result (λ t. IsTerm arena.now.entries.items t) }
{
    only_one(ts)
}

fn plain_form(form: Form) -> bool
    ensures { result ≡ looks.plain_form form }
{
    match form {
        Form::Fixed(_) | Form::KindOf(_) | Form::Boolean => true,
        _ => false,
    }
}

fn integer_form(form: Form) -> bool
    ensures { result ≡ looks.integer_form form }
{
    match form {
        Form::Fixed(_) | Form::KindOf(_) => true,
        _ => false,
    }
}

fn truth_form(form: Form) -> bool
    ensures { result ≡ looks.truth_form form }
{
    match form {
        Form::Boolean => true,
        _ => false,
    }
}

fn item_form(item: u32, form: Form) -> bool
    ensures { result ≡ looks.item_form item form }
{
    match form {
        Form::Named(other) => item == other,
        _ => false,
    }
}

fn mutable_form(form: Form) -> bool
    ensures { result ≡ looks.mutable_form form }
{
    match form {
        Form::Reference(mutable, _) => mutable,
        _ => false,
    }
}

/// An integer or a truth value.
pub(crate) fn is_plain(arena: &Arena, of: usize) -> bool
    requires formed { Formable arena.now.entries.items }
    requires term { IsTerm arena.now.entries.items of }
    ensures { result ≡ facts_of.is_plain (types.outline (term arena.now.entries.items of)) }
{
    plain_form(arena.form(of))
}

/// A mutable reference.
pub(crate) fn is_mutable(arena: &Arena, of: usize) -> bool
    requires formed { Formable arena.now.entries.items }
    requires term { IsTerm arena.now.entries.items of }
    ensures { result ≡ facts_of.is_mutable_reference (types.outline (term arena.now.entries.items of)) }
{
    mutable_form(arena.form(of))
}

/// What is reborrowed mutably.
pub(crate) fn is_lent(arena: &Arena, of: usize, expected: usize) -> bool
    requires formed { Formable arena.now.entries.items }
    requires term { IsTerm arena.now.entries.items of }
    requires expected { IsTerm arena.now.entries.items expected }
    ensures { result ≡ facts_of.is_lent (types.outline (term arena.now.entries.items of)) (types.outline (term arena.now.entries.items expected)) }
{
    is_mutable(arena, of) && is_mutable(arena, expected)
}

/// An integer, behind references if any.
pub(crate) fn integer_behind(arena: &Arena, of: usize) -> bool
    requires formed { Formable arena.now.entries.items }
    requires term { IsTerm arena.now.entries.items of }
    ensures { result ≡ facts_of.is_integer (types.peeled (types.outline (term arena.now.entries.items of))) }
{
    integer_form(arena.form(peeled(arena, of)))
}

/// A truth value, behind references if any.
pub(crate) fn truth_behind(arena: &Arena, of: usize) -> bool
    requires formed { Formable arena.now.entries.items }
    requires term { IsTerm arena.now.entries.items of }
    ensures { result ≡ facts_of.is_truth (types.peeled (types.outline (term arena.now.entries.items of))) }
{
    truth_form(arena.form(peeled(arena, of)))
}

/// This struct or enum, behind references if any.
pub(crate) fn item_is_behind(arena: &Arena, item: u32, of: usize) -> bool
    requires formed { Formable arena.now.entries.items }
    requires term { IsTerm arena.now.entries.items of }
    ensures { result ≡ facts_of.is_item item (types.peeled (types.outline (term arena.now.entries.items of))) }
{
    item_form(item, arena.form(peeled(arena, of)))
}

/// Whether a list of the arena has so many shapes.
fn is_as_long(arena: &Arena, list: usize, count: usize) -> bool
    requires formed { Formable arena.now.entries.items }
    requires list { IsList arena.now.entries.items list }
    ensures { result ≡ nat_eq (length (types.shapes_listed (shapes_in (cell arena.now.entries.items list)))) count }
{
    let mut at = list;
    let mut left = count;
    while let Form::And(_, others) = arena.form(at) {
        if left == 0 {
            return false;
        }
        left -= 1;
        at = others;
    }
    left == 0
}

/// A tuple of so many parts, behind references if any.
pub(crate) fn tuple_behind(arena: &Arena, count: usize, of: usize) -> bool
    requires formed { Formable arena.now.entries.items }
    requires term { IsTerm arena.now.entries.items of }
    ensures { result ≡ facts_of.is_tuple count (types.peeled (types.outline (term arena.now.entries.items of))) }
{
    match arena.form(peeled(arena, of)) {
        Form::Tuple(list) => is_as_long(arena, list, count),
        _ => false,
    }
}

/// Whether an entry is Copy, or each of a list.
#[cycle(copies)]
fn copies(arena: &Arena, items: &List<Decl>, at: usize) -> bool
    requires formed { Formable arena.now.entries.items }
    requires within { at < length arena.now.entries.items }
    ensures { result ≡ looks.copies_cell (declarations items.now) (cell arena.now.entries.items at) }
{
    match arena.form(at) {
        Form::Fixed(_) => true,
        Form::KindOf(_) => true,
        Form::Boolean => true,
        Form::Nothing => true,
        Form::Tuple(list) => copies(arena, items, list),
        Form::Reference(mutable, _) => !mutable,
        Form::Named(item) => derives_copy(items, item),
        Form::And(first, others) => copies(arena, items, first) && copies(arena, items, others),
    }
}

/// A type that is Copy.
pub(crate) fn is_copy(arena: &Arena, items: &List<Decl>, of: usize) -> bool
    requires formed { Formable arena.now.entries.items }
    requires term { IsTerm arena.now.entries.items of }
    ensures { result ≡ types.copies (declarations items.now) (types.outline (term arena.now.entries.items of)) }
{
    copies(arena, items, of)
}

/// Whether a type keeps the limits on parts and levels.
pub(crate) fn in_limits(arena: &Arena, of: usize) -> bool
    requires within { of < length arena.now.entries.items }
    ensures { result ≡ nat_le (parts_at arena.now.entries.items of) 4096 && nat_le (levels_at arena.now.entries.items of) 128 }
{
    arena.parts(of) <= 4096 && arena.levels(of) <= 128
}

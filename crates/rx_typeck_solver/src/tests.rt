//! Whether types pass a test.

ghost use Rattle.std.specs.Prelude.{◌≡◌, ◌&&◌, ◌||◌, not, map, ℕ, List as ListOf, Bool, length, nat_eq, slice_get};
ghost use Rattle.rx_typed.specs.Types as types;
ghost use Rattle.rx_typed.specs.PlainTypes.{declarations, plain-FieldDecl, plain-Ty};
ghost use Rattle.rx_typeck_solver.specs.Facts as facts_of;
ghost use Rattle.rx_typeck_solver.specs.Cells.{term, Formable, IsTerm, sizes_of};
ghost use Rattle.rx_typeck_solver.specs.Tabled.{Sized};
ghost use Rattle.rx_typeck_solver.specs.Reading.{AllTerms, summed};

use crate::arena::Arena;
use crate::facts::Test;
use crate::looks::{
    in_limits, integer_behind, is_copy, is_lent, is_mutable, is_plain, item_is_behind, only_term,
    truth_behind, tuple_behind,
};
use crate::lookup::{fields_of, lifetimes_of, parameters_of, parts_of, result_of};
use crate::reading::Passed;
use rx_core::{List, Name, Ty};
use rx_typed::{Decl, FieldDecl};

/// An integer or a truth value.
fn plain(arena: &Arena, ts: &[usize]) -> bool
    requires formed { Formable arena.now.entries.items }
    requires terms { AllTerms arena.now.entries.items ts.now }
    ensures { result ≡ facts_of.test_one (facts_of.is_plain) (map types.outline (map (term arena.now.entries.items) ts.now)) }
{
    match only_term(arena, ts) {
        Some(of) => is_plain(arena, of),
        None => false,
    }
}

/// An integer, behind references if any.
fn integer(arena: &Arena, ts: &[usize]) -> bool
    requires formed { Formable arena.now.entries.items }
    requires terms { AllTerms arena.now.entries.items ts.now }
    ensures { result ≡ facts_of.test_one (λ t. facts_of.is_integer (types.peeled t)) (map types.outline (map (term arena.now.entries.items) ts.now)) }
{
    match only_term(arena, ts) {
        Some(of) => integer_behind(arena, of),
        None => false,
    }
}

/// A truth value, behind references if any.
fn truth(arena: &Arena, ts: &[usize]) -> bool
    requires formed { Formable arena.now.entries.items }
    requires terms { AllTerms arena.now.entries.items ts.now }
    ensures { result ≡ facts_of.test_one (λ t. facts_of.is_truth (types.peeled t)) (map types.outline (map (term arena.now.entries.items) ts.now)) }
{
    match only_term(arena, ts) {
        Some(of) => truth_behind(arena, of),
        None => false,
    }
}

/// A tuple of so many parts, behind references if any.
fn tuple(arena: &Arena, count: usize, ts: &[usize]) -> bool
    requires formed { Formable arena.now.entries.items }
    requires terms { AllTerms arena.now.entries.items ts.now }
    ensures { result ≡ facts_of.test_one (λ t. facts_of.is_tuple count (types.peeled t)) (map types.outline (map (term arena.now.entries.items) ts.now)) }
{
    match only_term(arena, ts) {
        Some(of) => tuple_behind(arena, count, of),
        None => false,
    }
}

/// This struct or enum, behind references if any.
fn item(arena: &Arena, item: u32, ts: &[usize]) -> bool
    requires formed { Formable arena.now.entries.items }
    requires terms { AllTerms arena.now.entries.items ts.now }
    ensures { result ≡ facts_of.test_one (λ t. facts_of.is_item item (types.peeled t)) (map types.outline (map (term arena.now.entries.items) ts.now)) }
{
    match only_term(arena, ts) {
        Some(of) => item_is_behind(arena, item, of),
        None => false,
    }
}

/// A place may be moved or copied; `none` where it stands behind no reference.
fn kept(arena: &Arena, items: &List<Decl>, none: bool, ts: &[usize]) -> bool
    requires formed { Formable arena.now.entries.items }
    requires terms { AllTerms arena.now.entries.items ts.now }
    ensures { result ≡ facts_of.test_one (λ t. types.copies (declarations items.now) t || none) (map types.outline (map (term arena.now.entries.items) ts.now)) }
{
    match only_term(arena, ts) {
        Some(of) => is_copy(arena, items, of) || none,
        None => false,
    }
}

/// The same where a mutable reference is reborrowed.
fn kept_or_lent(arena: &Arena, items: &List<Decl>, none: bool, ts: &[usize]) -> bool
    requires formed { Formable arena.now.entries.items }
    requires terms { AllTerms arena.now.entries.items ts.now }
    ensures { result ≡ facts_of.test_one (λ t. types.copies (declarations items.now) t || facts_of.is_mutable_reference t || none) (map types.outline (map (term arena.now.entries.items) ts.now)) }
{
    match only_term(arena, ts) {
        Some(of) => is_copy(arena, items, of) || is_mutable(arena, of) || none,
        None => false,
    }
}

/// A mutable reference, or else.
fn mutable_or(arena: &Arena, otherwise: bool, ts: &[usize]) -> bool
    requires formed { Formable arena.now.entries.items }
    requires terms { AllTerms arena.now.entries.items ts.now }
    ensures { result ≡ facts_of.test_one (λ t. facts_of.is_mutable_reference t || otherwise) (map types.outline (map (term arena.now.entries.items) ts.now)) }
{
    match only_term(arena, ts) {
        Some(of) => is_mutable(arena, of) || otherwise,
        None => false,
    }
}

/// A place that is reborrowed mutably stands behind no shared reference.
fn lendable(arena: &Arena, mutable: bool, ts: &[usize]) -> bool
    requires formed { Formable arena.now.entries.items }
    requires terms { AllTerms arena.now.entries.items ts.now }
    ensures { result ≡ facts_of.test_two (λ t u. not (facts_of.is_lent t u) || mutable) (map types.outline (map (term arena.now.entries.items) ts.now)) }
{
    if ts.len() == 2 {
        !is_lent(arena, ts[0], ts[1]) || mutable
    } else {
        false
    }
}

/// Whether a binding by value moves nothing from behind a reference.
fn binding_kept(
    arena: &Arena,
    items: &List<Decl>,
    of: usize,
    pattern: Passed,
    place: Passed,
) -> bool
    requires formed { Formable arena.now.entries.items }
    requires term { IsTerm arena.now.entries.items of }
    ensures { (ms qs : ListOf Bool) → pattern ≡ summed ms → place ≡ summed qs → result ≡ facts_of.binding_kept (declarations items.now) (types.outline (term arena.now.entries.items of)) ms qs }
{
    !pattern.none || is_copy(arena, items, of) || place.none
}

/// Whether a binding that is a mutable reference stands behind no shared reference.
fn binding_writable(pattern: Passed, place: Passed) -> bool
    ensures { (ms qs : ListOf Bool) → pattern ≡ summed ms → place ≡ summed qs → result ≡ facts_of.binding_writable ms qs }
{
    pattern.none || !pattern.mutable || place.mutable
}

/// The first of these, where there is only one.
fn kept_binding(
    arena: &Arena,
    items: &List<Decl>,
    pattern: Passed,
    place: Passed,
    ts: &[usize],
) -> bool
    requires formed { Formable arena.now.entries.items }
    requires terms { AllTerms arena.now.entries.items ts.now }
    ensures { (ms qs : ListOf Bool) → pattern ≡ summed ms → place ≡ summed qs → result ≡ facts_of.test_one (λ t. facts_of.binding_kept (declarations items.now) t ms qs) (map types.outline (map (term arena.now.entries.items) ts.now)) }
{
    match only_term(arena, ts) {
        Some(of) => binding_kept(arena, items, of, pattern, place),
        None => false,
    }
}

/// The same, with the type that the place that is matched expects, where a mutable reference is reborrowed.
fn kept_or_lent_binding(
    arena: &Arena,
    items: &List<Decl>,
    pattern: Passed,
    place: Passed,
    ts: &[usize],
) -> bool
    requires formed { Formable arena.now.entries.items }
    requires terms { AllTerms arena.now.entries.items ts.now }
    ensures { (ms qs : ListOf Bool) → pattern ≡ summed ms → place ≡ summed qs → result ≡ facts_of.test_two (λ t e. facts_of.is_mutable_reference e || facts_of.binding_kept (declarations items.now) t ms qs) (map types.outline (map (term arena.now.entries.items) ts.now)) }
{
    if ts.len() == 2 {
        is_mutable(arena, ts[1]) || binding_kept(arena, items, ts[0], pattern, place)
    } else {
        false
    }
}

/// The limits on parts and levels.
fn limits(arena: &Arena, sizes: &List<u64>, ts: &[usize]) -> bool
    requires sized { Sized sizes.now arena.now.entries.items }
    requires terms { AllTerms arena.now.entries.items ts.now }
    ensures { result ≡ facts_of.test_one (types.keeps_limits (sizes_of sizes.now)) (map types.outline (map (term arena.now.entries.items) ts.now)) }
{
    match only_term(arena, ts) {
        Some(of) => in_limits(arena, of),
        None => false,
    }
}

/// Whether a tuple of these parts is the unit.
fn is_nothing(parts: &[Ty]) -> bool
    ensures { result ≡ facts_of.is_unit_typ (types.tuple_of (types.shapes_of (map plain-Ty parts.now))) }
{
    parts.len() == 0
}

/// Whether a type is the unit.
#[tactic(auto, using(rx_typed::proofs::TypedRules::typ_rules))]
fn is_unit(ty: &Ty) -> bool
    ensures { result ≡ facts_of.is_unit_typ (plain-Ty ty.now) }
{
    match ty {
        Ty::Int(_) | Ty::Bool => false,
        Ty::Tuple(parts) => is_nothing(parts.as_slice()),
        Ty::Shared(_, _) => false,
        Ty::Mut(_, _) => false,
        Ty::Adt(_, _) => false,
    }
}

/// Whether the result of a function is the unit.
fn gives_unit(items: &List<Decl>, function: u32) -> bool
    ensures { result ≡ facts_of.is_unit (types.result_declared (slice_get (declarations items.now) function)) }
{
    match result_of(items, function) {
        Some(ty) => is_unit(ty),
        None => false,
    }
}

/// Whether a name is among these.
fn is_among(name: &Name, names: &List<Name>) -> bool
    ensures { result ≡ facts_of.is_among name.now names.now }
{
    for other in names.as_slice() {
        if other.is(name) {
            return true;
        }
    }
    false
}

/// Whether all fields are among these names.
fn all_among(fields: &[FieldDecl], names: &List<Name>) -> bool
    ensures { result ≡ facts_of.all_among (facts_of.names_of (map plain-FieldDecl fields.now)) names.now }
{
    for field in fields {
        if !is_among(&field.name, names) {
            return false;
        }
    }
    true
}

/// Whether the fields of a struct are these, each once.
fn has_fields(items: &List<Decl>, item: u32, names: &List<Name>) -> bool
    ensures { result ≡ facts_of.exactly (facts_of.names_of (types.fields_declared (slice_get (declarations items.now) item))) names.now }
{
    let fields = fields_of(items, item);
    fields.len() == names.len() && all_among(fields, names)
}

/// Whether types pass a test, with the dereferences of a pattern and those of a place.
pub(crate) fn holds(
    arena: &Arena,
    items: &List<Decl>,
    sizes: &List<u64>,
    test: &Test,
    ts: &[usize],
    pattern: Passed,
    place: Passed,
) -> bool
    requires formed { Formable arena.now.entries.items }
    requires sized { Sized sizes.now arena.now.entries.items }
    requires terms { AllTerms arena.now.entries.items ts.now }
    ensures { (ms qs : ListOf Bool) → pattern ≡ summed ms → place ≡ summed qs → result ≡ facts_of.holds (record { items = declarations items.now; sizes = sizes_of sizes.now }) test.now (map types.outline (map (term arena.now.entries.items) ts.now)) ms qs }
{
    match test {
        Test::Plain => plain(arena, ts),
        Test::IntegerBehind => integer(arena, ts),
        Test::TruthBehind => truth(arena, ts),
        Test::TupleBehind(count) => tuple(arena, *count, ts),
        Test::ItemBehind(number) => item(arena, *number, ts),
        Test::Kept => kept(arena, items, place.none, ts),
        Test::KeptOrLent => kept_or_lent(arena, items, place.none, ts),
        Test::Writable(own) => place.mutable && (*own || !place.none),
        Test::Lendable => lendable(arena, place.mutable, ts),
        Test::Direct => pattern.none,
        Test::BindingKept => kept_binding(arena, items, pattern, place, ts),
        Test::BindingWritable => binding_writable(pattern, place),
        Test::BindingKeptOrLent => kept_or_lent_binding(arena, items, pattern, place, ts),
        Test::BindingWritableOrLent => mutable_or(arena, binding_writable(pattern, place), ts),
        Test::Limits => limits(arena, sizes, ts),
        Test::Takes(number, count) => parameters_of(items, *number).len() == *count,
        Test::Holds(number, variant, count) => parts_of(items, *number, *variant).len() == *count,
        Test::HasFields(number, names) => has_fields(items, *number, names),
        Test::HasLifetimes(number, count) => lifetimes_of(items, *number) as usize == *count,
        Test::GivesUnit(number) => gives_unit(items, *number),
    }
}

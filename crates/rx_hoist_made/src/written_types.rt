//! Types as they are written: with a lifetime of a row at each position, or with all lifetimes elided.

ghost use Rattle.std.specs.Prelude.{◌≡◌, suc, Some, IfOk, OnOk, drop, map};
ghost use Rattle.rx_tree.specs.Plain as plain;
ghost use Rattle.rx_tree.specs.PlainOf.{plain-Item, plain-Program, plain-TypeNode, plain-TypeText, types_of};
ghost use Rattle.rx_typed.specs.PlainTypes.{plain-Ty};
ghost use Rattle.rx_typed.specs.Types.{named as named_typ, reference as reference_typ};
ghost use Rattle.rx_hoist_extraction.specs.Made as made;
ghost use Rattle.rx_hoist_extraction.specs.WrittenTypes as types;
ghost use Rattle.rx_hoist_made.specs.Rows as rows;
ghost use Rattle.rx_hoist_made.specs.Rows.{nth_name};

use crate::row::Row;
use rx_core::{Boxed, LetGo, List, Name, Span, Ty, keep, pushed};
use rx_tree::{Ident, Item, ItemNode, Program, TypeNode, TypeText};
use std::alloc::{AllocError, Global};

/// The name of a struct, an enum or `rt`.
fn name_of_item(alloc: Global, item: &Item) -> Result<Name, AllocError>
    ensures { IfOk result (λ it. it ≡ types.item_name (Some (plain-Item item.now))) }
{
    match &item.node {
        ItemNode::Rt(_) => Name::new(alloc, "rt"),
        ItemNode::Struct(declared) => declared.name.name.copy(alloc),
        ItemNode::Enum(declared) => declared.name.name.copy(alloc),
        ItemNode::Func(_) => Ok(Name::empty(alloc)),
    }
}

/// The name of the struct or enum of a number.
fn name_of(alloc: Global, program: &Program, item: u32) -> Result<Name, AllocError>
    ensures { IfOk result (λ it. it ≡ types.name_of (plain-Program program.now) item) }
{
    match program.items.get(item as usize) {
        Some(item) => name_of_item(alloc, item),
        None => Ok(Name::empty(alloc)),
    }
}

/// How many lifetimes an item declares.
fn lifetimes_of_item(item: &Item) -> usize
    ensures { result ≡ types.item_lifetimes (Some (plain-Item item.now)) }
{
    match &item.node {
        ItemNode::Rt(_) => 0,
        ItemNode::Struct(declared) => declared.lifetimes.len(),
        ItemNode::Enum(declared) => declared.lifetimes.len(),
        ItemNode::Func(declared) => declared.lifetimes.len(),
    }
}

/// How many lifetimes the struct or enum of a number has.
pub fn lifetimes_of(program: &Program, item: u32) -> usize
    ensures { result ≡ types.lifetimes_of (plain-Program program.now) item }
{
    match program.items.get(item as usize) {
        Some(item) => lifetimes_of_item(item),
        None => 0,
    }
}

/// So many lifetimes of the row.
fn next_lifetimes(
    alloc: Global,
    span: Span,
    row: &mut Row<'_>,
    many: usize,
) -> Result<List<Option<Ident>>, AllocError>
    ensures names { IfOk result (λ it. it ≡ map (λ l. Some l) (types.lifetimes_from span (nth_name row.old) 0 many)) }
    ensures rest { OnOk result (row.new ≡ drop many row.old) }
{
    let mut all = List::new(alloc);
    for _turn in 0..many {
        let (next, held) = keep(all, row.next(alloc, span))?;
        all = pushed(held, Some(next))?;
    }
    Ok(all)
}

/// A list of lifetimes as it is written; none where it is empty.
fn if_any(lifetimes: List<Option<Ident>>) -> Option<List<Option<Ident>>>
    ensures { result ≡ rows.if_any lifetimes }
{
    if lifetimes.is_empty() {
        lifetimes.let_go();
        return None;
    }
    Some(lifetimes)
}

/// A struct or enum of this name, with so many lifetimes of the row.
#[tactic(auto, using(rx_tree::proofs::Rules::type_rules, crate::proofs::RowLemmas::list_if_any_is))]
pub fn named(
    alloc: Global,
    span: Span,
    row: &mut Row<'_>,
    name: Name,
    many: usize,
) -> Result<TypeText, AllocError>
    ensures made { IfOk result (λ it. plain-TypeText it
        ≡ plain.named_type span (made.ident span name) (types.list_if_any (types.lifetimes_from span (nth_name row.old) 0 many))) }
    ensures rest { OnOk result (row.new ≡ drop many row.old) }
{
    let (lifetimes, name) = keep(name, next_lifetimes(alloc, span, row, many))?;
    Ok(TypeText {
        span,
        node: TypeNode::Named(Ident { span, name }, if_any(lifetimes)),
    })
}

/// The struct or enum of a number.
fn full_named(
    alloc: Global,
    program: &Program,
    span: Span,
    row: &mut Row<'_>,
    item: u32,
) -> Result<TypeText, AllocError>
    ensures made { IfOk result (λ it. plain-TypeText it
        ≡ types.full (plain-Program program.now) span (nth_name row.old) 0 (named_typ item)) }
    ensures rest { OnOk result (row.new ≡ drop (types.lifetimes_of (plain-Program program.now) item) row.old) }
{
    let name = name_of(alloc, program, item)?;
    named(alloc, span, row, name, lifetimes_of(program, item))
}

/// A tuple of these types.
#[tactic(auto, using(rx_tree::proofs::Rules::type_rules))]
pub fn tuple(span: Span, parts: List<TypeText>) -> TypeText
    ensures { plain-TypeText result ≡ plain.tuple_type span (types_of (map plain-TypeText parts)) }
{
    TypeText {
        span,
        node: TypeNode::Tuple(parts),
    }
}

/// A reference with this lifetime.
#[tactic(auto, using(rx_tree::proofs::Rules::type_rules))]
pub fn reference(
    alloc: Global,
    span: Span,
    lifetime: Option<Ident>,
    mutable: bool,
    inner: TypeText,
) -> Result<TypeText, AllocError>
    ensures { IfOk result (λ it. plain-TypeText it ≡ plain.ref_type span lifetime mutable (plain-TypeText inner)) }
{
    let (inner, lifetime) = keep(lifetime, Boxed::new(alloc, inner))?;
    Ok(TypeText {
        span,
        node: TypeNode::Ref(lifetime, mutable, inner),
    })
}

/// A type without parts.
#[tactic(auto, using(rx_tree::proofs::Rules::type_rules))]
fn leaf(span: Span, node: TypeNode) -> TypeText
    ensures { plain-TypeText result ≡ plain-TypeNode node span }
{
    TypeText { span, node }
}

/// A reference with the row's next lifetime, to a type with those behind it.
#[cycle(full)]
#[tactic(auto, using(crate::proofs::RowLemmas::full_behind))]
fn full_reference(
    alloc: Global,
    program: &Program,
    span: Span,
    row: &mut Row<'_>,
    mutable: bool,
    inner: &Boxed<Ty>,
) -> Result<TypeText, AllocError>
    ensures made { IfOk result (λ it. plain-TypeText it
        ≡ types.full (plain-Program program.now) span (nth_name row.old) 0 (reference_typ mutable (plain-Ty inner.now))) }
    ensures rest { OnOk result (row.new ≡ drop (suc (types.positions (plain-Program program.now) (plain-Ty inner.now))) row.old) }
{
    let lifetime = row.next(alloc, span)?;
    let (inner, lifetime) = keep(lifetime, full(alloc, program, span, row, inner.get()))?;
    reference(alloc, span, Some(lifetime), mutable, inner)
}

/// A type with the lifetimes of the row.
#[cycle(full)]
#[tactic(auto, using(rx_typed::proofs::TypedRules::typ_rules, rx_tree::proofs::Rules::type_rules, crate::proofs::RowLemmas::row_rules))]
pub fn full(
    alloc: Global,
    program: &Program,
    span: Span,
    row: &mut Row<'_>,
    ty: &Ty,
) -> Result<TypeText, AllocError>
    ensures made { IfOk result (λ it. plain-TypeText it
        ≡ types.full (plain-Program program.now) span (nth_name row.old) 0 (plain-Ty ty.now)) }
    ensures rest { OnOk result (row.new ≡ drop (types.positions (plain-Program program.now) (plain-Ty ty.now)) row.old) }
{
    match ty {
        Ty::Int(kind) => Ok(leaf(span, TypeNode::Kind(*kind))),
        Ty::Bool => Ok(leaf(span, TypeNode::Bool)),
        Ty::Tuple(parts) => {
            let parts = full_all(alloc, program, span, row, parts.as_slice())?;
            Ok(tuple(span, parts))
        }
        Ty::Shared(_, inner) => full_reference(alloc, program, span, row, false, inner),
        Ty::Mut(_, inner) => full_reference(alloc, program, span, row, true, inner),
        Ty::Adt(item, _) => full_named(alloc, program, span, row, *item),
    }
}

/// Types with the lifetimes of the row, one after the other.
#[cycle(full)]
#[tactic(auto, using(crate::proofs::RowLemmas::row_rules))]
fn full_all(
    alloc: Global,
    program: &Program,
    span: Span,
    row: &mut Row<'_>,
    parts: &[Ty],
) -> Result<List<TypeText>, AllocError>
    ensures made { IfOk result (λ it. map plain-TypeText it
        ≡ rows.fulls (plain-Program program.now) span (nth_name row.old) 0 (map plain-Ty parts.now)) }
    ensures rest { OnOk result (row.new ≡ drop (types.positions_of (plain-Program program.now) (map plain-Ty parts.now)) row.old) }
{
    let mut all = List::new(alloc);
    for part in parts {
        let (next, held) = keep(all, full(alloc, program, span, row, part))?;
        all = pushed(held, next)?;
    }
    Ok(all)
}

/// A struct or enum without its lifetimes.
#[tactic(auto, using(rx_tree::proofs::Rules::type_rules))]
fn elided_named(
    alloc: Global,
    program: &Program,
    span: Span,
    item: u32,
) -> Result<TypeText, AllocError>
    ensures { IfOk result (λ it. plain-TypeText it ≡ types.elided (plain-Program program.now) span (named_typ item)) }
{
    let name = name_of(alloc, program, item)?;
    Ok(TypeText {
        span,
        node: TypeNode::Named(Ident { span, name }, None),
    })
}

/// A type with all lifetimes elided.
#[cycle(elided)]
#[tactic(auto, using(rx_typed::proofs::TypedRules::typ_rules, rx_tree::proofs::Rules::type_rules, crate::proofs::RowLemmas::elided_rules))]
pub fn elided(alloc: Global, program: &Program, span: Span, ty: &Ty) -> Result<TypeText, AllocError>
    ensures { IfOk result (λ it. plain-TypeText it ≡ types.elided (plain-Program program.now) span (plain-Ty ty.now)) }
{
    match ty {
        Ty::Int(kind) => Ok(leaf(span, TypeNode::Kind(*kind))),
        Ty::Bool => Ok(leaf(span, TypeNode::Bool)),
        Ty::Tuple(parts) => {
            let parts = elided_all(alloc, program, span, parts.as_slice())?;
            Ok(tuple(span, parts))
        }
        Ty::Shared(_, inner) => {
            let inner = elided(alloc, program, span, inner.get())?;
            reference(alloc, span, None, false, inner)
        }
        Ty::Mut(_, inner) => {
            let inner = elided(alloc, program, span, inner.get())?;
            reference(alloc, span, None, true, inner)
        }
        Ty::Adt(item, _) => elided_named(alloc, program, span, *item),
    }
}

/// Types with all lifetimes elided.
#[cycle(elided)]
fn elided_all(
    alloc: Global,
    program: &Program,
    span: Span,
    parts: &[Ty],
) -> Result<List<TypeText>, AllocError>
    ensures { IfOk result (λ it. map plain-TypeText it
        ≡ rows.elideds (plain-Program program.now) span (map plain-Ty parts.now)) }
{
    let mut all = List::new(alloc);
    for part in parts {
        let (next, held) = keep(all, elided(alloc, program, span, part))?;
        all = pushed(held, next)?;
    }
    Ok(all)
}

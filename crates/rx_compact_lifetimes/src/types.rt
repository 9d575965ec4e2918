//! Types in which lifetimes are written otherwise.

ghost use Rattle.std.specs.Prelude.{◌≡◌, Ok, IfOk, map};
ghost use Rattle.std.specs.Option.{option_copied};
ghost use Rattle.std.specs.Str.{bytes_eq};
ghost use Rattle.rx_tree.specs.Plain as plain;
ghost use Rattle.rx_tree.specs.PlainOf.{plain-TypeNode, plain-TypeText, types_of};
ghost use Rattle.rx_compact_lifetimes.specs.Rewritten as spec;

use crate::rewriting::Rewriting;
use rx_core::{Boxed, List, Name, Span, is_same_name, keep, pushed};
use rx_tree::{Ident, TypeNode, TypeText};
use std::alloc::{AllocError, Global};

/// Whether both are the same name.
#[tactic(auto, using(crate::proofs::Rules::same_is_equal))]
pub(crate) fn is_same(a: &Name, b: &Name) -> bool
    ensures { result ≡ bytes_eq a.now b.now }
{
    is_same_name(a, b)
}

/// What becomes of a name; one that no rewriting tells stays.
pub fn becomes<'r>(rewritings: &'r [Rewriting], name: &'r Name) -> Option<&'r Name>
    ensures { option_copied result ≡ spec.becomes rewritings.now name.now }
{
    for rewriting in rewritings {
        if is_same(name, &rewriting.name) {
            return rewriting.becomes.as_ref();
        }
    }
    Some(name)
}

/// A lifetime with this name, at its place; none where it is left out.
fn lifetime_with(
    alloc: Global,
    lifetime: &Ident,
    name: Option<&Name>,
) -> Result<Option<Ident>, AllocError>
    ensures { IfOk result (λ it. it ≡ spec.lifetime_with lifetime.now (option_copied name.entry)) }
{
    match name {
        Some(name) => Ok(Some(Ident {
            span: lifetime.span,
            name: name.copy(alloc)?,
        })),
        None => Ok(None),
    }
}

/// What becomes of a lifetime where it stands.
pub fn rewritten_lifetime(
    alloc: Global,
    rewritings: &[Rewriting],
    lifetime: &Option<Ident>,
) -> Result<Option<Ident>, AllocError>
    ensures { IfOk result (λ it. it ≡ spec.rewritten_lifetime rewritings.now lifetime.now) }
{
    match lifetime {
        Some(lifetime) => lifetime_with(alloc, lifetime, becomes(rewritings, &lifetime.name)),
        None => Ok(None),
    }
}

fn rewritten_lifetimes(
    alloc: Global,
    rewritings: &[Rewriting],
    lifetimes: &[Option<Ident>],
) -> Result<List<Option<Ident>>, AllocError>
    ensures { IfOk result (λ it. it ≡ map (spec.rewritten_lifetime rewritings.now) lifetimes.now) }
{
    let mut all = List::new(alloc);
    for lifetime in lifetimes {
        let (next, held) = keep(all, rewritten_lifetime(alloc, rewritings, lifetime))?;
        all = pushed(held, next)?;
    }
    Ok(all)
}

/// The lifetimes of a struct or enum, where a list of them is written.
fn rewritten_list(
    alloc: Global,
    rewritings: &[Rewriting],
    lifetimes: &Option<List<Option<Ident>>>,
) -> Result<Option<List<Option<Ident>>>, AllocError>
    ensures { IfOk result (λ it. it ≡ spec.rewritten_list rewritings.now lifetimes.now) }
{
    match lifetimes {
        Some(lifetimes) => Ok(Some(rewritten_lifetimes(alloc, rewritings, lifetimes.as_slice())?)),
        None => Ok(None),
    }
}

/// A type without parts.
#[tactic(auto, using(rx_tree::proofs::Rules::type_rules))]
fn leaf(span: Span, node: TypeNode) -> TypeText
    ensures { plain-TypeText result ≡ plain-TypeNode node span }
{
    TypeText { span, node }
}

#[tactic(auto, using(rx_tree::proofs::Rules::type_rules))]
fn tuple(span: Span, parts: List<TypeText>) -> TypeText
    ensures { plain-TypeText result ≡ plain.tuple_type span (types_of (map plain-TypeText parts)) }
{
    TypeText {
        span,
        node: TypeNode::Tuple(parts),
    }
}

#[tactic(auto, using(rx_tree::proofs::Rules::type_rules))]
fn reference(
    alloc: Global,
    span: Span,
    lifetime: Option<Ident>,
    mutable: bool,
    inner: TypeText,
) -> Result<TypeText, AllocError>
    ensures { IfOk result (λ it. plain-TypeText it ≡ plain.ref_type span lifetime mutable (plain-TypeText inner)) }
{
    let (inner, lifetime) = keep(lifetime, Boxed::new(alloc, inner))?;
    Ok(TypeText {
        span,
        node: TypeNode::Ref(lifetime, mutable, inner),
    })
}

/// A struct or enum with what becomes of its lifetimes.
#[tactic(auto, using(rx_tree::proofs::Rules::type_rules))]
fn named(
    alloc: Global,
    rewritings: &[Rewriting],
    span: Span,
    name: &Ident,
    lifetimes: &Option<List<Option<Ident>>>,
) -> Result<TypeText, AllocError>
    ensures { IfOk result (λ it. plain-TypeText it ≡ plain.named_type span name.now (spec.rewritten_list rewritings.now lifetimes.now)) }
{
    let lifetimes = rewritten_list(alloc, rewritings, lifetimes)?;
    let (name, lifetimes) = keep(lifetimes, name.copy(alloc))?;
    Ok(TypeText {
        span,
        node: TypeNode::Named(name, lifetimes),
    })
}

/// A type in which lifetimes are written otherwise.
///
/// # Errors
///
/// Memory runs out.
#[cycle(rewritten)]
#[tactic(auto, using(rx_tree::proofs::Rules::type_rules, crate::proofs::Rules::list_rules))]
pub fn rewritten_type(
    alloc: Global,
    rewritings: &[Rewriting],
    typ: &TypeText,
) -> Result<TypeText, AllocError>
    ensures { IfOk result (λ it. plain-TypeText it ≡ spec.rewritten_type rewritings.now (plain-TypeText typ.now)) }
{
    let span = typ.span;
    match &typ.node {
        TypeNode::Kind(kind) => Ok(leaf(span, TypeNode::Kind(*kind))),
        TypeNode::Bool => Ok(leaf(span, TypeNode::Bool)),
        TypeNode::Tuple(parts) => {
            let parts = rewritten_types(alloc, rewritings, parts.as_slice())?;
            Ok(tuple(span, parts))
        }
        TypeNode::Ref(lifetime, mutable, inner) => {
            let inner = rewritten_type(alloc, rewritings, inner.get())?;
            let (lifetime, inner) = keep(inner, rewritten_lifetime(alloc, rewritings, lifetime))?;
            reference(alloc, span, lifetime, *mutable, inner)
        }
        TypeNode::Named(name, lifetimes) => named(alloc, rewritings, span, name, lifetimes),
    }
}

#[cycle(rewritten)]
fn rewritten_types(
    alloc: Global,
    rewritings: &[Rewriting],
    types: &[TypeText],
) -> Result<List<TypeText>, AllocError>
    ensures { IfOk result (λ it. map plain-TypeText it ≡ map (spec.rewritten_type rewritings.now) (map plain-TypeText types.now)) }
{
    let mut all = List::new(alloc);
    for typ in types {
        let (next, held) = keep(all, rewritten_type(alloc, rewritings, typ))?;
        all = pushed(held, next)?;
    }
    Ok(all)
}

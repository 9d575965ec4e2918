//! Copies of names, types and patterns. A copy is the same tree, with its spans; it shares nothing with it.

ghost use Rattle.std.specs.Prelude.{◌≡◌, Ok, IfOk};

use rx_core::{Boxed, LetGo, List, keep, pushed};
use rx_tree::{FieldPattern, Ident, Pattern, PatternNode, TypeNode, TypeText};
use std::alloc::{AllocError, Global};

/// A tree that can be copied.
pub trait CopyTree {
    /// The same tree, with its spans.
    fn copy(&self, alloc: Global) -> Result<Self, AllocError>
        ensures { IfOk result (λ it. it ≡ self.now) };
}

/// Both values, where both are there. The second is made in any case.
pub(crate) fn both<A: LetGo, B: LetGo>(
    first: Result<A, AllocError>,
    second: Result<B, AllocError>,
) -> Result<(A, B), AllocError>
    ensures { IfOk result (λ it. (first ≡ Ok it.0) × (second ≡ Ok it.1)) }
{
    match second {
        Ok(second) => {
            let (first, second) = keep(second, first)?;
            Ok((first, second))
        }
        Err(fault) => {
            match first {
                Ok(first) => first.let_go(),
                Err(AllocError) => (),
            }
            Err(fault)
        }
    }
}

/// The same trees, in order.
pub(crate) fn copy_all<T: CopyTree + LetGo>(
    alloc: Global,
    trees: &[T],
) -> Result<List<T>, AllocError>
    ensures { IfOk result (λ it. it ≡ trees.now) }
{
    let mut all = List::new(alloc);
    for tree in trees {
        let (next, held) = keep(all, tree.copy(alloc))?;
        all = pushed(held, next)?;
    }
    Ok(all)
}

/// The same tree, or none where none is written.
pub(crate) fn copy_optional<T: CopyTree + LetGo>(
    alloc: Global,
    tree: &Option<T>,
) -> Result<Option<T>, AllocError>
    ensures { IfOk result (λ it. it ≡ tree.now) }
{
    match tree {
        Some(tree) => Ok(Some(tree.copy(alloc)?)),
        None => Ok(None),
    }
}

impl CopyTree for Ident {
    fn copy(&self, alloc: Global) -> Result<Ident, AllocError> {
        self.copy(alloc)
    }
}

impl CopyTree for Option<Ident> {
    fn copy(&self, alloc: Global) -> Result<Option<Ident>, AllocError> {
        copy_optional(alloc, self)
    }
}

impl CopyTree for TypeText {
    fn copy(&self, alloc: Global) -> Result<TypeText, AllocError> {
        copy_type(alloc, self)
    }
}

impl CopyTree for Pattern {
    fn copy(&self, alloc: Global) -> Result<Pattern, AllocError> {
        copy_pattern(alloc, self)
    }
}

#[cycle(copy_types)]
pub(crate) fn copy_type(alloc: Global, typ: &TypeText) -> Result<TypeText, AllocError>
    ensures { IfOk result (λ it. it ≡ typ.now) }
{
    Ok(TypeText {
        span: typ.span,
        node: copy_type_node(alloc, &typ.node)?,
    })
}

#[cycle(copy_types)]
fn copy_type_node(alloc: Global, node: &TypeNode) -> Result<TypeNode, AllocError>
    ensures { IfOk result (λ it. it ≡ node.now) }
{
    match node {
        TypeNode::Kind(kind) => Ok(TypeNode::Kind(*kind)),
        TypeNode::Bool => Ok(TypeNode::Bool),
        TypeNode::Tuple(parts) => Ok(TypeNode::Tuple(copy_types(alloc, parts.as_slice())?)),
        TypeNode::Ref(lifetime, mutable, inner) => {
            let (lifetime, inner) = both(
                copy_optional(alloc, lifetime),
                copy_boxed_type(alloc, inner),
            )?;
            Ok(TypeNode::Ref(lifetime, *mutable, inner))
        }
        TypeNode::Named(name, lifetimes) => {
            let (name, lifetimes) = both(name.copy(alloc), copy_written(alloc, lifetimes))?;
            Ok(TypeNode::Named(name, lifetimes))
        }
    }
}

/// The lifetimes that are written, where a list of them is.
fn copy_written(
    alloc: Global,
    lifetimes: &Option<List<Option<Ident>>>,
) -> Result<Option<List<Option<Ident>>>, AllocError>
    ensures { IfOk result (λ it. it ≡ lifetimes.now) }
{
    match lifetimes {
        Some(lifetimes) => Ok(Some(copy_all(alloc, lifetimes.as_slice())?)),
        None => Ok(None),
    }
}

#[cycle(copy_types)]
fn copy_boxed_type(alloc: Global, typ: &Boxed<TypeText>) -> Result<Boxed<TypeText>, AllocError>
    ensures { IfOk result (λ it. it ≡ typ.now) }
{
    Boxed::new(alloc, copy_type(alloc, typ.get())?)
}

#[cycle(copy_types)]
pub(crate) fn copy_types(alloc: Global, types: &[TypeText]) -> Result<List<TypeText>, AllocError>
    ensures { IfOk result (λ it. it ≡ types.now) }
{
    let mut all = List::new(alloc);
    for typ in types {
        let (next, held) = keep(all, copy_type(alloc, typ))?;
        all = pushed(held, next)?;
    }
    Ok(all)
}

#[cycle(copy_patterns)]
pub(crate) fn copy_pattern(alloc: Global, pattern: &Pattern) -> Result<Pattern, AllocError>
    ensures { IfOk result (λ it. it ≡ pattern.now) }
{
    Ok(Pattern {
        span: pattern.span,
        node: copy_pattern_node(alloc, &pattern.node)?,
    })
}

#[cycle(copy_patterns)]
fn copy_pattern_node(alloc: Global, node: &PatternNode) -> Result<PatternNode, AllocError>
    ensures { IfOk result (λ it. it ≡ node.now) }
{
    match node {
        PatternNode::Wild => Ok(PatternNode::Wild),
        PatternNode::Bind(name, mutable) => Ok(PatternNode::Bind(name.copy(alloc)?, *mutable)),
        PatternNode::Int(negative, value, kind) => Ok(PatternNode::Int(*negative, *value, *kind)),
        PatternNode::Bool(value) => Ok(PatternNode::Bool(*value)),
        PatternNode::Tuple(parts) => {
            Ok(PatternNode::Tuple(copy_patterns(alloc, parts.as_slice())?))
        }
        PatternNode::Variant(adt, variant, parts) => {
            let (names, parts) = both(
                both(adt.copy(alloc), variant.copy(alloc)),
                copy_patterns(alloc, parts.as_slice()),
            )?;
            let (adt, variant) = names;
            Ok(PatternNode::Variant(adt, variant, parts))
        }
        PatternNode::Make(name, fields) => {
            let (name, fields) = both(
                name.copy(alloc),
                copy_field_patterns(alloc, fields.as_slice()),
            )?;
            Ok(PatternNode::Make(name, fields))
        }
    }
}

#[cycle(copy_patterns)]
fn copy_patterns(alloc: Global, patterns: &[Pattern]) -> Result<List<Pattern>, AllocError>
    ensures { IfOk result (λ it. it ≡ patterns.now) }
{
    let mut all = List::new(alloc);
    for pattern in patterns {
        let (next, held) = keep(all, copy_pattern(alloc, pattern))?;
        all = pushed(held, next)?;
    }
    Ok(all)
}

#[cycle(copy_patterns)]
fn copy_field_pattern(alloc: Global, field: &FieldPattern) -> Result<FieldPattern, AllocError>
    ensures { IfOk result (λ it. it ≡ field.now) }
{
    let (name, pattern) = both(field.field.copy(alloc), copy_pattern(alloc, &field.pattern))?;
    Ok(FieldPattern {
        field: name,
        pattern,
    })
}

#[cycle(copy_patterns)]
fn copy_field_patterns(
    alloc: Global,
    fields: &[FieldPattern],
) -> Result<List<FieldPattern>, AllocError>
    ensures { IfOk result (λ it. it ≡ fields.now) }
{
    let mut all = List::new(alloc);
    for field in fields {
        let (next, held) = keep(all, copy_field_pattern(alloc, field))?;
        all = pushed(held, next)?;
    }
    Ok(all)
}

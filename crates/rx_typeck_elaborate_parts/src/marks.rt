//! Marks of nodes, and what coercion sites do to values.

ghost use Rattle.std.specs.Prelude.{◌≡◌, Some, None, Ok, IfOk};
ghost use Rattle.std.specs.Option.{option_copied};
ghost use Rattle.rx_typed.specs.Types as types;
ghost use Rattle.rx_typed.specs.PlainTypes.{plain-Ty};
ghost use Rattle.rx_typed.specs.Elaborated as elaborated;
ghost use Rattle.rx_typed.specs.PlainTree.{plain-Mark};
ghost use Rattle.rx_typeck_elaborate_parts.specs.Assigning.{shape_of};
ghost use Rattle.rx_typeck_elaborate_parts.specs.Coercing as coercing;
ghost use Rattle.rx_typeck_elaborate_parts.specs.Coercing.{plain-Coercion, types_of};

use crate::assigned::{NodeTypes, type_at};
use crate::copying::copied;
use crate::dereferenced::reference_of;
use crate::looked_up::copies;
use rx_core::{Boxed, List, Ty};
use rx_typed::{Decls, Mark, Node, Site};
use std::alloc::{AllocError, Global};

/// What a coercion site does to a value (Rust Reference, "Coercion types").
#[derive(Clone, Copy)]
pub enum Coercion {
    Plain,
    /// `&mut T` becomes `&mut T` again, for a shorter time.
    Reborrow,
    /// `&mut T` becomes `&T`.
    Share,
}

/// What is declared, and the types of a function's nodes.
#[derive(Clone, Copy)]
pub struct Given<'t> {
    pub alloc: Global,
    pub decls: &'t Decls,
    pub types: &'t NodeTypes,
}

/// A copy of a type, or the unit.
#[tactic(auto, using(rx_typed::proofs::TypedRules::typ_rules))]
fn shape(alloc: Global, ty: Option<&Ty>) -> Result<Ty, AllocError>
    ensures { IfOk result (λ it. plain-Ty it ≡ shape_of (option_copied ty.entry)) }
{
    match ty {
        Some(ty) => copied(alloc, ty),
        None => Ok(Ty::Tuple(List::new(alloc))),
    }
}

/// A copy of a type, or the unit, and a shared reference in place of a mutable one.
#[tactic(auto, using(rx_typed::proofs::TypedRules::typ_rules))]
fn shared_shape(alloc: Global, ty: Option<&Ty>) -> Result<Ty, AllocError>
    ensures { IfOk result (λ it. plain-Ty it ≡ elaborated.as_shared (shape_of (option_copied ty.entry))) }
{
    match ty {
        Some(ty) => shared(alloc, ty),
        None => Ok(Ty::Tuple(List::new(alloc))),
    }
}

#[tactic(auto, using(rx_typed::proofs::TypedRules::typ_rules))]
fn shared(alloc: Global, ty: &Ty) -> Result<Ty, AllocError>
    ensures { IfOk result (λ it. plain-Ty it ≡ elaborated.as_shared (plain-Ty ty.now)) }
{
    match ty {
        Ty::Mut(lifetime, inner) => {
            let inner = copied(alloc, inner.get())?;
            Ok(Ty::Shared(*lifetime, Boxed::new(alloc, inner)?))
        }
        Ty::Int(_) | Ty::Bool | Ty::Tuple(_) | Ty::Shared(_, _) | Ty::Adt(_, _) => copied(
            alloc, ty,
        ),
    }
}

/// The mark of what has no type.
pub(crate) fn no_mark(node: Node) -> Mark
    ensures { plain-Mark result ≡ elaborated.no_mark node }
{
    Mark {
        node: node.number,
        ty: None,
    }
}

/// The mark of a unit.
#[tactic(auto, using(rx_typed::proofs::TypedRules::typ_rules))]
pub(crate) fn unit_mark(alloc: Global, node: Node) -> Mark
    ensures { plain-Mark result ≡ elaborated.marked node.number (Some types.unit_shape) }
{
    Mark {
        node: node.number,
        ty: Some(Ty::Tuple(List::new(alloc))),
    }
}

impl<'t> Given<'t> {
    /// The type of a node, where it has one.
    #[tactic(auto, using(crate::proofs::References::assigned_rules))]
    pub fn typ(&self, node: Node) -> Option<&Ty>
        ensures { shape_of (option_copied result) ≡ (types_of self.now).typ node.number }
    {
        type_at(&self.types.nodes, node.number)
    }

    /// Whether the type of a node is Copy.
    #[tactic(auto, using(crate::proofs::References::assigned_rules))]
    pub fn copies(&self, node: Node) -> bool
        ensures { let t = types_of self.now in result ≡ types.copies t.items (t.typ node.number) }
    {
        copies(self.typ(node), self.decls)
    }

    /// The mark of what has a type.
    pub fn mark(&self, node: Node) -> Result<Mark, AllocError>
        ensures { IfOk result (λ mark. plain-Mark mark ≡ elaborated.mark (types_of self.now) node) }
    {
        let ty = shape(self.alloc, self.typ(node))?;
        Ok(Mark {
            node: node.number,
            ty: Some(ty),
        })
    }

    /// The mark of what has a type where it isn't Never.
    pub fn mark_if(&self, node: Node, never: bool) -> Result<Mark, AllocError>
        ensures { IfOk result (λ mark. plain-Mark mark ≡ elaborated.mark_if (types_of self.now) node never) }
    {
        if never {
            Ok(no_mark(node))
        } else {
            self.mark(node)
        }
    }

    /// The mark of what is shared.
    pub fn shared_mark(&self, node: Node) -> Result<Mark, AllocError>
        ensures { IfOk result (λ mark. plain-Mark mark ≡ elaborated.shared_mark (types_of self.now) node) }
    {
        let ty = shared_shape(self.alloc, self.typ(node))?;
        Ok(Mark {
            node: node.number,
            ty: Some(ty),
        })
    }

    /// What a coercion site makes of the type of a node.
    #[tactic(auto, using(crate::proofs::References::assigned_rules, crate::proofs::References::coercion_is))]
    fn coercion(&self, number: usize) -> Coercion
        ensures { let t = types_of self.now in
            plain-Coercion result ≡ elaborated.coercion (t.typ number) (t.expected number) }
    {
        let own = reference_of(type_at(&self.types.nodes, number));
        let expected = reference_of(type_at(&self.types.expected, number));
        coercion_of(own, expected)
    }

    /// What the place of a node does to its value.
    pub fn coercion_at(&self, node: Node) -> Coercion
        ensures { plain-Coercion result ≡ elaborated.coercion_at (types_of self.now) node }
    {
        match node.site {
            Site::Value | Site::Place | Site::Scrutinee => Coercion::Plain,
            _ => self.coercion(node.number),
        }
    }
}

/// What is done to a reference where another is expected: whether each is one, and mutable.
fn coercion_of(own: Option<bool>, expected: Option<bool>) -> Coercion
    ensures { plain-Coercion result ≡ coercing.coercion_of own expected }
{
    match (own, expected) {
        (Some(true), Some(true)) => Coercion::Reborrow,
        (Some(true), Some(false)) => Coercion::Share,
        _ => Coercion::Plain,
    }
}

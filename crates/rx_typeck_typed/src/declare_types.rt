//! Types with their lifetimes, as they are written.

ghost use Rattle.std.specs.Prelude.{◌≡◌, [], map, slice_get};
ghost use Rattle.rx_tree.specs.PlainOf.{plain-TypeText, types_of, plain-Item};
ghost use Rattle.rx_typeck_typed.specs.Steps as steps;
ghost use Rattle.rx_typeck_typed.specs.Written as written;
ghost use Rattle.rx_typeck_typed.specs.Readers.{reading, program};

use crate::fault::DeclareFault;
use crate::reader::{Reader, Role, first, left_by, others, push};
use rx_core::{Boxed, List, Span, Ty};
use rx_tree::{Ident, Item, ItemNode, TypeNode, TypeText};
use rx_typeck_solver::Rule;
use std::alloc::{AllocError, Global};

/// Types that name items of a program.
#[derive(Clone, Copy)]
pub(crate) struct Types<'t> {
    pub(crate) alloc: Global,
    pub(crate) items: &'t [Item],
}

/// The lifetimes that a struct or enum declares, by its number.
#[tactic(auto, using(crate::proofs::ItemLemmas::item_at))]
fn lifetimes_of(items: &[Item], number: u32) -> &[Ident]
    ensures { result.now ≡ written.lifetimes_of (slice_get (map plain-Item items.now) number) }
{
    match items.get(number as usize) {
        Some(item) => match &item.node {
            ItemNode::Struct(data) => data.lifetimes.as_slice(),
            ItemNode::Enum(data) => data.lifetimes.as_slice(),
            _ => &[],
        },
        None => &[],
    }
}

/// A reference type.
fn pointing(alloc: Global, mutable: bool, lifetime: u32, inner: Ty) -> Result<Ty, DeclareFault>
    ensures { steps.Gives (Ok (written.pointing mutable lifetime inner)) result }
{
    match Boxed::new(alloc, inner) {
        Ok(inner) => {
            if mutable {
                Ok(Ty::Mut(lifetime, inner))
            } else {
                Ok(Ty::Shared(lifetime, inner))
            }
        }
        Err(AllocError) => Err(DeclareFault::OutOfMemory),
    }
}

/// Whether a list has as many lifetimes as are declared, where it has to.
fn as_many(
    role: Role,
    span: Span,
    declared: &[Ident],
    list: &[Option<Ident>],
) -> Result<(), DeclareFault>
    ensures { result ≡ written.as_many role span declared.now list.now }
{
    match role {
        Role::Field => {
            if list.len() == declared.len() {
                Ok(())
            } else {
                Err(DeclareFault::Mismatch {
                    at: span,
                    rule: Rule::Lifetimes,
                })
            }
        }
        Role::Parameter | Role::Answer(_) | Role::Let(_) => Ok(()),
    }
}

impl<'t> Types<'t> {
    /// A lifetime for each that is declared.
    #[tactic(auto, using(crate::proofs::ReadingLemmas::before_next, crate::proofs::ReadingLemmas::before_none))]
    fn all_elided(
        &self,
        role: Role,
        reader: &mut Reader<'_>,
        span: Span,
        declared: &[Ident],
    ) -> Result<List<u32>, DeclareFault>
        ensures { steps.Reads (written.all_elided role span declared.now (reading reader.old)) result
            (reading reader.new) }
    {
        let mut numbers = List::new(self.alloc);
        for _lifetime in declared {
            push(&mut numbers, reader.elided(role, span)?)?;
        }
        Ok(numbers)
    }

    /// The lifetimes of a list, with the numbers of those that are written.
    #[tactic(auto, using(crate::proofs::ReadingLemmas::before_next, crate::proofs::ReadingLemmas::before_none))]
    fn listed(
        &self,
        role: Role,
        reader: &mut Reader<'_>,
        span: Span,
        list: &[Option<Ident>],
        numbers: &[u32],
    ) -> Result<List<u32>, DeclareFault>
        ensures { steps.Reads (written.listed role span list.now numbers.now (reading reader.old)) result
            (reading reader.new) }
    {
        let mut lifetimes = List::new(self.alloc);
        let mut rest = numbers;
        for lifetime in list {
            push(
                &mut lifetimes,
                reader.one_listed(role, span, lifetime, rest)?,
            )?;
            rest = left_by(lifetime, rest);
        }
        Ok(lifetimes)
    }

    /// The lifetimes of a type that names an item with these, and the numbers of those that are written.
    fn lifetimes_at(
        &self,
        role: Role,
        reader: &mut Reader<'_>,
        span: Span,
        declared: &[Ident],
        list: &Option<List<Option<Ident>>>,
        numbers: &[u32],
    ) -> Result<List<u32>, DeclareFault>
        ensures { steps.Reads (written.lifetimes_at role span declared.now list.now numbers.now (reading reader.old))
            result (reading reader.new) }
    {
        match list {
            None => self.all_elided(role, reader, span, declared),
            Some(list) => {
                as_many(role, span, declared, list.as_slice())?;
                self.listed(role, reader, span, list.as_slice(), numbers)
            }
        }
    }

    /// A type that names a struct or enum.
    fn named(
        &self,
        role: Role,
        reader: &mut Reader<'_>,
        span: Span,
        list: &Option<List<Option<Ident>>>,
    ) -> Result<Ty, DeclareFault>
        ensures { steps.Reads (written.named_of (program self.now) role span list.now (reading reader.old)) result
            (reading reader.new) }
    {
        let numbers = reader.entry();
        let item = first(numbers);
        let declared = lifetimes_of(self.items, item);
        let lifetimes = self.lifetimes_at(role, reader, span, declared, list, others(numbers))?;
        Ok(Ty::Adt(item, lifetimes))
    }

    /// A type that is written.
    #[cycle(typ)]
    #[tactic(auto, using(rx_tree::proofs::Rules::type_rules))]
    pub(crate) fn typ(
        &self,
        role: Role,
        reader: &mut Reader<'_>,
        typ: &TypeText,
    ) -> Result<Ty, DeclareFault>
        ensures { steps.Reads (written.type_of (program self.now) role (plain-TypeText typ.now) (reading reader.old))
            result (reading reader.new) }
    {
        match &typ.node {
            TypeNode::Kind(kind) => Ok(Ty::Int(*kind)),
            TypeNode::Bool => Ok(Ty::Bool),
            TypeNode::Tuple(types) => {
                let parts = self.types(role, reader, types.as_slice())?;
                Ok(Ty::Tuple(parts))
            }
            TypeNode::Ref(lifetime, mutable, inner) => {
                let lifetime = reader.lifetime_at(role, typ.span, lifetime)?;
                let inner = self.typ(role, reader, inner.get())?;
                pointing(self.alloc, *mutable, lifetime, inner)
            }
            TypeNode::Named(_, lifetimes) => self.named(role, reader, typ.span, lifetimes),
        }
    }

    /// Types that are written.
    #[cycle(typ)]
    #[tactic(auto, using(crate::proofs::ReadingLemmas::before_next, crate::proofs::ReadingLemmas::before_none))]
    pub(crate) fn types(
        &self,
        role: Role,
        reader: &mut Reader<'_>,
        types: &[TypeText],
    ) -> Result<List<Ty>, DeclareFault>
        ensures { steps.Reads (written.types_of (program self.now) role (types_of (map plain-TypeText types.now))
            (reading reader.old)) result (reading reader.new) }
    {
        let mut all = List::new(self.alloc);
        for typ in types {
            push(&mut all, self.typ(role, reader, typ)?)?;
        }
        Ok(all)
    }
}

//! How far the types of an item are read.

ghost use Rattle.std.specs.Prelude.{◌≡◌, [], ◌∷◌, ◌++◌, Ok, map};
ghost use Rattle.rx_tree.specs.PlainOf.{plain-Param};
ghost use Rattle.rx_resolve_names.specs.Meant as meant;
ghost use Rattle.rx_typeck_typed.specs.Steps as steps;
ghost use Rattle.rx_typeck_typed.specs.Written as written;
ghost use Rattle.rx_typeck_typed.specs.Items as items;
ghost use Rattle.rx_typeck_typed.specs.Readers.{reading};

use crate::fault::DeclareFault;
use rx_core::{LetGo, List, Span};
use rx_resolve_names::NodeNames;
use rx_tree::{Ident, Param};
use std::alloc::{AllocError, Global};

/// Where a type stands.
#[derive(Clone, Copy)]
pub(crate) enum Role {
    Field,
    Parameter,
    /// The result of a function, with the only lifetime of its parameters' types, where there is one.
    Answer(Option<u32>),
    /// A `let`, in which a lifetime that is left out is free: it has this number.
    Let(u32),
}

/// How far the types of an item are read.
#[derive(Drop)]
pub(crate) struct Reader<'n> {
    /// The entries of names that are left.
    pub(crate) names: &'n [NodeNames],
    /// The lifetimes of the types so far, each as often as it occurs.
    pub(crate) lifetimes: List<u32>,
    /// The number of the next lifetime that is elided.
    pub(crate) next: u32,
}

/// A number in 32 bits, where it fits.
pub(crate) fn number(n: usize) -> u32
    ensures { result ≡ meant.number n }
{
    if n < 4_294_967_295 {
        n as u32
    } else {
        4_294_967_295
    }
}

/// A reader of an item's types, by the entries of the item and the number of the first lifetime that is elided.
pub(crate) fn begins<'n>(alloc: Global, names: &'n [NodeNames], next: u32) -> Reader<'n>
    ensures { reading result ≡ items.begins names.now next }
{
    Reader {
        names,
        lifetimes: List::new(alloc),
        next,
    }
}

/// Adds an item to a list.
pub(crate) fn push<T: LetGo>(list: &mut List<T>, item: T) -> Result<(), DeclareFault>
    ensures { steps.Becomes (Ok (list.old ++ item ∷ [])) result list.new }
{
    match list.push(item) {
        Ok(()) => Ok(()),
        Err(AllocError) => Err(DeclareFault::OutOfMemory),
    }
}

/// The first of some numbers; 0 where there is none.
pub(crate) fn first(numbers: &[u32]) -> u32
    ensures { result ≡ steps.first numbers.now }
{
    match numbers.first() {
        Some(number) => *number,
        None => 0,
    }
}

/// The numbers behind the first.
pub(crate) fn others(numbers: &[u32]) -> &[u32]
    ensures { result.now ≡ steps.others numbers.now }
{
    match numbers.split_first() {
        Some((_, others)) => others,
        None => &[],
    }
}

/// The numbers that a lifetime of a list leaves.
pub(crate) fn left_by<'n>(lifetime: &Option<Ident>, numbers: &'n [u32]) -> &'n [u32]
    ensures { result.now ≡ written.left_by lifetime.now numbers.now }
{
    match lifetime {
        None => numbers,
        Some(_) => others(numbers),
    }
}

impl<'n> Reader<'n> {
    /// The numbers of the next entry; none where no entry is left.
    pub(crate) fn entry(&mut self) -> &'n [u32]
        ensures { steps.an_entry (reading self.old) ≡ Ok (result.now, reading self.new) }
    {
        match self.names.split_first() {
            Some((first, others)) => {
                self.names = others;
                first.numbers.as_slice()
            }
            None => &[],
        }
    }

    /// A lifetime that occurs.
    pub(crate) fn occurs(&mut self, lifetime: u32) -> Result<u32, DeclareFault>
        ensures { steps.Reads (steps.occurs lifetime (reading self.old)) result (reading self.new) }
    {
        push(&mut self.lifetimes, lifetime)?;
        Ok(lifetime)
    }

    /// A lifetime of its own, for a type that leaves it out. Where numbers of 32 bits run out it is as if memory did.
    pub(crate) fn another(&mut self) -> Result<u32, DeclareFault>
        ensures { steps.Reads (steps.another (reading self.old)) result (reading self.new) }
    {
        let lifetime = self.next;
        match lifetime.checked_add(1) {
            Some(next) => {
                self.next = next;
                self.occurs(lifetime)
            }
            None => Err(DeclareFault::OutOfMemory),
        }
    }

    /// A lifetime that a type leaves out.
    pub(crate) fn elided(&mut self, role: Role, span: Span) -> Result<u32, DeclareFault>
        ensures { steps.Reads (written.elided role span (reading self.old)) result (reading self.new) }
    {
        match role {
            Role::Field => Err(DeclareFault::Elision { at: span }),
            Role::Parameter => self.another(),
            Role::Answer(None) => Err(DeclareFault::Elision { at: span }),
            Role::Answer(Some(lifetime)) => self.occurs(lifetime),
            Role::Let(free) => self.occurs(free),
        }
    }

    /// A lifetime of a list, with the numbers of those that are written.
    pub(crate) fn one_listed(
        &mut self,
        role: Role,
        span: Span,
        lifetime: &Option<Ident>,
        numbers: &[u32],
    ) -> Result<u32, DeclareFault>
        ensures { steps.Reads (written.one_listed role span lifetime.now numbers.now (reading self.old)) result
            (reading self.new) }
    {
        match lifetime {
            None => self.elided(role, span),
            Some(_) => self.occurs(first(numbers)),
        }
    }

    /// The lifetime of a reference.
    pub(crate) fn lifetime_at(
        &mut self,
        role: Role,
        span: Span,
        lifetime: &Option<Ident>,
    ) -> Result<u32, DeclareFault>
        ensures { steps.Reads (written.lifetime_at role span lifetime.now (reading self.old)) result
            (reading self.new) }
    {
        match lifetime {
            None => self.elided(role, span),
            Some(_) => {
                let numbers = self.entry();
                self.occurs(first(numbers))
            }
        }
    }

    /// The numbers of a function's entry, which it has where it declares bounds of lifetimes, or parameters.
    pub(crate) fn entry_of(&mut self, bounded: &[u32], params: &[Param]) -> &'n [u32]
        ensures { items.entry_of bounded.now (map plain-Param params.now) (reading self.old)
            ≡ Ok (result.now, reading self.new) }
    {
        if bounded.is_empty() && params.is_empty() {
            &[]
        } else {
            self.entry()
        }
    }
}

//! The names in types.

ghost use Rattle.std.specs.Prelude.{◌≡◌, ℕ, suc, [], ◌∷◌, ◌++◌, length, map, Ok, Err, Some, None, Option, option_map, IfOk};
ghost use Rattle.rx_tree.specs.PlainOf.{plain-TypeText, types_of, plain-Item};
ghost use Rattle.rx_resolve_names.specs.Meant as meant;
ghost use Rattle.rx_resolve_names.specs.Steps as steps;
ghost use Rattle.rx_resolve_names.specs.Names as names;
ghost use Rattle.rx_resolve.specs.Walks as walks;

use crate::walk::Walk;
use rx_core::{List, Span};
use rx_resolve_names::Misnamed;
use rx_tree::{Ident, Item, ItemNode, TypeNode, TypeText};
use std::alloc::AllocError;

/// The number of a name that was looked up.
pub(crate) fn known(found: Option<u32>, at: Span) -> Result<u32, Misnamed>
    ensures { result ≡ steps.known found at }
{
    match found {
        Some(number) => Ok(number),
        None => Err(Misnamed::Unknown { at }),
    }
}

pub(crate) fn pushed(numbers: &mut List<u32>, number: u32) -> Result<(), Misnamed>
    ensures { steps.Resolves (Ok (numbers.old ++ number ∷ [])) result numbers.new }
{
    match numbers.push(number) {
        Ok(()) => Ok(()),
        Err(AllocError) => Err(Misnamed::OutOfMemory),
    }
}

impl<'w, 't> Walk<'w, 't> {
    /// The number of a lifetime that the item declares.
    pub(crate) fn lifetime(&self, name: &Ident) -> Result<u32, Misnamed>
        ensures { result ≡ names.lifetime_in (walks.inside self.now) name.now }
    {
        match self.lifetimes.get(name.name.as_str()) {
            Some(known) => Ok(known.number),
            None => Err(Misnamed::Unknown { at: name.span }),
        }
    }

    /// Adds an entry that has a lifetime's number, where one is written.
    fn lifetime_entry(&mut self, lifetime: &Option<Ident>) -> Result<(), Misnamed>
        ensures { walks.Walks (names.in_lifetime (walks.inside self.old) self.old.path lifetime.now self.old.tables) self.old result self.new }
    {
        match lifetime {
            Some(name) => {
                let number = self.lifetime(name)?;
                self.enter(&[number], false)
            }
            None => Ok(()),
        }
    }

    /// Adds the numbers of lifetimes that are written.
    fn push_lifetimes(
        &self,
        written: &[Option<Ident>],
        numbers: &mut List<u32>,
    ) -> Result<(), Misnamed>
        ensures { steps.Resolves (steps.both (Ok numbers.old) (names.lifetimes_in (walks.inside self.now) written.now)) result numbers.new }
    {
        for lifetime in written {
            if let Some(name) = lifetime {
                pushed(numbers, self.lifetime(name)?)?;
            }
        }
        Ok(())
    }

    /// Adds an entry of a type that is named, with the lifetimes that are written.
    fn named_type(
        &mut self,
        name: &Ident,
        written: &Option<List<Option<Ident>>>,
    ) -> Result<(), Misnamed>
        ensures { walks.Walks (steps.names (walks.inside self.old) self.old.path (steps.both (steps.one (names.type_in (walks.inside self.old) name.now)) (names.lifetimes_in (walks.inside self.old) (names.written written.now))) self.old.tables) self.old result self.new }
    {
        let mut numbers = List::new(self.alloc);
        let number = known(as_type(self.items.type_item(name.name.as_str())), name.span)?;
        pushed(&mut numbers, number)?;
        if let Some(lifetimes) = written {
            self.push_lifetimes(lifetimes.as_slice(), &mut numbers)?;
        }
        self.enter(numbers.as_slice(), false)
    }

    #[cycle(typ)]
    #[tactic(auto, using(rx_tree::proofs::Rules::type_rules, crate::proofs::WalkRules::walk_rules))]
    pub(crate) fn typ(&mut self, typ: &'t TypeText) -> Result<(), Misnamed>
        ensures { walks.Walks (names.in_type (walks.inside self.old) self.old.path (plain-TypeText typ.now) self.old.tables) self.old result self.new }
    {
        match &typ.node {
            TypeNode::Kind(_) | TypeNode::Bool => Ok(()),
            TypeNode::Tuple(types) => {
                self.types(0, types.as_slice())?;
                Ok(())
            }
            TypeNode::Ref(lifetime, _, inner) => {
                self.lifetime_entry(lifetime)?;
                self.child_type(0, inner.get())
            }
            TypeNode::Named(name, lifetimes) => self.named_type(name, lifetimes),
        }
    }

    /// A type that is a child of the node.
    #[cycle(typ)]
    #[tactic(auto, using(rx_tree::proofs::Rules::type_rules, crate::proofs::WalkRules::walk_rules))]
    pub(crate) fn child_type(&mut self, child: u32, typ: &'t TypeText) -> Result<(), Misnamed>
        ensures { walks.Walks (names.in_type (walks.inside self.old) (steps.child self.old.path child) (plain-TypeText typ.now) self.old.tables) self.old result self.new }
    {
        self.down(child)?;
        self.typ(typ)?;
        self.up();
        Ok(())
    }

    /// Types that are children of the node, from this one on; and the number of the child behind them.
    #[cycle(typ)]
    #[tactic(auto, using(rx_tree::proofs::Rules::type_rules, crate::proofs::WalkRules::walk_rules))]
    pub(crate) fn types(&mut self, first: u32, types: &'t [TypeText]) -> Result<u32, Misnamed>
        ensures tables { walks.Walks (names.in_types (walks.inside self.old) self.old.path first (types_of (map plain-TypeText types.now)) self.old.tables) self.old result self.new }
        ensures place { IfOk result (λ n. n ≡ names.behind first (types_of (map plain-TypeText types.now))) }
    {
        let mut child = first;
        for typ in types {
            self.child_type(child, typ)?;
            child = child.saturating_add(1);
        }
        Ok(child)
    }
}

/// The number of a struct or enum that was found.
pub(crate) fn as_type(found: Option<(u32, &Item)>) -> Option<u32>
    ensures { result ≡ meant.as_type (option_map (λ e. (e.0, plain-Item e.1.now)) found.entry) }
{
    match found {
        Some((number, item)) => match &item.node {
            ItemNode::Struct(_) | ItemNode::Enum(_) => Some(number),
            _ => None,
        },
        None => None,
    }
}

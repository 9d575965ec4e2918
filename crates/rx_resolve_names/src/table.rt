//! The names of a list, as of its parameters or fields, each with its number and its place.

ghost use Rattle.std.specs.Prelude.{◌≡◌, [], ◌∷◌, ◌++◌, None, Some, MatchOption, IfOk, length, slice_get, option_map};
ghost use Rattle.rx_resolve_names.specs.Scopes.{declared_as};

use indexmap::IndexMap;
use rx_core::Span;
use std::alloc::{AllocError, Global};
use std::marker::Model;

/// The number and the place of a name.
#[derive(Clone, Copy, Debug, PartialEq, Eq)]
pub struct NumberedName {
    pub number: u32,
    pub span: Span,
}

/// The names of a list in order, no two the same. Contracts see it as the list of them.
#[derive(Drop)]
pub struct Table<'t> {
    names: IndexMap<&'t str, NumberedName>,
}

impl<'t> Model for Table<'t> {
    ghost use Rattle.rx_resolve_names.specs.Scopes.{DeclaredNames};
    ghost use Rattle.rx_resolve_names.specs.Tables.{declared_of};

    ghost Value = { DeclaredNames };

    ghost view = { λ t. declared_of (λ n. n.now) t.names.entries };
}

impl<'t> Table<'t> {
    /// The empty list. It takes no memory.
    pub fn new(alloc: Global) -> Table<'t>
        ensures { result ≡ [] }
    {
        Table {
            names: IndexMap::new(alloc),
        }
    }

    /// What has this name.
    pub fn get(&self, name: &str) -> Option<NumberedName>
        ensures { result ≡ declared_as self.now name.now }
    {
        self.names.get(name).copied()
    }

    /// Adds a name at the end. Where the list has it, `Some` says what has it, and nothing changes.
    pub fn declare(
        &mut self,
        name: &'t str,
        known: NumberedName,
    ) -> Result<Option<NumberedName>, AllocError>
        ensures { IfOk result (λ first. (first ≡ declared_as self.old name.now) × MatchOption first (self.new ≡ self.old ++ (name.now, known) ∷ []) (λ _. self.new ≡ self.old)) }
    {
        match self.get(name) {
            Some(first) => Ok(Some(first)),
            None => {
                self.names.insert(name, known)?;
                Ok(None)
            }
        }
    }

    /// How many names there are.
    pub fn len(&self) -> usize
        ensures { result ≡ length self.now }
    {
        self.names.len()
    }

    /// The name at a place of the list, counted from 0, and what has it.
    pub fn entry(&self, at: usize) -> Option<(&'t str, NumberedName)>
        ensures { option_map (λ e. (e.0.now, e.1)) result ≡ slice_get self.now at }
    {
        let (name, known) = self.names.get_index(at)?;
        Some((*name, *known))
    }
}

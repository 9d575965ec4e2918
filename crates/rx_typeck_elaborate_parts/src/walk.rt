//! The walk over a function: what is given, and where the walk stands.

ghost use Rattle.std.specs.Prelude.{◌≡◌, option_map};
ghost use Rattle.rx_tree.specs.PlainOf.{plain-Pattern, plain-TypeText};
ghost use Rattle.rx_typed.specs.Naming as naming;
ghost use Rattle.rx_typeck_elaborate_parts.specs.Entries.{entry_of};
ghost use Rattle.rx_typeck_elaborate_parts.specs.Walks as walks;

use crate::marks::Given;
use crate::{Cursor, Entry};
use rx_core::Span;
use rx_tree::{Pattern, TypeText};
use rx_typed::{Node, Site};
use std::alloc::AllocError;

/// A walk over a function.
#[derive(Drop)]
pub struct Walk<'t> {
    pub given: Given<'t>,
    pub cursor: Cursor<'t>,
}

impl<'t> Walk<'t> {
    /// The next node.
    pub fn node(&mut self, span: Span, site: Site) -> Result<Node, AllocError>
        ensures { walks.Builds (λ n. n) (naming.a_node span site) (λ _ n. n) self.old result self.new }
    {
        self.cursor.node(span, site)
    }

    /// The next entry of names.
    pub fn entry(&mut self) -> Entry
        ensures entry { result ≡ entry_of (naming.an_entry self.old.cursor).0 }
        ensures walk { self.new ≡ walks.moved (naming.an_entry self.old.cursor).1 self.old }
    {
        self.cursor.entry()
    }

    /// The pattern and the type of a `let`, in front of the pattern, where a type is written.
    pub fn annotate(
        &mut self,
        pattern: &'t Pattern,
        typ: &'t Option<TypeText>,
    ) -> Result<(), AllocError>
        ensures { walks.Goes (naming.annotates (plain-Pattern pattern.now) (option_map plain-TypeText typ.now)) self.old result self.new }
    {
        match typ {
            Some(typ) => self.cursor.annotate(pattern, typ),
            None => Ok(()),
        }
    }
}

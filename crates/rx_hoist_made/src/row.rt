//! Names that are taken from a row one after the other.

ghost use Rattle.std.specs.Prelude.{◌≡◌, drop, length, IfOk};
ghost use Rattle.rx_hoist_extraction.specs.Made as made;
ghost use Rattle.rx_hoist_made.specs.Rows.{nth_name};

use rx_core::{Name, Span};
use rx_tree::Ident;
use std::alloc::{AllocError, Global};
use std::marker::Model;

/// The names that are left.
#[derive(Drop)]
pub struct Row<'a> {
    names: &'a [Name],
}

impl<'a> Model for Row<'a> {
    ghost use Rattle.rx_hoist_extraction.specs.Names.{Names};

    ghost Value = { Names };

    ghost view = { λ row. row.names.now };
}

impl<'a> Row<'a> {
    pub fn new(names: &'a [Name]) -> Row<'a>
        ensures { result ≡ names.now }
    {
        Row { names }
    }

    /// How many names are left.
    pub fn left(&self) -> usize
        ensures { result ≡ length self.now }
    {
        self.names.len()
    }

    /// Goes past the next name.
    pub fn skip(&mut self)
        ensures { self.new ≡ drop 1 self.old }
    {
        if let [_, rest @ ..] = self.names {
            self.names = rest;
        }
    }

    /// The next name; the empty one where none is left.
    pub fn next_name(&mut self, alloc: Global) -> Result<Name, AllocError>
        ensures name { IfOk result (λ it. it ≡ nth_name self.old 0) }
        ensures rest { self.new ≡ drop 1 self.old }
    {
        match self.names {
            [first, rest @ ..] => {
                self.names = rest;
                first.copy(alloc)
            }
            [] => Ok(Name::empty(alloc)),
        }
    }

    /// The next name, where it is written; the empty one where none is left.
    pub fn next(&mut self, alloc: Global, span: Span) -> Result<Ident, AllocError>
        ensures name { IfOk result (λ it. it ≡ made.ident span (nth_name self.old 0)) }
        ensures rest { self.new ≡ drop 1 self.old }
    {
        let name = self.next_name(alloc)?;
        Ok(Ident { span, name })
    }
}

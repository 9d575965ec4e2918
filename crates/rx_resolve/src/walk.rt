//! The walk over an item: where it stands, what is in scope there, and the tables that it fills.

ghost use Rattle.std.specs.Prelude.{◌≡◌, [], ◌∷◌, ◌++◌, length, map, Ok, Err, Some, None, OnOk, option_map};
ghost use Rattle.rx_tree.specs.PlainOf.{plain-Item};
ghost use Rattle.rx_resolve_names.specs.Meant as meant;
ghost use Rattle.rx_resolve_names.specs.Steps as steps;
ghost use Rattle.rx_resolve.specs.Walks as walks;

use crate::items::Items;
use rx_core::{LetGo, List, Position, Span};
use rx_resolve_names::{ItemNames, Misnamed, NodeNames, Scope, Table};
use rx_tree::{Ident, Item};
use std::alloc::{AllocError, Global};

/// What stands round an expression: a loop with its label and number, or the test of a loop.
#[derive(Clone, Copy)]
pub(crate) enum Around<'t> {
    Loop {
        label: Option<&'t Ident>,
        number: u32,
    },
    Test,
}

impl<'t> LetGo for Around<'t> {
    fn let_go(self) {}
}

/// A walk over an item.
#[derive(Drop)]
pub(crate) struct Walk<'w, 't> {
    pub(crate) alloc: Global,
    pub(crate) items: &'w Items<'t>,
    /// The item's number.
    pub(crate) item: u32,
    /// The lifetimes that the item declares.
    pub(crate) lifetimes: Table<'t>,
    /// The way from the item to the node where the walk stands.
    pub(crate) path: List<u32>,
    pub(crate) scope: Scope<'t>,
    /// The loops and tests round the node, the nearest last.
    pub(crate) around: List<Around<'t>>,
    pub(crate) tables: ItemNames,
}

impl<'w, 't> Walk<'w, 't> {
    /// Goes down to a child.
    pub(crate) fn down(&mut self, child: u32) -> Result<(), Misnamed>
        ensures { steps.Resolves (Ok (walks.with_path (steps.child self.old.path child) self.old)) result self.new }
    {
        match self.path.push(child) {
            Ok(()) => Ok(()),
            Err(AllocError) => Err(Misnamed::OutOfMemory),
        }
    }

    /// Goes back up to a node.
    pub(crate) fn up(&mut self)
        ensures { self.new ≡ walks.with_path (walks.above self.old.path) self.old }
    {
        self.path.pop();
    }

    /// Adds an entry for the node, with these numbers.
    pub(crate) fn enter(&mut self, numbers: &[u32], hidden: bool) -> Result<(), Misnamed>
        ensures { steps.Resolves (Ok (walks.with_tables (steps.with_names (record { node = record { item = self.old.item; path = self.old.path }; numbers = numbers.now; hidden = hidden }) self.old.tables) self.old)) result self.new }
    {
        let path = List::from_slice(self.alloc, self.path.as_slice());
        let numbers = List::from_slice(self.alloc, numbers);
        match (path, numbers) {
            (Ok(path), Ok(numbers)) => {
                let node = Position {
                    item: self.item,
                    path,
                };
                self.add(NodeNames {
                    node,
                    numbers,
                    hidden,
                })
            }
            _ => Err(Misnamed::OutOfMemory),
        }
    }

    fn add(&mut self, names: NodeNames) -> Result<(), Misnamed>
        ensures { steps.Resolves (Ok (walks.with_tables (steps.with_names names self.old.tables) self.old)) result self.new }
    {
        match self.tables.names.push(names) {
            Ok(()) => Ok(()),
            Err(AllocError) => Err(Misnamed::OutOfMemory),
        }
    }
}

//! The types that were found, looked at one step at a time.

ghost use Rattle.std.specs.Prelude.{◌≡◌};
ghost use Rattle.rx_typed.specs.Types as types;
ghost use Rattle.rx_typeck_solver.specs.Facts.{part_of};
ghost use Rattle.rx_typeck_solver.specs.Solving.{IsSound};
ghost use Rattle.rx_typeck_solver.specs.Views.{IsEntry, EntryIs, LookIs, PartIs, typ_at};

use crate::arena::Form;
use crate::facts::Subject;
use crate::kinds::pick;
use crate::last::{parent_at, set_at};
use crate::made::part_behind;
use crate::solver::Solved;
use rx_core::Kind;

/// The outermost form of a type.
#[derive(Clone, Copy, Debug, PartialEq, Eq)]
pub enum Look {
    Int(Kind),
    Bool,
    /// A tuple. Its parts are found by their numbers.
    Tuple,
    /// A reference: whether it is mutable, and the entry of the type that it points to.
    Reference(bool, usize),
    /// A struct or enum, by its item's number.
    Named(u32),
}

impl Solved {
    /// The entry of a subject's type, if a demand tells it.
    pub fn entry(&self, of: Subject) -> Option<usize>
        requires { IsSound self.now }
        ensures { EntryIs self.now of result }
    {
        match self.tables.shape(of) {
            Some(entry) => Some(entry),
            None => None,
        }
    }

    /// The outermost form of an entry's type.
    pub fn look(&self, entry: usize) -> Look
        requires sound { IsSound self.now }
        requires entry { IsEntry self.now entry }
        ensures { LookIs self.now result (typ_at self.now entry) }
    {
        match self.arena.form(entry) {
            Form::Fixed(kind) => Look::Int(kind),
            Form::KindOf(node) => {
                let class = parent_at(&self.tables.classes, node);
                Look::Int(pick(set_at(&self.tables.classes, class)))
            }
            Form::Boolean => Look::Bool,
            Form::Tuple(_) => Look::Tuple,
            Form::Reference(mutable, to) => Look::Reference(mutable, to),
            Form::Named(item) => Look::Named(item),
            // No entry of a type is a list.
            Form::Nothing => Look::Tuple,
            Form::And(_, _) => Look::Tuple,
        }
    }

    /// The entry of a part of a tuple by its number from 0; the tuple may stand behind references.
    pub fn part(&self, entry: usize, number: u64) -> Option<usize>
        requires sound { IsSound self.now }
        requires entry { IsEntry self.now entry }
        ensures { PartIs self.now result (part_of number (types.peeled (typ_at self.now entry))) }
    {
        part_behind(&self.arena, entry, number)
    }
}

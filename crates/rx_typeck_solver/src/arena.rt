//! Shapes of types, in which integer types of nodes are left open, as entries of a table.

ghost use Rattle.std.specs.Prelude.{◌≡◌, ◌<◌, ◌++◌, ◌∷◌, [], ℕ, List as ListOf, length, min, max, OnOk, IfOk, suc, ◌+◌, get_or};
ghost use Rattle.rx_typed.specs.Types as types;
ghost use Rattle.rx_typeck_solver.specs.Solver as solver;
ghost use Rattle.rx_typeck_solver.specs.Cells.{one, many, cell, term, shapes_in, form_at, parts_at, levels_at, sizes_of, IsTerm, IsList, Built, Makes};

use rx_core::{Kind, List};
use std::alloc::{AllocError, Global};

/// An entry's form. It names lower entries alone.
#[derive(Clone, Copy, Debug, PartialEq, Eq)]
pub(crate) enum Form {
    Fixed(Kind),
    /// The integer type of a node, which is open.
    KindOf(usize),
    Boolean,
    /// A tuple, by the list of its parts.
    Tuple(usize),
    Reference(bool, usize),
    Named(u32),
    /// The empty list of shapes.
    Nothing,
    /// A list of shapes: the first, and the list of the others.
    And(usize, usize),
}

/// A shape or a list of shapes, with its parts up to 4,097 and its levels up to 129.
#[derive(Clone, Copy, Debug)]
pub(crate) struct Entry {
    pub(crate) form: Form,
    pub(crate) parts: u32,
    pub(crate) levels: u32,
}

/// A table of shapes, in which each stands over lower ones.
#[derive(Drop)]
pub(crate) struct Arena {
    pub(crate) entries: Vec<Entry>,
}

/// The sum of parts, as far as the limit goes.
fn few_parts(a: u32, b: u32) -> u32
    ensures { result ≡ min (a + b) 4097 }
{
    a.saturating_add(b).min(4097)
}

/// One level more, as far as the limit goes.
fn level_more(levels: u32) -> u32
    ensures { result ≡ min (levels + 1) 129 }
{
    levels.saturating_add(1).min(129)
}

/// How many parts a struct or enum has, as far as the limit goes.
fn item_parts(sizes: &List<u64>, item: u32) -> u32
    ensures { result ≡ min (sizes_of sizes.now item) 4097 }
{
    match sizes.get(item as usize) {
        Some(parts) => (*parts).min(4097) as u32,
        None => 1,
    }
}

impl Arena {
    /// No entries. It takes no memory.
    pub(crate) fn new(alloc: Global) -> Arena
        ensures { result.entries.items ≡ [] }
    {
        Arena {
            entries: Vec::new(alloc),
        }
    }

    /// The form of an entry.
    pub(crate) fn form(&self, at: usize) -> Form
        requires { at < length self.now.entries.items }
        ensures { result ≡ form_at self.now.entries.items at }
    {
        self.entries[at].form
    }

    /// The parts of an entry, up to 4,097.
    pub(crate) fn parts(&self, at: usize) -> u32
        requires { at < length self.now.entries.items }
        ensures { result ≡ parts_at self.now.entries.items at }
    {
        self.entries[at].parts
    }

    /// The levels of an entry, up to 129.
    pub(crate) fn levels(&self, at: usize) -> u32
        requires { at < length self.now.entries.items }
        ensures { result ≡ levels_at self.now.entries.items at }
    {
        self.entries[at].levels
    }

    /// Adds an entry, and gives its number.
    fn add(&mut self, form: Form, parts: u32, levels: u32) -> Result<usize, AllocError>
        ensures { IfOk result (λ at. (self.new.entries.items ≡ self.old.entries.items ++ (record { form = form; parts = parts; levels = levels }) ∷ []) × (at ≡ length self.old.entries.items)) }
    {
        let at = self.entries.len();
        match self.entries.push(Entry {
            form,
            parts,
            levels,
        }) {
            Ok(()) => Ok(at),
            Err(_) => Err(AllocError),
        }
    }

    /// An integer type that is known.
    pub(crate) fn fixed(&mut self, kind: Kind) -> Result<usize, AllocError>
        ensures { IfOk result (λ i. (sizes : ListOf ℕ) (n : ℕ) → Built sizes n self.old.entries.items → Makes sizes n self.old.entries.items self.new.entries.items i (one (types.integer (solver.Fixed kind)))) }
    {
        self.add(Form::Fixed(kind), 1, 1)
    }

    /// The integer type of a node, which is open.
    pub(crate) fn kind_of(&mut self, node: usize) -> Result<usize, AllocError>
        ensures { IfOk result (λ i. (sizes : ListOf ℕ) (n : ℕ) → node < n → Built sizes n self.old.entries.items → Makes sizes n self.old.entries.items self.new.entries.items i (one (types.integer (solver.KindOf node)))) }
    {
        self.add(Form::KindOf(node), 1, 1)
    }

    pub(crate) fn boolean(&mut self) -> Result<usize, AllocError>
        ensures { IfOk result (λ i. (sizes : ListOf ℕ) (n : ℕ) → Built sizes n self.old.entries.items → Makes sizes n self.old.entries.items self.new.entries.items i (one types.boolean)) }
    {
        self.add(Form::Boolean, 1, 1)
    }

    /// A struct or enum by its item's number; `sizes` has the parts of items, where they aren't one.
    pub(crate) fn named(&mut self, sizes: &List<u64>, item: u32) -> Result<usize, AllocError>
        ensures { IfOk result (λ i. (n : ℕ) → Built sizes.now n self.old.entries.items → Makes sizes.now n self.old.entries.items self.new.entries.items i (one (types.named item))) }
    {
        self.add(Form::Named(item), item_parts(sizes, item), 1)
    }

    /// The empty list of shapes.
    pub(crate) fn nothing(&mut self) -> Result<usize, AllocError>
        ensures { IfOk result (λ i. (sizes : ListOf ℕ) (n : ℕ) → Built sizes n self.old.entries.items → Makes sizes n self.old.entries.items self.new.entries.items i (many types.no_shape)) }
    {
        self.add(Form::Nothing, 0, 0)
    }

    /// A reference to a shape.
    pub(crate) fn reference(&mut self, mutable: bool, to: usize) -> Result<usize, AllocError>
        requires { to < length self.old.entries.items }
        ensures { IfOk result (λ i. (sizes : ListOf ℕ) (n : ℕ) → IsTerm self.old.entries.items to → Built sizes n self.old.entries.items → Makes sizes n self.old.entries.items self.new.entries.items i (one (types.reference mutable (term self.old.entries.items to)))) }
    {
        let parts = few_parts(self.parts(to), 1);
        let levels = level_more(self.levels(to));
        self.add(Form::Reference(mutable, to), parts, levels)
    }

    /// The tuple of a list of shapes.
    pub(crate) fn tuple(&mut self, list: usize) -> Result<usize, AllocError>
        requires { list < length self.old.entries.items }
        ensures { IfOk result (λ i. (sizes : ListOf ℕ) (n : ℕ) → IsList self.old.entries.items list → Built sizes n self.old.entries.items → Makes sizes n self.old.entries.items self.new.entries.items i (one (types.tuple_of (shapes_in (cell self.old.entries.items list))))) }
    {
        let parts = self.parts(list).max(1);
        let levels = level_more(self.levels(list));
        self.add(Form::Tuple(list), parts, levels)
    }

    /// The list of a shape and those of another list.
    pub(crate) fn and(&mut self, first: usize, list: usize) -> Result<usize, AllocError>
        requires first { first < length self.old.entries.items }
        requires list { list < length self.old.entries.items }
        ensures { IfOk result (λ i. (sizes : ListOf ℕ) (n : ℕ) → IsTerm self.old.entries.items first → IsList self.old.entries.items list → Built sizes n self.old.entries.items → Makes sizes n self.old.entries.items self.new.entries.items i (many (types.shape_and (term self.old.entries.items first) (shapes_in (cell self.old.entries.items list))))) }
    {
        let parts = few_parts(self.parts(first), self.parts(list));
        let levels = self.levels(first).max(self.levels(list));
        self.add(Form::And(first, list), parts, levels)
    }
}

//! The shapes of subjects, and the classes of nodes whose integer types are open.

ghost use Rattle.std.specs.Prelude.{◌≡◌, ◌⊎◌, ◌+◌, ◌<◌, ◌≤◌, ℕ, [], List as ListOf, length, get_or, Option, Some, None, OnOk, IfOk, OnSome, IsSome, IsTrue};
ghost use Rattle.rx_typed.specs.Types as types;
ghost use Rattle.rx_typeck_solver.specs.declared.facts.Subject as subject;
ghost use Rattle.rx_typeck_solver.specs.declared.facts.Subject.TheVariants as subjects;
ghost use Rattle.rx_typeck_solver.specs.Solver as solver;
ghost use Rattle.rx_typeck_solver.specs.Parents.{rep_of, set_of, Classed, state_in, step_if};
ghost use Rattle.rx_typeck_solver.specs.Cells.{cell, term, Formed, Formable, Built, IsTerm, Extends};
ghost use Rattle.rx_typeck_solver.specs.Tabled.{index_of, table_of, state_of, AreTrimmed, Fits, Sized, Sizable};
ghost use Rattle.rx_typeck_solver.specs.Trimmed.{IsTrimmed};

use crate::arena::{Arena, Form};
use crate::classes::Classes;
use crate::facts::{Kinds, Subject};
use crate::kinds::{all_kinds, has, some_kind};
use crate::unify::unify;
use std::alloc::{AllocError, Global};

/// The entries of subjects' shapes, by the numbers of variables and nodes.
#[derive(Drop)]
pub(crate) struct Tables {
    pub(crate) variables: Vec<Option<usize>>,
    pub(crate) nodes: Vec<Option<usize>>,
    pub(crate) expected: Vec<Option<usize>>,
    pub(crate) classes: Classes,
}

/// What stands at a place of a table; past its end, nothing.
fn read(table: &[Option<usize>], at: usize) -> Option<usize>
    ensures { result ≡ get_or table.now at None }
{
    if at < table.len() { table[at] } else { None }
}

/// Makes a table so long that it has the place.
fn lengthen(table: &mut Vec<Option<usize>>, at: usize) -> Result<(), AllocError>
    ensures longer { OnOk result (at < length table.new.items) }
    ensures no_longer { OnOk result ((table.new.items ≡ table.old.items) ⊎ (length table.new.items ≤ at + 1)) }
    ensures same { OnOk result ((z : ℕ) → get_or table.new.items z None ≡ get_or table.old.items z None) }
{
    while table.len() <= at {
        match table.push(None) {
            Ok(()) => (),
            Err(_) => return Err(AllocError),
        }
    }
    Ok(())
}

/// Writes an entry to a place of a table.
fn write(table: &mut Vec<Option<usize>>, at: usize, entry: usize) -> Result<(), AllocError>
    ensures here { OnOk result (get_or table.new.items at None ≡ Some entry) }
    ensures other { OnOk result ((z : ℕ) → (z ≡ at → ⊥) → get_or table.new.items z None ≡ get_or table.old.items z None) }
    ensures trimmed { OnOk result (IsTrimmed table.old.items → IsTrimmed table.new.items) }
{
    match lengthen(table, at) {
        Ok(()) => {
            table[at] = Some(entry);
            Ok(())
        }
        Err(_) => Err(AllocError),
    }
}

impl Tables {
    /// Tables in which nothing is known. They take no memory.
    pub(crate) fn new(alloc: Global) -> Tables
        ensures variables { result.variables.items ≡ [] }
        ensures nodes { result.nodes.items ≡ [] }
        ensures expected { result.expected.items ≡ [] }
        ensures parents { result.classes.parents.items ≡ [] }
        ensures sets { result.classes.sets.items ≡ [] }
    {
        Tables {
            variables: Vec::new(alloc),
            nodes: Vec::new(alloc),
            expected: Vec::new(alloc),
            classes: Classes::new(alloc),
        }
    }

    /// The entry of a subject's shape, if it is known.
    #[tactic(auto, unfolding(crate::specs::Tabled::index_of))]
    pub(crate) fn shape(&self, of: Subject) -> Option<usize>
        ensures { result ≡ index_of self.now of }
    {
        match of {
            Subject::Variable(variable) => read(&self.variables, variable as usize),
            Subject::Node(node) => read(&self.nodes, node),
            Subject::Expected(node) => read(&self.expected, node),
        }
    }

    /// Gives a subject its shape.
    pub(crate) fn put(&mut self, of: Subject, entry: usize) -> Result<(), AllocError>
        ensures here { OnOk result (index_of self.new of ≡ Some entry) }
        ensures other { OnOk result ((z : subject.Subject) → (z ≡ of → ⊥) → index_of self.new z ≡ index_of self.old z) }
        ensures classes { OnOk result (self.new.classes ≡ self.old.classes) }
        ensures trimmed { OnOk result (AreTrimmed self.old → AreTrimmed self.new) }
    {
        match of {
            Subject::Variable(variable) => write(&mut self.variables, variable as usize, entry),
            Subject::Node(node) => write(&mut self.nodes, node, entry),
            Subject::Expected(node) => write(&mut self.expected, node, entry),
        }
    }
}

/// What stands under all references.
pub(crate) fn peeled(arena: &Arena, entry: usize) -> usize
    requires term { IsTerm arena.now.entries.items entry }
    requires formed { Formable arena.now.entries.items }
    ensures value { term arena.now.entries.items result ≡ types.peeled (term arena.now.entries.items entry) }
    ensures term { IsTerm arena.now.entries.items result }
{
    let mut at = entry;
    while let Form::Reference(_, to) = arena.form(at) {
        at = to;
    }
    at
}

/// An entry is an integer type of these. Whether it can be.
pub(crate) fn integer_in(arena: &Arena, classes: &mut Classes, entry: usize, kinds: Kinds) -> bool
    requires term { IsTerm arena.now.entries.items entry }
    requires formed { Formed (length classes.old.parents.items) arena.now.entries.items }
    requires classed { Classed classes.old.parents.items classes.old.sets.items }
    ensures step { (tab : subject.Subject → Option solver.Term) → solver.integer_in (term arena.now.entries.items entry) kinds (state_in tab classes.old.parents.items classes.old.sets.items) ≡ step_if result (state_in tab classes.new.parents.items classes.new.sets.items) }
    ensures classed { Classed classes.new.parents.items classes.new.sets.items }
    ensures as_many { length classes.new.parents.items ≡ length classes.old.parents.items }
{
    match arena.form(entry) {
        Form::Fixed(kind) => has(kinds, kind),
        Form::KindOf(node) => classes.restrict(node, kinds),
        _ => false,
    }
}

/// A subject has this shape: it is given it, or what it has is made equal. Whether that can be.
pub(crate) fn learn(
    arena: &Arena,
    tables: &mut Tables,
    of: Subject,
    entry: usize,
) -> Result<bool, AllocError>
    requires fits { Fits arena.now.entries.items tables.old }
    requires term { IsTerm arena.now.entries.items entry }
    ensures step { IfOk result (λ goes. solver.learn (table_of arena.now.entries.items tables.old of) of (term arena.now.entries.items entry) (state_of arena.now.entries.items tables.old) ≡ step_if goes (state_of arena.now.entries.items tables.new)) }
    ensures fits { OnOk result (Fits arena.now.entries.items tables.new) }
{
    match tables.shape(of) {
        None => match tables.put(of, entry) {
            Ok(()) => Ok(true),
            Err(_) => Err(AllocError),
        },
        Some(known) => Ok(unify(arena, &mut tables.classes, known, entry)),
    }
}

/// Gives the classes so many nodes that they have this one.
fn reach(classes: &mut Classes, node: usize) -> Result<(), AllocError>
    requires classed { Classed classes.old.parents.items classes.old.sets.items }
    ensures classed { OnOk result (Classed classes.new.parents.items classes.new.sets.items) }
    ensures reps { OnOk result (rep_of classes.new.parents.items ≡ rep_of classes.old.parents.items) }
    ensures sets { OnOk result (set_of classes.new.sets.items ≡ set_of classes.old.sets.items) }
    ensures within { OnOk result (node < length classes.new.parents.items) }
    ensures longer { OnOk result (length classes.old.parents.items ≤ length classes.new.parents.items) }
{
    while classes.parents.len() <= node {
        let next = classes.parents.len();
        match classes.parents.push(next) {
            Ok(()) => (),
            Err(_) => return Err(AllocError),
        }
        match classes.sets.push(all_kinds()) {
            Ok(()) => (),
            Err(_) => return Err(AllocError),
        }
    }
    Ok(())
}

/// A node without a shape gets an open integer type of these. Whether there is one.
fn fresh(
    arena: &mut Arena,
    tables: &mut Tables,
    node: usize,
    kinds: Kinds,
) -> Result<bool, AllocError>
    requires fits { Fits arena.old.entries.items tables.old }
    requires sizable { Sizable arena.old.entries.items }
    ensures step { IfOk result (λ goes. solver.fresh node kinds (state_of arena.old.entries.items tables.old) ≡ step_if goes (state_of arena.new.entries.items tables.new)) }
    ensures fits { OnOk result (Fits arena.new.entries.items tables.new) }
    ensures sized { OnOk result ((sizes : ListOf ℕ) → Sized sizes arena.old.entries.items → Sized sizes arena.new.entries.items) }
{
    if !some_kind(kinds) {
        return Ok(false);
    }
    match reach(&mut tables.classes, node) {
        Ok(()) => (),
        Err(_) => return Err(AllocError),
    }
    let entry = match arena.kind_of(node) {
        Ok(entry) => entry,
        Err(_) => return Err(AllocError),
    };
    match tables.put(Subject::Node(node), entry) {
        Ok(()) => (),
        Err(_) => return Err(AllocError),
    }
    tables.classes.sets[node] = kinds;
    Ok(true)
}

/// A node has one of these integer types. Whether it can.
pub(crate) fn integer(
    arena: &mut Arena,
    tables: &mut Tables,
    node: usize,
    kinds: Kinds,
) -> Result<bool, AllocError>
    requires fits { Fits arena.old.entries.items tables.old }
    requires sizable { Sizable arena.old.entries.items }
    ensures step { IfOk result (λ goes. solver.integer_at (table_of arena.old.entries.items tables.old (subjects.Node node)) node kinds (state_of arena.old.entries.items tables.old) ≡ step_if goes (state_of arena.new.entries.items tables.new)) }
    ensures fits { OnOk result (Fits arena.new.entries.items tables.new) }
    ensures sized { OnOk result ((sizes : ListOf ℕ) → Sized sizes arena.old.entries.items → Sized sizes arena.new.entries.items) }
{
    match tables.shape(Subject::Node(node)) {
        None => fresh(arena, tables, node, kinds),
        Some(known) => Ok(integer_in(arena, &mut tables.classes, known, kinds)),
    }
}

/// A node has, behind references if any, one of these integer types. Whether it can.
pub(crate) fn integer_behind(arena: &Arena, tables: &mut Tables, node: usize, kinds: Kinds) -> bool
    requires fits { Fits arena.now.entries.items tables.old }
    requires known { IsSome (table_of arena.now.entries.items tables.old (subjects.Node node)) }
    ensures step { solver.behind_at (table_of arena.now.entries.items tables.old (subjects.Node node)) kinds (state_of arena.now.entries.items tables.old) ≡ step_if result (state_of arena.now.entries.items tables.new) }
    ensures fits { Fits arena.now.entries.items tables.new }
{
    match tables.shape(Subject::Node(node)) {
        None => unreachable!(),
        Some(known) => {
            let under = peeled(arena, known);
            integer_in(arena, &mut tables.classes, under, kinds)
        }
    }
}

//! Whether the types that were found are the only ones that prefer i32.

ghost use Rattle.std.specs.Prelude.{◌≡◌, ◌<◌, ℕ, List as ListOf, Bool, false, length, get_or, IfOk, Some};
ghost use Rattle.rx_typeck_solver.specs.declared.facts.Subject.TheVariants as subjects;
ghost use Rattle.std.specs.Bool.{Decides};
ghost use Rattle.rx_typeck_solver.specs.Solver as solver;
ghost use Rattle.rx_typeck_solver.specs.Parents.{set_of};
ghost use Rattle.rx_typeck_solver.specs.Cells.{term, Formable, IsTerm};
ghost use Rattle.rx_typeck_solver.specs.Tabled.{table_of, state_of, Fits};
ghost use Rattle.rx_typeck_solver.specs.Ends.{Flat, LiteralsAre, ClassesAre, MarksAre, NodeIs, class_behind};

use crate::arena::{Arena, Form};
use crate::classes::Classes;
use crate::facts::{Kinds, Subject};
use crate::kinds::{all_kinds, single};
use crate::tables::{Tables, peeled};
use rx_core::List;
use std::alloc::{AllocError, Global};

/// The integer types of a class.
#[tactic(auto, unfolding(crate::specs::Parents::set_of))]
pub(crate) fn set_at(classes: &Classes, class: usize) -> Kinds
    ensures { result ≡ set_of classes.now.sets.items class }
{
    if class < classes.sets.len() {
        classes.sets[class]
    } else {
        all_kinds()
    }
}

/// A node's parent, which is the least of its class.
pub(crate) fn parent_at(classes: &Classes, node: usize) -> usize
    ensures { result ≡ get_or classes.now.parents.items node node }
{
    if node < classes.parents.len() {
        classes.parents[node]
    } else {
        node
    }
}

/// The class of the open integer type of a node, behind references if any.
fn class_at(arena: &Arena, tables: &Tables, node: usize) -> Option<usize>
    requires fits { Fits arena.now.entries.items tables.now }
    requires flat { Flat tables.now.classes.parents.items }
    ensures { result ≡ class_behind (state_of arena.now.entries.items tables.now) (table_of arena.now.entries.items tables.now (subjects.Node node)) }
{
    match tables.shape(Subject::Node(node)) {
        Some(entry) => match arena.form(peeled(arena, entry)) {
            Form::KindOf(open) => Some(parent_at(&tables.classes, open)),
            _ => None,
        },
        None => None,
    }
}

/// Whether a class with an unsuffixed literal has one integer type, or can be i32.
fn open_fine(kinds: Kinds) -> bool
    ensures { result ≡ solver.open_fine kinds }
{
    single(kinds) || kinds.i32
}

/// Whether an unsuffixed literal has one integer type, or can be i32.
fn literal_fine(arena: &Arena, tables: &Tables, node: usize) -> bool
    requires fits { Fits arena.now.entries.items tables.now }
    requires flat { Flat tables.now.classes.parents.items }
    ensures { result ≡ solver.literal_fine (state_of arena.now.entries.items tables.now) (table_of arena.now.entries.items tables.now (subjects.Node node)) }
{
    match class_at(arena, tables, node) {
        Some(class) => open_fine(set_at(&tables.classes, class)),
        None => true,
    }
}

/// The first unsuffixed literal that has several integer types and can't be i32.
pub(crate) fn unclear_literal(
    arena: &Arena,
    tables: &Tables,
    literals: &List<usize>,
) -> Option<usize>
    requires fits { Fits arena.now.entries.items tables.now }
    requires flat { Flat tables.now.classes.parents.items }
    ensures { LiteralsAre (state_of arena.now.entries.items tables.now) literals.now result }
{
    for node in literals.as_slice() {
        if !literal_fine(arena, tables, *node) {
            return Some(*node);
        }
    }
    None
}

/// So many marks, none of them set.
fn no_marks(alloc: Global, count: usize) -> Result<Vec<bool>, AllocError>
    ensures { IfOk result (λ marks. (length marks.items ≡ count) × ((c : ℕ) → get_or marks.items c false ≡ false)) }
{
    let mut marks = Vec::new(alloc);
    for _mark in 0..count {
        match marks.push(false) {
            Ok(()) => (),
            Err(_) => return Err(AllocError),
        }
    }
    Ok(marks)
}

/// The classes with an unsuffixed literal.
fn marked(
    alloc: Global,
    arena: &Arena,
    tables: &Tables,
    literals: &List<usize>,
) -> Result<Vec<bool>, AllocError>
    requires fits { Fits arena.now.entries.items tables.now }
    requires flat { Flat tables.now.classes.parents.items }
    ensures { IfOk result (λ marks. MarksAre (state_of arena.now.entries.items tables.now) literals.now (length tables.now.classes.parents.items) marks.items) }
{
    let mut marks = match no_marks(alloc, tables.classes.parents.len()) {
        Ok(marks) => marks,
        Err(_) => return Err(AllocError),
    };
    for node in literals.as_slice() {
        match class_at(arena, tables, *node) {
            Some(class) => {
                if class < marks.len() {
                    marks[class] = true;
                }
            }
            None => (),
        }
    }
    Ok(marks)
}

/// Whether a node is open.
fn is_open(arena: &Arena, tables: &Tables, node: usize) -> bool
    requires fits { Fits arena.now.entries.items tables.now }
    ensures { Decides result (solver.Root (table_of arena.now.entries.items tables.now) node) }
{
    match tables.shape(Subject::Node(node)) {
        Some(entry) => match arena.form(entry) {
            Form::KindOf(open) => open == node,
            _ => false,
        },
        None => false,
    }
}

/// Whether a class is marked.
fn mark_at(marks: &[bool], class: usize) -> bool
    ensures { result ≡ get_or marks.now class false }
{
    if class < marks.len() {
        marks[class]
    } else {
        false
    }
}

/// Whether an open node's class has one integer type, or a literal.
fn node_fine(arena: &Arena, tables: &Tables, marks: &[bool], node: usize) -> bool
    requires fits { Fits arena.now.entries.items tables.now }
    requires flat { Flat tables.now.classes.parents.items }
    ensures { (ls : ListOf ℕ) → MarksAre (state_of arena.now.entries.items tables.now) ls (length tables.now.classes.parents.items) marks.now → NodeIs (state_of arena.now.entries.items tables.now) ls node result }
{
    if is_open(arena, tables, node) {
        let class = parent_at(&tables.classes, node);
        let kinds = set_at(&tables.classes, class);
        let alone = single(kinds);
        let marked = mark_at(marks, class);
        alone || marked
    } else {
        true
    }
}

/// The first open node whose class has several integer types, and no literal.
pub(crate) fn unclear_class(
    alloc: Global,
    arena: &Arena,
    tables: &Tables,
    literals: &List<usize>,
) -> Result<Option<usize>, AllocError>
    requires fits { Fits arena.now.entries.items tables.now }
    requires flat { Flat tables.now.classes.parents.items }
    ensures { IfOk result (λ r. ClassesAre (state_of arena.now.entries.items tables.now) literals.now r) }
{
    let marks = match marked(alloc, arena, tables, literals) {
        Ok(marks) => marks,
        Err(_) => return Err(AllocError),
    };
    for node in 0..tables.nodes.len() {
        if !node_fine(arena, tables, &marks, node) {
            return Ok(Some(node));
        }
    }
    Ok(None)
}

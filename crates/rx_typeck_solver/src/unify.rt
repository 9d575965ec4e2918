//! Shapes that are to be equal.

ghost use Rattle.std.specs.Prelude.{◌≡◌, ◌<◌, length, Option};
ghost use Rattle.rx_typeck_solver.specs.declared.facts.Subject as subject;
ghost use Rattle.rx_typeck_solver.specs.Solver as solver;
ghost use Rattle.rx_typeck_solver.specs.Parents.{Classed, state_in, step_if};
ghost use Rattle.rx_typeck_solver.specs.Cells.{cell, Formed};
ghost use Rattle.rx_typeck_solver.specs.Pairs.{unify_cells, pair_of};

use crate::arena::{Arena, Form};
use crate::classes::Classes;
use crate::kinds::only;
use rx_core::Kind;

/// What two forms ask where they are to be equal.
#[derive(Clone, Copy, Debug, PartialEq, Eq)]
pub(crate) enum Pair {
    /// An answer at once.
    Done(bool),
    /// A node has this integer type.
    Restrict(usize, Kind),
    /// Two nodes have the same integer type.
    Merge(usize, usize),
    /// Two lower entries are equal.
    Below(usize, usize),
    /// Two and two lower entries are equal.
    Both(usize, usize, usize, usize),
}

/// What two forms ask.
fn compared(a: Form, b: Form) -> Pair
    ensures { result ≡ pair_of a b }
{
    match a {
        Form::Fixed(k) => match b {
            Form::Fixed(l) => Pair::Done(k == l),
            Form::KindOf(m) => Pair::Restrict(m, k),
            _ => Pair::Done(false),
        },
        Form::KindOf(n) => match b {
            Form::Fixed(l) => Pair::Restrict(n, l),
            Form::KindOf(m) => Pair::Merge(n, m),
            _ => Pair::Done(false),
        },
        Form::Boolean => Pair::Done(b == Form::Boolean),
        Form::Tuple(i) => match b {
            Form::Tuple(j) => Pair::Below(i, j),
            _ => Pair::Done(false),
        },
        Form::Reference(m, i) => match b {
            Form::Reference(n, j) => {
                if m == n {
                    Pair::Below(i, j)
                } else {
                    Pair::Done(false)
                }
            }
            _ => Pair::Done(false),
        },
        Form::Named(i) => match b {
            Form::Named(j) => Pair::Done(i == j),
            _ => Pair::Done(false),
        },
        Form::Nothing => Pair::Done(b == Form::Nothing),
        Form::And(i, k) => match b {
            Form::And(j, l) => Pair::Both(i, j, k, l),
            _ => Pair::Done(false),
        },
    }
}

/// Makes two entries equal, as far as that can be: whether it can.
#[cycle(unify)]
pub(crate) fn unify(arena: &Arena, classes: &mut Classes, a: usize, b: usize) -> bool
    requires a { a < length arena.now.entries.items }
    requires b { b < length arena.now.entries.items }
    requires built { Formed (length classes.old.parents.items) arena.now.entries.items }
    requires classed { Classed classes.old.parents.items classes.old.sets.items }
    ensures step { (tab : subject.Subject → Option solver.Term) → unify_cells (cell arena.now.entries.items a) (cell arena.now.entries.items b) (state_in tab classes.old.parents.items classes.old.sets.items) ≡ step_if result (state_in tab classes.new.parents.items classes.new.sets.items) }
    ensures classed { Classed classes.new.parents.items classes.new.sets.items }
    ensures as_many { length classes.new.parents.items ≡ length classes.old.parents.items }
{
    if a == b {
        return true;
    }
    match compared(arena.form(a), arena.form(b)) {
        Pair::Done(answer) => answer,
        Pair::Restrict(n, kind) => classes.restrict(n, only(kind)),
        Pair::Merge(n, m) => classes.merge(n, m),
        Pair::Below(i, j) => unify(arena, classes, i, j),
        Pair::Both(i, j, k, l) => unify(arena, classes, i, j) && unify(arena, classes, k, l),
    }
}

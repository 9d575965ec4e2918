//! Classes of nodes whose integer types are the same, each with the integer types that it may have.

ghost use Rattle.std.specs.Prelude.{◌≡◌, ◌<◌, ◌≤◌, ◌++◌, ◌∷◌, [], length, Option, OnOk};
ghost use Rattle.rx_typeck_solver.specs.declared.facts.Subject as subject;
ghost use Rattle.rx_typeck_solver.specs.Solver as solver;
ghost use Rattle.rx_typeck_solver.specs.Parents.{rep_of, Falling, Classed, state_in, step_if};
ghost use Rattle.rx_typeck_solver.specs.Ends.{Flat};

use crate::facts::Kinds;
use crate::kinds::{all_kinds, meet, some_kind};
use std::alloc::{AllocError, Global};

/// Each node has a parent, itself or a lower one, and stands in the class of its parent. The least node names a class,
/// and has its set.
#[derive(Drop)]
pub(crate) struct Classes {
    pub(crate) parents: Vec<usize>,
    pub(crate) sets: Vec<Kinds>,
}

/// The least node of a node's class. On the way each second node gets its parent's parent for its own.
#[tactic(auto, using(crate::proofs::Parenthood::halved))]
fn find(parents: &mut Vec<usize>, node: usize) -> usize
    requires within { node < length parents.old.items }
    requires falling { Falling parents.old.items }
    ensures rep { result ≡ rep_of parents.old.items node }
    ensures same { rep_of parents.new.items ≡ rep_of parents.old.items }
    ensures falling { Falling parents.new.items }
    ensures as_long { length parents.new.items ≡ length parents.old.items }
{
    let mut at = node;
    while parents[at] != at {
        let above = parents[parents[at]];
        parents[at] = above;
        at = above;
    }
    at
}

/// Gives each node the least of its class for its parent.
pub(crate) fn flatten(parents: &mut Vec<usize>)
    requires falling { Falling parents.old.items }
    ensures same { rep_of parents.new.items ≡ rep_of parents.old.items }
    ensures falling { Falling parents.new.items }
    ensures as_long { length parents.new.items ≡ length parents.old.items }
    ensures flat { Flat parents.new.items }
{
    for node in 0..parents.len() {
        let above = parents[parents[node]];
        parents[node] = above;
    }
}

impl Classes {
    /// No classes. It takes no memory.
    pub(crate) fn new(alloc: Global) -> Classes
        ensures parents { result.parents.items ≡ [] }
        ensures sets { result.sets.items ≡ [] }
    {
        Classes {
            parents: Vec::new(alloc),
            sets: Vec::new(alloc),
        }
    }

    /// The class of a node may have these integer types at most. Whether there is still one.
    pub(crate) fn restrict(&mut self, node: usize, kinds: Kinds) -> bool
        requires within { node < length self.old.parents.items }
        requires classed { Classed self.old.parents.items self.old.sets.items }
        ensures step { (tab : subject.Subject → Option solver.Term) → solver.restrict node kinds (state_in tab self.old.parents.items self.old.sets.items) ≡ step_if result (state_in tab self.new.parents.items self.new.sets.items) }
        ensures classed { Classed self.new.parents.items self.new.sets.items }
        ensures as_many { length self.new.parents.items ≡ length self.old.parents.items }
    {
        let rep = find(&mut self.parents, node);
        let both = meet(self.sets[rep], kinds);
        if some_kind(both) {
            self.sets[rep] = both;
            true
        } else {
            false
        }
    }

    /// The classes of two nodes become one. Whether it has an integer type.
    pub(crate) fn merge(&mut self, first: usize, second: usize) -> bool
        requires first { first < length self.old.parents.items }
        requires second { second < length self.old.parents.items }
        requires classed { Classed self.old.parents.items self.old.sets.items }
        ensures step { (tab : subject.Subject → Option solver.Term) → solver.merge first second (state_in tab self.old.parents.items self.old.sets.items) ≡ step_if result (state_in tab self.new.parents.items self.new.sets.items) }
        ensures classed { Classed self.new.parents.items self.new.sets.items }
        ensures as_many { length self.new.parents.items ≡ length self.old.parents.items }
    {
        let one = find(&mut self.parents, first);
        let other = find(&mut self.parents, second);
        let low = one.min(other);
        let high = one.max(other);
        let both = meet(self.sets[low], self.sets[high]);
        if some_kind(both) {
            self.parents[high] = low;
            self.sets[low] = both;
            true
        } else {
            false
        }
    }
}

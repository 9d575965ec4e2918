//! Lists of items that have nodes, in which those of a node are found without going through all.

ghost use Rattle.std.specs.Prelude.{◌≡◌, ◌≤◌, ◌<◌, ℕ, [], ◌∷◌, ◌++◌, length, slice_get, Some, OnOk, OnErr};
ghost use Rattle.rx_lower_lifetimes.specs.Starting.{start_of};

use rx_core::{LetGo, List};
use std::alloc::{AllocError, Global};
use std::marker::Model;

/// What has a node.
pub trait HasNode {
    ghost node_of: { Self → ℕ };

    fn node(&self) -> usize
        ensures { result ≡ node_of self.now };
}

/// A list of items that have nodes. Contracts see it as the list.
#[derive(Drop)]
pub struct Noted<T: HasNode> {
    list: List<T>,
    /// By node, a place before which no item has it.
    starts: Vec<u32>,
}

impl<T: HasNode> Model for Noted<T> {
    ghost use Rattle.std.specs.Prelude.{List as ListOf, map};
    ghost use Rattle.rx_lower_lifetimes.specs.Starting.{Starts};

    ghost Value = { ListOf T };

    ghost view = { λ it. it.list };

    ghost invariant = { λ it. Starts it.starts.items (map T.node_of it.list) };
}

/// Makes the starts of nodes up to this one, where there are fewer.
#[tactic(auto, using(crate::proofs::Starting::grown_starts))]
fn grow(starts: &mut Vec<u32>, node: usize) -> Result<(), AllocError>
    ensures within { OnOk result (node < length starts.new.items) }
    ensures same { (n : ℕ) → start_of starts.new.items n ≡ start_of starts.old.items n }
{
    'grow: while starts.len() <= node {
        starts.push(4294967295)?;
    }
    Ok(())
}

/// The start of a node.
fn start_in(starts: &[u32], node: usize) -> usize
    ensures { result ≡ start_of starts.now node }
{
    match starts.get(node) {
        Some(start) => *start as usize,
        None => 4294967295,
    }
}

/// Lets a node start at a place, if it starts behind it.
#[tactic(auto, using(crate::proofs::Starting::set_here, crate::proofs::Starting::set_lower))]
fn start_at(starts: &mut [u32], node: usize, place: usize)
    requires { node < length starts.old }
    ensures count { length starts.new ≡ length starts.old }
    ensures starts { start_of starts.new node ≤ place }
    ensures others { (n : ℕ) → start_of starts.new n ≤ start_of starts.old n }
{
    if place < starts[node] as usize {
        starts[node] = place as u32;
    }
}

impl<T: HasNode> Noted<T> {
    /// The empty list.
    pub fn new(alloc: Global) -> Noted<T>
        ensures { result ≡ [] }
    {
        Noted {
            list: List::new(alloc),
            starts: Vec::new(alloc),
        }
    }

    pub fn as_slice(&self) -> &[T]
        ensures { result.now ≡ self.now }
    {
        self.list.as_slice()
    }

    pub fn len(&self) -> usize
        ensures { result ≡ length self.now }
    {
        self.list.len()
    }

    /// A place before which no item has a node.
    pub fn start(&self, node: usize) -> usize
        ensures within { result ≤ length self.now }
        ensures before { (i : ℕ) (item : T) → i < result → slice_get self.now i ≡ Some item → T.node_of item ≡ node → ⊥ }
    {
        let start = start_in(self.starts.as_slice(), node);
        if start < self.list.len() {
            start
        } else {
            self.list.len()
        }
    }
}

impl<T: HasNode + LetGo> Noted<T> {
    /// Adds an item at the end. An `Err` changes nothing, and the item is let go.
    pub fn push(&mut self, item: T) -> Result<(), AllocError>
        ensures ok { OnOk result (self.new ≡ self.old ++ item ∷ []) }
        ensures err { OnErr result (self.new ≡ self.old) }
    {
        let node = item.node();
        match grow(&mut self.starts, node) {
            Ok(()) => {
                start_at(self.starts.as_mut_slice(), node, self.list.len());
                self.list.push(item)
            }
            Err(AllocError) => {
                item.let_go();
                Err(AllocError)
            }
        }
    }
}

impl<T: HasNode + LetGo> LetGo for Noted<T> {
    fn let_go(self) {
        let Noted { list, starts } = self;
        list.let_go();
        let _gone = starts;
    }
}

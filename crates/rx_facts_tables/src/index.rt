//! Numbers of variables and temporaries.

ghost use Rattle.std.specs.Prelude.{◌≡◌, ◌<◌, ◌≤◌, ◌∷◌, ◌++◌, [], ℕ, List as ListOf, length, map, true, IfOk, OnOk, MatchBool, MatchOption, slice_get, Some, Bool, option_to_list};
ghost use Rattle.rx_graph.specs.Facts.{has, targets};
ghost use Rattle.rx_lower_walks.specs.PlainFlow.{plain-Root, plain-Act};
ghost use Rattle.rx_facts_tables.specs.Turning.{Joined};
ghost use Rattle.rx_lower_walks.specs.PlainSite.{plain-Site};
ghost use Rattle.rx_facts_tables.specs.LiveTables as tables;

use crate::uses::used;
use rx_core::List;
use rx_graph::Few;
use rx_lower_walks::{Act, Root, Site, same_root};
use std::alloc::{AllocError, Global};

/// Variables and temporaries by numbers; of each number of a variable or of a node, the numbers of those that have it.
#[derive(Drop)]
pub struct Index {
    pub roots: List<Root>,
    buckets: Vec<Few<u32>>,
}

/// A variable's number, a temporary's node.
fn key(root: Root) -> usize
    ensures { result ≡ tables.key root }
{
    match root {
        Root::Variable(variable) => variable as usize,
        Root::Temporary(temporary) => temporary.node,
    }
}

/// Whether a number is this root's.
fn is_at(roots: &[Root], number: u32, root: Root) -> bool
    ensures { MatchBool result (slice_get roots.now number ≡ Some root) (tables.IsNot roots.now number root) }
{
    match roots.get(number as usize) {
        Some(other) => same_root(*other, root),
        None => false,
    }
}

/// The first of these numbers that is this root's.
fn among(roots: &[Root], numbers: &[u32], root: Root) -> Option<u32>
    ensures { MatchOption result ((k : ℕ) → has numbers.now k ≡ true → tables.IsNot roots.now k root) (λ k. slice_get roots.now k ≡ Some root) }
{
    for number in numbers {
        if is_at(roots, *number, root) {
            return Some(*number);
        }
    }
    None
}

/// The first of few numbers that is this root's.
fn among_few(roots: &[Root], numbers: &Few<u32>, root: Root) -> Option<u32>
    ensures { MatchOption result ((k : ℕ) → has numbers.now k ≡ true → tables.IsNot roots.now k root) (λ k. slice_get roots.now k ≡ Some root) }
{
    let (first, others) = numbers.parts();
    match first {
        Some(number) => {
            if is_at(roots, number, root) {
                Some(number)
            } else {
                among(roots, others, root)
            }
        }
        None => among(roots, others, root),
    }
}

/// Makes so many lists, where there are fewer.
fn grow(alloc: Global, lists: &mut Vec<Few<u32>>, key: usize) -> Result<(), AllocError>
    ensures within { OnOk result (key < length lists.new.items) }
    ensures same { OnOk result ((q : ℕ) → targets lists.new.items q ≡ targets lists.old.items q) }
{
    'grow: while lists.len() <= key {
        lists.push(Few::new(alloc))?;
    }
    Ok(())
}

/// Adds a number to the list at a place.
fn add_at(lists: &mut [Few<u32>], at: usize, number: u32) -> Result<(), AllocError>
    requires { at < length lists.old }
    ensures { OnOk result (Joined lists.old lists.new (at ∷ []) number) }
{
    lists[at].push(number)
}

impl Index {
    pub fn new(alloc: Global) -> Index
        ensures index { tables.IsIndex result }
        ensures empty { result.roots ≡ [] }
    {
        Index {
            roots: List::new(alloc),
            buckets: Vec::new(alloc),
        }
    }

    /// The number of a root.
    pub fn find(&self, root: Root) -> Option<u32>
        requires { tables.IsIndex self.now }
        ensures { MatchOption result ((k : ℕ) → tables.IsNot self.now.roots k root) (λ k. slice_get self.now.roots k ≡ Some root) }
    {
        match self.buckets.get(key(root)) {
            Some(numbers) => among_few(self.roots.as_slice(), numbers, root),
            None => None,
        }
    }

    /// Numbers a root that has no number.
    fn push(&mut self, alloc: Global, root: Root) -> Result<(), AllocError>
        requires index { tables.IsIndex self.old }
        requires fresh { (k : ℕ) → tables.IsNot self.old.roots k root }
        ensures index { OnOk result (tables.IsIndex self.new) }
        ensures roots { OnOk result (self.new.roots ≡ self.old.roots ++ root ∷ []) }
    {
        let number = self.roots.len();
        if number > 4294967295 {
            return Err(AllocError);
        }
        grow(alloc, &mut self.buckets, key(root))?;
        add_at(self.buckets.as_mut_slice(), key(root), number as u32)?;
        self.roots.push(root)
    }

    /// Numbers a root.
    fn add(&mut self, alloc: Global, root: Root) -> Result<(), AllocError>
        requires { tables.IsIndex self.old }
        ensures index { OnOk result (tables.IsIndex self.new) }
        ensures keeps { OnOk result (tables.KeepsRoots self.old.roots self.new.roots) }
        ensures kept { OnOk result (tables.HasNumber self.new.roots root) }
    {
        match self.find(root) {
            Some(_) => Ok(()),
            None => self.push(alloc, root),
        }
    }

    /// Numbers what an action uses.
    fn add_used(&mut self, alloc: Global, act: &Act) -> Result<(), AllocError>
        requires { tables.IsIndex self.old }
        ensures index { OnOk result (tables.IsIndex self.new) }
        ensures keeps { OnOk result (tables.KeepsRoots self.old.roots self.new.roots) }
        ensures kept { OnOk result (tables.HasUsed self.new.roots (plain-Act act.now)) }
    {
        let roots = used(alloc, act)?;
        let (first, others) = roots.parts();
        self.add_some(alloc, first)?;
        self.add_all(alloc, others)
    }

    /// Numbers a root, where there is one.
    fn add_some(&mut self, alloc: Global, root: Option<Root>) -> Result<(), AllocError>
        requires { tables.IsIndex self.old }
        ensures index { OnOk result (tables.IsIndex self.new) }
        ensures keeps { OnOk result (tables.KeepsRoots self.old.roots self.new.roots) }
        ensures kept { OnOk result (tables.HasNumbers self.new.roots (option_to_list root)) }
    {
        match root {
            Some(root) => self.add(alloc, root),
            None => Ok(()),
        }
    }

    /// Numbers roots.
    fn add_all(&mut self, alloc: Global, roots: &[Root]) -> Result<(), AllocError>
        requires { tables.IsIndex self.old }
        ensures index { OnOk result (tables.IsIndex self.new) }
        ensures keeps { OnOk result (tables.KeepsRoots self.old.roots self.new.roots) }
        ensures kept { OnOk result (tables.HasNumbers self.new.roots roots.now) }
    {
        for root in roots {
            self.add(alloc, *root)?;
        }
        Ok(())
    }

    /// Numbers what sites use.
    pub fn of(alloc: Global, sites: &[Site]) -> Result<Index, AllocError>
        ensures index { IfOk result (λ it. tables.IsIndex it) }
        ensures kept { IfOk result (λ it. tables.HasAllUsed it.roots (map plain-Site sites.now)) }
    {
        let mut index = Index::new(alloc);
        for site in sites {
            index.add_used(alloc, &site.action.act)?;
        }
        Ok(index)
    }
}

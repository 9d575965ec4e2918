//! Short lists.

ghost use Rattle.std.specs.Prelude.{◌≡◌, [], ◌∷◌, ◌++◌, OnOk, option_to_list};
ghost use Rattle.rx_graph.specs.Facts as facts;

use std::alloc::{AllocError, Global};
use std::marker::Model;

/// A list whose first item takes no memory beside the list itself.
#[derive(Drop)]
pub struct Few<T> {
    first: Option<T>,
    others: Vec<T>,
}

impl<T> Model for Few<T> {
    ghost use Rattle.std.specs.Prelude.{List as ListOf, ◌++◌, option_to_list};
    ghost use Rattle.std.specs.Coded.{coded_list};

    ghost Value = { ListOf T };

    ghost coded = { coded_list T.code };

    ghost view = { λ it. option_to_list it.first ++ it.others.items };
}

impl<T> Few<T> {
    /// The empty list.
    pub fn new(alloc: Global) -> Few<T>
        ensures { result ≡ [] }
    {
        Few {
            first: None,
            others: Vec::new(alloc),
        }
    }

    /// The list of one item.
    pub fn one(alloc: Global, item: T) -> Few<T>
        ensures { result ≡ item ∷ [] }
    {
        Few {
            first: Some(item),
            others: Vec::new(alloc),
        }
    }
}

impl<T: Copy> Few<T> {
    /// The first item, where there is one, and the others.
    pub fn parts(&self) -> (Option<T>, &[T])
        ensures { option_to_list result.0 ++ result.1.now ≡ self.now }
    {
        (self.first, self.others.as_slice())
    }

    /// Adds an item at the end.
    pub fn push(&mut self, item: T) -> Result<(), AllocError>
        ensures { OnOk result (self.new ≡ self.old ++ item ∷ []) }
    {
        if self.first.is_none() && self.others.is_empty() {
            self.first = Some(item);
        } else {
            self.others.push(item)?;
        }
        Ok(())
    }
}

impl Few<u32> {
    /// Whether it has a number.
    pub fn has(&self, number: u32) -> bool
        ensures { result ≡ facts.has self.now number }
    {
        let (first, others) = self.parts();
        match first {
            Some(one) => number == one || has(others, number),
            None => has(others, number),
        }
    }
}

fn has(numbers: &[u32], number: u32) -> bool
    ensures { result ≡ facts.has numbers.now number }
{
    for one in numbers {
        if number == *one {
            return true;
        }
    }
    false
}

//! A row of bits.

ghost use Rattle.std.specs.Prelude.{◌≡◌, ℕ, ◌*◌, ◌<◌, ◌≤◌, Bool, true, false, ◌∷◌, length, get_or, IfOk};
ghost use Rattle.rx_graph_bits.specs.Rows as rows;

use std::alloc::{AllocError, Global};
use std::marker::Model;

/// A set of numbers below a bound. One below 64 takes no memory beside the row itself.
#[derive(Drop)]
pub struct Row {
    /// The word of the numbers below 64.
    first: u64,
    /// The words of the others.
    rest: Vec<u64>,
}

impl Model for Row {
    ghost use Rattle.std.specs.Prelude.{ℕ as Word, List as ListOf, ◌∷◌};

    ghost Value = { ListOf Word };

    ghost view = { λ r. r.first ∷ r.rest.items };
}

impl Row {
    /// The empty set of numbers below a bound.
    pub fn new(alloc: Global, bound: usize) -> Result<Row, AllocError>
        ensures width { IfOk result (λ row. length row ≡ rows.words bound) }
        ensures empty { IfOk result (λ row. (i : ℕ) → rows.holds row i ≡ false) }
        ensures bounded { IfOk result rows.Bounded }
    {
        let rest = vec![in alloc; 0u64; bound / 64]?;
        has_words(0, rest.as_slice());
        Ok(Row { first: 0, rest })
    }

    /// Whether it holds a number.
    pub fn holds(&self, number: usize) -> bool
        ensures { result ≡ rows.holds self.now number }
    {
        (self.word(number / 64) >> (number % 64)) & 1 == 1
    }

    /// The word at a place: its lowest bit stands for 64 times the place. It is 0 where the row has none.
    pub fn word(&self, at: usize) -> u64
        ensures { result ≡ get_or self.now at 0 }
    {
        if at == 0 {
            self.first
        } else {
            match self.rest.get(at - 1) {
                Some(word) => *word,
                None => 0,
            }
        }
    }

    /// Adds a number; one that is not below the bound changes nothing.
    pub fn insert(&mut self, number: usize)
        ensures inserted { rows.Inserted self.old self.new number }
        ensures bounded { rows.Bounded self.new }
    {
        set_in(&mut self.first, self.rest.as_mut_slice(), number);
        has_words(self.first, self.rest.as_slice());
    }

    /// Takes a number out.
    pub fn remove(&mut self, number: usize)
        ensures removed { rows.Removed self.old self.new number }
        ensures bounded { rows.Bounded self.new }
    {
        clear_in(&mut self.first, self.rest.as_mut_slice(), number);
        has_words(self.first, self.rest.as_slice());
    }

    /// Adds the numbers of another set with the same bound. Whether any of them is new.
    pub fn join(&mut self, other: &Row) -> bool
        requires { length other.now ≡ length self.old }
        ensures joined { rows.Joined self.old other.now self.new result }
        ensures bounded { rows.Bounded self.new }
    {
        let grown = join_in(
            &mut self.first,
            self.rest.as_mut_slice(),
            other.first,
            other.rest.as_slice(),
        );
        has_words(self.first, self.rest.as_slice());
        grown
    }

    /// Makes it the same set as another with the same bound.
    pub fn assign(&mut self, other: &Row)
        requires { length other.now ≡ length self.old }
        ensures { self.new ≡ other.now }
    {
        self.first = other.first;
        self.rest
            .as_mut_slice()
            .copy_from_slice(other.rest.as_slice());
    }
}

/// What words of 64 bits are below.
fn has_words(first: u64, rest: &[u64])
    ensures { rows.Bounded (first ∷ rest.now) }
{}

/// Adds a number to a first word and those behind it.
fn set_in(first: &mut u64, rest: &mut [u64], number: usize)
    ensures { rows.Inserted (first.old ∷ rest.old) (first.new ∷ rest.new) number }
{
    if number < 64 {
        *first |= 1u64 << (number % 64);
    } else {
        set_bit(rest, number - 64);
    }
}

/// Takes a number out of a first word and those behind it.
fn clear_in(first: &mut u64, rest: &mut [u64], number: usize)
    ensures { rows.Removed (first.old ∷ rest.old) (first.new ∷ rest.new) number }
{
    if number < 64 {
        *first &= !(1u64 << (number % 64));
    } else {
        clear_bit(rest, number - 64);
    }
}

fn set_bit(words: &mut [u64], number: usize)
    ensures { rows.Inserted words.old words.new number }
{
    if number / 64 < words.len() {
        words[number / 64] |= 1u64 << (number % 64);
    }
}

fn clear_bit(words: &mut [u64], number: usize)
    ensures { rows.Removed words.old words.new number }
{
    if number / 64 < words.len() {
        words[number / 64] &= !(1u64 << (number % 64));
    }
}

/// Joins a first word and those behind it with others. Whether any of them grew.
fn join_in(first: &mut u64, rest: &mut [u64], other: u64, others: &[u64]) -> bool
    requires { length others.now ≡ length rest.old }
    ensures { rows.Joined (first.old ∷ rest.old) (other ∷ others.now) (first.new ∷ rest.new) result }
{
    let joined = *first | other;
    let grown = joined != *first;
    *first = joined;
    grown | join_words(rest, others)
}

fn join_words(into: &mut [u64], from: &[u64]) -> bool
    requires { length from.now ≡ length into.old }
    ensures { rows.Joined into.old from.now into.new result }
{
    let mut grown = false;
    'words: for k in 0..into.len() {
        let joined = into[k] | from[k];
        grown = grown | (joined != into[k]);
        into[k] = joined;
    }
    grown
}

//! Heads of patterns and values: what is asked of a value first, and then of its parts.

ghost use Rattle.std.specs.Prelude.{◌≡◌, map, option_map};
ghost use Rattle.rx_typed.specs.PlainTree.{plain-Pattern, plain-Subpattern, plain-Constant, subpatterns_of};
ghost use Rattle.rx_cover.specs.Heads as spec;
ghost use Rattle.rx_cover.specs.Matching.{part_of};
ghost use Rattle.rx_cover.specs.PlainCells.{plain-Head, plain-Cell, constant_head};
ghost use Rattle.rx_cover.specs.Matrices as matrices;
ghost use Rattle.rx_typed.specs.Elaborated.{with_sign};

use rx_core::LetGo;
use rx_typed::{Constant, Pattern, Subpattern};

/// An integer from 0 on, or one below 0 by its distance from -1; a truth value; a tuple or struct; a variant, by the
/// enum's item; a reference. Equal ones are the same head.
#[derive(Clone, Copy, PartialEq, Eq, Hash)]
pub(crate) enum Head {
    Natural(u64),
    Negative(u64),
    Truth(bool),
    Composed,
    Chosen(u32, u32),
    Pointed,
}

/// What is asked of a value: nothing, or what a pattern asks.
#[derive(Clone, Copy)]
pub(crate) enum Cell<'a> {
    Open,
    Asks(&'a Pattern),
}

impl LetGo for Head {
    fn let_go(self) {}
}

impl<'a> LetGo for Cell<'a> {
    fn let_go(self) {}
}

pub(crate) fn same_head(a: Head, b: Head) -> bool
    ensures { result ≡ spec.same_head (plain-Head a) (plain-Head b) }
{
    a == b
}

/// The head of an integer, by its sign and magnitude.
#[tactic(auto, using(crate::proofs::SetLemmas::below_zero_by))]
pub(crate) fn whole(negative: bool, magnitude: u64) -> Head
    ensures { plain-Head result ≡ spec.whole (with_sign negative magnitude) }
{
    if negative && magnitude > 0 {
        Head::Negative(magnitude - 1)
    } else {
        Head::Natural(magnitude)
    }
}

pub(crate) fn head_of_constant(constant: Constant) -> Head
    ensures { plain-Head result ≡ constant_head (plain-Constant constant) }
{
    match constant {
        Constant::Integer(_, negative, magnitude) => whole(negative, magnitude),
        Constant::Truth(value) => Head::Truth(value),
    }
}

/// The head that a pattern asks for.
#[tactic(auto, using(rx_typed::proofs::Rules::typed_pattern_rules))]
fn head_of_pattern(pattern: &Pattern) -> Option<Head>
    ensures { option_map plain-Head result ≡ spec.head_in (plain-Pattern pattern.now) }
{
    match pattern {
        Pattern::Any | Pattern::Bind(_, _, _) => None,
        Pattern::Exactly(_, constant) => Some(head_of_constant(*constant)),
        Pattern::Parts(_) => Some(Head::Composed),
        Pattern::Variant(_, item, _, variant, _) => Some(Head::Chosen(*item, *variant)),
        Pattern::Behind(_, _) => Some(Head::Pointed),
    }
}

pub(crate) fn head_of(cell: Cell<'_>) -> Option<Head>
    ensures { option_map plain-Head result ≡ spec.head_in (plain-Cell cell.entry) }
{
    match cell {
        Cell::Open => None,
        Cell::Asks(pattern) => head_of_pattern(pattern),
    }
}

/// What is asked of a part.
#[tactic(auto, using(rx_typed::proofs::Rules::typed_pattern_rules))]
fn part_among<'a>(parts: &'a [Subpattern], number: usize) -> Cell<'a>
    ensures { plain-Cell result ≡ part_of (subpatterns_of (map plain-Subpattern parts.now)) number }
{
    for part in parts {
        if part.field == number {
            return Cell::Asks(&part.pattern);
        }
    }
    Cell::Open
}

#[tactic(auto, using(rx_typed::proofs::Rules::typed_pattern_rules))]
fn part_of_pattern<'a>(pattern: &'a Pattern, number: usize) -> Cell<'a>
    ensures { plain-Cell result ≡ part_of (spec.parts_in (plain-Pattern pattern.now)) number }
{
    match pattern {
        Pattern::Parts(parts) => part_among(parts.as_slice(), number),
        Pattern::Variant(_, _, _, _, parts) => part_among(parts.as_slice(), number),
        Pattern::Behind(_, inner) => {
            if number == 0 {
                Cell::Asks(inner.get())
            } else {
                Cell::Open
            }
        }
        Pattern::Any | Pattern::Bind(_, _, _) | Pattern::Exactly(_, _) => Cell::Open,
    }
}

/// What is asked of a part, by its number.
pub(crate) fn part<'a>(cell: Cell<'a>, number: usize) -> Cell<'a>
    ensures { plain-Cell result ≡ part_of (spec.parts_in (plain-Cell cell.entry)) number }
{
    match cell {
        Cell::Open => Cell::Open,
        Cell::Asks(pattern) => part_of_pattern(pattern, number),
    }
}

/// Whether anything is asked.
#[tactic(auto, using(rx_typed::proofs::Rules::typed_pattern_rules))]
pub(crate) fn pattern_asks(pattern: &Pattern) -> bool
    ensures { result ≡ matrices.asks (plain-Pattern pattern.now) }
{
    match pattern {
        Pattern::Any | Pattern::Bind(_, _, _) => false,
        Pattern::Exactly(_, _) | Pattern::Parts(_) => true,
        Pattern::Variant(_, _, _, _, _) | Pattern::Behind(_, _) => true,
    }
}

pub(crate) fn asks(cell: Cell<'_>) -> bool
    ensures { result ≡ matrices.asks (plain-Cell cell.entry) }
{
    match cell {
        Cell::Open => false,
        Cell::Asks(pattern) => pattern_asks(pattern),
    }
}

//! How many combinations the tests of a match tell apart.

ghost use Rattle.std.specs.Prelude.{◌≡◌, [], ◌∷◌, ◌++◌, ◌+◌, ◌*◌, IfOk, OnOk, List, length, map};
ghost use Rattle.rx_typed.specs.PlainTree.{plain-Pattern, plain-Subpattern, subpatterns_of};
ghost use Rattle.rx_cover.specs.PlainCells.{plain-Head};
ghost use Rattle.rx_cover.specs.PlainTested.{plain-Tested};
ghost use Rattle.rx_cover.specs.declared.width.Turn.TheVariants as turns;
ghost use Rattle.rx_cover.specs.PlainChoices.{plain-Arms};
ghost use Rattle.rx_typed.specs.PlainTree.{plain-Arm, arms_of};
ghost use Rattle.rx_cover.specs.Choices.{patterns_of};
ghost use Rattle.rx_cover.specs.Width as spec;

use crate::choices::Arms;
use crate::heads::{Head, head_of_constant};
use crate::sets::add;
use indexmap::IndexSet;
use rx_core::{LetGo, List, keep};
use rx_typed::{Arm, Pattern, Subpattern};
use std::alloc::{AllocError, Global};

/// One step from a value to a part of it. A variant's part is behind the variant; `Deref(true)` goes through a `&mut`.
#[derive(Clone, Copy)]
pub(crate) enum Turn {
    Field(usize),
    Variant(u32),
    Deref(bool),
}

/// A tested position, with its heads.
#[derive(Drop)]
pub(crate) struct Tested {
    pub path: List<Turn>,
    pub heads: IndexSet<Head>,
}

impl LetGo for Turn {
    fn let_go(self) {}
}

impl LetGo for Tested {
    fn let_go(self) {
        self.path.let_go();
        let _gone = self.heads;
    }
}

fn is_field(turn: Turn, number: usize) -> bool
    ensures { result ≡ spec.same_turn (turns.Field number) turn }
{
    match turn {
        Turn::Field(other) => number == other,
        _ => false,
    }
}

fn is_variant(turn: Turn, number: u32) -> bool
    ensures { result ≡ spec.same_turn (turns.Variant number) turn }
{
    match turn {
        Turn::Variant(other) => number == other,
        _ => false,
    }
}

fn is_deref(turn: Turn, mutable: bool) -> bool
    ensures { result ≡ spec.same_turn (turns.Deref mutable) turn }
{
    match turn {
        Turn::Deref(other) => mutable == other,
        _ => false,
    }
}

fn same_turn(a: Turn, b: Turn) -> bool
    ensures { result ≡ spec.same_turn a b }
{
    match a {
        Turn::Field(number) => is_field(b, number),
        Turn::Variant(number) => is_variant(b, number),
        Turn::Deref(mutable) => is_deref(b, mutable),
    }
}

fn same_turns(a: &[Turn], b: &[Turn]) -> bool
    requires { length a.now ≡ length b.now }
    ensures { result ≡ spec.same_turns a.now b.now }
{
    for i in 0..a.len() {
        if !same_turn(a[i], b[i]) {
            return false;
        }
    }
    true
}

fn same_path(a: &[Turn], b: &[Turn]) -> bool
    ensures { result ≡ spec.same_path a.now b.now }
{
    a.len() == b.len() && same_turns(a, b)
}

/// The number of the position with this path; where none has it, how many there are.
fn place_of(table: &[Tested], path: &[Turn]) -> usize
    ensures { result ≡ spec.place_of (map plain-Tested table.now) path.now }
{
    for i in 0..table.len() {
        if same_path(table[i].path.as_slice(), path) {
            return i;
        }
    }
    table.len()
}

fn one_head(alloc: Global, head: Head) -> Result<IndexSet<Head>, AllocError>
    ensures { IfOk result (λ it. map plain-Head it.keys ≡ plain-Head head ∷ []) }
{
    let mut heads = IndexSet::new(alloc);
    add(&mut heads, head)?;
    Ok(heads)
}

fn push_tested(table: &mut Vec<Tested>, tested: Tested) -> Result<(), AllocError>
    ensures { OnOk result (table.new.items ≡ table.old.items ++ tested ∷ []) }
{
    match table.push(tested) {
        Ok(()) => Ok(()),
        Err(failed) => {
            failed.value.let_go();
            Err(AllocError)
        }
    }
}

fn add_position(
    alloc: Global,
    table: &mut Vec<Tested>,
    path: &[Turn],
    head: Head,
) -> Result<(), AllocError>
    ensures { OnOk result (map plain-Tested table.new.items
        ≡ map plain-Tested table.old.items ++ record { path = path.now; heads = plain-Head head ∷ [] } ∷ []) }
{
    let path = List::from_slice(alloc, path)?;
    let (heads, path) = keep(path, one_head(alloc, head))?;
    push_tested(table, Tested { path, heads })
}

/// Adds a test: its position, where it is new, and its head.
fn add_test(
    alloc: Global,
    table: &mut Vec<Tested>,
    path: &[Turn],
    head: Head,
) -> Result<(), AllocError>
    ensures { OnOk result (map plain-Tested table.new.items
        ≡ spec.with_test (map plain-Tested table.old.items) (spec.test_at path.now (plain-Head head))) }
{
    let at = place_of(table, path);
    if at < table.len() {
        add(&mut table[at].heads, head)
    } else {
        add_position(alloc, table, path, head)
    }
}

/// Adds the tests of a pattern that stands at the end of a path, which is unchanged.
#[cycle(tests)]
#[tactic(auto, using(rx_typed::proofs::Rules::typed_pattern_rules))]
fn add_tests(
    alloc: Global,
    table: &mut Vec<Tested>,
    path: &mut Vec<Turn>,
    pattern: &Pattern,
) -> Result<(), AllocError>
    ensures table { OnOk result (map plain-Tested table.new.items
        ≡ spec.with_tests (map plain-Tested table.old.items) (spec.tests_in path.old.items (plain-Pattern pattern.now))) }
    ensures path { OnOk result (path.new.items ≡ path.old.items) }
{
    match pattern {
        Pattern::Any => Ok(()),
        Pattern::Bind(_, _, _) => Ok(()),
        Pattern::Exactly(_, constant) => add_test(
            alloc,
            table,
            path.as_slice(),
            head_of_constant(*constant),
        ),
        Pattern::Parts(parts) => add_part_tests(alloc, table, path, parts.as_slice()),
        Pattern::Variant(_, item, several, variant, parts) => {
            add_if(
                alloc,
                table,
                path.as_slice(),
                *several,
                Head::Chosen(*item, *variant),
            )?;
            path.push(Turn::Variant(*variant))?;
            add_part_tests(alloc, table, path, parts.as_slice())?;
            path.pop();
            Ok(())
        }
        Pattern::Behind(mutable, inner) => {
            path.push(Turn::Deref(*mutable))?;
            add_tests(alloc, table, path, inner.get())?;
            path.pop();
            Ok(())
        }
    }
}

/// Adds a test where a part is refutable.
fn add_if(
    alloc: Global,
    table: &mut Vec<Tested>,
    path: &[Turn],
    refutable: bool,
    head: Head,
) -> Result<(), AllocError>
    ensures { OnOk result (map plain-Tested table.new.items ≡ spec.with_tests (map plain-Tested table.old.items)
        (spec.test_if refutable (spec.test_at path.now (plain-Head head)))) }
{
    if refutable {
        add_test(alloc, table, path, head)
    } else {
        Ok(())
    }
}

#[cycle(tests)]
#[tactic(auto, using(rx_typed::proofs::Rules::typed_pattern_rules))]
fn add_part_tests(
    alloc: Global,
    table: &mut Vec<Tested>,
    path: &mut Vec<Turn>,
    parts: &[Subpattern],
) -> Result<(), AllocError>
    ensures table { OnOk result (map plain-Tested table.new.items ≡ spec.with_tests (map plain-Tested table.old.items)
        (spec.tests_among path.old.items (subpatterns_of (map plain-Subpattern parts.now)))) }
    ensures path { OnOk result (path.new.items ≡ path.old.items) }
{
    for part in parts {
        add_tests_at(alloc, table, path, Turn::Field(part.field), &part.pattern)?;
    }
    Ok(())
}

/// Adds the tests of a pattern one step further.
#[cycle(tests)]
fn add_tests_at(
    alloc: Global,
    table: &mut Vec<Tested>,
    path: &mut Vec<Turn>,
    turn: Turn,
    pattern: &Pattern,
) -> Result<(), AllocError>
    ensures table { OnOk result (map plain-Tested table.new.items ≡ spec.with_tests (map plain-Tested table.old.items)
        (spec.tests_in (path.old.items ++ turn ∷ []) (plain-Pattern pattern.now))) }
    ensures path { OnOk result (path.new.items ≡ path.old.items) }
{
    path.push(turn)?;
    add_tests(alloc, table, path, pattern)?;
    path.pop();
    Ok(())
}

fn capped_sum(a: u64, b: u64) -> u64
    ensures { result ≡ spec.capped (a + b) }
{
    a.saturating_add(b)
}

fn capped_product(a: u64, b: u64) -> u64
    ensures { result ≡ spec.capped (a * b) }
{
    a.saturating_mul(b)
}

/// A number for this position more, at most `u64::MAX`: the number times its heads and one.
fn scaled_by(number: u64, tested: &Tested) -> u64
    ensures { result ≡ spec.capped (spec.capped (number * length tested.now.heads.keys) + number) }
{
    capped_sum(capped_product(number, tested.heads.len() as u64), number)
}

/// The product over the positions of their heads and one.
#[tactic(auto, using(crate::proofs::WidthLemmas::heads_length))]
fn product(table: &[Tested]) -> u64
    ensures { result ≡ spec.scaled 1 (map plain-Tested table.now) }
{
    let mut number = 1;
    for tested in table {
        number = scaled_by(number, tested);
    }
    number
}

fn add_arm_tests(
    alloc: Global,
    table: &mut Vec<Tested>,
    path: &mut Vec<Turn>,
    arms: &[Arm],
) -> Result<(), AllocError>
    ensures table { OnOk result (map plain-Tested table.new.items ≡ spec.arm_tests (map plain-Tested table.old.items)
        path.old.items (patterns_of (arms_of (map plain-Arm arms.now)))) }
{
    for arm in arms {
        add_tests(alloc, table, path, &arm.pattern)?;
    }
    Ok(())
}

fn add_all_tests(
    alloc: Global,
    table: &mut Vec<Tested>,
    path: &mut Vec<Turn>,
    arms: Arms<'_>,
) -> Result<(), AllocError>
    ensures { OnOk result (map plain-Tested table.new.items ≡ spec.arm_tests (map plain-Tested table.old.items)
        path.old.items (plain-Arms arms.entry)) }
{
    match arms {
        Arms::Each(list) => add_arm_tests(alloc, table, path, list),
        Arms::One(pattern) => add_tests(alloc, table, path, pattern),
    }
}

/// How many combinations the tests of these arms tell apart, at most `u64::MAX`.
#[tactic(auto, using(crate::proofs::WidthLemmas::width_is))]
pub(crate) fn width(alloc: Global, arms: Arms<'_>) -> Result<u64, AllocError>
    ensures { IfOk result (λ n. n ≡ spec.capped_width (plain-Arms arms.entry)) }
{
    let mut table = Vec::new(alloc);
    let mut path = Vec::new(alloc);
    add_all_tests(alloc, &mut table, &mut path, arms)?;
    Ok(product(&table))
}

//! Whether patterns of both test alike and bind alike, where what they are matched with stands so.

ghost use Rattle.std.specs.Prelude.{◌≡◌, ℕ, nat_eq, not, ◌&&◌, ◌||◌, Some, IfOk, map};
ghost use Rattle.rx_core.specs.declared.types.Step.TheVariants as step;
ghost use Rattle.rx_typed.specs.PlainTree.{plain-Pattern, plain-Subpattern, plain-Matched, plain-Mode, subpatterns_of};
ghost use Rattle.rx_typed.specs.Tree as tree;
ghost use Rattle.rx_engine_simulation.specs.Places.{looking};
ghost use Rattle.rx_engine_alike.specs.Likeness.{if_so};
ghost use Rattle.rx_engine_alike.specs.Same.{same_bool as same_bools};
ghost use Rattle.rx_engine_alike.specs.Ways as places;
ghost use Rattle.rx_engine_alike.specs.Patterns as patterns;
ghost use Rattle.rx_engine_alike.specs.PlainSights.{plain-Renaming};
ghost use Rattle.rx_engine_alike.specs.PlainWays.{plain-Way, plain-Ways};

use crate::pattern_reading::{behind_of, bind_of, exactly_of, is_any, parts_of, variant_of};
use crate::same::{same_bool, same_constant};
use crate::sights::Seen;
use crate::variables::{Ways, with_new};
use crate::ways::{Use, Way, by_dereference, by_part, may, then_step, use_of, way_of};
use rx_core::Step;
use rx_typed::{Matched, Mode, Pattern, Subpattern};
use std::alloc::AllocError;

/// How what is matched stands to each other.
#[tactic(auto, using(rx_typed::proofs::Rules::typed_tree_rules))]
pub fn way_of_matched(renaming: &[Seen], matched: &Matched, other: &Matched) -> Way
    ensures { plain-Way result ≡ patterns.way_of_matched (plain-Renaming renaming.now) (plain-Matched matched.now) (plain-Matched other.now) }
{
    match matched {
        Matched::Place(_, place) => match other {
            Matched::Place(_, second) => way_of(renaming, place, second),
            Matched::Value(_) => Way::Apart,
        },
        Matched::Value(_) => match other {
            Matched::Place(_, _) => Way::Apart,
            Matched::Value(_) => Way::FromValue,
        },
    }
}

/// To the fields of these numbers.
pub(crate) fn in_fields(way: Way, field: usize, other: usize) -> Way
    ensures { plain-Way result ≡ places.then_step (plain-Way way) (step.Field field) (step.Field other) }
{
    if field == other {
        by_part(way)
    } else {
        Way::Apart
    }
}

/// To these variants.
fn in_variants(way: Way, variant: u32, other: u32) -> Way
    ensures { plain-Way result ≡ places.then_step (plain-Way way) (step.Variant variant) (step.Variant other) }
{
    then_step(way, Step::Variant(variant), Step::Variant(other))
}

/// Whether a variant's tag is tested alike; that of an enum's only variant is not tested.
fn same_variant(way: Way, several: bool, variant: u32, other: u32) -> bool
    ensures { result ≡ not several || (places.may looking (plain-Way way) && nat_eq variant other) }
{
    !several || (may(Use::Looking, way) && variant == other)
}

/// Whether both enums have more variants or none, and the tag is tested alike.
fn same_tag(way: Way, several: bool, variant: u32, others: bool, other: u32) -> bool
    ensures { result ≡ same_bools several others && (not several || (places.may looking (plain-Way way) && nat_eq variant other)) }
{
    same_bool(several, others) && same_variant(way, several, variant, other)
}

/// Whether both test alike.
#[cycle(tested)]
#[tactic(auto, using(rx_typed::proofs::Rules::typed_pattern_rules, crate::proofs::PatternLemmas::pattern_rules))]
pub fn like_tests(way: Way, pattern: &Pattern, other: &Pattern) -> bool
    ensures { result ≡ patterns.like_tests (plain-Way way) (plain-Pattern pattern.now) (plain-Pattern other.now) }
{
    match pattern {
        Pattern::Any => is_any(other),
        Pattern::Bind(_, _, _) => match bind_of(other) {
            Some(_) => true,
            None => false,
        },
        Pattern::Exactly(_, constant) => match exactly_of(other) {
            Some((_, second)) => may(Use::Looking, way) && same_constant(*constant, second),
            None => false,
        },
        Pattern::Parts(parts) => match parts_of(other) {
            Some(others) => like_tests_in(way, parts.as_slice(), others),
            None => false,
        },
        Pattern::Variant(_, _, several, variant, parts) => match variant_of(other) {
            Some((_, _, others_several, second, others)) => {
                if same_tag(way, *several, *variant, others_several, second) {
                    let inner = in_variants(way, *variant, second);
                    like_tests_in(inner, parts.as_slice(), others)
                } else {
                    false
                }
            }
            None => false,
        },
        Pattern::Behind(_, inner) => match behind_of(other) {
            Some((_, second)) => like_tests(by_dereference(way), inner.get(), second),
            None => false,
        },
    }
}

#[cycle(tested)]
#[tactic(auto, using(rx_typed::proofs::Rules::typed_pattern_rules))]
fn like_tests_at(way: Way, part: &Subpattern, other: &Subpattern) -> bool
    ensures { result ≡ patterns.like_tests (places.then_step (plain-Way way) (step.Field (plain-Subpattern part.now).0) (step.Field (plain-Subpattern other.now).0))
        (plain-Subpattern part.now).1 (plain-Subpattern other.now).1 }
{
    like_tests(
        in_fields(way, part.field, other.field),
        &part.pattern,
        &other.pattern,
    )
}

#[cycle(tested)]
fn like_tests_in(way: Way, parts: &[Subpattern], others: &[Subpattern]) -> bool
    ensures { result ≡ patterns.like_tests_in (plain-Way way) (subpatterns_of (map plain-Subpattern parts.now)) (subpatterns_of (map plain-Subpattern others.now)) }
{
    let mut right = others;
    for part in parts {
        let [other, behind @ ..] = right else {
            return false;
        };
        if !like_tests_at(way, part, other) {
            return false;
        }
        right = behind;
    }
    match right {
        [] => true,
        [_, ..] => false,
    }
}

/// Whether a part is read where it stands alike, or borrowed alike.
fn like_mode(way: Way, mode: Mode, other: Mode) -> bool
    ensures { result ≡ patterns.like_mode (plain-Way way) (plain-Mode mode) (plain-Mode other) }
{
    match mode {
        Mode::Value(_) => match other {
            Mode::Value(_) => may(Use::Looking, way),
            Mode::Reference(_) => false,
        },
        Mode::Reference(mutable) => match other {
            Mode::Value(_) => false,
            Mode::Reference(second) => same_bool(mutable, second) && may(use_of(mutable), way),
        },
    }
}

/// Adds what both bind; says whether they bind alike.
#[cycle(bound)]
#[tactic(auto, using(rx_typed::proofs::Rules::typed_pattern_rules, crate::proofs::PatternLemmas::pattern_rules))]
pub fn like_bindings(
    ways: &Ways,
    way: Way,
    renaming: &mut Vec<Seen>,
    pattern: &Pattern,
    other: &Pattern,
) -> Result<bool, AllocError>
    ensures { IfOk result (λ it. if_so it (Some (plain-Renaming renaming.new.items))
        ≡ patterns.like_bindings (plain-Ways ways.now) (plain-Way way) (plain-Renaming renaming.old.items) (plain-Pattern pattern.now) (plain-Pattern other.now)) }
{
    match pattern {
        Pattern::Any => Ok(is_any(other)),
        Pattern::Bind(_, variable, mode) => match bind_of(other) {
            Some((_, to, second)) => {
                if like_mode(way, *mode, second) {
                    with_new(ways, renaming, *variable, to)
                } else {
                    Ok(false)
                }
            }
            None => Ok(false),
        },
        Pattern::Exactly(_, _) => match exactly_of(other) {
            Some(_) => Ok(true),
            None => Ok(false),
        },
        Pattern::Parts(parts) => match parts_of(other) {
            Some(others) => like_bindings_in(ways, way, renaming, parts.as_slice(), others),
            None => Ok(false),
        },
        Pattern::Variant(_, _, _, variant, parts) => match variant_of(other) {
            Some((_, _, _, second, others)) => {
                let inner = in_variants(way, *variant, second);
                like_bindings_in(ways, inner, renaming, parts.as_slice(), others)
            }
            None => Ok(false),
        },
        Pattern::Behind(_, inner) => match behind_of(other) {
            Some((_, second)) => {
                let behind = by_dereference(way);
                like_bindings(ways, behind, renaming, inner.get(), second)
            }
            None => Ok(false),
        },
    }
}

#[cycle(bound)]
#[tactic(auto, using(rx_typed::proofs::Rules::typed_pattern_rules))]
fn like_bindings_at(
    ways: &Ways,
    way: Way,
    renaming: &mut Vec<Seen>,
    part: &Subpattern,
    other: &Subpattern,
) -> Result<bool, AllocError>
    ensures { IfOk result (λ it. if_so it (Some (plain-Renaming renaming.new.items))
        ≡ patterns.like_bindings (plain-Ways ways.now) (places.then_step (plain-Way way) (step.Field (plain-Subpattern part.now).0) (step.Field (plain-Subpattern other.now).0))
        (plain-Renaming renaming.old.items) (plain-Subpattern part.now).1 (plain-Subpattern other.now).1) }
{
    let inner = in_fields(way, part.field, other.field);
    like_bindings(ways, inner, renaming, &part.pattern, &other.pattern)
}

#[cycle(bound)]
fn like_bindings_in(
    ways: &Ways,
    way: Way,
    renaming: &mut Vec<Seen>,
    parts: &[Subpattern],
    others: &[Subpattern],
) -> Result<bool, AllocError>
    ensures { IfOk result (λ it. if_so it (Some (plain-Renaming renaming.new.items))
        ≡ patterns.like_bindings_in (plain-Ways ways.now) (plain-Way way) (plain-Renaming renaming.old.items)
        (subpatterns_of (map plain-Subpattern parts.now)) (subpatterns_of (map plain-Subpattern others.now))) }
{
    let mut right = others;
    for part in parts {
        let [other, behind @ ..] = right else {
            return Ok(false);
        };
        if !like_bindings_at(ways, way, renaming, part, other)? {
            return Ok(false);
        }
        right = behind;
    }
    match right {
        [] => Ok(true),
        [_, ..] => Ok(false),
    }
}

/// Whether what a binding binds is borrowed, and is not that variable.
fn borrows(to: u32, variable: u32, mode: Mode) -> bool
    ensures { (n : ℕ) → result ≡ patterns.all_borrow to (tree.bind n variable (plain-Mode mode)) }
{
    match mode {
        Mode::Value(_) => false,
        Mode::Reference(_) => variable != to,
    }
}

/// Whether all that a pattern binds is borrowed, and is not that variable.
#[cycle(borrowed)]
#[tactic(auto, using(rx_typed::proofs::Rules::typed_pattern_rules))]
pub fn all_borrow(to: u32, pattern: &Pattern) -> bool
    ensures { result ≡ patterns.all_borrow to (plain-Pattern pattern.now) }
{
    match pattern {
        Pattern::Any | Pattern::Exactly(_, _) => true,
        Pattern::Bind(_, variable, mode) => borrows(to, *variable, *mode),
        Pattern::Parts(parts) => all_borrow_in(to, parts.as_slice()),
        Pattern::Variant(_, _, _, _, parts) => all_borrow_in(to, parts.as_slice()),
        Pattern::Behind(_, inner) => all_borrow(to, inner.get()),
    }
}

#[cycle(borrowed)]
#[tactic(auto, using(rx_typed::proofs::Rules::typed_pattern_rules))]
fn all_borrow_at(to: u32, part: &Subpattern) -> bool
    ensures { result ≡ patterns.all_borrow to (plain-Subpattern part.now).1 }
{
    all_borrow(to, &part.pattern)
}

#[cycle(borrowed)]
fn all_borrow_in(to: u32, parts: &[Subpattern]) -> bool
    ensures { result ≡ patterns.all_borrow_in to (subpatterns_of (map plain-Subpattern parts.now)) }
{
    for part in parts {
        if !all_borrow_at(to, part) {
            return false;
        }
    }
    true
}

/// Whether a pattern looks behind the reference in a variable.
#[tactic(auto, using(crate::proofs::PatternLemmas::pattern_rules))]
pub fn looks_behind(to: u32, pattern: &Pattern) -> bool
    ensures { result ≡ patterns.looks_behind to (plain-Pattern pattern.now) }
{
    match behind_of(pattern) {
        Some((_, inner)) => all_borrow(to, inner),
        None => is_any(pattern),
    }
}

/// Whether it is a variable that takes the value.
#[tactic(auto, using(rx_typed::proofs::Rules::typed_pattern_rules))]
pub fn binds_value(pattern: &Pattern) -> bool
    ensures { result ≡ patterns.binds_value (plain-Pattern pattern.now) }
{
    match pattern {
        Pattern::Bind(_, _, mode) => match *mode {
            Mode::Value(_) => true,
            Mode::Reference(_) => false,
        },
        Pattern::Any | Pattern::Exactly(_, _) | Pattern::Parts(_) => false,
        Pattern::Variant(_, _, _, _, _) | Pattern::Behind(_, _) => false,
    }
}

//! The tests of patterns.

ghost use Rattle.std.specs.Prelude.{◌≡◌, ◌++◌, ◌∷◌, [], IfOk, OnOk, map};
ghost use Rattle.rx_core.specs.declared.types.Step.TheVariants as step;
ghost use Rattle.rx_typed.specs.PlainTree.{plain-Pattern, plain-Subpattern, subpatterns_of};
ghost use Rattle.rx_lower_walks.specs.Matching as matching;
ghost use Rattle.rx_lower_walks.specs.PlainFlow.{plain-Check, plain-Item};
ghost use Rattle.rx_lower_order.specs.Items.{test_items};
ghost use Rattle.rx_lower_order.specs.PlainParts.{plain-Subject};

use crate::pushing::{push_act, push_may};
use crate::subject::{Subject, extended, part};
use rx_core::{List, Step, keep};
use rx_lower_walks::{Act, Check, Item};
use rx_typed::{Pattern, Subpattern};
use std::alloc::{AllocError, Global};

/// Adds a test of a part, which may fail.
#[tactic(auto, using(crate::proofs::Listed::part_rules))]
fn push_test(
    alloc: Global,
    items: &mut List<Item>,
    subject: Subject<'_>,
    node: usize,
    at: &[Step],
    check: Check,
) -> Result<(), AllocError>
    ensures { OnOk result (map plain-Item items.new
        ≡ map plain-Item items.old ++ test_items (plain-Subject subject.entry) (record { node = node; steps = at.now; check = plain-Check check } ∷ [])) }
{
    let place = part(alloc, subject, at)?;
    push_act(items, node, Act::Test(place, check))?;
    push_may(items)
}

/// Adds the test of a variant, where its enum has several.
fn push_tag_test(
    alloc: Global,
    items: &mut List<Item>,
    subject: Subject<'_>,
    at: &[Step],
    several: bool,
    node: usize,
    variant: u32,
) -> Result<(), AllocError>
    ensures { OnOk result (map plain-Item items.new
        ≡ map plain-Item items.old ++ test_items (plain-Subject subject.entry) (matching.tag_test several node at.now variant)) }
{
    if several {
        push_test(alloc, items, subject, node, at, Check::HasTag(variant))
    } else {
        Ok(())
    }
}

/// Adds the tests of a pattern, from left to right.
#[cycle(tests)]
#[tactic(auto, using(rx_typed::proofs::Rules::typed_pattern_rules, crate::proofs::Listed::part_rules))]
fn push_tests(
    alloc: Global,
    pattern: &Pattern,
    items: &mut List<Item>,
    subject: Subject<'_>,
    at: &[Step],
) -> Result<(), AllocError>
    ensures { OnOk result (map plain-Item items.new
        ≡ map plain-Item items.old ++ test_items (plain-Subject subject.entry) (matching.tests at.now (plain-Pattern pattern.now))) }
{
    match pattern {
        Pattern::Any => Ok(()),
        Pattern::Bind(_, _, _) => Ok(()),
        Pattern::Exactly(node, constant) => {
            push_test(alloc, items, subject, *node, at, Check::Equals(*constant))
        }
        Pattern::Parts(parts) => push_tests_in(alloc, parts.as_slice(), items, subject, at),
        Pattern::Variant(node, _, several, variant, parts) => {
            push_tag_test(alloc, items, subject, at, *several, *node, *variant)?;
            push_tests_of_variant(alloc, parts, items, subject, at, *variant)
        }
        Pattern::Behind(mutable, pattern) => {
            push_tests_behind(alloc, pattern.get(), items, subject, at, *mutable)
        }
    }
}

#[cycle(tests)]
fn push_tests_of_variant(
    alloc: Global,
    parts: &List<Subpattern>,
    items: &mut List<Item>,
    subject: Subject<'_>,
    at: &[Step],
    variant: u32,
) -> Result<(), AllocError>
    ensures { OnOk result (map plain-Item items.new
        ≡ map plain-Item items.old ++ test_items (plain-Subject subject.entry) (matching.tests_in (at.now ++ step.Variant variant ∷ []) (subpatterns_of (map plain-Subpattern parts.now)))) }
{
    let at = extended(alloc, at, Step::Variant(variant))?;
    push_tests_in(alloc, parts.as_slice(), items, subject, at.as_slice())
}

#[cycle(tests)]
fn push_tests_behind(
    alloc: Global,
    pattern: &Pattern,
    items: &mut List<Item>,
    subject: Subject<'_>,
    at: &[Step],
    mutable: bool,
) -> Result<(), AllocError>
    ensures { OnOk result (map plain-Item items.new
        ≡ map plain-Item items.old ++ test_items (plain-Subject subject.entry) (matching.tests (at.now ++ step.Deref mutable ∷ []) (plain-Pattern pattern.now))) }
{
    let at = extended(alloc, at, Step::Deref(mutable))?;
    push_tests(alloc, pattern, items, subject, at.as_slice())
}

/// Adds the tests of the parts of a pattern.
#[cycle(tests)]
#[tactic(auto, using(rx_typed::proofs::Rules::typed_pattern_rules, crate::proofs::Listed::part_rules))]
fn push_tests_in(
    alloc: Global,
    parts: &[Subpattern],
    items: &mut List<Item>,
    subject: Subject<'_>,
    at: &[Step],
) -> Result<(), AllocError>
    ensures { OnOk result (map plain-Item items.new
        ≡ map plain-Item items.old ++ test_items (plain-Subject subject.entry) (matching.tests_in at.now (subpatterns_of (map plain-Subpattern parts.now)))) }
{
    for part in parts {
        push_tests_of_part(alloc, part, items, subject, at)?;
    }
    Ok(())
}

/// Adds the tests of a part. Where numbers of 32 bits run out it is as if memory did.
#[cycle(tests)]
#[tactic(auto, using(rx_typed::proofs::Rules::typed_pattern_rules))]
fn push_tests_of_part(
    alloc: Global,
    part: &Subpattern,
    items: &mut List<Item>,
    subject: Subject<'_>,
    at: &[Step],
) -> Result<(), AllocError>
    ensures { OnOk result (map plain-Item items.new
        ≡ map plain-Item items.old ++ test_items (plain-Subject subject.entry) (matching.tests (at.now ++ step.Field (plain-Subpattern part.now).0 ∷ []) (plain-Subpattern part.now).1)) }
{
    match u32::try_from(part.field) {
        Ok(field) => {
            let at = extended(alloc, at, Step::Field(field))?;
            push_tests(alloc, &part.pattern, items, subject, at.as_slice())
        }
        Err(_too_many) => Err(AllocError),
    }
}

/// The items, and the tests of a pattern.
pub fn tested(
    alloc: Global,
    items: List<Item>,
    subject: Subject<'_>,
    pattern: &Pattern,
) -> Result<List<Item>, AllocError>
    ensures { IfOk result (λ it. map plain-Item it
        ≡ map plain-Item items ++ test_items (plain-Subject subject.entry) (matching.tests [] (plain-Pattern pattern.now))) }
{
    let mut items = items;
    let outcome = push_tests(alloc, pattern, &mut items, subject, &[]);
    let ((), items) = keep(items, outcome)?;
    Ok(items)
}

//! Whether a pattern's tests hold.

ghost use Rattle.std.specs.Prelude.{◌≡◌, map, option_map};
ghost use Rattle.rx_core.specs.declared.types.Step.TheVariants.{Field, Variant, Deref};
ghost use Rattle.rx_lower_walks.specs.Matching.{has_tag, equals};
ghost use Rattle.rx_meaning.specs.Values.{and_then};
ghost use Rattle.rx_meaning.specs.Acting.{checked};
ghost use Rattle.rx_typed.specs.PlainTree.{plain-Constant, plain-Pattern, plain-Subpattern, subpatterns_of};
ghost use Rattle.rx_machine_values.specs.PlainNumber.{plain-Number};
ghost use Rattle.rx_machine_values.specs.PlainValues.{plain-Value, plain-Part};
ghost use Rattle.rx_machine_values.specs.PlainMemory.{plain-Memory};
ghost use Rattle.rx_machine_values.specs.Reaching.{stepped};
ghost use Rattle.rx_machine_frames.specs.Choosing.{both};
ghost use Rattle.rx_typed.specs.declared.tree.Constant.TheVariants.{Integer as ConstantInteger, Truth as ConstantTruth};
ghost use Rattle.std.specs.Prelude.{List};
ghost use Rattle.rx_meaning.specs.Values as plain;
ghost use Rattle.rx_machine_actions.specs.Matching as spec;

use rx_core::{Kind, Step};
use rx_machine_values::{Memory, Number, Part, Value, field_from, step_from};
use rx_typed::{Constant, Pattern, Subpattern};

/// Whether an integer is this one.
fn is_number(number: Number, kind: Kind, negative: bool, magnitude: u64) -> Option<bool>
    ensures { result ≡ checked (equals (plain-Constant (ConstantInteger kind negative magnitude))) (plain-Number number) }
{
    let wanted = Number {
        kind,
        negative,
        magnitude,
    };
    Some(wanted.value() == number.value())
}

fn equals_integer(part: Part, kind: Kind, negative: bool, magnitude: u64) -> Option<bool>
    ensures { result ≡ checked (equals (plain-Constant (ConstantInteger kind negative magnitude))) (plain-Part part.entry) }
{
    match part {
        Part::Number(number) => is_number(number, kind, negative, magnitude),
        Part::Truth(_) => None,
        Part::Whole(_) => None,
        Part::Tagged(_, _) => None,
        Part::Pointer(_) => None,
        Part::Lacking(_) => None,
    }
}

fn is_truth(part: Part, truth: bool) -> Option<bool>
    ensures { result ≡ checked (equals (plain-Constant (ConstantTruth truth))) (plain-Part part.entry) }
{
    match part {
        Part::Truth(other) => Some(truth == other),
        Part::Number(_) => None,
        Part::Whole(_) => None,
        Part::Tagged(_, _) => None,
        Part::Pointer(_) => None,
        Part::Lacking(_) => None,
    }
}

/// Whether a truth value is this one; none where it is no truth value.
pub fn equals_truth(value: &Value, truth: bool) -> Option<bool>
    ensures { result ≡ checked (equals (plain-Constant (ConstantTruth truth))) (plain-Value value.now) }
{
    is_truth(value.as_part(), truth)
}

fn equals_constant(part: Part, constant: Constant) -> Option<bool>
    ensures { result ≡ checked (equals (plain-Constant constant)) (plain-Part part.entry) }
{
    match constant {
        Constant::Integer(kind, negative, magnitude) => {
            equals_integer(part, kind, negative, magnitude)
        }
        Constant::Truth(truth) => is_truth(part, truth),
    }
}

/// Whether what stands somewhere is this constant.
fn is_constant(at: Option<Part>, constant: Constant) -> Option<bool>
    ensures { result ≡ and_then (option_map plain-Part at.entry) (λ u. checked (equals (plain-Constant constant)) u) }
{
    match at {
        Some(part) => equals_constant(part, constant),
        None => None,
    }
}

fn has_tag_of(part: Part, tag: u32) -> Option<bool>
    ensures { result ≡ checked (has_tag tag) (plain-Part part.entry) }
{
    match part {
        Part::Tagged(other, _) => Some(tag == other),
        Part::Truth(_) => None,
        Part::Number(_) => None,
        Part::Whole(_) => None,
        Part::Pointer(_) => None,
        Part::Lacking(_) => None,
    }
}

/// Whether what stands somewhere is this variant; it is where the enum has no other.
fn is_variant(at: Option<Part>, several: bool, tag: u32) -> Option<bool>
    ensures { result ≡ spec.tag_holds several tag (option_map plain-Part at.entry) }
{
    if several {
        match at {
            Some(part) => has_tag_of(part, tag),
            None => None,
        }
    } else {
        Some(true)
    }
}

fn behind<'m>(memory: &'m Memory, at: Option<Part<'m>>, mutable: bool) -> Option<Part<'m>>
    ensures { option_map plain-Part result ≡ spec.deeper (plain-Memory memory.now) (option_map plain-Part at.entry) (Deref mutable) }
{
    match at {
        Some(part) => memory.behind(part),
        None => None,
    }
}

fn in_variant<'m>(at: Option<Part<'m>>, variant: u32) -> Option<Part<'m>>
    ensures { (M : List plain.Value) → option_map plain-Part result ≡ spec.deeper M (option_map plain-Part at.entry) (Variant variant) }
{
    match at {
        Some(part) => step_from(part, Step::Variant(variant)),
        None => None,
    }
}

fn in_field<'m>(at: Option<Part<'m>>, field: usize) -> Option<Part<'m>>
    ensures { (M : List plain.Value) → option_map plain-Part result ≡ spec.deeper M (option_map plain-Part at.entry) (Field field) }
{
    match at {
        Some(part) => field_from(part, field),
        None => None,
    }
}

/// Whether the tests of a pattern hold, from left to right, by what stands where it is matched. None where a part that is
/// tested does not stand there, or is of another type.
#[cycle(matches)]
#[tactic(auto, using(rx_typed::proofs::Rules::typed_pattern_rules))]
pub fn holds<'m>(memory: &'m Memory, at: Option<Part<'m>>, pattern: &Pattern) -> Option<bool>
    ensures { result ≡ spec.holds (plain-Memory memory.now) (option_map plain-Part at.entry) (plain-Pattern pattern.now) }
{
    match pattern {
        Pattern::Any => Some(true),
        Pattern::Bind(_, _, _) => Some(true),
        Pattern::Exactly(_, constant) => is_constant(at, *constant),
        Pattern::Parts(parts) => parts_hold(memory, at, parts.as_slice()),
        Pattern::Variant(_, _, several, variant, parts) => {
            variant_holds(memory, at, *several, *variant, parts.as_slice())
        }
        Pattern::Behind(mutable, inner) => holds(memory, behind(memory, at, *mutable), inner.get()),
    }
}

#[cycle(matches)]
fn variant_holds<'m>(
    memory: &'m Memory,
    at: Option<Part<'m>>,
    several: bool,
    variant: u32,
    parts: &[Subpattern],
) -> Option<bool>
    ensures { result ≡ both (spec.tag_holds several variant (option_map plain-Part at.entry))
        (spec.all_parts_hold (plain-Memory memory.now) (spec.deeper (plain-Memory memory.now) (option_map plain-Part at.entry) (Variant variant))
        (subpatterns_of (map plain-Subpattern parts.now))) }
{
    match is_variant(at, several, variant) {
        Some(true) => parts_hold(memory, in_variant(at, variant), parts),
        Some(false) => Some(false),
        None => None,
    }
}

#[cycle(matches)]
fn parts_hold<'m>(memory: &'m Memory, at: Option<Part<'m>>, parts: &[Subpattern]) -> Option<bool>
    ensures { result ≡ spec.all_parts_hold (plain-Memory memory.now) (option_map plain-Part at.entry) (subpatterns_of (map plain-Subpattern parts.now)) }
{
    for part in parts {
        match part_holds(memory, at, part) {
            Some(true) => (),
            Some(false) => return Some(false),
            None => return None,
        }
    }
    Some(true)
}

#[cycle(matches)]
#[tactic(auto, using(rx_typed::proofs::Rules::typed_pattern_rules))]
fn part_holds<'m>(memory: &'m Memory, at: Option<Part<'m>>, part: &Subpattern) -> Option<bool>
    ensures { result ≡ spec.holds (plain-Memory memory.now) (spec.deeper (plain-Memory memory.now) (option_map plain-Part at.entry) (Field part.now.field)) (plain-Pattern part.now.pattern) }
{
    holds(memory, in_field(at, part.field), &part.pattern)
}

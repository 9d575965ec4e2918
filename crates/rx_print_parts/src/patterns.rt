//! The canonical text of patterns.

ghost use Rattle.std.specs.Prelude.{◌≡◌, ◌++◌, OnOk, map};
ghost use Rattle.rx_tree.specs.PlainOf.{plain-Pattern, plain-FieldPattern, patterns_of, field_patterns_of};
ghost use Rattle.rx_print_spelling.specs.Pieces.{flat, separated, tuple_of, arguments_of, fields_of};
ghost use Rattle.rx_print_spelling.specs.Patterns.{minus_pieces, parts_of, pattern_pieces, each_pattern, each_field_pattern};
ghost use Rattle.rx_print_parts.specs.Parts.{next_of, bound_name_pieces, integer_pieces, variant_pattern_pieces, make_pattern_pieces, field_pattern_pieces};

use crate::words::{comma, push_mutable, push_number, truth_text, tuple_end};
use rx_core::{Kind, Text};
use rx_tree::{FieldPattern, Ident, Pattern, PatternNode};
use std::alloc::{AllocError, Global};

#[tactic(auto, using(crate::proofs::Rules::text_rules))]
fn push_minus(out: &mut Text, negative: bool) -> Result<(), AllocError>
    ensures { OnOk result (out.new ≡ out.old ++ flat (minus_pieces negative)) }
{
    if negative {
        return out.push("-");
    }
    Ok(())
}

#[tactic(auto, using(crate::proofs::Rules::text_rules))]
fn push_integer(
    alloc: Global,
    out: &mut Text,
    negative: bool,
    value: u64,
    suffix: &Option<Kind>,
) -> Result<(), AllocError>
    ensures { OnOk result (out.new ≡ out.old ++ flat (integer_pieces negative value suffix.now)) }
{
    push_minus(out, negative)?;
    push_number(alloc, out, value, suffix)
}

#[tactic(auto, using(crate::proofs::Rules::text_rules))]
fn push_bound(out: &mut Text, name: &Ident, mutable: bool) -> Result<(), AllocError>
    ensures { OnOk result (out.new ≡ out.old ++ flat (bound_name_pieces name.now mutable)) }
{
    push_mutable(out, mutable)?;
    out.push(name.name.as_str())
}

/// Adds a pattern, behind a comma where it follows another.
#[cycle(patterns)]
#[tactic(auto, using(crate::proofs::Rules::text_rules))]
fn push_next(
    alloc: Global,
    out: &mut Text,
    follows: bool,
    pattern: &Pattern,
) -> Result<(), AllocError>
    ensures { OnOk result (out.new ≡ out.old ++ flat (next_of follows (pattern_pieces (plain-Pattern pattern.now)))) }
{
    out.push(comma(follows))?;
    push_pattern(alloc, out, pattern)
}

/// Adds patterns, with a comma between each two.
#[cycle(patterns)]
fn push_patterns(alloc: Global, out: &mut Text, list: &[Pattern]) -> Result<(), AllocError>
    ensures { OnOk result (out.new ≡ out.old ++ flat (separated (each_pattern (patterns_of (map plain-Pattern list.now))))) }
{
    let mut follows = false;
    for pattern in list {
        push_next(alloc, out, follows, pattern)?;
        follows = true;
    }
    Ok(())
}

/// Adds a tuple.
#[cycle(patterns)]
fn push_tuple(alloc: Global, out: &mut Text, list: &[Pattern]) -> Result<(), AllocError>
    ensures { OnOk result (out.new ≡ out.old ++ flat (tuple_of (each_pattern (patterns_of (map plain-Pattern list.now))))) }
{
    out.push("(")?;
    push_patterns(alloc, out, list)?;
    out.push(tuple_end(list.len() == 1))
}

/// Adds patterns in parentheses.
#[cycle(patterns)]
#[tactic(auto, using(crate::proofs::Rules::text_rules))]
fn push_arguments(alloc: Global, out: &mut Text, list: &[Pattern]) -> Result<(), AllocError>
    ensures { OnOk result (out.new ≡ out.old ++ flat (arguments_of (each_pattern (patterns_of (map plain-Pattern list.now))))) }
{
    out.push("(")?;
    push_patterns(alloc, out, list)?;
    out.push(")")
}

/// Adds the parts of a variant, where it has some.
#[cycle(patterns)]
fn push_parts(alloc: Global, out: &mut Text, list: &[Pattern]) -> Result<(), AllocError>
    ensures { OnOk result (out.new ≡ out.old ++ flat (parts_of (each_pattern (patterns_of (map plain-Pattern list.now))))) }
{
    if list.is_empty() {
        return Ok(());
    }
    push_arguments(alloc, out, list)
}

/// Adds a variant of an enum.
#[cycle(patterns)]
#[tactic(auto, using(crate::proofs::Rules::text_rules))]
fn push_variant(
    alloc: Global,
    out: &mut Text,
    name: &Ident,
    variant: &Ident,
    list: &[Pattern],
) -> Result<(), AllocError>
    ensures { OnOk result (out.new ≡ out.old ++ flat (variant_pattern_pieces name.now variant.now (patterns_of (map plain-Pattern list.now)))) }
{
    out.push(name.name.as_str())?;
    out.push("::")?;
    out.push(variant.name.as_str())?;
    push_parts(alloc, out, list)
}

/// Adds a field, behind a comma where it follows another.
#[cycle(patterns)]
#[tactic(auto, using(rx_tree::proofs::Rules::field_pattern_by_parts, crate::proofs::Rules::text_rules))]
fn push_field(
    alloc: Global,
    out: &mut Text,
    follows: bool,
    field: &FieldPattern,
) -> Result<(), AllocError>
    ensures { OnOk result (out.new ≡ out.old ++ flat (next_of follows (field_pattern_pieces (plain-FieldPattern field.now)))) }
{
    out.push(comma(follows))?;
    out.push(field.field.name.as_str())?;
    out.push(": ")?;
    push_pattern(alloc, out, &field.pattern)
}

/// Adds fields, with a comma between each two.
#[cycle(patterns)]
fn push_fields(alloc: Global, out: &mut Text, list: &[FieldPattern]) -> Result<(), AllocError>
    ensures { OnOk result (out.new ≡ out.old ++ flat (separated (each_field_pattern (field_patterns_of (map plain-FieldPattern list.now))))) }
{
    let mut follows = false;
    for field in list {
        push_field(alloc, out, follows, field)?;
        follows = true;
    }
    Ok(())
}

/// Adds fields in braces.
#[cycle(patterns)]
fn push_braces(alloc: Global, out: &mut Text, list: &[FieldPattern]) -> Result<(), AllocError>
    ensures { OnOk result (out.new ≡ out.old ++ flat (fields_of (each_field_pattern (field_patterns_of (map plain-FieldPattern list.now))))) }
{
    if list.is_empty() {
        return out.push("{}");
    }
    out.push("{ ")?;
    push_fields(alloc, out, list)?;
    out.push(" }")
}

/// Adds a struct.
#[cycle(patterns)]
#[tactic(auto, using(crate::proofs::Rules::text_rules))]
fn push_make(
    alloc: Global,
    out: &mut Text,
    name: &Ident,
    list: &[FieldPattern],
) -> Result<(), AllocError>
    ensures { OnOk result (out.new ≡ out.old ++ flat (make_pattern_pieces name.now (field_patterns_of (map plain-FieldPattern list.now)))) }
{
    out.push(name.name.as_str())?;
    out.push(" ")?;
    push_braces(alloc, out, list)
}

/// Adds a pattern.
#[cycle(patterns)]
#[tactic(auto, using(rx_tree::proofs::Rules::pattern_rules, crate::proofs::Rules::end_rules))]
pub fn push_pattern(alloc: Global, out: &mut Text, pattern: &Pattern) -> Result<(), AllocError>
    ensures { OnOk result (out.new ≡ out.old ++ flat (pattern_pieces (plain-Pattern pattern.now))) }
{
    match &pattern.node {
        PatternNode::Wild => out.push("_"),
        PatternNode::Bind(name, mutable) => push_bound(out, name, *mutable),
        PatternNode::Int(negative, value, suffix) => {
            push_integer(alloc, out, *negative, *value, suffix)
        }
        PatternNode::Bool(value) => out.push(truth_text(*value)),
        PatternNode::Tuple(parts) => push_tuple(alloc, out, parts.as_slice()),
        PatternNode::Variant(name, variant, parts) => {
            push_variant(alloc, out, name, variant, parts.as_slice())
        }
        PatternNode::Make(name, fields) => push_make(alloc, out, name, fields.as_slice()),
    }
}

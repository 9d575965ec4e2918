//! The names of items, fields and variants, by their numbers.

ghost use Rattle.std.specs.Prelude.{◌≡◌, Some, slice_get};
ghost use Rattle.rx_tree.specs.PlainOf.{plain-Program, plain-Item, plain-Field, plain-EnumVariant};
ghost use Rattle.std.specs.Prelude.{map};
ghost use Rattle.rx_cover_values.specs.Shown as spec;

use rx_tree::{EnumVariant, Field, Item, ItemNode, Program};

fn name_of(item: &Item) -> &str
    ensures { result.now ≡ spec.name_of (Some (plain-Item item.now)) }
{
    match &item.node {
        ItemNode::Struct(data) => data.name.name.as_str(),
        ItemNode::Enum(data) => data.name.name.as_str(),
        ItemNode::Rt(_) | ItemNode::Func(_) => "",
    }
}

fn fields_of(item: &Item) -> &[Field]
    ensures { map plain-Field result.now ≡ spec.fields_of (Some (plain-Item item.now)) }
{
    match &item.node {
        ItemNode::Struct(data) => data.fields.as_slice(),
        ItemNode::Rt(_) | ItemNode::Enum(_) | ItemNode::Func(_) => &[],
    }
}

fn variants_of(item: &Item) -> &[EnumVariant]
    ensures { map plain-EnumVariant result.now ≡ spec.variants_of (Some (plain-Item item.now)) }
{
    match &item.node {
        ItemNode::Enum(data) => data.variants.as_slice(),
        ItemNode::Rt(_) | ItemNode::Struct(_) | ItemNode::Func(_) => &[],
    }
}

/// The name of a struct or enum, by its item's number.
#[tactic(auto, using(crate::proofs::NameLemmas::item_at))]
pub(crate) fn item_name(program: &Program, adt: u32) -> &str
    ensures { result.now ≡ spec.name_of (slice_get (plain-Program program.now) adt) }
{
    match program.items.get(adt as usize) {
        Some(item) => name_of(item),
        None => "",
    }
}

fn name_at(fields: &[Field], number: usize) -> &str
    ensures { result.now ≡ spec.field_name (slice_get (map plain-Field fields.now) number) }
{
    match fields.get(number) {
        Some(field) => field.name.name.as_str(),
        None => "",
    }
}

/// The name of a struct's field.
#[tactic(auto, using(crate::proofs::NameLemmas::item_at))]
pub(crate) fn field_name(program: &Program, adt: u32, field: usize) -> &str
    ensures { result.now ≡ spec.field_name (slice_get (spec.fields_of (slice_get (plain-Program program.now) adt)) field) }
{
    match program.items.get(adt as usize) {
        Some(item) => name_at(fields_of(item), field),
        None => "",
    }
}

fn variant_at(variants: &[EnumVariant], number: usize) -> &str
    ensures { result.now ≡ spec.variant_name (slice_get (map plain-EnumVariant variants.now) number) }
{
    match variants.get(number) {
        Some(variant) => variant.name.name.as_str(),
        None => "",
    }
}

/// The name of an enum's variant.
#[tactic(auto, using(crate::proofs::NameLemmas::item_at))]
pub(crate) fn variant_name(program: &Program, adt: u32, variant: u32) -> &str
    ensures { result.now ≡ spec.variant_name (slice_get (spec.variants_of (slice_get (plain-Program program.now) adt)) variant) }
{
    match program.items.get(adt as usize) {
        Some(item) => variant_at(variants_of(item), variant as usize),
        None => "",
    }
}

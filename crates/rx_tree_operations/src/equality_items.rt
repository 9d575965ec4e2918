//! Equality of items and of programs apart from spans.

ghost use Rattle.std.specs.Prelude.{◌≡◌, ◌↔◌, IsTrue, map};
ghost use Rattle.rx_tree.specs.PlainOf.{plain-Field, plain-Struct, plain-EnumVariant, plain-Enum, plain-Param, plain-Func, plain-Item, plain-Program};
ghost use Rattle.rx_tree.specs.Erase.{erase_lifetime, erase_parameter, erase_function, erase_field, erase_structure, erase_variant, erase_enumeration, erase_item, SameProgram};

use crate::equality::{same_name, same_names, same_optional_type, same_type, same_types};
use crate::equality_expressions::same_block;
use rx_tree::{
    BoundLifetime, Derive, Enum, EnumVariant, Field, Func, Item, ItemNode, Param, Program, Struct,
};

/// Whether both programs are equal apart from spans.
pub fn same(a: &Program, b: &Program) -> bool
    ensures { IsTrue result ↔ SameProgram (plain-Program a.now) (plain-Program b.now) }
{
    same_items(a.items.as_slice(), b.items.as_slice())
}

fn same_items(a: &[Item], b: &[Item]) -> bool
    ensures { IsTrue result ↔ (map erase_item (map plain-Item a.now) ≡ map erase_item (map plain-Item b.now)) }
{
    if a.len() != b.len() {
        return false;
    }
    for i in 0..a.len() {
        if !same_item(&a[i], &b[i]) {
            return false;
        }
    }
    true
}

fn same_item(a: &Item, b: &Item) -> bool
    ensures { IsTrue result ↔ (erase_item (plain-Item a.now) ≡ erase_item (plain-Item b.now)) }
{
    match &a.node {
        ItemNode::Rt(_) => matches!(&b.node, ItemNode::Rt(_)),
        ItemNode::Struct(x) => match &b.node {
            ItemNode::Struct(y) => same_struct(x, y),
            _ => false,
        },
        ItemNode::Enum(x) => match &b.node {
            ItemNode::Enum(y) => same_enum(x, y),
            _ => false,
        },
        ItemNode::Func(x) => match &b.node {
            ItemNode::Func(y) => same_function(x, y),
            _ => false,
        },
    }
}

fn same_derives(a: &[Derive], b: &[Derive]) -> bool
    ensures { IsTrue result ↔ (a.now ≡ b.now) }
{
    if a.len() != b.len() {
        return false;
    }
    for i in 0..a.len() {
        if a[i] != b[i] {
            return false;
        }
    }
    true
}

fn same_struct(a: &Struct, b: &Struct) -> bool
    ensures { IsTrue result ↔ (erase_structure (plain-Struct a.now) ≡ erase_structure (plain-Struct b.now)) }
{
    same_name(&a.name, &b.name)
        && same_derives(a.derives.as_slice(), b.derives.as_slice())
        && same_names(a.lifetimes.as_slice(), b.lifetimes.as_slice())
        && same_declared(a.fields.as_slice(), b.fields.as_slice())
}

fn same_field(a: &Field, b: &Field) -> bool
    ensures { IsTrue result ↔ (erase_field (plain-Field a.now) ≡ erase_field (plain-Field b.now)) }
{
    same_name(&a.name, &b.name) && same_type(&a.typ, &b.typ)
}

fn same_declared(a: &[Field], b: &[Field]) -> bool
    ensures { IsTrue result ↔ (map erase_field (map plain-Field a.now) ≡ map erase_field (map plain-Field b.now)) }
{
    if a.len() != b.len() {
        return false;
    }
    for i in 0..a.len() {
        if !same_field(&a[i], &b[i]) {
            return false;
        }
    }
    true
}

fn same_enum(a: &Enum, b: &Enum) -> bool
    ensures { IsTrue result ↔ (erase_enumeration (plain-Enum a.now) ≡ erase_enumeration (plain-Enum b.now)) }
{
    same_name(&a.name, &b.name)
        && same_derives(a.derives.as_slice(), b.derives.as_slice())
        && same_names(a.lifetimes.as_slice(), b.lifetimes.as_slice())
        && same_variants(a.variants.as_slice(), b.variants.as_slice())
}

fn same_variant(a: &EnumVariant, b: &EnumVariant) -> bool
    ensures { IsTrue result ↔ (erase_variant (plain-EnumVariant a.now) ≡ erase_variant (plain-EnumVariant b.now)) }
{
    same_name(&a.name, &b.name) && same_types(a.types.as_slice(), b.types.as_slice())
}

fn same_variants(a: &[EnumVariant], b: &[EnumVariant]) -> bool
    ensures { IsTrue result
        ↔ (map erase_variant (map plain-EnumVariant a.now) ≡ map erase_variant (map plain-EnumVariant b.now)) }
{
    if a.len() != b.len() {
        return false;
    }
    for i in 0..a.len() {
        if !same_variant(&a[i], &b[i]) {
            return false;
        }
    }
    true
}

fn same_lifetime(a: &BoundLifetime, b: &BoundLifetime) -> bool
    ensures { IsTrue result ↔ (erase_lifetime a.now ≡ erase_lifetime b.now) }
{
    same_name(&a.name, &b.name) && same_names(a.bounds.as_slice(), b.bounds.as_slice())
}

fn same_lifetimes(a: &[BoundLifetime], b: &[BoundLifetime]) -> bool
    ensures { IsTrue result ↔ (map erase_lifetime a.now ≡ map erase_lifetime b.now) }
{
    if a.len() != b.len() {
        return false;
    }
    for i in 0..a.len() {
        if !same_lifetime(&a[i], &b[i]) {
            return false;
        }
    }
    true
}

fn same_parameter(a: &Param, b: &Param) -> bool
    ensures { IsTrue result ↔ (erase_parameter (plain-Param a.now) ≡ erase_parameter (plain-Param b.now)) }
{
    a.mutable == b.mutable && same_name(&a.name, &b.name) && same_type(&a.typ, &b.typ)
}

fn same_parameters(a: &[Param], b: &[Param]) -> bool
    ensures { IsTrue result
        ↔ (map erase_parameter (map plain-Param a.now) ≡ map erase_parameter (map plain-Param b.now)) }
{
    if a.len() != b.len() {
        return false;
    }
    for i in 0..a.len() {
        if !same_parameter(&a[i], &b[i]) {
            return false;
        }
    }
    true
}

fn same_function(a: &Func, b: &Func) -> bool
    ensures { IsTrue result ↔ (erase_function (plain-Func a.now) ≡ erase_function (plain-Func b.now)) }
{
    same_name(&a.name, &b.name)
        && same_lifetimes(a.lifetimes.as_slice(), b.lifetimes.as_slice())
        && same_parameters(a.params.as_slice(), b.params.as_slice())
        && same_optional_type(&a.result, &b.result)
        && same_block(&a.body, &b.body)
}

//! The canonical text of structs and enums.

ghost use Rattle.std.specs.Prelude.{◌≡◌, ◌++◌, OnOk, map};
ghost use Rattle.rx_tree.specs.PlainOf.{plain-TypeText, plain-Field, plain-Struct, plain-EnumVariant, plain-Enum, types_of};
ghost use Rattle.rx_print_spelling.specs.Pieces.{flat, separated, arguments_of, entries, entries_of};
ghost use Rattle.rx_print_spelling.specs.Types.{each_type};
ghost use Rattle.rx_print_spelling.specs.Patterns.{parts_of};
ghost use Rattle.rx_print_spelling.specs.Items.{derive_pieces, derives_pieces, in_angles, one_lifetime, field_pieces, structure_pieces, variant_pieces, enumeration_pieces};
ghost use Rattle.rx_print_parts.specs.Parts.{next_of};
ghost use Rattle.rx_print_parts.specs.ItemParts.{entry_pieces, declared_pieces};

use crate::types::{push_types, push_written};
use crate::words::comma;
use rx_core::Text;
use rx_tree::{Derive, Enum, EnumVariant, Field, Ident, Struct, TypeText};
use std::alloc::AllocError;

fn derive_text(derive: Derive) -> &'static str
    ensures { result.now ≡ flat (derive_pieces derive) }
{
    match derive {
        Derive::Clone => "Clone",
        Derive::Copy => "Copy",
    }
}

/// Adds what is derived, behind a comma where it follows another.
#[tactic(auto, using(crate::proofs::Rules::text_rules))]
fn push_derive(out: &mut Text, follows: bool, derive: Derive) -> Result<(), AllocError>
    ensures { OnOk result (out.new ≡ out.old ++ flat (next_of follows (derive_pieces derive))) }
{
    out.push(comma(follows))?;
    out.push(derive_text(derive))
}

fn push_each_derive(out: &mut Text, list: &[Derive]) -> Result<(), AllocError>
    ensures { OnOk result (out.new ≡ out.old ++ flat (separated (map derive_pieces list.now))) }
{
    let mut follows = false;
    for derive in list {
        push_derive(out, follows, *derive)?;
        follows = true;
    }
    Ok(())
}

/// Adds what is derived on a line of its own, where something is.
fn push_derives(out: &mut Text, list: &[Derive]) -> Result<(), AllocError>
    ensures { OnOk result (out.new ≡ out.old ++ flat (derives_pieces list.now)) }
{
    if list.is_empty() {
        return Ok(());
    }
    out.push("#[derive(")?;
    push_each_derive(out, list)?;
    out.push(")]\n")
}

/// Adds a lifetime, behind a comma where it follows another.
#[tactic(auto, using(crate::proofs::Rules::text_rules))]
fn push_lifetime(out: &mut Text, follows: bool, lifetime: &Ident) -> Result<(), AllocError>
    ensures { OnOk result (out.new ≡ out.old ++ flat (next_of follows (one_lifetime lifetime.now))) }
{
    out.push(comma(follows))?;
    out.push(lifetime.name.as_str())
}

fn push_lifetimes(out: &mut Text, list: &[Ident]) -> Result<(), AllocError>
    ensures { OnOk result (out.new ≡ out.old ++ flat (separated (map one_lifetime list.now))) }
{
    let mut follows = false;
    for lifetime in list {
        push_lifetime(out, follows, lifetime)?;
        follows = true;
    }
    Ok(())
}

/// Adds the lifetimes of a type, where it has some.
fn push_angles(out: &mut Text, list: &[Ident]) -> Result<(), AllocError>
    ensures { OnOk result (out.new ≡ out.old ++ flat (in_angles (map one_lifetime list.now))) }
{
    if list.is_empty() {
        return Ok(());
    }
    out.push("<")?;
    push_lifetimes(out, list)?;
    out.push(">")
}

/// Adds a type's keyword, its name and its lifetimes.
#[tactic(auto, using(crate::proofs::Rules::text_rules))]
fn push_declared(
    out: &mut Text,
    keyword: &str,
    name: &Ident,
    lifetimes: &[Ident],
) -> Result<(), AllocError>
    ensures { OnOk result (out.new ≡ out.old ++ flat (declared_pieces keyword.now name.now lifetimes.now)) }
{
    out.push(keyword)?;
    out.push(" ")?;
    out.push(name.name.as_str())?;
    push_angles(out, lifetimes)?;
    out.push(" ")
}

/// Adds a field on a line of its own.
#[tactic(auto, using(crate::proofs::Rules::text_rules))]
fn push_field(out: &mut Text, field: &Field) -> Result<(), AllocError>
    ensures { OnOk result (out.new ≡ out.old ++ flat (entry_pieces (field_pieces (plain-Field field.now)))) }
{
    out.push("\n    ")?;
    out.push(field.name.name.as_str())?;
    push_written(out, &field.typ)?;
    out.push(",")
}

/// Adds fields, each on a line of its own.
fn push_fields(out: &mut Text, list: &[Field]) -> Result<(), AllocError>
    ensures { OnOk result (out.new ≡ out.old ++ flat (entries (map field_pieces (map plain-Field list.now)))) }
{
    for field in list {
        push_field(out, field)?;
    }
    Ok(())
}

/// Adds fields in braces.
fn push_field_braces(out: &mut Text, list: &[Field]) -> Result<(), AllocError>
    ensures { OnOk result (out.new ≡ out.old ++ flat (entries_of (map field_pieces (map plain-Field list.now)))) }
{
    if list.is_empty() {
        return out.push("{}");
    }
    out.push("{")?;
    push_fields(out, list)?;
    out.push("\n}")
}

/// Adds a struct.
#[tactic(auto, using(crate::proofs::Rules::text_rules))]
pub fn push_struct(out: &mut Text, x: &Struct) -> Result<(), AllocError>
    ensures { OnOk result (out.new ≡ out.old ++ flat (structure_pieces (plain-Struct x.now))) }
{
    push_derives(out, x.derives.as_slice())?;
    push_declared(out, "struct", &x.name, x.lifetimes.as_slice())?;
    push_field_braces(out, x.fields.as_slice())
}

/// Adds types in parentheses.
#[tactic(auto, using(crate::proofs::Rules::text_rules))]
fn push_arguments(out: &mut Text, list: &[TypeText]) -> Result<(), AllocError>
    ensures { OnOk result (out.new ≡ out.old ++ flat (arguments_of (each_type (types_of (map plain-TypeText list.now))))) }
{
    out.push("(")?;
    push_types(out, list)?;
    out.push(")")
}

/// Adds the types of a variant, where it has some.
fn push_parts(out: &mut Text, list: &[TypeText]) -> Result<(), AllocError>
    ensures { OnOk result (out.new ≡ out.old ++ flat (parts_of (each_type (types_of (map plain-TypeText list.now))))) }
{
    if list.is_empty() {
        return Ok(());
    }
    push_arguments(out, list)
}

/// Adds a variant on a line of its own.
#[tactic(auto, using(crate::proofs::Rules::text_rules))]
fn push_variant(out: &mut Text, variant: &EnumVariant) -> Result<(), AllocError>
    ensures { OnOk result (out.new ≡ out.old ++ flat (entry_pieces (variant_pieces (plain-EnumVariant variant.now)))) }
{
    out.push("\n    ")?;
    out.push(variant.name.name.as_str())?;
    push_parts(out, variant.types.as_slice())?;
    out.push(",")
}

/// Adds variants, each on a line of its own.
fn push_variants(out: &mut Text, list: &[EnumVariant]) -> Result<(), AllocError>
    ensures { OnOk result (out.new ≡ out.old ++ flat (entries (map variant_pieces (map plain-EnumVariant list.now)))) }
{
    for variant in list {
        push_variant(out, variant)?;
    }
    Ok(())
}

/// Adds variants in braces.
fn push_variant_braces(out: &mut Text, list: &[EnumVariant]) -> Result<(), AllocError>
    ensures { OnOk result (out.new ≡ out.old ++ flat (entries_of (map variant_pieces (map plain-EnumVariant list.now)))) }
{
    if list.is_empty() {
        return out.push("{}");
    }
    out.push("{")?;
    push_variants(out, list)?;
    out.push("\n}")
}

/// Adds an enum.
#[tactic(auto, using(crate::proofs::Rules::text_rules))]
pub fn push_enum(out: &mut Text, x: &Enum) -> Result<(), AllocError>
    ensures { OnOk result (out.new ≡ out.old ++ flat (enumeration_pieces (plain-Enum x.now))) }
{
    push_derives(out, x.derives.as_slice())?;
    push_declared(out, "enum", &x.name, x.lifetimes.as_slice())?;
    push_variant_braces(out, x.variants.as_slice())
}

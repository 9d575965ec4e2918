//! Where places are among the parts.

ghost use Rattle.std.specs.Prelude.{◌≡◌, ◌≤◌, ◌+◌, ℕ, IfOk, map, option_map, slice_get, slice_index_or};
ghost use Rattle.rx_typed.specs.Types as types;
ghost use Rattle.rx_typed.specs.PlainTypes.{plain-Ty, plain-FieldDecl, plain-VariantDecl, declarations};
ghost use Rattle.rx_typed_declarations.specs.Held.{field_types, variant_types};
ghost use Rattle.rx_typed_declarations.specs.Sizes.{told, capped};
ghost use Rattle.rx_lower_walks.specs.PlainFlow.{plain-Place};
ghost use Rattle.rx_facts_tables.specs.Places as spec;
ghost use Rattle.rx_facts_tables.specs.Layouts.{plain-Frame, plain-Spot, plain-Located, IsSized, IsLayout, Fits};

use crate::counting::{parts_of, sum_of};
use crate::frames::{Frame, Layout, Located, Range, Spot};
use rx_core::{List, Step, Ty};
use rx_lower_walks::{Place, Root};
use rx_typed::{Decl, FieldDecl, VariantDecl};
use std::alloc::{AllocError, Global};

/// A field, where the first begins at this number.
fn nth_field<'t>(sizes: &[u64], fields: &'t [Ty], number: u32, first: u64) -> Located<'t>
    requires { first + types.sum_of_parts (told sizes.now) (types.shapes_of (map plain-Ty fields.now)) ≤ 18446744073709551615 }
    ensures { plain-Located result ≡ spec.nth_field (told sizes.now) (map plain-Ty fields.now) number first }
{
    let mut first = first;
    let mut left = number;
    for field in fields {
        if left == 0 {
            return Located {
                first,
                spot: Spot::Whole(field),
            };
        }
        first += parts_of(sizes, field);
        left -= 1;
    }
    Located {
        first,
        spot: Spot::Nowhere,
    }
}

/// A field of a struct, where the first begins at this number.
fn nth_declared<'t>(sizes: &[u64], fields: &'t [FieldDecl], number: u32, first: u64) -> Located<'t>
    requires { first + types.sum_of_parts (told sizes.now) (types.shapes_of (field_types (map plain-FieldDecl fields.now))) ≤ 18446744073709551615 }
    ensures { plain-Located result ≡ spec.nth_field (told sizes.now) (field_types (map plain-FieldDecl fields.now)) number first }
{
    let mut first = first;
    let mut left = number;
    for field in fields {
        if left == 0 {
            return Located {
                first,
                spot: Spot::Whole(&field.ty),
            };
        }
        first += parts_of(sizes, &field.ty);
        left -= 1;
    }
    Located {
        first,
        spot: Spot::Nowhere,
    }
}

/// The fields of a variant, where those of the first begin at this number.
fn nth_variant<'t>(
    sizes: &[u64],
    variants: &'t [VariantDecl],
    number: u32,
    first: u64,
) -> Located<'t>
    requires { first + types.sum_of_parts (told sizes.now) (types.shapes_of (variant_types (map plain-VariantDecl variants.now))) ≤ 18446744073709551615 }
    ensures { plain-Located result ≡ spec.nth_variant (told sizes.now) (map plain-VariantDecl variants.now) number first }
{
    let mut first = first;
    let mut left = number;
    for variant in variants {
        if left == 0 {
            return Located {
                first,
                spot: Spot::Fields(variant.parts.as_slice()),
            };
        }
        first += sum_of(sizes, variant.parts.as_slice());
        left -= 1;
    }
    Located {
        first,
        spot: Spot::Nowhere,
    }
}

/// Nothing, behind so many parts.
fn nowhere<'t>(first: u64) -> Located<'t>
    ensures { plain-Located result ≡ spec.at first spec.nowhere }
{
    Located {
        first,
        spot: Spot::Nowhere,
    }
}

/// A field of a struct.
fn struct_field<'t>(frame: &Frame<'t>, item: u32, number: u32, first: u64) -> Located<'t>
    requires sized { IsSized frame.now }
    requires fits { Fits (told frame.now.sizes.now) (spec.at first (spec.whole (types.named item))) }
    ensures { plain-Located result ≡ spec.field_of (declarations frame.now.decls.now.items) (told frame.now.sizes.now) number first (spec.whole (types.named item)) }
{
    match frame.decls.items.get(item as usize) {
        Some(Decl::Struct { fields, .. }) => nth_declared(
            frame.sizes,
            fields.as_slice(),
            number,
            first,
        ),
        _ => nowhere(first),
    }
}

/// The fields of a variant of an enum.
fn enum_variant<'t>(frame: &Frame<'t>, item: u32, number: u32, first: u64) -> Located<'t>
    requires sized { IsSized frame.now }
    requires fits { Fits (told frame.now.sizes.now) (spec.at first (spec.whole (types.named item))) }
    ensures { plain-Located result ≡ spec.variant_of (declarations frame.now.decls.now.items) (told frame.now.sizes.now) number first (spec.whole (types.named item)) }
{
    match frame.decls.items.get(item as usize) {
        Some(Decl::Enum { variants, .. }) => {
            nth_variant(frame.sizes, variants.as_slice(), number, first + 1)
        }
        _ => nowhere(first + 1),
    }
}

/// A field of what has a type.
#[tactic(auto, using(rx_typed::proofs::TypedRules::typ_rules, crate::proofs::Within::listed_again, crate::proofs::Within::at_least))]
fn type_field<'t>(frame: &Frame<'t>, ty: &'t Ty, number: u32, first: u64) -> Located<'t>
    requires sized { IsSized frame.now }
    requires fits { Fits (told frame.now.sizes.now) (spec.at first (spec.whole (plain-Ty ty.now))) }
    ensures { plain-Located result ≡ spec.field_of (declarations frame.now.decls.now.items) (told frame.now.sizes.now) number first (spec.whole (plain-Ty ty.now)) }
{
    match ty {
        Ty::Tuple(parts) => nth_field(frame.sizes, parts.as_slice(), number, first),
        Ty::Adt(item, _) => struct_field(frame, *item, number, first),
        Ty::Int(_) | Ty::Bool | Ty::Shared(_, _) | Ty::Mut(_, _) => nowhere(first),
    }
}

/// The fields of a variant of what has a type.
#[tactic(auto, using(rx_typed::proofs::TypedRules::typ_rules))]
fn type_variant<'t>(frame: &Frame<'t>, ty: &'t Ty, number: u32, first: u64) -> Located<'t>
    requires sized { IsSized frame.now }
    requires fits { Fits (told frame.now.sizes.now) (spec.at first (spec.whole (plain-Ty ty.now))) }
    ensures { plain-Located result ≡ spec.variant_of (declarations frame.now.decls.now.items) (told frame.now.sizes.now) number first (spec.whole (plain-Ty ty.now)) }
{
    match ty {
        Ty::Adt(item, _) => enum_variant(frame, *item, number, first),
        Ty::Int(_) | Ty::Bool | Ty::Tuple(_) | Ty::Shared(_, _) | Ty::Mut(_, _) => nowhere(first),
    }
}

/// A field of what is there.
fn field_of<'t>(frame: &Frame<'t>, number: u32, at: Located<'t>) -> Located<'t>
    requires sized { IsSized frame.now }
    requires fits { Fits (told frame.now.sizes.now) (plain-Located at) }
    ensures { plain-Located result ≡ spec.field_of (declarations frame.now.decls.now.items) (told frame.now.sizes.now) number at.entry.first (plain-Spot at.entry.spot) }
{
    match at.spot {
        Spot::Whole(ty) => type_field(frame, ty, number, at.first),
        Spot::Fields(fields) => nth_field(frame.sizes, fields, number, at.first),
        Spot::Nowhere => nowhere(at.first),
    }
}

/// The fields of a variant of what is there.
fn variant_of<'t>(frame: &Frame<'t>, number: u32, at: Located<'t>) -> Located<'t>
    requires sized { IsSized frame.now }
    requires fits { Fits (told frame.now.sizes.now) (plain-Located at) }
    ensures { plain-Located result ≡ spec.variant_of (declarations frame.now.decls.now.items) (told frame.now.sizes.now) number at.entry.first (plain-Spot at.entry.spot) }
{
    match at.spot {
        Spot::Whole(ty) => type_variant(frame, ty, number, at.first),
        _ => nowhere(at.first),
    }
}

/// Where steps lead.
fn located<'t>(frame: &Frame<'t>, steps: &[Step], at: Located<'t>) -> Located<'t>
    requires sized { IsSized frame.now }
    requires fits { Fits (told frame.now.sizes.now) (plain-Located at) }
    ensures { plain-Located result ≡ spec.located (declarations frame.now.decls.now.items) (told frame.now.sizes.now) steps.now at.entry.first (plain-Spot at.entry.spot) }
{
    let mut at = at;
    for step in steps {
        match *step {
            Step::Field(number) => at = field_of(frame, number, at),
            Step::Variant(number) => at = variant_of(frame, number, at),
            Step::Deref(_) => return at,
        }
    }
    at
}

/// How many parts are there.
fn count_of(sizes: &[u64], spot: Spot<'_>) -> u64
    requires { spec.spot_parts (told sizes.now) (plain-Spot spot) ≤ 18446744073709551615 }
    ensures { result ≡ spec.spot_parts (told sizes.now) (plain-Spot spot.entry) }
{
    match spot {
        Spot::Whole(ty) => parts_of(sizes, ty),
        Spot::Fields(fields) => sum_of(sizes, fields),
        Spot::Nowhere => 0,
    }
}

/// What a variable is, by its type.
fn typed_spot<'t>(ty: &'t Option<Ty>) -> Spot<'t>
    ensures { plain-Spot result ≡ spec.typed_spot (option_map plain-Ty ty.now) }
{
    match ty {
        Some(ty) => Spot::Whole(ty),
        None => Spot::Nowhere,
    }
}

/// Where a variable begins.
fn start_of(layout: &Layout, variable: u32) -> u64
    ensures { result ≡ slice_index_or layout.now.starts variable 0 }
{
    match layout.starts.get(variable as usize) {
        Some(start) => *start,
        None => 0,
    }
}

/// A variable, where it begins.
fn variable_at<'t>(frame: &Frame<'t>, layout: &Layout, variable: u32) -> Located<'t>
    requires { IsLayout (plain-Frame frame.now) layout.now }
    ensures { plain-Located result ≡ spec.nth_variable (told frame.now.sizes.now) (map (option_map plain-Ty) frame.now.types.now) variable 0 }
{
    match frame.types.get(variable as usize) {
        Some(ty) => Located {
            first: start_of(layout, variable),
            spot: typed_spot(ty),
        },
        None => nowhere(layout.total),
    }
}

/// Where the parts of a place of a variable are; a temporary has none.
pub fn range(frame: &Frame<'_>, layout: &Layout, place: &Place) -> Range
    requires sized { IsSized frame.now }
    requires layout { IsLayout (plain-Frame frame.now) layout.now }
    ensures first { result.first ≡ (spec.place_at (plain-Frame frame.now) (plain-Place place.now)).first }
    ensures count { result.count ≡ spec.spot_parts (told frame.now.sizes.now) (spec.place_at (plain-Frame frame.now) (plain-Place place.now)).spot }
    ensures within { result.first + result.count ≤ layout.now.total }
{
    match place.root {
        Root::Variable(variable) => {
            let at = located(
                frame,
                place.steps.as_slice(),
                variable_at(frame, layout, variable),
            );
            Range {
                first: at.first,
                count: count_of(frame.sizes, at.spot),
            }
        }
        Root::Temporary(_) => Range { first: 0, count: 0 },
    }
}

/// How many parts a variable has.
fn variable_parts(sizes: &[u64], ty: &Option<Ty>) -> u64
    ensures { result ≡ capped (spec.spot_parts (told sizes.now) (spec.typed_spot (option_map plain-Ty ty.now))) }
{
    match ty {
        Some(ty) => parts_of(sizes, ty),
        None => 0,
    }
}

/// Where the parts of variables are. Those of all variables have numbers of 32 bits, else memory runs out.
///
/// # Errors
///
/// Memory runs out.
pub fn layout(alloc: Global, frame: &Frame<'_>) -> Result<Layout, AllocError>
    ensures { IfOk result (λ l. IsLayout (plain-Frame frame.now) l) }
{
    let mut starts = List::new(alloc);
    let mut total = 0u64;
    for ty in frame.types {
        starts.push(total)?;
        let more = variable_parts(frame.sizes, ty);
        if more > 4294967295 - total {
            return Err(AllocError);
        }
        total += more;
    }
    Ok(Layout { starts, total })
}

//! The parts of what operands are made into.

ghost use Rattle.std.specs.Prelude.{◌≡◌, [], true, false, IfOk, slice_get};
ghost use Rattle.std.specs.Option.{option_copied};
ghost use Rattle.rx_lower_walks.specs.PlainFlow.{plain-Made};
ghost use Rattle.rx_typed.specs.PlainTree.{plain-Making};
ghost use Rattle.rx_typed.specs.Places as places;
ghost use Rattle.rx_lower_lifetimes.specs.Values.{type_found};
ghost use Rattle.rx_region.specs.Constraints as spec;
ghost use Rattle.rx_region.specs.Steps as steps_of;
ghost use Rattle.rx_region.specs.declared.made.Parts.TheVariants as FormOf;

use rx_core::{List, Ty};
use rx_lower_walks::Made;
use rx_typed::{Arguments, Decl, Decls, FieldDecl, Making};
use std::alloc::{AllocError, Global};

/// The types of parts, as they are declared.
#[derive(Clone, Copy)]
pub enum Parts<'t> {
    Types(&'t [Ty]),
    Fields(&'t [FieldDecl]),
}

fn part_of(types: &[Ty], number: usize) -> Option<&Ty>
    ensures { type_found (option_copied result) ≡ places.part_at (steps_of.regions_in (FormOf.Types types.entry)) number }
{
    match types.get(number) {
        Some(ty) => Some(ty),
        None => None,
    }
}

fn field_of(fields: &[FieldDecl], number: usize) -> Option<&Ty>
    ensures { type_found (option_copied result) ≡ places.part_at (steps_of.regions_in (FormOf.Fields fields.entry)) number }
{
    match fields.get(number) {
        Some(field) => Some(&field.ty),
        None => None,
    }
}

/// The part of this number; where there is none, the unit.
pub fn part(parts: Parts<'_>, number: usize) -> Option<&Ty>
    ensures { type_found (option_copied result) ≡ places.part_at (steps_of.regions_in parts.entry) number }
{
    match parts {
        Parts::Types(types) => part_of(types, number),
        Parts::Fields(fields) => field_of(fields, number),
    }
}

#[tactic(auto, using(rx_typed::proofs::TypedRules::region_rules))]
fn tuple_parts(ty: Option<&Ty>) -> Parts<'_>
    ensures { steps_of.regions_in result ≡ spec.tuple_parts (type_found (option_copied ty.entry)) }
{
    match ty {
        Some(ty) => match ty {
            Ty::Tuple(parts) => Parts::Types(parts.as_slice()),
            Ty::Int(_) | Ty::Bool | Ty::Shared(_, _) | Ty::Mut(_, _) | Ty::Adt(_, _) => {
                Parts::Types(&[])
            }
        },
        None => Parts::Types(&[]),
    }
}

fn fields_of(decls: &Decls, item: u32) -> Parts<'_>
    ensures { steps_of.regions_in result ≡ places.fields_of (slice_get decls.now.items item) }
{
    match decls.items.get(item as usize) {
        Some(Decl::Struct { fields, .. }) => Parts::Fields(fields.as_slice()),
        _ => Parts::Types(&[]),
    }
}

fn parts_of_variant(decls: &Decls, item: u32, number: u32) -> Parts<'_>
    ensures { steps_of.regions_in result ≡ places.variant_of (slice_get decls.now.items item) number }
{
    match decls.items.get(item as usize) {
        Some(Decl::Enum { variants, .. }) => match variants.get(number as usize) {
            Some(variant) => Parts::Types(variant.parts.as_slice()),
            None => Parts::Types(&[]),
        },
        _ => Parts::Types(&[]),
    }
}

fn parts_of_making<'a>(decls: &'a Decls, making: Making, ty: Option<&'a Ty>) -> Parts<'a>
    ensures { steps_of.regions_in result ≡ steps_of.declared_parts decls.now.items (plain-Making making) (type_found (option_copied ty.entry)) }
{
    match making {
        Making::Tuple => tuple_parts(ty),
        Making::Struct(item) => fields_of(decls, item),
        Making::Variant(item, variant) => parts_of_variant(decls, item, variant),
        Making::Constant(_) | Making::Negation | Making::Inversion | Making::Operation(_) => {
            Parts::Types(&[])
        }
    }
}

/// The parts of what is made, as they are declared; those of a tuple by its type.
pub fn parts_of<'a>(decls: &'a Decls, made: Made, ty: Option<&'a Ty>) -> Parts<'a>
    ensures { steps_of.regions_in result ≡ steps_of.declared_parts decls.now.items (plain-Made made) (type_found (option_copied ty.entry)) }
{
    match made {
        Made::Of(making) => parts_of_making(decls, making, ty),
        Made::Lazy => Parts::Types(&[]),
    }
}

/// The lifetimes of a struct or enum.
#[tactic(auto, using(rx_typed::proofs::TypedRules::region_rules))]
fn lifetimes_of(ty: Option<&Ty>) -> &[u32]
    ensures { result.now ≡ spec.lifetimes_of (type_found (option_copied ty.entry)) }
{
    match ty {
        Some(ty) => match ty {
            Ty::Adt(_, lifetimes) => lifetimes.as_slice(),
            Ty::Int(_) | Ty::Bool | Ty::Tuple(_) | Ty::Shared(_, _) | Ty::Mut(_, _) => &[],
        },
        None => &[],
    }
}

fn own_arguments(alloc: Global) -> Arguments
    ensures { result ≡ record { own = true; list = [] } }
{
    Arguments {
        own: true,
        list: List::new(alloc),
    }
}

fn arguments_of(alloc: Global, ty: Option<&Ty>) -> Result<Arguments, AllocError>
    ensures { IfOk result (λ it. it ≡ record { own = false; list = spec.lifetimes_of (type_found (option_copied ty.entry)) }) }
{
    let list = List::from_slice(alloc, lifetimes_of(ty))?;
    Ok(Arguments { own: false, list })
}

/// What stands in place of the lifetimes of what is made, by the type that it gets.
pub fn arguments(alloc: Global, made: Made, ty: Option<&Ty>) -> Result<Arguments, AllocError>
    ensures { IfOk result (λ it. it ≡ steps_of.arguments_for (plain-Made made) (type_found (option_copied ty.entry))) }
{
    match made {
        Made::Of(Making::Struct(_)) => arguments_of(alloc, ty),
        Made::Of(Making::Variant(_, _)) => arguments_of(alloc, ty),
        _ => Ok(own_arguments(alloc)),
    }
}
